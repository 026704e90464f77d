//! A property of characters in two levels: which block a stretch of code points has, and the values
//! of the blocks.
ghost use Rattle.std.specs.Prelude.{◌≡◌};
ghost use Rattle.shapers_unicode.specs.Table.{IsTable, table_value};
ghost use Rattle.ucd_table.specs.Groups.{HasGroup, group_at};
ghost use Rattle.ucd_table.specs.Steps.{step_value};

/// The value of a code point: by its block as far as the index goes, and by the tail after that, whose
/// entries are the end of a range and the value below it.
// (in a caller's walk, as a call for each character takes longer than the look-up)
#[inline(always)]
pub(crate) fn value_of<const SIZE: usize>(
    index: &[u8],
    blocks: &[[u8; SIZE]],
    tail: &[(u32, u8)],
    c: u32,
) -> u8
    requires { IsTable SIZE index.now blocks.now }
    ensures { result ≡ table_value SIZE index.now blocks.now tail.now c }
{
    let at = c as usize / SIZE;
    if at < index.len() {
        blocks[index[at] as usize][c as usize % SIZE]
    } else {
        in_tail(tail, c)
    }
}

/// The number of a code point's string: as `value_of`, over numbers of two bytes.
#[inline]
pub(crate) fn number_of<const SIZE: usize>(
    index: &[u8],
    blocks: &[[u16; SIZE]],
    tail: &[(u32, u16)],
    c: u32,
) -> u16
    requires { IsTable SIZE index.now blocks.now }
    ensures { result ≡ table_value SIZE index.now blocks.now tail.now c }
{
    let at = c as usize / SIZE;
    if at < index.len() {
        blocks[index[at] as usize][c as usize % SIZE]
    } else {
        number_in_tail(tail, c)
    }
}

/// The string with a number: they lie end to end, each from its offset to the next.
#[inline]
pub(crate) fn string_of(offsets: &[u16], chars: &'static [char], number: u16) -> &'static [char]
    requires { HasGroup offsets.now chars.now number }
    ensures { result.now ≡ group_at offsets.now chars.now number }
{
    let number = number as usize;
    &chars[offsets[number] as usize..offsets[number + 1] as usize]
}

fn in_tail(tail: &[(u32, u8)], c: u32) -> u8
    ensures { result ≡ step_value 0 tail.now c }
{
    for (end, value) in tail {
        if c < *end {
            return *value;
        }
    }
    0
}

fn number_in_tail(tail: &[(u32, u16)], c: u32) -> u16
    ensures { result ≡ step_value 0 tail.now c }
{
    for (end, value) in tail {
        if c < *end {
            return *value;
        }
    }
    0
}

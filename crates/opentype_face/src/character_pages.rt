//! How tables of the glyphs of characters are filled: by asking a search once for each character of a page.
ghost use Rattle.std.specs.Prelude.{◌≡◌, ◌<◌, ◌≤◌, ◌*◌, ◌^◌, length, IfOk, []};
ghost use Rattle.opentype_face.specs.Characters.{nominal_in};
ghost use Rattle.opentype_face.specs.CharacterTables.{AreAppended, TellsCharacters};
ghost use Rattle.opentype_face.specs.Cmap.{glyph_unless_zero};

use crate::bytes::{capped, u16_at, u32_at};
use crate::characters::Characters;
use std::alloc::AllocError;

/// The number of a page that there isn't: as many glyphs as stand before it there can't be.
const NO_PAGE: u16 = 65535;

// The glyph of a character as a table has it, where 0 is none.
#[inline]
fn number_of(characters: &Characters<'_>, c: u32) -> u16
    ensures { let it = characters.now in
        glyph_unless_zero result ≡ nominal_in it.encoding it.subtable.now c }
{
    characters.get_nominal_glyph(c).unwrap_or(0)
}

// Appends the glyphs of the 256 characters from one on.
fn append_page(
    characters: &Characters<'_>,
    first: u32,
    glyphs: &mut Vec<u16>,
) -> Result<(), AllocError>
    requires { first < 2 ^ 24 }
    ensures { let it = characters.now in IfOk result (λ _.
        AreAppended it.encoding it.subtable.now glyphs.old.items first 256 glyphs.new.items) }
{
    for k in 0..256 {
        glyphs.push(number_of(characters, first + k))?;
    }
    Ok(())
}

/// Makes tables of the pages that are marked, of so many at most.
pub(crate) fn fill(
    characters: &Characters<'_>,
    marks: &[bool],
    most_pages: u16,
    pages: &mut Vec<u16>,
    glyphs: &mut Vec<u16>,
) -> Result<(), AllocError>
    requires few { length marks.now ≤ 4352 }
    requires no_pages { pages.old.items ≡ [] }
    requires no_glyphs { glyphs.old.items ≡ [] }
    ensures { let it = characters.now in IfOk result (λ _.
        TellsCharacters it.encoding it.subtable.now pages.new.items glyphs.new.items) }
{
    let mut made = 0;
    for page in 0..marks.len() {
        if marks[page] && made < most_pages && made < NO_PAGE {
            append_page(characters, page as u32 * 256, glyphs)?;
            pages.push(made)?;
            made += 1;
        } else {
            pages.push(NO_PAGE)?;
        }
    }
    Ok(())
}

// Marks the pages of the characters from one to another. Where both ends are marked, those between them mostly are.
fn mark(marks: &mut [bool], first: u32, last: u32)
    ensures { length marks.new ≡ length marks.old }
{
    let (from, to) = (first as usize / 256, last as usize / 256);
    if from >= marks.len() || (marks[from] && (to >= marks.len() || marks[to])) {
        return;
    }
    for page in from..marks.len() {
        if page > to {
            return;
        }
        marks[page] = true;
    }
}

fn mark_segments(bytes: &[u8], marks: &mut [bool])
    ensures { length marks.new ≡ length marks.old }
{
    let count = usize::from(u16_at(bytes, 6)) / 2;
    for i in 0..count {
        let first = u16_at(bytes, 16 + count * 2 + i * 2);
        let last = u16_at(bytes, 14 + i * 2);
        mark(marks, u32::from(first), u32::from(last));
    }
}

fn mark_groups(bytes: &[u8], marks: &mut [bool])
    ensures { length marks.new ≡ length marks.old }
{
    for i in 0..capped(u32_at(bytes, 12), bytes.len() / 12) {
        let at = 16 + i as usize * 12;
        mark(marks, u32_at(bytes, at), u32_at(bytes, at + 4));
    }
}

/// Marks the pages that have characters of a subtable, and that of ASCII. Which are marked decides nothing but how
/// many steps a character takes.
pub(crate) fn mark_pages(bytes: &[u8], marks: &mut [bool])
    ensures { length marks.new ≡ length marks.old }
{
    mark(marks, 0, 0);
    match u16_at(bytes, 0) {
        4 => mark_segments(bytes, marks),
        6 => {
            let first = u32::from(u16_at(bytes, 6));
            mark(marks, first, first + u32::from(u16_at(bytes, 8)));
        }
        10 => {
            let first = u32_at(bytes, 12);
            mark(marks, first, first.saturating_add(u32_at(bytes, 16)));
        }
        12 | 13 => mark_groups(bytes, marks),
        _ => {}
    }
}

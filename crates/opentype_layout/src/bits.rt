//! Bits in words of 64 bits.
ghost use Rattle.std.specs.Prelude.{◌≡◌, ◌<◌, ◌≤◌, ◌*◌, ◌/◌, ◌^◌, false, length, min};
ghost use Rattle.opentype_layout.specs.Bits.{Grown, IsClear, bit_in};

/// Sets the bit at a place.
#[inline]
pub(crate) fn set_bit(words: &mut [u64], k: usize)
    requires { k < 64 * length words.old }
    ensures grown { Grown words.old words.new }
    ensures set { bit_in words.new k ≡ 1 }
{
    words[k / 64] |= 1u64 << (k % 64);
}

/// Whether the bit at a place is set; there are none behind the words.
#[inline]
pub(crate) fn is_set(words: &[u64], k: usize) -> bool
    ensures { result ≡ false → bit_in words.now k ≡ 0 }
{
    let at = k / 64;
    at < words.len() && words[at] >> (k % 64) & 1 == 1
}

// The first bit that is set, among the words from one on.
fn first_bit_among(words: &[u64], from: usize, end: usize) -> usize
    requires room { end ≤ 64 * length words.now }
    requires few { end < 2 ^ 56 }
    ensures behind { min end (from * 64) ≤ result }
    ensures within { result ≤ end }
    ensures clear { IsClear words.now (from * 64) result }
{
    for i in from..end.div_ceil(64) {
        let word = words[i];
        if word != 0 {
            return end.min(i * 64 + word.trailing_zeros() as usize);
        }
    }
    end
}

/// The place of the first bit that is set, from a place on and before an end; the end, if there is
/// none.
#[inline]
pub(crate) fn first_bit(words: &[u64], from: usize, end: usize) -> usize
    requires room { end ≤ 64 * length words.now }
    requires few { end < 2 ^ 56 }
    requires in_order { from ≤ end }
    ensures behind { from ≤ result }
    ensures within { result ≤ end }
    ensures clear { IsClear words.now from result }
{
    if from == end {
        return end;
    }
    let rest = words[from / 64] >> (from % 64);
    if rest != 0 {
        return end.min(from + rest.trailing_zeros() as usize);
    }
    first_bit_among(words, from / 64 + 1, end)
}

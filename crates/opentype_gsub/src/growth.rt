//! How much longer a lookup makes a text.
ghost use Rattle.std.specs.Prelude.{◌≡◌};
ghost use Rattle.opentype_face.specs.Firsts.{first_from};
ghost use Rattle.opentype_face.specs.Lookups.{subtables_in};
ghost use Rattle.opentype_gsub.specs.Growth.{adding, growth_in, may_add};

use opentype_face::lookup::{lookup, subtable_count, subtable_type};

/// How many times as long a lookup makes a text at most.
pub const GROWTH: usize = 65536;

// Whether a subtable of a type may add glyphs: one of sequences, or of rules, which apply lookups.
#[inline]
fn adds(kind: u16) -> bool
    ensures { result ≡ may_add kind }
{
    kind == 2 || kind == 5 || kind == 6
}

// The number of a subtable that may add glyphs.
#[tactic(auto, unfolding(crate::specs::Growth::adding))]
fn adder(lookup: &[u8], i: u16) -> Option<u16>
    ensures { result ≡ adding lookup.now i }
{
    if adds(subtable_type(7, lookup, i)) {
        Some(i)
    } else {
        None
    }
}

// The number of a lookup's first subtable that may add glyphs.
fn first_adder(lookup: &[u8]) -> Option<u16>
    ensures { result ≡ first_from (subtables_in lookup.now) (adding lookup.now) 0 }
{
    for i in 0..subtable_count(lookup) {
        let found = adder(lookup, i);
        if found.is_some() {
            return found;
        }
    }
    None
}

/// How many times as long a lookup makes a text at most: 1 where none of its subtables may add glyphs,
/// else [`GROWTH`].
pub fn growth(gsub: &[u8], index: u16) -> usize
    ensures { result ≡ growth_in gsub.now index }
{
    if first_adder(lookup(gsub, index)).is_some() {
        GROWTH
    } else {
        1
    }
}

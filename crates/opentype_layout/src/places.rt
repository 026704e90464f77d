//! Where the places of a rule find their glyphs.
ghost use Rattle.std.specs.Prelude.{◌≡◌, ◌<◌, ◌≤◌, ℕ, [], true, length, None, Some, slice_index, if◌then◌else◌};
ghost use Rattle.opentype_layout.specs.Pattern.{fits, next_in, places_from};

use crate::glyph_text::GlyphView;
use crate::pattern::Pattern;
use crate::sight::Sight;
use arrayvec::ArrayVec;

/// How many places a rule has at most behind its first one.
pub const MOST: usize = 63;

/// The places behind one where a rule's glyphs are.
pub type Places = ArrayVec<usize, 64>;

/// Puts into an empty list where so many places of a rule, from place 0, find their glyphs behind a
/// place of a text. Returns whether all of them find one; where they don't, what the list has is of no
/// use.
// (into a list that is lent, since such a list is large)
pub fn find_places(
    gdef: &[u8],
    sight: &Sight,
    pattern: &Pattern<'_>,
    count: u16,
    glyphs: &GlyphView<'_>,
    from: usize,
    places: &mut Places,
) -> bool
    requires few { count ≤ 63 }
    requires none { places.old.items ≡ [] }
    ensures within { (j : ℕ) → j < length places.new.items →
        slice_index places.new.items j < length glyphs.now }
    ensures number { result ≡ true → length places.new.items ≡ count }
    ensures value { (if result then Some places.new.items else None)
        ≡ places_from count (next_in gdef.now sight.now (fits pattern.now) glyphs.now) 0 from }
{
    let mut from = from;
    for k in 0..count {
        let found = pattern.next(gdef, sight, k, glyphs, from);
        let Some(place) = found else {
            return false;
        };
        places.push(place);
        from = glyphs.after(place);
    }
    true
}

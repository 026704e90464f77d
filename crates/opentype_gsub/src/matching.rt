//! Where the places of a rule find their glyphs, and which ligature fits.
ghost use Rattle.std.specs.Prelude.{◌≡◌, ◌<◌, ◌-◌, ◌+◌, ℕ, Bool, List, true, None, length, IfSome, slice_index};
ghost use Rattle.std.specs.Option.{option_map};
ghost use Rattle.opentype_face.specs.Bytes.{table_at};
ghost use Rattle.opentype_face.specs.Firsts.{first_from};
ghost use Rattle.opentype_face.specs.Lookups.{rule_count_in};
ghost use Rattle.opentype_gsub.specs.Ligatures.{nth_ligature, ligature_of};
ghost use Rattle.opentype_layout.specs.Keys.{bars};
ghost use Rattle.opentype_layout.specs.Pattern.{fits, next_in};
ghost use Rattle.opentype_layout.specs.declared.sight.Sight.{Sight};
ghost use Rattle.shapers_buffer.specs.Glyphs.{Glyphs};

use opentype_face::bytes::{table_at, u16_at};
use opentype_face::lookup::rule_count;
use opentype_layout::glyph_text::GlyphView;
use opentype_layout::input::find_input;
use opentype_layout::keys::{Key, key_behind};
use opentype_layout::pattern::Pattern;
use opentype_layout::places::Places;
use opentype_layout::sight::Sight;

/// A ligature that fits, and where its glyphs behind the first one are.
#[derive(Debug, Drop)]
pub struct Fitting {
    /// The ligature.
    pub glyph: u16,
    /// The places.
    pub places: Places,
}

// Whether a key bars a ligature, which stands so many bytes behind the start of its set: the count of
// its glyphs is above 1, and the key isn't the second one. Most ligatures of a set end here.
#[inline]
fn is_barred(key: &Key, set: &[u8], offset: usize) -> bool
    requires few { offset < 65536 }
    ensures { result ≡ true → (gdef : List ℕ) (sight : Sight) (gs : Glyphs) (at : ℕ) →
        ((test : ℕ → ℕ → Bool) (k : ℕ) → bars key.now (test k) ≡ true →
        next_in gdef sight test gs k (at + 1) ≡ None) →
        ligature_of gdef sight gs at (table_at set.now offset) ≡ None }
{
    let (count, second) = (u16_at(set, offset + 2), u16_at(set, offset + 4));
    count > 1 && key.bars(second)
}

// A ligature, if it fits a place.
#[tactic(auto, unfolding(crate::specs::Ligatures::ligature_of, opentype_layout::specs::Pattern::fits))]
fn fit_ligature(
    gdef: &[u8],
    sight: &Sight,
    ligature: &[u8],
    glyphs: &GlyphView<'_>,
    at: usize,
) -> Option<Fitting>
    requires { at < length glyphs.now }
    ensures within { IfSome result (λ it. (j : ℕ) → j < length it.places.items →
        slice_index it.places.items j < length glyphs.now) }
    ensures value { option_map (λ it. (it.glyph, it.places.items)) result
        ≡ ligature_of gdef.now sight.now glyphs.now at ligature.now }
{
    let count = u16_at(ligature, 2);
    if count == 0 || count > 64 {
        return None;
    }
    let pattern = Pattern::Glyphs(table_at(ligature, 4));
    let mut places = Places::new();
    if !find_input(gdef, sight, &pattern, count - 1, glyphs, at, &mut places) {
        return None;
    }
    Some(Fitting {
        glyph: u16_at(ligature, 0),
        places,
    })
}

// The first ligature of a set that fits a place of a text, by the key of the glyph behind the place. (It
// is compiled for each key apart, since most of a set's ligatures end at this test.)
#[inline(always)]
fn first_by_key(
    gdef: &[u8],
    sight: &Sight,
    key: Key,
    set: &[u8],
    glyphs: &GlyphView<'_>,
    at: usize,
) -> Option<Fitting>
    requires here { at < length glyphs.now }
    requires key { (test : ℕ → ℕ → Bool) (k : ℕ) → bars key (test k) ≡ true →
        next_in gdef.now sight.now test glyphs.now k (at + 1) ≡ None }
    ensures within { IfSome result (λ it. (j : ℕ) → j < length it.places.items →
        slice_index it.places.items j < length glyphs.now) }
    ensures value { option_map (λ it. (it.glyph, it.places.items)) result
        ≡ first_from (rule_count_in set.now) (nth_ligature gdef.now sight.now glyphs.now at set.now) 0 }
{
    for i in 0..rule_count(set) {
        let offset = usize::from(u16_at(set, 2 + usize::from(i) * 2));
        if is_barred(&key, set, offset) {
            continue;
        }
        let found = fit_ligature(gdef, sight, table_at(set, offset), glyphs, at);
        if found.is_some() {
            return found;
        }
    }
    None
}

// The first ligature of a set that fits a place, out of line: a set without a count, and a glyph behind
// the place that a search may pass over, are rare.
#[inline(never)]
fn first_apart(
    gdef: &[u8],
    sight: &Sight,
    key: Key,
    set: &[u8],
    glyphs: &GlyphView<'_>,
    at: usize,
) -> Option<Fitting>
    requires here { at < length glyphs.now }
    requires key { (test : ℕ → ℕ → Bool) (k : ℕ) → bars key (test k) ≡ true →
        next_in gdef.now sight.now test glyphs.now k (at + 1) ≡ None }
    ensures within { IfSome result (λ it. (j : ℕ) → j < length it.places.items →
        slice_index it.places.items j < length glyphs.now) }
    ensures value { option_map (λ it. (it.glyph, it.places.items)) result
        ≡ first_from (rule_count_in set.now) (nth_ligature gdef.now sight.now glyphs.now at set.now) 0 }
{
    first_by_key(gdef, sight, key, set, glyphs, at)
}

/// The first ligature of a set that fits a place of a text.
pub fn first_fitting(
    gdef: &[u8],
    sight: &Sight,
    set: &[u8],
    glyphs: &GlyphView<'_>,
    at: usize,
) -> Option<Fitting>
    requires { at < length glyphs.now }
    ensures within { IfSome result (λ it. (j : ℕ) → j < length it.places.items →
        slice_index it.places.items j < length glyphs.now) }
    ensures value { option_map (λ it. (it.glyph, it.places.items)) result
        ≡ first_from (rule_count_in set.now) (nth_ligature gdef.now sight.now glyphs.now at set.now) 0 }
{
    let key = key_behind(gdef, sight, glyphs, glyphs.after(at));
    // (behind this test the loops need none of the least length)
    if set.len() < 2 {
        return first_apart(gdef, sight, key, set, glyphs, at);
    }
    match key {
        Key::Number(second) => first_by_key(gdef, sight, Key::Number(second), set, glyphs, at),
        Key::Nothing => first_by_key(gdef, sight, Key::Nothing, set, glyphs, at),
        Key::Any => first_apart(gdef, sight, Key::Any, set, glyphs, at),
    }
}

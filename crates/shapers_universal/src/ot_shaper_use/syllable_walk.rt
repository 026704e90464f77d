//! A walk over the first glyphs of each syllable.
ghost use Rattle.std.specs.Prelude.{◌≡◌, ◌∷◌, []};
ghost use Rattle.std.specs.List.{flat_map};
ghost use Rattle.shapers_buffer.specs.Syllables.{syllables};
ghost use Rattle.shapers_buffer.specs.declared.buffer.glyph.hb_glyph_info_t.{hb_glyph_info_t};
ghost use Rattle.shapers_universal.specs.UniversalWalk.{left_to_change};
ghost use Rattle.shapers_buffer.specs.Glyphs.{Glyphs};

use shapers_base::buffer::hb_glyph_info_t;

// A change of the first glyphs of a syllable, one after another, until one of them is the last.
pub(super) trait FrontChange {
    ghost use Rattle.std.specs.Prelude.{◌≡◌, ◌∷◌, if◌then◌else◌};
    ghost use Rattle.shapers_buffer.specs.declared.buffer.glyph.hb_glyph_info_t.{hb_glyph_info_t};

    ghost changed: { Self → Glyphs → Glyphs };

    // Changes a glyph, and returns whether the next one of its syllable is to be changed too.
    fn change(&self, glyph: &mut hb_glyph_info_t) -> bool
        ensures { (rest : Glyphs) → changed self.now (glyph.old ∷ rest)
            ≡ glyph.new ∷ (if result then changed self.now rest else rest) };
}

// Changes the first glyphs of each syllable of these glyphs.
#[inline]
pub(super) fn change_fronts<C: FrontChange>(change: &C, glyphs: &mut [hb_glyph_info_t])
    requires { C.changed change.now [] ≡ [] }
    ensures { glyphs.new ≡ flat_map (C.changed change.now) (syllables glyphs.old) }
{
    let mut passed = None;
    for glyph in glyphs.iter_mut() {
        passed = change_next(change, passed, glyph);
    }
}

// Changes the next glyph, unless the changes of its syllable have ended, whose byte is passed on.
#[inline]
fn change_next<C: FrontChange>(
    change: &C,
    passed: Option<u8>,
    glyph: &mut hb_glyph_info_t,
) -> Option<u8>
    requires { C.changed change.now [] ≡ [] }
    ensures { (rest : Glyphs)
        → left_to_change (C.changed change.now) passed (glyph.old ∷ rest)
        ≡ glyph.new ∷ left_to_change (C.changed change.now) result rest }
{
    let syllable = glyph.syllable;
    if passed == Some(syllable) {
        return passed;
    }
    if change.change(glyph) {
        return None;
    }
    Some(syllable)
}

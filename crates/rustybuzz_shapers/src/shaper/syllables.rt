//! The set-up of syllables by pause: of those that its grammar finds, and of those that are written
//! already.
ghost use Rattle.std.specs.Prelude.{◌≡◌, false, true};
ghost use Rattle.rustybuzz_shapers.specs.FoundSyllables.{PauseRun, SpansWritten, setup_written, sets_up};
ghost use Rattle.rustybuzz_shapers.specs.Pauses.{PauseFits};
ghost use Rattle.shapers_base.specs.Font.{Font};
ghost use Rattle.shapers_clusters.specs.FlagLaw.{OnlyFlagsAdded};

use shapers_base::buffer::hb_buffer_t;
use shapers_base::plan::{Pause, hb_ot_shape_plan_t};
use shapers_spans::{Indic, Khmer, Myanmar, Universal, find_syllables_in};
use shapers_syllabic::ot_shaper_syllabic::{
    indic_syllable, khmer_syllable, myanmar_syllable, setup_by_bytes,
};
use shapers_universal::ot_shaper_use::setup_syllables_use_by_bytes;

/// Finds the syllables of the buffer's text by the pause's grammar and sets them up, in one pass and
/// without a list of spans. It does what [`run_pause`] does with the spans that the grammar finds, can't
/// refuse and takes no memory. Where the pause isn't one that sets syllables up, it returns false and
/// changes nothing.
#[inline]
#[must_use]
pub fn setup_syllables_found(
    pause: Pause,
    plan: &hb_ot_shape_plan_t,
    buffer: &mut hb_buffer_t,
) -> bool
    requires { PauseFits pause plan.now }
    ensures answer { result ≡ sets_up pause }
    ensures setup { result ≡ true →
        (font : Font) → PauseRun pause plan.now font buffer.old buffer.new }
    ensures others { result ≡ false → buffer.new ≡ buffer.old }
{
    write_syllables(pause, buffer);
    setup_syllables_written(pause, plan, buffer)
}

/// Sets up a text whose glyphs have their syllable bytes already, as a machine of the caller's wrote
/// them. It does what [`run_pause`] does with the spans that these bytes stand for, can't refuse and
/// takes no memory. Where the pause isn't one that sets syllables up, it returns false and changes
/// nothing.
#[inline]
#[must_use]
pub fn setup_syllables_written(
    pause: Pause,
    plan: &hb_ot_shape_plan_t,
    buffer: &mut hb_buffer_t,
) -> bool
    requires { PauseFits pause plan.now }
    ensures answer { result ≡ sets_up pause }
    ensures setup { buffer.new ≡ setup_written pause plan.now buffer.old }
    ensures flags { OnlyFlagsAdded buffer.old.glyphs buffer.new.glyphs }
{
    match pause {
        Pause::SetupSyllablesIndic => setup_by_bytes(indic_syllable::BROKEN_CLUSTER, buffer),
        Pause::SetupSyllablesKhmer => setup_by_bytes(khmer_syllable::BROKEN_CLUSTER, buffer),
        Pause::SetupSyllablesMyanmar => setup_by_bytes(myanmar_syllable::BROKEN_CLUSTER, buffer),
        Pause::SetupSyllablesUse => setup_syllables_use_by_bytes(plan, buffer),
        _ => return false,
    }
    true
}

// Gives each glyph the byte of its syllable, if the pause has a grammar that finds it.
#[inline]
fn write_syllables(pause: Pause, buffer: &mut hb_buffer_t)
    ensures { SpansWritten pause buffer.old buffer.new }
{
    match pause {
        Pause::SetupSyllablesIndic => find_syllables_in(&Indic, buffer),
        Pause::SetupSyllablesKhmer => find_syllables_in(&Khmer, buffer),
        Pause::SetupSyllablesMyanmar => find_syllables_in(&Myanmar, buffer),
        Pause::SetupSyllablesUse => find_syllables_in(&Universal, buffer),
        _ => {}
    }
}

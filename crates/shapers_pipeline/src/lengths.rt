//! How long a text gets.
ghost use Rattle.std.specs.Prelude.{◌≡◌, ◌-◌, ◌^◌, min};
ghost use Rattle.std.specs.Option.{option_map_or};
ghost use Rattle.rustybuzz_shapers.specs.Lengths.{pause_growth};
ghost use Rattle.shapers_pipeline.specs.Lengths.{FinishGrows, PreparationGrows, PreparationHasRoom, ShapingGrows, StagesGrow, looked_up_bound, preprocess_growth, shaped_bound, stages_bound};

use crate::laws::orders_alone_law;
use crate::lookups::Lookups;
use crate::stages::lookups_of_stage;
use rustybuzz_shapers::shaper::{hb_ot_shaper_t, lengths_law};
use shapers_base::plan::Pause;
use shapers_normal::ot_shape_normalize;
use shapers_plan::ot_map::{Stage, StageLookup};
use shapers_plan::ot_shape_plan::EnginePlan;
use shapers_position::ot_shape_position::{flags_law, hiding_law};
use shapers_prepare::ot_shape_prepare::graphemes_law;

/// For how many glyphs a text of so many characters needs room, whatever becomes of it before Arabic
/// marks stretch: with this `max_len` neither its preparation nor a stage refuses with `TooLong`. At
/// most the greatest number.
///
/// How many glyphs stretched marks add goes by the widths of their words, which the lookups decide:
/// nothing bounds it by the length of the text.
pub fn length_bound<L: Lookups>(plan: &EnginePlan, lookups: &L, len: usize) -> usize
    ensures { let growth = L.growth_of lookups.now in
        let bound = shaped_bound plan.now.shaper growth plan.now.lookups plan.now.stages len in
        result ≡ min bound (2 ^ 64 - 1) }
{
    let preprocessed = len
        .saturating_add(1)
        .saturating_mul(preprocess_growth(plan.shaper()));
    let prepared = ot_shape_normalize::length_bound(preprocessed);
    stages_bound(plan.stages(), plan.lookups(), lookups, prepared)
}

// How many times as long preprocessing makes a text at most.
#[inline]
fn preprocess_growth(shaper: Option<hb_ot_shaper_t>) -> usize
    ensures { result ≡ option_map_or preprocess_growth shaper 1 }
{
    match shaper {
        Some(hb_ot_shaper_t::Hangul) => 3,
        Some(hb_ot_shaper_t::Thai | hb_ot_shaper_t::Indic | hb_ot_shaper_t::Universal) => 2,
        _ => 1,
    }
}

// How long a text of so many glyphs gets at most by these stages.
fn stages_bound<L: Lookups>(
    stages: &[Stage],
    list: &[StageLookup],
    lookups: &L,
    len: usize,
) -> usize
    ensures { let growth = L.growth_of lookups.now in
        result ≡ min (stages_bound growth list.now stages.now len) (2 ^ 64 - 1) }
{
    let mut bound = len;
    for stage in stages {
        let looked_up = looked_up_bound(lookups_of_stage(*stage, list), lookups, bound);
        bound = looked_up.saturating_mul(pause_growth(stage.pause));
    }
    bound
}

// By these lookups, one after another.
fn looked_up_bound<L: Lookups>(list: &[StageLookup], lookups: &L, len: usize) -> usize
    ensures { let growth = L.growth_of lookups.now in
        result ≡ min (looked_up_bound growth list.now len) (2 ^ 64 - 1) }
{
    let mut bound = len;
    for lookup in list {
        bound = bound.saturating_mul(lookups.growth(lookup));
    }
    bound
}

// How many times as long a pause makes a text at most.
#[inline]
fn pause_growth(pause: Option<Pause>) -> usize
    ensures { result ≡ option_map_or pause_growth pause 1 }
{
    match pause {
        Some(
            Pause::InitialReordering
            | Pause::ReorderKhmer
            | Pause::ReorderMyanmar
            | Pause::ReorderUse,
        ) => 2,
        _ => 1,
    }
}

/// How long a text gets, from its characters to its glyphs: by a circle in front, in preprocessing up
/// to three times as long, in normalization nine times, by each lookup as much as that promises, by
/// each reordering one longer for each broken syllable; and then by the copies of tiles that stretch.
/// With room for so many glyphs the steps before the lookups find no text too long.
pub fn pipeline_lengths_law()
    ensures preparation { PreparationGrows }
    ensures room { PreparationHasRoom }
    ensures stages { StagesGrow }
    ensures finish { FinishGrows }
    ensures whole { ShapingGrows }
{
    lengths_law();
    orders_alone_law();
    graphemes_law();
    hiding_law();
    flags_law();
}

//! The lookups of a font in stages.
ghost use Rattle.std.specs.Prelude.{◌≡◌, ◌+◌, ◌++◌, ◌∷◌, [], find, length, IfOk, IsOkUnless, None, OnOk};
ghost use Rattle.shapers_base.specs.declared.map.TableIndex.TheVariants.{GSUB};
ghost use Rattle.shapers_buffer.specs.declared.buffer.refusal.ShaperError.TheVariants.{Memory};
ghost use Rattle.shapers_plan.specs.Ordered.{put_all_in_order};
ghost use Rattle.shapers_plan.specs.Stages.{applied_by, feature_lookups, is_of_stage, is_requested, joined_lookups, lookup_number, lookups_from, lookups_like, required_stage, stage_ends, stage_lookups, stages_from, substitutions};

use super::FontFeatures;
use super::masks::{F_RANDOM, MappedFeature, lookups_of};
use super::ordered::{Last, Numbered, put_in_order};
use super::requests::FeatureInfo;
use shapers_base::buffer::{ShaperError, hb_tag_t};
use shapers_base::map::{F_MANUAL_ZWJ, F_MANUAL_ZWNJ, F_PER_SYLLABLE, TableIndex};
use shapers_base::plan::{Pause, Request};
use std::alloc::Global;

/// A lookup of a stage, and how it applies.
#[derive(Clone, Copy, Debug, PartialEq, Eq)]
pub struct StageLookup {
    /// The number of the lookup in its table.
    pub index: u16,
    /// The lookup applies to a glyph whose mask has one of these bits.
    pub mask: u32,
    /// Whether matching passes over zero width non-joiners.
    pub auto_zwnj: bool,
    /// Whether matching passes over zero width joiners.
    pub auto_zwj: bool,
    /// Whether an alternate is picked at random.
    pub random: bool,
    /// Whether a match stays within a syllable.
    pub per_syllable: bool,
}

/// A stage: lookups that run over the text one after the other, and what is done behind them.
#[derive(Clone, Copy, Debug, PartialEq, Eq)]
pub struct Stage {
    /// The place of its first lookup in the plan's list.
    pub start: usize,
    /// The place behind its last one.
    pub end: usize,
    /// What the shaper does behind the stage.
    pub pause: Option<Pause>,
}

/// How the lookups of the feature apply that the script requires.
const APPLIED_ALWAYS: StageLookup = StageLookup {
    index: 0,
    mask: 0x8000_0000,
    auto_zwnj: true,
    auto_zwj: true,
    random: false,
    per_syllable: false,
};

impl StageLookup {
    // How the lookups of a feature apply.
    fn of_feature(feature: &MappedFeature) -> Self
        ensures { result ≡ applied_by feature.now }
    {
        StageLookup {
            index: 0,
            mask: feature.mask,
            auto_zwnj: feature.flags & F_MANUAL_ZWNJ == 0,
            auto_zwj: feature.flags & F_MANUAL_ZWJ == 0,
            random: feature.flags & F_RANDOM != 0,
            per_syllable: feature.flags & F_PER_SYLLABLE != 0,
        }
    }
}

impl Numbered for StageLookup {
    ghost use Rattle.shapers_plan.specs.Stages.{joined_lookups, lookup_number};

    ghost number = { lookup_number };

    ghost joined = { joined_lookups };

    fn number(&self) -> u32 {
        u32::from(self.index)
    }

    fn joined(self, later: Self) -> Self {
        StageLookup {
            index: self.index,
            mask: self.mask | later.mask,
            auto_zwnj: self.auto_zwnj && later.auto_zwnj,
            auto_zwj: self.auto_zwj && later.auto_zwj,
            random: self.random,
            per_syllable: self.per_syllable,
        }
    }
}

// Adds the lookups of these numbers that apply as one does.
fn add_lookups(
    list: &mut Vec<StageLookup>,
    like: StageLookup,
    indices: &[u16],
) -> Result<(), ShaperError>
    ensures ok { let more = lookups_like like indices.now in
        let whole = put_all_in_order lookup_number joined_lookups list.old.items more in
        OnOk result (list.new.items ≡ whole) }
    ensures refusal { IsOkUnless result Memory }
{
    let mut last = Last::NONE;
    for index in indices {
        let lookup = StageLookup {
            index: *index,
            mask: like.mask,
            auto_zwnj: like.auto_zwnj,
            auto_zwj: like.auto_zwj,
            random: like.random,
            per_syllable: like.per_syllable,
        };
        put_in_order(list, &mut last, lookup)?;
    }
    Ok(())
}

// Adds the lookups of a feature.
fn add_feature<L: FontFeatures>(
    list: &mut Vec<StageLookup>,
    font: &L,
    table: TableIndex,
    feature: &MappedFeature,
) -> Result<(), ShaperError>
    ensures ok { let more = feature_lookups (L.tables font.now) table feature.now in
        let whole = put_all_in_order lookup_number joined_lookups list.old.items more in
        OnOk result (list.new.items ≡ whole) }
    ensures refusal { IsOkUnless result Memory }
{
    match lookups_of(font, table, feature.tag, feature.flags) {
        Some(indices) => add_lookups(list, StageLookup::of_feature(feature), indices),
        None => Ok(()),
    }
}

// Whether a feature is of a stage; no stage stands for all.
fn is_of_stage(feature: &MappedFeature, stage: Option<usize>) -> bool
    ensures { result ≡ is_of_stage stage feature.now }
{
    match stage {
        Some(stage) => feature.stage == stage,
        None => true,
    }
}

/// Lists the lookups of a stage in the order of their numbers, each once, in place of what the list
/// has; no stage stands for all. Those of the required feature are among them where that is said.
///
/// # Errors
///
/// `Memory`.
pub(super) fn list_stage<L: FontFeatures>(
    list: &mut Vec<StageLookup>,
    font: &L,
    table: TableIndex,
    features: &[MappedFeature],
    is_required: bool,
    stage: Option<usize>,
) -> Result<(), ShaperError>
    ensures ok { let tables = L.tables font.now in
        let lookups = stage_lookups tables table features.now is_required stage in
        OnOk result (list.new.items ≡ lookups) }
    ensures refusal { IsOkUnless result Memory }
{
    list.clear();
    if is_required {
        add_lookups(list, APPLIED_ALWAYS, font.required_lookups(table))?;
    }
    for feature in features {
        if is_of_stage(feature, stage) {
            add_feature(list, font, table, feature)?;
        }
    }
    Ok(())
}

/// The stage of the required feature: that of its request, if one turns it on, else the first.
pub(super) fn required_stage<L: FontFeatures>(font: &L, infos: &[FeatureInfo]) -> usize
    ensures { result ≡ required_stage (L.tables font.now) infos.now }
{
    match font.required_feature(TableIndex::GSUB) {
        Some(tag) => match requested(infos, tag) {
            Some(info) => info.stage,
            None => 0,
        },
        None => 0,
    }
}

// The feature by this tag, if it is on.
fn requested(infos: &[FeatureInfo], tag: hb_tag_t) -> Option<FeatureInfo>
    ensures { result ≡ find (is_requested tag) infos.now }
{
    infos
        .iter()
        .copied()
        .find(|info| info.tag == tag && info.max_value > 0)
}

/// The stages of a plan, and their lookups.
#[derive(Drop)]
pub(super) struct Stages {
    /// The stages in order.
    pub(super) stages: Vec<Stage>,
    /// Their lookups, stage by stage.
    pub(super) lookups: Vec<StageLookup>,
}

impl Stages {
    // Adds a stage up to this pause.
    fn push(&mut self, lookups: &[StageLookup], pause: Option<Pause>) -> Result<(), ShaperError>
        ensures lookups { let list = self.old.lookups.items ++ lookups.now in
            OnOk result (self.new.lookups.items ≡ list) }
        ensures stages { let start = length self.old.lookups.items in
            let end = start + length lookups.now in
            let stage : Stage = record { start = start; end = end; pause = pause } in
            OnOk result (self.new.stages.items ≡ self.old.stages.items ++ stage ∷ []) }
        ensures refusal { IsOkUnless result Memory }
    {
        let start = self.lookups.len();
        self.lookups.extend_from_slice(lookups)?;
        let end = self.lookups.len();
        self.stages
            .push(Stage { start, end, pause })
            .map_err(|_| ShaperError::Memory)
    }
}

/// The stages of a list of requests, each up to a pause, the last up to the end.
///
/// # Errors
///
/// `Memory`.
pub(super) fn collect_stages<L: FontFeatures>(
    alloc: Global,
    font: &L,
    features: &[MappedFeature],
    required: usize,
    requests: &[Request],
) -> Result<Stages, ShaperError>
    ensures stages { let lookups = substitutions (L.tables font.now) features.now required in
        let stages = stages_from lookups 0 0 (stage_ends requests.now) in
        IfOk result (λ found. found.stages.items ≡ stages) }
    ensures lookups { let lookups = substitutions (L.tables font.now) features.now required in
        let whole = lookups_from lookups 0 (stage_ends requests.now) in
        IfOk result (λ found. found.lookups.items ≡ whole) }
    ensures refusal { IsOkUnless result Memory }
{
    // (as many lookups as features is most often enough)
    let mut found = Stages {
        stages: Vec::new(alloc),
        lookups: Vec::with_capacity(alloc, features.len())?,
    };
    let mut lookups = Vec::with_capacity(alloc, features.len())?;
    let mut number = 0;
    for request in requests {
        if let Request::Pause(pause) = *request {
            list_substitutions(&mut lookups, font, features, required, number)?;
            found.push(lookups.as_slice(), pause)?;
            number += 1;
        }
    }
    list_substitutions(&mut lookups, font, features, required, number)?;
    found.push(lookups.as_slice(), None)?;
    Ok(found)
}

// Lists the lookups of a stage of substitutions, in place of what the list has.
fn list_substitutions<L: FontFeatures>(
    list: &mut Vec<StageLookup>,
    font: &L,
    features: &[MappedFeature],
    required: usize,
    number: usize,
) -> Result<(), ShaperError>
    ensures ok { let lookups = substitutions (L.tables font.now) features.now required number in
        OnOk result (list.new.items ≡ lookups) }
    ensures refusal { IsOkUnless result Memory }
{
    let is_required = number == required;
    list_stage(
        list,
        font,
        TableIndex::GSUB,
        features,
        is_required,
        Some(number),
    )
}

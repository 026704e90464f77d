//! What a list of requests makes of a font.
ghost use Rattle.std.specs.Prelude.{◌≡◌, IfOk, IsOkUnless, IsTrue, map};
ghost use Rattle.shapers_buffer.specs.declared.buffer.refusal.ShaperError.TheVariants.{Memory};
ghost use Rattle.shapers_plan.specs.Compiling.{are_off_flags, as_feature, as_range, features_for, lookups_for, map_for, map_of_parts, positioning_for, stages_for};
ghost use Rattle.shapers_plan.specs.Ranges.{stages_fit};
ghost use Rattle.shapers_plan.specs.Stages.{lookup_number};

use super::FontFeatures;
use super::lookups::{Stage, StageLookup, Stages, collect_stages, list_stage, required_stage};
use super::masks::{MappedFeature, global_mask, mapped};
use super::requests::joined_by_tag;
use shapers_base::buffer::ShaperError;
use shapers_base::map::{TableIndex, feature_map_t, hb_ot_map_t};
use shapers_base::plan::Request;
use std::alloc::Global;
use std::ops::Range;

/// What a list of requests makes of a font.
#[derive(Drop)]
pub(crate) struct CompiledMap {
    /// The features with their bits.
    pub(crate) features: Vec<MappedFeature>,
    /// The stages of substitutions.
    pub(crate) stages: Vec<Stage>,
    /// Their lookups, stage by stage.
    pub(crate) lookups: Vec<StageLookup>,
    /// The lookups of positioning.
    pub(crate) positioning: Vec<StageLookup>,
    /// The map that a shaper's hooks read.
    pub(crate) map: hb_ot_map_t,
}

impl CompiledMap {
    /// What a list of requests makes of a font.
    ///
    /// # Errors
    ///
    /// `Memory`.
    pub(crate) fn new<L: FontFeatures>(
        alloc: Global,
        font: &L,
        requests: &[Request],
    ) -> Result<Self, ShaperError>
        ensures features { let list = features_for (L.tables font.now) requests.now in
            IfOk result (λ it. it.features.items ≡ list) }
        ensures stages { let list = stages_for (L.tables font.now) requests.now in
            IfOk result (λ it. it.stages.items ≡ list) }
        ensures lookups { let list = lookups_for (L.tables font.now) requests.now in
            IfOk result (λ it. it.lookups.items ≡ list) }
        ensures positioning { let list = positioning_for (L.tables font.now) requests.now in
            IfOk result (λ it. it.positioning.items ≡ list) }
        ensures map { let map = map_for (L.tables font.now) requests.now in
            IfOk result (λ it. it.map ≡ map) }
        ensures fit { IfOk result (λ it. IsTrue (stages_fit it.stages.items it.lookups.items)) }
        ensures refusal { IsOkUnless result Memory }
    {
        let infos = joined_by_tag(alloc, requests)?;
        let features = mapped(alloc, font, infos.as_slice())?;
        let required = required_stage(font, infos.as_slice());
        let found = collect_stages(alloc, font, features.as_slice(), required, requests)?;
        let mut positioning = Vec::with_capacity(alloc, features.len())?;
        list_stage(
            &mut positioning,
            font,
            TableIndex::GPOS,
            features.as_slice(),
            true,
            None,
        )?;
        let map = make_map(alloc, font, features.as_slice(), &found)?;
        Ok(CompiledMap {
            features,
            stages: found.stages,
            lookups: found.lookups,
            positioning,
            map,
        })
    }
}

// The map that a shaper's hooks read.
fn make_map<L: FontFeatures>(
    alloc: Global,
    font: &L,
    features: &[MappedFeature],
    found: &Stages,
) -> Result<hb_ot_map_t, ShaperError>
    requires off_flags { IsTrue (are_off_flags features.now) }
    requires fit { IsTrue (stages_fit found.now.stages.items found.now.lookups.items) }
    ensures ok { let tables = L.tables font.now in
        let map = map_of_parts tables features.now found.now.stages.items found.now.lookups.items in
        IfOk result (λ it. it ≡ map) }
    ensures refusal { IsOkUnless result Memory }
{
    let map = hb_ot_map_t::new(
        features_of_map(alloc, features)?,
        ranges_of_map(alloc, found.stages.as_slice())?,
        lookups_of_map(alloc, found.lookups.as_slice())?,
        global_mask(features),
        font.chosen_script(TableIndex::GSUB),
        font.found_script(TableIndex::GSUB),
    );
    match map {
        Some(map) => Ok(map),
        None => unreachable!("stages and masks are a map's"),
    }
}

fn features_of_map(
    alloc: Global,
    features: &[MappedFeature],
) -> Result<Vec<feature_map_t>, ShaperError>
    ensures ok { IfOk result (λ list. list.items ≡ map as_feature features.now) }
    ensures refusal { IsOkUnless result Memory }
{
    let mut list = Vec::with_capacity(alloc, features.len())?;
    for feature in features {
        let entry = feature_map_t {
            tag: feature.tag,
            mask: feature.one_mask,
            stage: feature.stage,
        };
        list.push(entry).map_err(|_| ShaperError::Memory)?;
    }
    Ok(list)
}

fn ranges_of_map(alloc: Global, stages: &[Stage]) -> Result<Vec<Range<usize>>, ShaperError>
    ensures ok { IfOk result (λ list. list.items ≡ map as_range stages.now) }
    ensures refusal { IsOkUnless result Memory }
{
    let mut list = Vec::with_capacity(alloc, stages.len())?;
    for stage in stages {
        list.push(stage.start..stage.end)
            .map_err(|_| ShaperError::Memory)?;
    }
    Ok(list)
}

fn lookups_of_map(alloc: Global, lookups: &[StageLookup]) -> Result<Vec<u16>, ShaperError>
    ensures ok { IfOk result (λ list. list.items ≡ map lookup_number lookups.now) }
    ensures refusal { IsOkUnless result Memory }
{
    let mut list = Vec::with_capacity(alloc, lookups.len())?;
    for lookup in lookups {
        list.push(lookup.index).map_err(|_| ShaperError::Memory)?;
    }
    Ok(list)
}

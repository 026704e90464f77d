//! The map from features to masks and lookups, as far as the shapers read it. It knows GSUB alone.
ghost use Rattle.std.specs.Prelude.{◌≡◌, ◌≤◌, ◌%◌, ◌==◌, length, IfOk, IsOk, IsOkUnless, None, Some, false, slice_get, find, if◌then◌else◌};
ghost use Rattle.shapers_buffer.specs.declared.buffer.refusal.ShaperError.TheVariants.{Memory};
ghost use Rattle.shapers_base.specs.Map.{Map, of_gsub, can_be_map, can_be_stage, is_off_flags, mask_of, stage_of, range_of, no_range, same_tag, lookups_in};
ghost use Rattle.std.specs.List.{list_all};

use crate::buffer::{ShaperError, hb_tag_t};
use std::alloc::Global;
use std::marker::Model;
use std::ops::Range;

/// No wish.
pub const F_NONE: u32 = 0;
/// The feature holds for the whole text.
pub const F_GLOBAL: u32 = 1;
/// Something stands in for the feature where the font lacks it.
pub const F_HAS_FALLBACK: u32 = 2;
/// The feature sees zero width non-joiners.
pub const F_MANUAL_ZWNJ: u32 = 4;
/// The feature sees zero width joiners.
pub const F_MANUAL_ZWJ: u32 = 8;
/// The feature sees both kinds of joiners.
pub const F_MANUAL_JOINERS: u32 = F_MANUAL_ZWNJ | F_MANUAL_ZWJ;
/// The feature stays within a syllable.
pub const F_PER_SYLLABLE: u32 = 64;

/// One of the two tables of a font that features stand in.
#[derive(Clone, Copy, Debug, PartialEq, Eq)]
pub enum TableIndex {
    /// The table of substitutions.
    GSUB,
    /// The table of positions.
    GPOS,
}

/// A feature of the map.
#[derive(Clone, Copy, Debug, PartialEq, Eq)]
pub struct feature_map_t {
    /// The tag of the feature.
    pub tag: hb_tag_t,
    /// The bits of a glyph's mask that turn the feature on.
    pub mask: u32,
    /// The stage that its lookups run in.
    pub stage: usize,
}

/// The map that the font's GSUB table and the wanted features make.
#[derive(Debug, Drop)]
pub struct hb_ot_map_t {
    features: Vec<feature_map_t>,
    stages: Vec<Range<usize>>,
    lookups: Vec<u16>,
    global_mask: u32,
    chosen_script: Option<hb_tag_t>,
    found_script: bool,
}

impl Model for hb_ot_map_t {
    ghost use Rattle.std.specs.Prelude.{IsTrue};
    ghost use Rattle.shapers_base.specs.Map.{Map, can_be_map};

    ghost Value = { Map };

    ghost view = { λ m. record {
      features = m.features.items;
      stages = m.stages.items;
      lookups = m.lookups.items;
      global = m.global_mask;
      chosen = m.chosen_script;
      found = m.found_script;
    } };

    ghost invariant = { λ m. IsTrue (can_be_map (record {
      features = m.features.items;
      stages = m.stages.items;
      lookups = m.lookups.items;
      global = m.global_mask;
      chosen = m.chosen_script;
      found = m.found_script;
    })) };
}

impl hb_ot_map_t {
    /// A map of these features, stages and lookups. None if a stage isn't a range of the list of
    /// lookups, or if a feature's mask touches a glyph flag bit. It takes no memory.
    pub fn new(
        features: Vec<feature_map_t>,
        stages: Vec<Range<usize>>,
        lookups: Vec<u16>,
        global_mask: u32,
        chosen_script: Option<hb_tag_t>,
        found_script: bool,
    ) -> Option<Self>
        ensures { let map : Map = record {
          features = features.items;
          stages = stages.items;
          lookups = lookups.items;
          global = global_mask;
          chosen = chosen_script;
          found = found_script;
        } in
            result ≡ (if can_be_map map then Some map else None) }
    {
        if !are_ranges(stages.as_slice(), lookups.len()) || !are_off_flags(features.as_slice()) {
            return None;
        }
        Some(hb_ot_map_t {
            features,
            stages,
            lookups,
            global_mask,
            chosen_script,
            found_script,
        })
    }

    /// A map of copies of these, by the same rule as `new`. The only refusal is `Memory`, and none
    /// comes where they can't be a map's.
    ///
    /// # Errors
    ///
    /// `Memory`.
    pub fn from_slices(
        alloc: Global,
        features: &[feature_map_t],
        stages: &[Range<usize>],
        lookups: &[u16],
        global_mask: u32,
        chosen_script: Option<hb_tag_t>,
        found_script: bool,
    ) -> Result<Option<Self>, ShaperError>
        ensures answer { let map : Map = record {
          features = features.now;
          stages = stages.now;
          lookups = lookups.now;
          global = global_mask;
          chosen = chosen_script;
          found = found_script;
        } in
            IfOk result (λ answer. answer ≡ (if can_be_map map then Some map else None)) }
        ensures refusal { IsOkUnless result Memory }
        ensures none { let map : Map = record {
          features = features.now;
          stages = stages.now;
          lookups = lookups.now;
          global = global_mask;
          chosen = chosen_script;
          found = found_script;
        } in
            can_be_map map ≡ false → IsOk result }
    {
        if !are_ranges(stages, lookups.len()) || !are_off_flags(features) {
            return Ok(None);
        }
        Ok(Self::new(
            copied(alloc, features)?,
            copied_stages(alloc, stages)?,
            copied(alloc, lookups)?,
            global_mask,
            chosen_script,
            found_script,
        ))
    }

    /// The mask of the first feature by this tag, or 0. It touches no glyph flag bit.
    #[inline]
    pub fn get_1_mask(&self, tag: hb_tag_t) -> u32
        ensures first { result ≡ mask_of tag self.now }
        ensures off_flags { result % 8 ≡ 0 }
    {
        match first_feature(self.features.as_slice(), tag) {
            Some(feature) => feature.mask,
            None => 0,
        }
    }

    /// The stage of the first feature by this tag.
    #[inline]
    pub fn get_feature_stage(&self, table_index: TableIndex, tag: hb_tag_t) -> Option<usize>
        ensures { result ≡ of_gsub table_index (stage_of tag self.now) None }
    {
        match table_index {
            TableIndex::GSUB => Some(first_feature(self.features.as_slice(), tag)?.stage),
            TableIndex::GPOS => None,
        }
    }

    /// The places of a stage in the list of lookups: `0..0` if there is no such stage.
    #[inline]
    pub fn stage_lookup_range(&self, table_index: TableIndex, stage: usize) -> Range<usize>
        ensures range { result ≡ of_gsub table_index (range_of stage self.now) no_range }
        ensures in_order { result.start ≤ result.end }
        ensures in_range { result.end ≤ length self.now.lookups }
    {
        if table_index == TableIndex::GPOS || stage >= self.stages.len() {
            return 0..0;
        }
        let range = &self.stages[stage];
        range.start..range.end
    }

    /// The lookups of a range of the list, as far as it goes.
    #[inline]
    pub fn lookups(&self, range: &Range<usize>) -> &[u16]
        ensures { result.now ≡ lookups_in range.now self.now }
    {
        let end = range.end.min(self.lookups.len());
        let start = range.start.min(end);
        &self.lookups[start..end]
    }

    /// The lookup at this place of the list.
    #[inline]
    pub fn lookup(&self, table_index: TableIndex, index: usize) -> Option<u16>
        ensures { result ≡ of_gsub table_index (slice_get self.now.lookups index) None }
    {
        match table_index {
            TableIndex::GSUB => self.lookups.get(index).copied(),
            TableIndex::GPOS => None,
        }
    }

    /// The script of the font that was chosen for the text.
    #[inline]
    pub fn chosen_script(&self, table_index: TableIndex) -> Option<hb_tag_t>
        ensures { result ≡ of_gsub table_index self.now.chosen None }
    {
        match table_index {
            TableIndex::GSUB => self.chosen_script,
            TableIndex::GPOS => None,
        }
    }

    /// Whether the table has the script that was requested.
    #[inline]
    pub fn found_script(&self, table_index: TableIndex) -> bool
        ensures { result ≡ of_gsub table_index self.now.found false }
    {
        match table_index {
            TableIndex::GSUB => self.found_script,
            TableIndex::GPOS => false,
        }
    }

    /// The bits of the features that hold for the whole text.
    #[inline]
    pub fn get_global_mask(&self) -> u32
        ensures { result ≡ self.now.global }
    {
        self.global_mask
    }
}

// The first of these features that has this tag.
#[inline]
fn first_feature(features: &[feature_map_t], tag: hb_tag_t) -> Option<feature_map_t>
    ensures { result ≡ find (λ f. same_tag f.tag tag) features.now }
{
    features.iter().copied().find(|feature| feature.tag == tag)
}

// A copy of these.
#[inline]
fn copied<T: Copy>(alloc: Global, items: &[T]) -> Result<Vec<T>, ShaperError>
    ensures ok { IfOk result (λ copy. copy.items ≡ items.now) }
    ensures refusal { IsOkUnless result Memory }
{
    let mut copy = Vec::new(alloc);
    copy.extend_from_slice(items)?;
    Ok(copy)
}

// A copy of these stages.
#[inline]
fn copied_stages(alloc: Global, stages: &[Range<usize>]) -> Result<Vec<Range<usize>>, ShaperError>
    ensures ok { IfOk result (λ copy. copy.items ≡ stages.now) }
    ensures refusal { IsOkUnless result Memory }
{
    let mut copy = Vec::new(alloc);
    copy.reserve(stages.len())?;
    for stage in stages {
        copy.push(stage.start..stage.end)
            .map_err(|_| ShaperError::Memory)?;
    }
    Ok(copy)
}

// Whether each stage is a range of a list of this length.
#[inline]
fn are_ranges(stages: &[Range<usize>], lookups_len: usize) -> bool
    ensures { result ≡ list_all (can_be_stage lookups_len) stages.now }
{
    stages.iter().all(|stage| stage.start <= stage.end && stage.end <= lookups_len)
}

// Whether no feature's mask touches a glyph flag bit, one of the low three.
#[inline]
fn are_off_flags(features: &[feature_map_t]) -> bool
    ensures { result ≡ list_all is_off_flags features.now }
{
    features.iter().all(|feature| feature.mask % 8 == 0)
}

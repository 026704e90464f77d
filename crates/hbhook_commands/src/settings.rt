//! What the lines have set so far, but for what the buffer keeps.
ghost use Rattle.std.specs.Prelude.{◌≡◌, IfOk};

use crate::expected::Expected;
use crate::fault::LineFault;
use crate::font::LineFont;
use crate::tables::LineTables;
use rustybuzz_shapers::shaper::hb_ot_shaper_t;
use shapers_base::buffer::{Script, Span, hb_tag_t};
use shapers_base::map::{feature_map_t, hb_ot_map_t};
use shapers_base::plan::{BaseSearch, BreakFlags, StretchStart, hb_ot_shape_plan_t};
use std::alloc::{AllocError, Global};
use std::ops::Range;

/// A feature's mask and lookups.
#[derive(Drop)]
pub struct Feature {
    /// Its name.
    pub tag: hb_tag_t,
    /// The bits of a glyph's mask that turn it on.
    pub mask: u32,
    lookups: Range<usize>,
}

/// The settings so far.
#[derive(Drop)]
pub struct Settings {
    pub shaper: Option<hb_ot_shaper_t>,
    pub script: Option<Script>,
    pub chosen: Option<hb_tag_t>,
    pub found: bool,
    pub gpos_mark: bool,
    pub stretch_start: StretchStart,
    pub break_flags: BreakFlags,
    pub base_search: BaseSearch,
    pub global_mask: u32,
    pub font: LineFont,
    pub tables: LineTables,
    pub spans: Vec<Span>,
    features: Vec<Feature>,
}

impl Settings {
    /// Nothing set.
    pub fn new(alloc: Global) -> Self {
        Settings {
            shaper: None,
            script: None,
            chosen: None,
            found: false,
            gpos_mark: false,
            stretch_start: StretchStart::AsCode,
            break_flags: BreakFlags::AsCode,
            base_search: BaseSearch::WithoutMedials,
            global_mask: 0,
            font: LineFont::new(alloc),
            tables: LineTables::new(alloc),
            spans: Vec::new(alloc),
            features: Vec::new(alloc),
        }
    }

    /// The plan of these settings.
    pub fn plan(&self) -> Result<hb_ot_shape_plan_t, LineFault>
        ensures script { IfOk result (λ plan. plan.script ≡ self.now.script) }
        ensures found { IfOk result (λ plan. plan.ot_map.found ≡ self.now.found) }
        ensures chosen { IfOk result (λ plan. plan.ot_map.chosen ≡ self.now.chosen) }
        ensures global { IfOk result (λ plan. plan.ot_map.global ≡ self.now.global_mask) }
        ensures gpos_mark { IfOk result (λ plan. plan.has_gpos_mark ≡ self.now.gpos_mark) }
        ensures stretch { IfOk result (λ plan. plan.stretch_start ≡ self.now.stretch_start) }
        ensures breaks { IfOk result (λ plan. plan.break_flags ≡ self.now.break_flags) }
        ensures base { IfOk result (λ plan. plan.base_search ≡ self.now.base_search) }
    {
        let mut plan = hb_ot_shape_plan_t::new(self.script, self.map()?);
        plan.has_gpos_mark = self.gpos_mark;
        plan.stretch_start = self.stretch_start;
        plan.break_flags = self.break_flags;
        plan.base_search = self.base_search;
        Ok(plan)
    }

    // The map: the stage of a feature is its place, and place i of the list of lookups is lookup i.
    fn map(&self) -> Result<hb_ot_map_t, LineFault>
        ensures found { IfOk result (λ map. map.found ≡ self.now.found) }
        ensures chosen { IfOk result (λ map. map.chosen ≡ self.now.chosen) }
        ensures global { IfOk result (λ map. map.global ≡ self.now.global_mask) }
    {
        let alloc = *self.features.allocator();
        let features = self.features.iter().enumerate().map(|(stage, feature)| feature_map_t {
            tag: feature.tag,
            mask: feature.mask,
            stage,
        });
        let features = features.collect(alloc)?;
        let stages = self
            .features
            .iter()
            .map(|feature| feature.lookups.start..feature.lookups.end);
        let stages = stages.collect(alloc)?;
        let lookups = self
            .features
            .iter()
            .map(|feature| feature.lookups.end)
            .max();
        let lookups = (0..=u16::MAX).take(lookups.unwrap_or(0)).collect(alloc)?;
        let (global, chosen) = (self.global_mask, self.chosen);
        let map = hb_ot_map_t::new(features, stages, lookups, global, chosen, self.found);
        let expected = Expected::Condition("masks without glyph flags, and lookups that there are");
        map.ok_or(LineFault::Unreadable(expected))
    }

    /// The features that have a mask or lookups.
    pub fn features(&self) -> &[Feature] {
        self.features.as_slice()
    }

    /// Adds a span.
    pub fn add_span(&mut self, span: Span) -> Result<(), AllocError> {
        self.spans.push(span)?;
        Ok(())
    }

    /// Sets a feature's mask.
    pub fn set_mask(&mut self, tag: hb_tag_t, mask: u32) -> Result<(), AllocError> {
        for feature in self.features.iter_mut() {
            if feature.tag == tag {
                feature.mask = mask;
                return Ok(());
            }
        }
        let lookups = 0..0;
        self.features.push(Feature { tag, mask, lookups })?;
        Ok(())
    }

    /// Sets a feature's lookups.
    pub fn set_lookups(&mut self, tag: hb_tag_t, lookups: Range<usize>) -> Result<(), AllocError> {
        for feature in self.features.iter_mut() {
            if feature.tag == tag {
                feature.lookups = lookups;
                return Ok(());
            }
        }
        let mask = 0;
        self.features.push(Feature { tag, mask, lookups })?;
        Ok(())
    }
}

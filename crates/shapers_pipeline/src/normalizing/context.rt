//! A shaper with its plan, a font and Unicode's tables, as normalization reads them.

use super::hooks::{character, compose, decompose, order_marks};
use super::tables::{NormalizeFont, NormalizeTables};
use rustybuzz_shapers::shaper::hb_ot_shaper_t;
use shapers_base::buffer::{BufferClusterLevel, hb_glyph_info_t, hb_unicode_general_category_t};
use shapers_base::font::GlyphId;
use shapers_base::plan::{NormalizationMode, hb_ot_shape_plan_t};
use shapers_normal::ot_shape_normalize::NormalizeContext;

// What normalization reads: a shaper, its plan, a font, tables, and two of the caller's settings.
#[derive(Clone, Copy)]
pub(crate) struct ShaperContext<'a, F: NormalizeFont, T: NormalizeTables> {
    pub(crate) shaper: Option<hb_ot_shaper_t>,
    pub(crate) plan: &'a hb_ot_shape_plan_t,
    pub(crate) font: &'a F,
    pub(crate) tables: &'a T,
    pub(crate) invisible_glyph: Option<GlyphId>,
    pub(crate) draws_selectors: bool,
}

impl<'a, F: NormalizeFont, T: NormalizeTables> NormalizeContext for ShaperContext<'a, F, T> {
    ghost use Rattle.shapers_pipeline.specs.ByShaper.{shaper_context};

    ghost context = { λ c. shaper_context c.shaper c.plan.now (F.font c.font.now)
        (F.variants c.font.now) (T.tables c.tables.now) (T.texts c.tables.now) c.invisible_glyph
        c.draws_selectors };

    #[inline]
    fn normalization_preference(&self) -> NormalizationMode {
        match self.shaper {
            Some(shaper) => shaper.normalization_preference(),
            None => NormalizationMode::AUTO,
        }
    }

    #[inline]
    fn decompose(&self, ab: u32) -> Option<(u32, u32)> {
        let (a, b) = decompose(self.shaper, self.plan, self.tables, character(ab)?)?;
        Some((u32::from(a), u32::from(b)))
    }

    #[inline]
    fn compose(&self, a: u32, b: u32) -> Option<u32> {
        let (a, b) = (character(a)?, character(b)?);
        let composed = compose(self.shaper, self.plan, self.tables, a, b)?;
        Some(u32::from(composed))
    }

    #[inline]
    fn get_nominal_glyph(&self, c: u32) -> Option<GlyphId> {
        self.font.get_nominal_glyph(c)
    }

    #[inline]
    fn get_variation_glyph(&self, c: u32, selector: u32) -> Option<GlyphId> {
        self.font.get_variation_glyph(c, selector)
    }

    #[inline]
    fn has_glyph(&self, c: u32) -> bool {
        self.font.has_glyph(c)
    }

    #[inline]
    fn general_category(&self, c: u32) -> hb_unicode_general_category_t {
        match character(c) {
            Some(c) => self.tables.general_category(c),
            None => hb_unicode_general_category_t::Cn,
        }
    }

    #[inline]
    fn modified_combining_class(&self, c: u32) -> u8 {
        match character(c) {
            Some(c) => self.tables.modified_combining_class(c),
            None => 0,
        }
    }

    #[inline]
    fn is_default_ignorable(&self, c: u32) -> bool {
        match character(c) {
            Some(c) => self.tables.is_default_ignorable(c),
            None => false,
        }
    }

    #[inline]
    fn invisible_glyph(&self) -> Option<GlyphId> {
        self.invisible_glyph
    }

    #[inline]
    fn draws_selectors(&self) -> bool {
        self.draws_selectors
    }

    #[inline]
    fn reorder_marks(
        &self,
        level: BufferClusterLevel,
        glyphs: &mut [hb_glyph_info_t],
        start: usize,
        end: usize,
    ) {
        order_marks(self.shaper, level, glyphs, start, end);
    }
}

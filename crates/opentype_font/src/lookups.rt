//! The lookups of a font file.
ghost use Rattle.std.specs.Prelude.{◌≡◌};
ghost use Rattle.opentype_font.specs.Lookups.{noted_by};

use crate::font::OpenTypeFont;
use crate::stages::{position_all, position_by, substitute_all, substitute_by};
use opentype_gpos::finish::finish_positions;
use opentype_gsub::growth::growth;
use opentype_layout::face_tables::FaceTables;
use shapers_base::buffer::{GlyphProps, ShaperError, hb_buffer_t, hb_glyph_info_t};
use shapers_pipeline::Lookups;
use shapers_plan::ot_map::StageLookup;
use shapers_position::ot_shape_position::GlyphClasses;

/// The number of the category Mn.
const NONSPACING_MARK: u16 = 12;

// What lookups keep of a glyph: its class by GDEF. In a font without classes nonspacing marks are
// marks, unless they need not be drawn, and all else is a base. (HarfBuzz's
// `hb_synthesize_glyph_classes`.)
fn noted_by(tables: &FaceTables<'_>, glyph: &hb_glyph_info_t) -> GlyphProps
    ensures { result ≡ noted_by tables.now.face.gdef.now glyph.now }
{
    if let Some(props) = tables.glyph_props((glyph.glyph_id % 65536) as u16) {
        return GlyphProps(props);
    }
    if glyph.unicode_props.0 % 32 == NONSPACING_MARK && !glyph.unicode_props.is_ignorable() {
        GlyphProps(8)
    } else {
        GlyphProps(2)
    }
}

impl<'a> GlyphClasses for OpenTypeFont<'a> {
    ghost use Rattle.opentype_font.specs.Lookups.{is_gdef_mark};

    ghost marks = { λ it g. is_gdef_mark g };

    #[inline]
    fn is_mark(&self, glyph: &hb_glyph_info_t) -> bool {
        glyph.glyph_props.0 & 8 == 8
    }
}

impl<'a> Lookups for OpenTypeFont<'a> {
    ghost use Rattle.std.specs.Prelude.{false};
    ghost use Rattle.opentype_gsub.specs.Growth.{growth_in};
    ghost use Rattle.opentype_gpos.specs.Finished.{finished};
    ghost use Rattle.opentype_font.specs.Lookups.{application_for, may_lack_memory, noted_by, positioned_by, substituted_by, use_for};
    ghost use Rattle.opentype_font.specs.Proved.LookupLaws.{finishing_keeps, positioning_keeps, substituting_grows, substituting_keeps};

    ghost noted = { λ it g. noted_by it.tables.face.gdef.now g };

    ghost substituted = { λ it lookup b.
        substituted_by it.tables.face.gdef.now it.tables.face.gsub.now lookup b };

    ghost growth_of = { λ it lookup. growth_in it.tables.face.gsub.now lookup.index };

    ghost substituting_refuses = { λ it lookup b. may_lack_memory lookup b };

    ghost positioned = { λ it lookup b.
        positioned_by it.tables.face.gdef.now it.tables.face.gpos.now lookup b };

    ghost finished = { λ it b. finished b };

    ghost positioning_refuses = { λ it lookup b. record { too_long = false; memory = false } };

    #[inline]
    fn glyph_props(&self, glyph: &hb_glyph_info_t) -> GlyphProps {
        noted_by(&self.tables, glyph)
    }

    #[inline]
    fn growth(&self, lookup: &StageLookup) -> usize {
        growth(self.tables.face.gsub, lookup.index)
    }

    fn substitute(
        &self,
        lookup: &StageLookup,
        buffer: &mut hb_buffer_t,
    ) -> Result<(), ShaperError> {
        substitute_by(&self.tables, lookup, buffer)
    }

    #[inline]
    fn substitute_all(
        &self,
        list: &[StageLookup],
        buffer: &mut hb_buffer_t,
    ) -> Result<(), ShaperError> {
        substitute_all(&self.tables, list, buffer)
    }

    fn position(&self, lookup: &StageLookup, buffer: &mut hb_buffer_t) -> Result<(), ShaperError> {
        position_by(&self.tables, lookup, buffer);
        Ok(())
    }

    fn position_all(
        &self,
        list: &[StageLookup],
        buffer: &mut hb_buffer_t,
    ) -> Result<(), ShaperError> {
        position_all(&self.tables, list, buffer);
        Ok(())
    }

    fn finish_positions(&self, buffer: &mut hb_buffer_t) {
        finish_positions(buffer);
    }

    ghost substituting_keeps = { λ it lookup b none.
        substituting_keeps it.tables.face.gdef.now it.tables.face.gsub.now (use_for lookup) b };

    ghost substituting_grows = { λ it lookup b none.
        substituting_grows it.tables.face.gdef.now it.tables.face.gsub.now (use_for lookup) b };

    ghost positioning_keeps = { λ it lookup b paired. positioning_keeps
        it.tables.face.gdef.now it.tables.face.gpos.now lookup.index (application_for lookup) b };

    ghost finishing_keeps = { λ it b paired. finishing_keeps b };
}

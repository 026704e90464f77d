//! A font file as the hooks, normalization and positions read it.
ghost use Rattle.std.specs.Prelude.{◌≡◌};
ghost use Rattle.opentype_face.specs.Faces.{tables_of};
ghost use Rattle.opentype_font.specs.Fonts.{vertical_advance_of};

use crate::script_features::has_feature;
use crate::text_tags::TextTags;
use crate::would_apply::would_apply;
use opentype_face::face::Face;
use opentype_face::metrics::advance;
use opentype_layout::face_tables::FaceTables;
use shapers_base::buffer::hb_tag_t;
use shapers_base::font::{GlyphId, hb_font_t};
use shapers_pipeline::NormalizeFont;
use shapers_position::ot_shape_position::MetricsFont;

/// A face, for texts of a script and a language.
#[derive(Debug, Drop)]
pub struct OpenTypeFont<'a> {
    /// The face, with what was prepared of it.
    pub tables: FaceTables<'a>,
    /// The tags of the texts' script and language.
    pub tags: TextTags,
}

// How far a glyph moves the pen in vertical text: as high as a line is where the font has no vertical
// advances.
fn v_advance(face: &Face<'_>, glyph: u16) -> i32
    ensures { result ≡ vertical_advance_of (tables_of face.now) glyph }
{
    match advance(face.vhea, face.vmtx, face.glyph_count(), glyph) {
        Some(advance) => -i32::from(advance),
        None => face.descender().saturating_sub(face.ascender()),
    }
}

impl<'a> hb_font_t for OpenTypeFont<'a> {
    ghost use Rattle.opentype_font.specs.Fonts.{font_of};
    ghost use Rattle.opentype_font.specs.TextTags.{tags_of};
    ghost use Rattle.opentype_face.specs.Faces.{tables_of};

    ghost font = { λ it. font_of (tables_of it.tables.face) (tags_of it.tags) };

    #[inline]
    fn get_nominal_glyph(&self, c: u32) -> Option<GlyphId> {
        match self.tables.get_nominal_glyph(c) {
            Some(glyph) => Some(GlyphId(glyph)),
            None => None,
        }
    }

    #[inline]
    fn glyph_h_advance(&self, glyph: GlyphId) -> i32 {
        i32::from(self.tables.face.h_advance(glyph.0))
    }

    #[inline]
    fn would_apply(&self, lookup: u16, glyphs: &[GlyphId], zero_context: bool) -> bool {
        would_apply(self.tables.gsub(), lookup, glyphs, zero_context)
    }

    fn has_feature(&self, tag: hb_tag_t) -> bool {
        has_feature(self.tables.face.gsub, &self.tags, tag)
            || has_feature(self.tables.face.gpos, &self.tags, tag)
    }

    // (each question is a total function of the file's bytes)
    #[inline]
    fn may_panic(&self) -> bool {
        false
    }
}

impl<'a> NormalizeFont for OpenTypeFont<'a> {
    ghost use Rattle.opentype_font.specs.Fonts.{variants_of};
    ghost use Rattle.opentype_face.specs.Faces.{tables_of};

    ghost variants = { λ it. variants_of (tables_of it.tables.face) };

    #[inline]
    fn get_variation_glyph(&self, c: u32, selector: u32) -> Option<GlyphId> {
        match self.tables.face.get_variation_glyph(c, selector) {
            Some(glyph) => Some(GlyphId(glyph)),
            None => None,
        }
    }
}

impl<'a> MetricsFont for OpenTypeFont<'a> {
    ghost use Rattle.opentype_font.specs.Fonts.{metrics_of};
    ghost use Rattle.opentype_face.specs.Faces.{tables_of};

    ghost metrics = { λ it. metrics_of (tables_of it.tables.face) };

    #[inline]
    fn units_per_em(&self) -> u16 {
        self.tables.face.units_per_em()
    }

    #[inline]
    fn glyph_v_advance(&self, glyph: GlyphId) -> i32 {
        v_advance(&self.tables.face, glyph.0)
    }

    // (half of the horizontal advance to the right, as no table says otherwise)
    fn glyph_v_origin(&self, glyph: GlyphId) -> (i32, i32) {
        let across = self.tables.face.h_advance(glyph.0) / 2;
        (i32::from(across), self.tables.face.v_origin(glyph.0))
    }
}

//! The masks that the plan gives a text, besides those of its shaper.
ghost use Rattle.std.specs.Prelude.{◌≡◌, map};
ghost use Rattle.shapers_pipeline.specs.Masks.{as_glyph, with_feature, with_features, with_mask_alone};

use shapers_base::buffer::{GlyphProps, hb_buffer_t, hb_glyph_info_t};
use shapers_plan::ot_shape_plan::UserRange;

// Gives each glyph the features that hold for the whole text, and no others.
pub(crate) fn initialize_masks(mask: u32, buffer: &mut hb_buffer_t)
    ensures { let text = map (with_mask_alone mask) buffer.old.glyphs in
        buffer.new ≡ record buffer.old { glyphs = text } }
{
    buffer.change_all_by(|glyph| glyph.mask = mask);
}

// Sets the caller's features in their ranges, the later ones over the earlier.
pub(crate) fn set_features(features: &[UserRange], buffer: &mut hb_buffer_t)
    ensures { let text = map (with_features features.now) buffer.old.glyphs in
        buffer.new ≡ record buffer.old { glyphs = text } }
{
    if features.is_empty() {
        return;
    }
    buffer.change_all_by(|glyph| set_features_of(features, glyph));
}

// Sets the features in whose ranges the glyph is.
#[inline]
fn set_features_of(features: &[UserRange], glyph: &mut hb_glyph_info_t)
    ensures { glyph.new ≡ with_features features.now glyph.old }
{
    for feature in features {
        set_feature(*feature, glyph);
    }
}

// Sets a feature where the glyph is in its range.
#[inline]
fn set_feature(feature: UserRange, glyph: &mut hb_glyph_info_t)
    ensures { glyph.new ≡ with_feature glyph.old feature }
{
    if feature.start <= glyph.cluster && glyph.cluster < feature.end {
        glyph.mask = (glyph.mask & !feature.mask) | (feature.value & feature.mask);
    }
}

// Each character becomes the glyph that normalization kept beside it.
pub(crate) fn map_glyphs(buffer: &mut hb_buffer_t)
    ensures { buffer.new ≡ record buffer.old { glyphs = map as_glyph buffer.old.glyphs } }
{
    buffer.change_all_by(|glyph| {
        glyph.glyph_id = u32::from(glyph.glyph_props.0);
        glyph.glyph_props = GlyphProps::NONE;
    });
}

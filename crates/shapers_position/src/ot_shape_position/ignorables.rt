//! Glyphs of characters that need not be drawn.
ghost use Rattle.std.specs.Prelude.{◌≡◌};
ghost use Rattle.std.specs.List.{list_any};
ghost use Rattle.shapers_position.specs.Ignorables.{ignorables_for, is_default_ignorable};

use shapers_base::buffer::hb_glyph_info_t;

/// What becomes of glyphs whose character need not be drawn.
#[derive(Clone, Copy, Debug, PartialEq, Eq)]
pub enum DefaultIgnorables {
    /// They have no width and are drawn by an invisible glyph; in a font without one they go.
    Hide,
    /// They are drawn as any other glyph (`PRESERVE_DEFAULT_IGNORABLES`).
    Preserve,
    /// They go (`REMOVE_DEFAULT_IGNORABLES`).
    Remove,
}

// HarfBuzz's bits.
const HARFBUZZ_PRESERVE: u32 = 4;

const HARFBUZZ_REMOVE: u32 = 8;

impl DefaultIgnorables {
    /// What HarfBuzz's flags of a buffer (`hb_buffer_flags_t`) request, by bits 0x4 to preserve and
    /// 0x8 to remove: where both are set, to preserve.
    #[inline]
    pub fn from_harfbuzz(bits: u32) -> Self
        ensures { result ≡ ignorables_for bits }
    {
        if bits & HARFBUZZ_PRESERVE == HARFBUZZ_PRESERVE {
            DefaultIgnorables::Preserve
        } else if bits & HARFBUZZ_REMOVE == HARFBUZZ_REMOVE {
            DefaultIgnorables::Remove
        } else {
            DefaultIgnorables::Hide
        }
    }
}

// Whether a glyph's character need not be drawn, and no lookup put the glyph in: a font that does
// wants it seen.
#[inline]
pub(super) fn is_default_ignorable(glyph: &hb_glyph_info_t) -> bool
    ensures { result ≡ is_default_ignorable glyph.now }
{
    glyph.unicode_props.is_ignorable() && !glyph.glyph_props.is_substituted()
}

// Whether a text has such a glyph: what is done to these leaves a text without one as it is.
#[inline]
pub(super) fn has_ignorable(glyphs: &[hb_glyph_info_t]) -> bool
    ensures { result ≡ list_any is_default_ignorable glyphs.now }
{
    glyphs.iter().any(is_default_ignorable)
}

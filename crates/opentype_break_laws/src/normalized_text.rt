//! A normalized text in a font of two single substitutions, up to the last stage of its lookups.
ghost use Rattle.std.specs.Prelude.{◌≡◌, [], OnErr, OnOk, IsOkUnless};
ghost use Rattle.shapers_buffer.specs.declared.buffer.refusal.ShaperError.TheVariants.{Memory};
ghost use Rattle.opentype_font.specs.Lookups.{noted_by};
ghost use Rattle.opentype_break_laws.specs.NormalizedText.{IsPutInHalves, glyph_mapped, normalized_put, text_mapped};

use crate::font_pieces_law;
use crate::two_singles::substitute_two;
use shapers_buffer::buffer::{
    GlyphProps, LigProps, LookupRecord, ShaperError, hb_buffer_t, hb_glyph_info_t,
};
use shapers_editing::pipeline_breaks_law;

/// The number of the category Mn.
const NONSPACING_MARK: u16 = 12;

// The class of a glyph in a font without GDEF: nonspacing marks are marks, unless they need not be
// drawn, and all else is a base.
fn class_of(glyph: &hb_glyph_info_t) -> GlyphProps
    ensures { result ≡ noted_by [] glyph.now }
{
    if glyph.unicode_props.0 % 32 == NONSPACING_MARK && !glyph.unicode_props.is_ignorable() {
        GlyphProps(8)
    } else {
        GlyphProps(2)
    }
}

// Makes a glyph of a character, by the number that normalization kept beside it.
fn map_glyph(glyph: &mut hb_glyph_info_t)
    ensures { glyph.new ≡ glyph_mapped glyph.old }
{
    glyph.glyph_id = u32::from(glyph.glyph_props.0);
    glyph.glyph_props = class_of(glyph);
    glyph.lig_props = LigProps::NONE;
}

// Does so with each character of a text, and begins the record of its lookups.
fn map_glyphs(buffer: &mut hb_buffer_t)
    ensures { buffer.new ≡ text_mapped buffer.old }
{
    buffer.change_all_by(|glyph| map_glyph(glyph));
    buffer.set_lookup_record(LookupRecord::for_text(buffer.len()));
}

/// Makes glyphs of a normalized text without a shaper, which has the number of each character's
/// glyph beside it, and puts glyph 7 for 5 and 11 for 9 where they have bit 8 of their masks, by the
/// bytes of a font whose plan has one stage with that lookup. The text may be broken at each place
/// that no flag forbids: what becomes of each half by itself is what became of it in the text.
///
/// # Errors
///
/// `Memory`; each character has become its glyph then, and nothing else has changed.
pub fn substitute_normalized(buffer: &mut hb_buffer_t) -> Result<(), ShaperError>
    requires { buffer.old.positions ≡ [] }
    ensures ok { OnOk result (buffer.new ≡ normalized_put buffer.old) }
    ensures halves { OnOk result (IsPutInHalves buffer.old buffer.new.glyphs) }
    ensures refusal { IsOkUnless result Memory }
    ensures err { OnErr result (buffer.new ≡ text_mapped buffer.old) }
{
    pipeline_breaks_law();
    font_pieces_law();
    map_glyphs(buffer);
    substitute_two(buffer)
}

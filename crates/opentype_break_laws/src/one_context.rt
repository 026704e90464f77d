//! A font of one context, and what its lookup leaves of a text's pieces.
ghost use Rattle.std.specs.Prelude.{◌≡◌, [], OnErr, OnOk, IsOkUnless};
ghost use Rattle.shapers_buffer.specs.declared.buffer.refusal.ShaperError.TheVariants.{Memory};
ghost use Rattle.opentype_break_laws.specs.OneContext.{IsPutInPieces, glyph_begun, one_context, put_in_context, lookups_begun};

use crate::font_contexts_law;
use opentype_face::class_table::ClassTable;
use opentype_gsub::pass::LookupUse;
use opentype_gsub::substitute::substitute;
use opentype_layout::tables::LayoutTable;
use shapers_buffer::buffer::{LigProps, LookupRecord, ShaperError, hb_buffer_t, hb_glyph_info_t};

// GSUB with two lookups: a 2 before a 3 is given to the second one, which puts a 5 for it.
#[inline]
fn one_context() -> [u8; 74]
    ensures { result ≡ one_context }
{
    [
        0, 1, 0, 0, 0, 0, 0, 0, 0, 10, 0, 2, 0, 6, 0, 44, 0, 6, 0, 0, 0, 1, 0, 8, 0, 3, 0, 0, 0, 1,
        0, 18, 0, 1, 0, 24, 0, 1, 0, 0, 0, 1, 0, 1, 0, 1, 0, 2, 0, 1, 0, 1, 0, 3, 0, 1, 0, 0, 0, 1,
        0, 8, 0, 1, 0, 6, 0, 3, 0, 1, 0, 1, 0, 2,
    ]
}

// Gives a glyph bit 8 of its mask alone, beside its glyph flags; it is of no ligature then.
#[inline]
fn begin_glyph(glyph: &mut hb_glyph_info_t)
    ensures { glyph.new ≡ glyph_begun glyph.old }
{
    glyph.mask = 256 + glyph.mask % 8;
    glyph.lig_props = LigProps::NONE;
}

// Does so with each glyph of a text, and gives its lookups the operations that its length has.
fn begin_lookups(buffer: &mut hb_buffer_t)
    ensures { buffer.new ≡ lookups_begun buffer.old }
{
    buffer.change_all_by(|glyph| begin_glyph(glyph));
    buffer.set_lookup_record(LookupRecord::for_text(buffer.len()));
}

/// Begins the lookups of a text, with bit 8 of each glyph's mask, and puts glyph 5 for a 2 before a 3,
/// by the bytes of a font. Of a text of at most 255 glyphs, what becomes of it is what becomes of its
/// pieces, side by side, at each place that no flag forbids.
///
/// # Errors
///
/// `Memory`; the lookups have begun then, and nothing else has changed.
pub fn substitute_in_context(buffer: &mut hb_buffer_t) -> Result<(), ShaperError>
    requires { buffer.old.positions ≡ [] }
    ensures ok { OnOk result (buffer.new ≡ put_in_context buffer.old) }
    ensures pieces { OnOk result (IsPutInPieces buffer.old buffer.new.glyphs) }
    ensures refusal { IsOkUnless result Memory }
    ensures err { OnErr result (buffer.new ≡ lookups_begun buffer.old) }
{
    font_contexts_law();
    begin_lookups(buffer);
    let bytes = one_context();
    let lookup = LookupUse {
        index: 0,
        mask: 256,
        auto_zwnj: true,
        auto_zwj: true,
        random: false,
        per_syllable: false,
    };
    substitute(
        &ClassTable::of(&[]),
        &LayoutTable::of(&bytes),
        &lookup,
        buffer,
    )
}

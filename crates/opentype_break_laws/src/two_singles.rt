//! A font of two single substitutions, and what its lookup leaves of a text's pieces.
ghost use Rattle.std.specs.Prelude.{◌≡◌, [], OnErr, OnOk, IsOkUnless};
ghost use Rattle.shapers_buffer.specs.declared.buffer.refusal.ShaperError.TheVariants.{Memory};
ghost use Rattle.opentype_font.specs.Lookups.{substituted_by};
ghost use Rattle.opentype_break_laws.specs.TwoSingles.{IsMadeOfPieces, first_lookup, two_singles};

use crate::font_pieces_law;
use opentype_face::class_table::ClassTable;
use opentype_gsub::pass::LookupUse;
use opentype_gsub::substitute::substitute;
use opentype_layout::tables::LayoutTable;
use shapers_buffer::buffer::{ShaperError, hb_buffer_t};

// GSUB with one lookup: 7 for glyph 5, and 11 for 9.
#[inline]
fn two_singles() -> [u8; 36]
    ensures { result ≡ two_singles }
{
    [
        0, 1, 0, 0, 0, 0, 0, 0, 0, 10, 0, 1, 0, 4, 0, 1, 0, 0, 0, 1, 0, 8, 0, 1, 0, 6, 0, 2, 0, 1,
        0, 2, 0, 5, 0, 9,
    ]
}

/// Puts glyph 7 for 5 and 11 for 9, by the bytes of a font, at glyphs with bit 8 of their masks. What
/// becomes of the text is what becomes of its pieces, side by side, at each place that no flag
/// forbids.
///
/// # Errors
///
/// `Memory`; nothing has changed then.
pub fn substitute_two(buffer: &mut hb_buffer_t) -> Result<(), ShaperError>
    requires { buffer.old.positions ≡ [] }
    ensures ok { OnOk result (buffer.new ≡ substituted_by [] two_singles first_lookup buffer.old) }
    ensures pieces { OnOk result (IsMadeOfPieces buffer.old buffer.new.glyphs) }
    ensures refusal { IsOkUnless result Memory }
    ensures err { OnErr result (buffer.new ≡ buffer.old) }
{
    font_pieces_law();
    let bytes = two_singles();
    let lookup = LookupUse {
        index: 0,
        mask: 256,
        auto_zwnj: true,
        auto_zwj: true,
        random: false,
        per_syllable: false,
    };
    substitute(
        &ClassTable::of(&[]),
        &LayoutTable::of(&bytes),
        &lookup,
        buffer,
    )
}

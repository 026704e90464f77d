//! A font of one sequence, and what its lookup leaves of a text's pieces.
ghost use Rattle.std.specs.Prelude.{◌≡◌, [], OnErr, OnOk, IsOkUnless};
ghost use Rattle.shapers_buffer.specs.declared.buffer.refusal.ShaperError.TheVariants.{Memory};
ghost use Rattle.opentype_font.specs.Lookups.{substituted_by};
ghost use Rattle.opentype_break_laws.specs.OneAsTwo.{IsMadeInPieces, one_as_two};
ghost use Rattle.opentype_break_laws.specs.TwoSingles.{first_lookup};

use crate::font_pieces_law;
use opentype_face::class_table::ClassTable;
use opentype_gsub::pass::LookupUse;
use opentype_gsub::substitute::substitute;
use opentype_layout::tables::LayoutTable;
use shapers_buffer::buffer::{ShaperError, hb_buffer_t};

// GSUB with one lookup: 7 and 8 for glyph 5.
#[inline]
fn one_as_two() -> [u8; 42]
    ensures { result ≡ one_as_two }
{
    [
        0, 1, 0, 0, 0, 0, 0, 0, 0, 10, 0, 1, 0, 4, 0, 2, 0, 0, 0, 1, 0, 8, 0, 1, 0, 8, 0, 1, 0, 14,
        0, 1, 0, 1, 0, 5, 0, 2, 0, 7, 0, 8,
    ]
}

/// Puts glyphs 7 and 8 for 5, by the bytes of a font, at glyphs with bit 8 of their masks. Where the
/// text has room for twice as many glyphs, what becomes of it is what becomes of its pieces, side by
/// side, at each place that no flag forbids.
///
/// # Errors
///
/// `Memory`; nothing has changed then.
pub fn substitute_sequence(buffer: &mut hb_buffer_t) -> Result<(), ShaperError>
    requires { buffer.old.positions ≡ [] }
    ensures ok { OnOk result (buffer.new ≡ substituted_by [] one_as_two first_lookup buffer.old) }
    ensures pieces { OnOk result (IsMadeInPieces buffer.old buffer.new.glyphs) }
    ensures refusal { IsOkUnless result Memory }
    ensures err { OnErr result (buffer.new ≡ buffer.old) }
{
    font_pieces_law();
    let bytes = one_as_two();
    let lookup = LookupUse {
        index: 0,
        mask: 256,
        auto_zwnj: true,
        auto_zwj: true,
        random: false,
        per_syllable: false,
    };
    substitute(
        &ClassTable::of(&[]),
        &LayoutTable::of(&bytes),
        &lookup,
        buffer,
    )
}

//! The advances of glyphs before any lookup.
ghost use Rattle.std.specs.Prelude.{◌≡◌, [], IfOk, IsOkUnless, OnErr, OnOk, map};
ghost use Rattle.shapers_buffer.specs.declared.buffer.refusal.ShaperError.TheVariants.{Memory};
ghost use Rattle.shapers_choice.specs.Choice.{is_horizontal};
ghost use Rattle.shapers_position.specs.Widths.{advanced, level_position, upright_position};

use super::metrics::{MetricsFont, is_horizontal};
use super::positions::{PositionChange, change_each_position};
use shapers_base::buffer::{GlyphPosition, ShaperError, hb_buffer_t, hb_glyph_info_t};
use shapers_base::font::GlyphId;

/// Gives each glyph a position of its own: its advance in the font, no offset, and `var` 0; in
/// vertical text it is drawn by its origin for that. What positions there were are gone. A font has
/// no glyph of a number above 65535, nor of that one: every greater number is queried as that one.
/// (HarfBuzz's `hb_ot_position_default`.)
///
/// # Errors
///
/// `Memory`; nothing has changed then.
pub fn set_advances<F: MetricsFont>(font: &F, buffer: &mut hb_buffer_t) -> Result<(), ShaperError>
    ensures ok { let horizontal = is_horizontal buffer.old.direction in
        let f = advanced (F.font font.now) (F.metrics font.now) horizontal in
        OnOk result (buffer.new ≡ record buffer.old { positions = map f buffer.old.glyphs }) }
    ensures refusal { IsOkUnless result Memory }
    ensures err { OnErr result (buffer.new ≡ buffer.old) }
{
    let is_horizontal = is_horizontal(buffer.direction());
    let room = buffer.take_position_list();
    let positions = advances(font, is_horizontal, buffer.glyphs(), room)?;
    // (one for each glyph, so the buffer takes them)
    let _ = buffer.set_positions(positions);
    Ok(())
}

// A position for each of these glyphs, in a list that is empty.
fn advances<F: MetricsFont>(
    font: &F,
    is_horizontal: bool,
    glyphs: &[hb_glyph_info_t],
    mut positions: Vec<GlyphPosition>,
) -> Result<Vec<GlyphPosition>, ShaperError>
    requires { positions.items ≡ [] }
    ensures advances { let f = advanced (F.font font.now) (F.metrics font.now) is_horizontal in
        IfOk result (λ ps. ps.items ≡ map f glyphs.now) }
    ensures refusal { IsOkUnless result Memory }
{
    positions.resize(glyphs.len(), GlyphPosition::ZERO)?;
    let advancing = Advancing {
        font,
        is_horizontal,
    };
    change_each_position(&advancing, glyphs, positions.as_mut_slice());
    Ok(positions)
}

// Gives a glyph the position that it has by itself.
#[derive(Drop)]
struct Advancing<'a, F: MetricsFont> {
    font: &'a F,
    is_horizontal: bool,
}

impl<'a, F: MetricsFont> PositionChange for Advancing<'a, F> {
    ghost use Rattle.shapers_position.specs.Widths.{advanced};

    ghost changed = { λ a g p.
        advanced (F.font a.font.now) (F.metrics a.font.now) a.is_horizontal g };

    #[inline]
    fn change(&self, glyph: &hb_glyph_info_t, position: &mut GlyphPosition) {
        *position = advanced(self.font, self.is_horizontal, glyph);
    }
}

// The position of a glyph that no lookup has moved.
#[inline]
fn advanced<F: MetricsFont>(font: &F, is_horizontal: bool, glyph: &hb_glyph_info_t) -> GlyphPosition
    ensures { result ≡ advanced (F.font font.now) (F.metrics font.now) is_horizontal glyph.now }
{
    let number = GlyphId(glyph.glyph_id.min(u32::from(u16::MAX)) as u16);
    if is_horizontal {
        level_position(font, number)
    } else {
        upright_position(font, number)
    }
}

#[inline]
fn level_position<F: MetricsFont>(font: &F, glyph: GlyphId) -> GlyphPosition
    ensures { result ≡ level_position (F.font font.now) glyph }
{
    GlyphPosition {
        x_advance: font.glyph_h_advance(glyph),
        ..GlyphPosition::ZERO
    }
}

#[inline]
fn upright_position<F: MetricsFont>(font: &F, glyph: GlyphId) -> GlyphPosition
    ensures { result ≡ upright_position (F.metrics font.now) glyph }
{
    let (x, y) = font.glyph_v_origin(glyph);
    GlyphPosition {
        y_advance: font.glyph_v_advance(glyph),
        x_offset: 0_i32.saturating_sub(x),
        y_offset: 0_i32.saturating_sub(y),
        ..GlyphPosition::ZERO
    }
}

//! Glyphs that don't move the pen.
ghost use Rattle.std.specs.Prelude.{◌≡◌, Bool};
ghost use Rattle.std.specs.List.{list_any};
ghost use Rattle.shapers_position.specs.Ignorables.{ignorables_zeroed, without_extent};
ghost use Rattle.shapers_position.specs.Widths.{hung_back, mark_zeroed, marks_zeroed, without_advance};

use super::ignorables::{DefaultIgnorables, has_ignorable, is_default_ignorable};
use super::metrics::is_horizontal;
use super::positions::{PositionChange, change_positions};
use shapers_base::buffer::{GlyphPosition, hb_buffer_t, hb_glyph_info_t};

/// The classes of glyphs by a font's GDEF, as far as positions read them.
pub trait GlyphClasses {
    ghost use Rattle.shapers_buffer.specs.declared.buffer.glyph.hb_glyph_info_t.{hb_glyph_info_t};

    /// Which glyphs are marks.
    ghost marks: { Self → hb_glyph_info_t → Bool };

    /// Whether a glyph is a mark.
    fn is_mark(&self, glyph: &hb_glyph_info_t) -> bool
        ensures { result ≡ marks self.now glyph.now };
}

/// Takes marks their advance, so that they don't move the pen. With `adjust_offsets` they move back
/// by it first, and hang over the glyph before them: for a text that goes forward in a font without
/// GPOS. Offsets that pass 32 bits stop at their bound. A buffer without positions keeps none.
/// (HarfBuzz's `zero_mark_widths_by_gdef`.)
pub fn zero_mark_widths<C: GlyphClasses>(
    classes: &C,
    adjust_offsets: bool,
    buffer: &mut hb_buffer_t,
)
    ensures { let is_mark = C.marks classes.now in
        let zeroed =
        marks_zeroed is_mark adjust_offsets buffer.old.glyphs buffer.old.positions in
        buffer.new ≡ record buffer.old { positions = zeroed } }
{
    // so that a return with nothing changed knows how many positions there are
    prove!(buffer.positions_len() <= buffer.len());
    if !has_mark(classes, buffer.glyphs()) {
        return;
    }
    let change = ZeroMarks {
        classes,
        adjust_offsets,
    };
    change_positions(&change, buffer);
}

// Whether one of these glyphs is a mark.
#[inline]
fn has_mark<C: GlyphClasses>(classes: &C, glyphs: &[hb_glyph_info_t]) -> bool
    ensures { result ≡ list_any (C.marks classes.now) glyphs.now }
{
    glyphs.iter().any(|glyph| classes.is_mark(glyph))
}

// Takes a mark its advance.
#[derive(Drop)]
struct ZeroMarks<'a, C: GlyphClasses> {
    classes: &'a C,
    adjust_offsets: bool,
}

impl<'a, C: GlyphClasses> PositionChange for ZeroMarks<'a, C> {
    ghost use Rattle.shapers_position.specs.Widths.{mark_zeroed};

    ghost changed = { λ z g p.
        mark_zeroed (C.marks z.classes.now) z.adjust_offsets g p };

    #[inline]
    fn change(&self, glyph: &hb_glyph_info_t, position: &mut GlyphPosition) {
        if self.classes.is_mark(glyph) {
            if self.adjust_offsets {
                hang_back(position);
            }
            zero_advance(position);
        }
    }
}

// Moves a glyph back by its advance.
#[inline]
fn hang_back(position: &mut GlyphPosition)
    ensures { position.new ≡ hung_back position.old }
{
    position.x_offset = position.x_offset.saturating_sub(position.x_advance);
    position.y_offset = position.y_offset.saturating_sub(position.y_advance);
}

#[inline]
fn zero_advance(position: &mut GlyphPosition)
    ensures { position.new ≡ without_advance position.old }
{
    position.x_advance = 0;
    position.y_advance = 0;
}

/// Takes glyphs that are to be hidden their advance, and their offset along the line. A buffer
/// without positions keeps none. (HarfBuzz's `hb_ot_zero_width_default_ignorables`.)
pub fn zero_width_default_ignorables(ignorables: DefaultIgnorables, buffer: &mut hb_buffer_t)
    ensures { let zeroed = ignorables_zeroed
        ignorables buffer.old.direction buffer.old.glyphs buffer.old.positions in
        buffer.new ≡ record buffer.old { positions = zeroed } }
{
    // so that a return with nothing changed knows how many positions there are
    prove!(buffer.positions_len() <= buffer.len());
    match ignorables {
        DefaultIgnorables::Hide if has_ignorable(buffer.glyphs()) => {
            let is_horizontal = is_horizontal(buffer.direction());
            change_positions(&ZeroIgnorables { is_horizontal }, buffer);
        }
        DefaultIgnorables::Hide | DefaultIgnorables::Preserve | DefaultIgnorables::Remove => {}
    }
}

// Takes an ignorable glyph its extent.
#[derive(Drop)]
struct ZeroIgnorables {
    is_horizontal: bool,
}

impl PositionChange for ZeroIgnorables {
    ghost use Rattle.shapers_position.specs.Ignorables.{ignorable_zeroed};

    ghost changed = { λ z g p. ignorable_zeroed z.is_horizontal g p };

    #[inline]
    fn change(&self, glyph: &hb_glyph_info_t, position: &mut GlyphPosition) {
        if is_default_ignorable(glyph) {
            zero_extent(self.is_horizontal, position);
        }
    }
}

// Takes a glyph its advance, and its offset along the line.
#[inline]
fn zero_extent(is_horizontal: bool, position: &mut GlyphPosition)
    ensures { position.new ≡ without_extent is_horizontal position.old }
{
    zero_advance(position);
    if is_horizontal {
        position.x_offset = 0;
    } else {
        position.y_offset = 0;
    }
}

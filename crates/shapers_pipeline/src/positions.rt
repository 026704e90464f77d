//! Positions: what is done around GPOS.
ghost use Rattle.std.specs.Prelude.{◌≡◌, IfErr, IsOkUnless, OnErr, OnOk, length};
ghost use Rattle.shapers_buffer.specs.declared.buffer.refusal.ShaperError.TheVariants.{Memory};
ghost use Rattle.shapers_pipeline.specs.Lookups.{StoppedIn, looked_up};
ghost use Rattle.shapers_pipeline.specs.Positioned.{hangs_marks, ordered_for_drawing, is_early, is_late, lookups_if, marks_zeroed_if, text_positioned, text_spaced, zeroing_of};
ghost use Rattle.shapers_pipeline.specs.Shaped.{PositionsStopped, positioning_by};

use crate::fractions::goes_forward;
use crate::lookups::Lookups;
use crate::settings::ShapeSettings;
use rustybuzz_shapers::shaper::hb_ot_shaper_t;
use shapers_base::buffer::{Direction, ShaperError, hb_buffer_t};
use shapers_base::plan::ZeroWidthMarks;
use shapers_plan::ot_map::StageLookup;
use shapers_plan::ot_shape_plan::EnginePlan;
use shapers_position::ot_shape_position::{
    MetricsFont, hide_default_ignorables, set_advances, set_space_widths, zero_mark_widths,
    zero_width_default_ignorables,
};

// Gives the glyphs of a text positions, in the order that it is drawn in, and hides those that need
// not be drawn.
pub(crate) fn position_text<F: MetricsFont, L: Lookups>(
    plan: &EnginePlan,
    settings: &ShapeSettings,
    font: &F,
    lookups: &L,
    buffer: &mut hb_buffer_t,
) -> Result<(), ShaperError>
    ensures ok { let p = positioning_by plan.now settings.now (F.font font.now) (F.metrics font.now)
        (L.marks lookups.now) (L.positioned lookups.now) (L.finished lookups.now) in
        OnOk result (buffer.new ≡ text_positioned p buffer.old) }
    ensures err { let p = positioning_by
        plan.now settings.now (F.font font.now) (F.metrics font.now) (L.marks lookups.now)
        (L.positioned lookups.now) (L.finished lookups.now) in
        let refusals = L.positioning_refuses lookups.now in
        IfErr result (λ e. PositionsStopped p refusals buffer.old buffer.new e) }
{
    let applies_gpos = plan.applies_gpos();
    let zeroing = zeroing_of(plan.shaper());
    place_glyphs(font, buffer)?;
    zero_marks_if(is_early(zeroing), applies_gpos, lookups, buffer);
    apply_positioning_if(applies_gpos, lookups, plan.positioning(), buffer)?;
    zero_marks_if(is_late(zeroing), applies_gpos, lookups, buffer);
    zero_width_default_ignorables(settings.ignorables, buffer);
    lookups.finish_positions(buffer);
    reverse_if_backward(buffer);
    let invisible_glyph = settings.normalize.invisible_glyph;
    hide_default_ignorables(settings.ignorables, invisible_glyph, font, buffer);
    Ok(())
}

// Gives each glyph its advance, and a space that the font lacks its width.
fn place_glyphs<F: MetricsFont>(font: &F, buffer: &mut hb_buffer_t) -> Result<(), ShaperError>
    ensures ok { let text = text_spaced (F.font font.now) (F.metrics font.now) buffer.old in
        OnOk result (buffer.new ≡ text) }
    ensures paired { OnOk result (length buffer.new.positions ≡ length buffer.new.glyphs) }
    ensures refusal { IsOkUnless result Memory }
    ensures err { OnErr result (buffer.new ≡ buffer.old) }
{
    set_advances(font, buffer)?;
    set_space_widths(font, buffer);
    Ok(())
}

// When marks lose their advances.
#[inline]
fn zeroing_of(shaper: Option<hb_ot_shaper_t>) -> ZeroWidthMarks
    ensures { result ≡ zeroing_of shaper }
{
    match shaper {
        Some(shaper) => shaper.zero_width_marks(),
        None => ZeroWidthMarks::GDEF_LATE,
    }
}

#[inline]
fn is_early(zeroing: ZeroWidthMarks) -> bool
    ensures { result ≡ is_early zeroing }
{
    matches!(zeroing, ZeroWidthMarks::GDEF_EARLY)
}

#[inline]
fn is_late(zeroing: ZeroWidthMarks) -> bool
    ensures { result ≡ is_late zeroing }
{
    matches!(zeroing, ZeroWidthMarks::GDEF_LATE)
}

// Whether marks without an advance hang over the glyph before them: without GPOS, where the text
// goes forward. Where it goes backward they will hang over the one behind them.
#[inline]
fn hangs_marks(applies_gpos: bool, direction: Direction) -> bool
    ensures { result ≡ hangs_marks applies_gpos direction }
{
    !applies_gpos && goes_forward(direction)
}

// Takes marks their advances, if this is the time.
fn zero_marks_if<L: Lookups>(
    is_time: bool,
    applies_gpos: bool,
    lookups: &L,
    buffer: &mut hb_buffer_t,
)
    ensures { let is_mark = L.marks lookups.now in
        buffer.new ≡ marks_zeroed_if is_time is_mark applies_gpos buffer.old }
{
    if !is_time {
        return;
    }
    let hangs = hangs_marks(applies_gpos, buffer.direction());
    zero_mark_widths(lookups, hangs, buffer);
}

// Applies lookups of GPOS, one after another, if it is applied.
fn apply_positioning_if<L: Lookups>(
    applies_gpos: bool,
    lookups: &L,
    list: &[StageLookup],
    buffer: &mut hb_buffer_t,
) -> Result<(), ShaperError>
    requires { length buffer.old.positions ≡ length buffer.old.glyphs }
    ensures ok { let f = L.positioned lookups.now in
        OnOk result (buffer.new ≡ looked_up f (lookups_if applies_gpos list.now) buffer.old) }
    ensures err { let f = L.positioned lookups.now in
        let refusals = L.positioning_refuses lookups.now in
        let list = lookups_if applies_gpos list.now in
        IfErr result (λ e. StoppedIn f refusals list buffer.old buffer.new e) }
    ensures paired { OnOk result (length buffer.new.positions ≡ length buffer.new.glyphs) }
{
    if applies_gpos {
        lookups.position_all(list, buffer)
    } else {
        Ok(())
    }
}

// Turns a text to the order that it is drawn in.
fn reverse_if_backward(buffer: &mut hb_buffer_t)
    ensures { buffer.new ≡ ordered_for_drawing buffer.old }
{
    if matches!(
        buffer.direction(),
        Direction::RightToLeft | Direction::BottomToTop
    ) {
        buffer.reverse();
    }
}

//! The pause behind `stch`: glyphs that it multiplied are the tiles of a mark.
ghost use Rattle.std.specs.Prelude.{◌≡◌, map};
ghost use Rattle.std.specs.List.{list_any};
ghost use Rattle.shapers_buffer.specs.Properties.{is_multiplied};
ghost use Rattle.shapers_arabic.specs.PlanData.{IsArabic};
ghost use Rattle.shapers_stretch.specs.Recorded.{recorded, tile_action, tiles_recorded, with_tiles};

use shapers_arabic::ot_shaper_arabic::arabic_action_t::{STRETCHING_FIXED, STRETCHING_REPEATING};
use shapers_base::buffer::{hb_buffer_t, hb_glyph_info_t};
use shapers_base::plan::{PlanData, hb_ot_shape_plan_t};

/// Where the font stretches marks, gives each multiplied glyph the action of its tile, which
/// repeats if the glyph's component is odd, and marks the buffer if there is one. It can't refuse
/// and takes no memory. (OpenType `stch`.)
#[inline]
pub fn record_stch(plan: &hb_ot_shape_plan_t, buffer: &mut hb_buffer_t)
    requires { IsArabic plan.now.plan_data }
    ensures { buffer.new ≡ tiles_recorded plan.now.plan_data buffer.old }
{
    match &plan.plan_data {
        PlanData::Arabic(arabic_plan) => {
            if arabic_plan.has_stch {
                record_tiles(buffer);
            }
        }
        _ => unreachable!("the plan has no data of the Arabic shaper"),
    }
}

// Gives each multiplied glyph the action of its tile, and marks the buffer if there is one.
#[inline]
fn record_tiles(buffer: &mut hb_buffer_t)
    ensures { buffer.new ≡ with_tiles buffer.old }
{
    if buffer.with_glyphs_mut(record_stch_in) {
        buffer.set_has_stch(true);
    }
}

/// Gives each multiplied glyph of the slice the action of its tile, and returns whether there was
/// one. (OpenType `stch`.)
#[inline]
pub fn record_stch_in(glyphs: &mut [hb_glyph_info_t]) -> bool
    ensures glyphs { glyphs.new ≡ map recorded glyphs.old }
    ensures answer { result ≡ list_any (λ g. is_multiplied g.glyph_props) glyphs.old }
{
    let mut has_stch = false;
    for glyph in glyphs.iter_mut() {
        if glyph.glyph_props.is_multiplied() {
            glyph.auxiliary = tile_action(glyph.lig_props.component());
            has_stch = true;
        }
    }
    has_stch
}

// The tile that a multiplied glyph of this component is.
#[inline]
fn tile_action(component: u8) -> u8
    ensures { result ≡ tile_action component }
{
    if component % 2 == 1 {
        STRETCHING_REPEATING
    } else {
        STRETCHING_FIXED
    }
}

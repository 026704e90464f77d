//! The masks of joining and the categories of the universal shaper.
ghost use Rattle.std.specs.Prelude.{◌≡◌, map, true};
ghost use Rattle.shapers_universal.specs.PlanData.{arabic_of, is_universal};
ghost use Rattle.shapers_universal.specs.UniversalMasks.{BreaksAsJoining, CanJoin, MasksAreSet, categorized, with_categories};

use shapers_arabic::ot_shaper_arabic::setup_masks_inner;
use shapers_base::buffer::{GlyphChange, change_each_in, hb_buffer_t, hb_glyph_info_t};
use shapers_base::font::Tables;
use shapers_base::plan::{PlanData, hb_ot_shape_plan_t};

/// Gives each letter its form, the form's mask and the glyph flags of joining, where the plan has a
/// plan of Arabic, and each glyph the category of its character in the universal shaper. It can't
/// refuse and takes no memory.
#[inline]
pub fn setup_masks<T: Tables>(plan: &hb_ot_shape_plan_t, tables: &T, buffer: &mut hb_buffer_t)
    requires data { is_universal plan.now.plan_data ≡ true }
    requires characters { CanJoin (arabic_of plan.now.plan_data) buffer.old.glyphs }
    ensures masks { let arabic = arabic_of plan.now.plan_data in
        MasksAreSet arabic plan.now.script (T.tables tables.now) buffer.old buffer.new }
    ensures breaks { let arabic = arabic_of plan.now.plan_data in
        BreaksAsJoining arabic plan.now.script (T.tables tables.now) buffer.old buffer.new }
{
    match &plan.plan_data {
        PlanData::Universal(universal_plan) => match &universal_plan.arabic_plan {
            Some(arabic_plan) => {
                // (joining reads the letters around the text before it writes: tables that panic
                // there leave the text as it was, and elsewhere an empty buffer)
                setup_masks_inner(arabic_plan, plan.script, buffer, tables);
                set_categories(tables, buffer);
            }
            None => set_categories(tables, buffer),
        },
        _ => unreachable!("the plan has no data of the universal shaper"),
    }
}

// Gives each glyph the category of its character.
#[inline]
fn set_categories<T: Tables>(tables: &T, buffer: &mut hb_buffer_t)
    ensures { buffer.new ≡ with_categories (T.tables tables.now) buffer.old }
{
    buffer.change_outside(&Categories { tables });
}

/// Gives each of these glyphs the category of its character in the universal shaper.
#[inline]
pub fn set_categories_in<T: Tables>(tables: &T, glyphs: &mut [hb_glyph_info_t])
    ensures { glyphs.new ≡ map (categorized (T.tables tables.now).universal) glyphs.old }
{
    change_each_in(glyphs, &Categories { tables });
}

// The tables that tell categories.
#[derive(Clone, Copy)]
struct Categories<'a, T: Tables> {
    tables: &'a T,
}

impl<'a, T: Tables> GlyphChange for Categories<'a, T> {
    ghost use Rattle.shapers_universal.specs.UniversalMasks.{categorized};

    ghost changed = { λ change glyph. categorized (T.tables change.tables.now).universal glyph };

    #[inline]
    fn change(&self, glyph: &mut hb_glyph_info_t) {
        glyph.category = self.tables.use_category(glyph.glyph_id);
    }
}

//! What a shaper decides, and what the tables do where it lacks the hook.
ghost use Rattle.std.specs.Prelude.{◌≡◌, ◌<◌, ◌≤◌, drop, length, if◌then◌else◌, None, Some};
ghost use Rattle.shapers_normal.specs.Sorting.{classes};
ghost use Rattle.shapers_pipeline.specs.ByShaper.{composed_for, decomposed_for, is_character, ordered_for};

use rustybuzz_shapers::shaper::hb_ot_shaper_t;
use rustybuzz_shapers::{ot_shaper_arabic, ot_shaper_hebrew};
use shapers_base::buffer::{BufferClusterLevel, hb_glyph_info_t};
use shapers_base::font::Tables;
use shapers_base::plan::hb_ot_shape_plan_t;

// The character of a number.
#[inline]
pub(crate) fn character(c: u32) -> Option<char>
    ensures { result ≡ (if is_character c then Some c else None) }
{
    char::from_u32(c)
}

// What a character decomposes to.
#[inline]
pub(crate) fn decompose<T: Tables>(
    shaper: Option<hb_ot_shaper_t>,
    plan: &hb_ot_shape_plan_t,
    tables: &T,
    ab: char,
) -> Option<(char, char)>
    ensures { result ≡ decomposed_for shaper (T.tables tables.now) ab }
{
    let Some(shaper) = shaper else {
        return tables.decompose(ab);
    };
    match shaper.decompose(plan, tables, ab) {
        Some(parts) => parts,
        None => tables.decompose(ab),
    }
}

// What two characters compose to.
#[inline]
pub(crate) fn compose<T: Tables>(
    shaper: Option<hb_ot_shaper_t>,
    plan: &hb_ot_shape_plan_t,
    tables: &T,
    a: char,
    b: char,
) -> Option<char>
    ensures { result ≡ composed_for shaper plan.now (T.tables tables.now) a b }
{
    let Some(shaper) = shaper else {
        return tables.compose(a, b);
    };
    match shaper.compose(plan, tables, a, b) {
        Some(whole) => whole,
        None => tables.compose(a, b),
    }
}

// Orders the marks from `start` to `end`.
#[inline]
pub(crate) fn order_marks(
    shaper: Option<hb_ot_shaper_t>,
    level: BufferClusterLevel,
    glyphs: &mut [hb_glyph_info_t],
    start: usize,
    end: usize,
)
    requires in_order { start < end }
    requires in_range { end ≤ length glyphs.old }
    ensures marks { glyphs.new ≡ ordered_for shaper level start end glyphs.old }
    ensures behind { drop end (classes glyphs.new) ≡ drop end (classes glyphs.old) }
{
    match shaper {
        Some(hb_ot_shaper_t::Arabic) => {
            ot_shaper_arabic::reorder_marks_in(level, glyphs, start, end);
        }
        Some(hb_ot_shaper_t::Hebrew) => {
            ot_shaper_hebrew::reorder_marks_in(level, glyphs, start, end);
        }
        _ => {}
    }
}

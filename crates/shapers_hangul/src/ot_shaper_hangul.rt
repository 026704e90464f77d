//! The shaper of Hangul.
ghost use Rattle.std.specs.Prelude.{◌≡◌, ◌%◌, Ok, OnOk, OnErr, IsOk, IsOkUnless, false, true, length, map, []};
ghost use Rattle.shapers_buffer.specs.declared.buffer.refusal.ShaperError.TheVariants.{Memory};
ghost use Rattle.shapers_base.specs.Planner.{with_requests};
ghost use Rattle.std.specs.List.{All};
ghost use Rattle.shapers_base.specs.declared.plan.PlanData.TheVariants.{Hangul};
ghost use Rattle.shapers_buffer.specs.Refusals.{RefusesLength};
ghost use Rattle.shapers_hangul.specs.Hangul.{rewritten, rewritten_by};
ghost use Rattle.shapers_hangul.specs.HangulLaws.{AllKept, KeepsClusters, KeepsGlyphFlags, SpellsByUnits, SpellsSame};
ghost use Rattle.shapers_clusters.specs.FlagLaw.{OnlyFlagsAdded};
ghost use Rattle.shapers_hangul.specs.Masks.{jamo_masks, is_hangul_data, with_jamo_masks};
ghost use Rattle.shapers_base.specs.Masks.{masks_stored, with_numbered_mask};
ghost use Rattle.shapers_hangul.specs.Requests.{hangul_list, hangul_overrides};

pub use laws::{rewriting_law, spelling_law};
use rewriting::{rewrite, rewrite_changes};
use shapers_base::buffer::{change_each_by_in, hb_buffer_t, hb_glyph_info_t, hb_tag_t};
use shapers_base::font::hb_font_t;
use shapers_base::map::{F_GLOBAL, F_NONE};
use shapers_base::plan::{
    PlanData, Request, ShaperError, hangul_shape_plan_t, hb_ot_shape_plan_t, hb_ot_shape_planner_t,
};

mod item;
mod jamo;
mod laws;
mod rewriting;

// The forms of leading consonants, vowels and trailing consonants.
const REQUESTS: [Request; 3] = [
    Request::Feature(hb_tag_t(*b"ljmo"), F_NONE, 1),
    Request::Feature(hb_tag_t(*b"vjmo"), F_NONE, 1),
    Request::Feature(hb_tag_t(*b"tjmo"), F_NONE, 1),
];

// Some fonts put all jamo forms into `calt` as well, so it stays off.
const OVERRIDES: [Request; 1] = [Request::Feature(hb_tag_t(*b"calt"), F_GLOBAL, 0)];

/// Requests the forms of jamo.
/// The only refusal is `Memory`, which leaves the planner as it was.
pub fn collect_features(planner: &mut hb_ot_shape_planner_t) -> Result<(), ShaperError>
    ensures ok { OnOk result (planner.new ≡ with_requests hangul_list planner.old) }
    ensures refusal { IsOkUnless result Memory }
    ensures err { OnErr result (planner.new ≡ planner.old) }
{
    planner.add_requests(&REQUESTS)
}

/// Turns off what fonts mix up with the forms of jamo.
/// The only refusal is `Memory`, which leaves the planner as it was.
pub fn override_features(planner: &mut hb_ot_shape_planner_t) -> Result<(), ShaperError>
    ensures ok { OnOk result (planner.new ≡ with_requests hangul_overrides planner.old) }
    ensures refusal { IsOkUnless result Memory }
    ensures err { OnErr result (planner.new ≡ planner.old) }
{
    planner.add_requests(&OVERRIDES)
}

/// Rewrites a Hangul text before its characters become glyphs, unit by unit: jamo that combine
/// become one syllable character where the font has it, else they are marked for the features of
/// jamo; so are the jamo of a syllable character that the font lacks. A tone moves before the
/// syllable that it follows, unless it has advance 0; without one it gets a dotted circle. What a
/// break would tear apart is flagged, by the plan's `break_flags`. Refuses as a growth to the length
/// of the result does, and never where every character stays as it is. (The Unicode Standard,
/// "Conjoining Jamo Behavior"; OpenType's notes on Hangul.)
#[inline]
pub fn preprocess_text<F: hb_font_t>(
    plan: &hb_ot_shape_plan_t,
    face: &F,
    buffer: &mut hb_buffer_t,
) -> Result<(), ShaperError>
    requires { buffer.old.positions ≡ [] }
    ensures ok { let breaks = plan.now.break_flags in
        OnOk result (buffer.new ≡ rewritten_by breaks (F.font face.now) buffer.old) }
    ensures clusters { OnOk result (KeepsClusters (F.font face.now) buffer.old buffer.new) }
    ensures flags { OnOk result (KeepsGlyphFlags (F.font face.now) buffer.old buffer.new) }
    ensures spelling { OnOk result (SpellsSame buffer.old buffer.new) }
    ensures units { OnOk result (SpellsByUnits (F.font face.now) buffer.old buffer.new) }
    ensures length { let text = (rewritten (F.font face.now) buffer.old).glyphs in
        RefusesLength buffer.old.max_len (length text) result }
    ensures err { OnErr result (buffer.new ≡ buffer.old) }
    ensures kept { AllKept (F.font face.now) buffer.old → IsOk result }
{
    rewrite(plan.break_flags, face, buffer)
}

/// `preprocess_text`, which returns whether it rewrote the text: just where every character stays as
/// it is, it returns false, and has changed nothing.
///
/// # Errors
///
/// `TooLong` where the buffer would be longer than `max_len`, `Memory` where memory is refused;
/// nothing has changed then.
#[inline]
pub fn preprocess_text_changes<F: hb_font_t>(
    plan: &hb_ot_shape_plan_t,
    face: &F,
    buffer: &mut hb_buffer_t,
) -> Result<bool, ShaperError>
    requires { buffer.old.positions ≡ [] }
    ensures ok { let breaks = plan.now.break_flags in
        OnOk result (buffer.new ≡ rewritten_by breaks (F.font face.now) buffer.old) }
    ensures clusters { OnOk result (KeepsClusters (F.font face.now) buffer.old buffer.new) }
    ensures flags { OnOk result (KeepsGlyphFlags (F.font face.now) buffer.old buffer.new) }
    ensures spelling { OnOk result (SpellsSame buffer.old buffer.new) }
    ensures units { OnOk result (SpellsByUnits (F.font face.now) buffer.old buffer.new) }
    ensures kept { AllKept (F.font face.now) buffer.old → result ≡ Ok false }
    ensures changes { result ≡ Ok false → AllKept (F.font face.now) buffer.old }
    ensures unchanged { result ≡ Ok false → buffer.new ≡ buffer.old }
    ensures length { let text = (rewritten (F.font face.now) buffer.old).glyphs in
        RefusesLength buffer.old.max_len (length text) result }
    ensures err { OnErr result (buffer.new ≡ buffer.old) }
{
    rewrite_changes(plan.break_flags, face, buffer)
}

/// Keeps the masks of the features of jamo in the plan. None of them touches a glyph flag bit.
pub fn create_data(plan: &hb_ot_shape_plan_t) -> PlanData
    ensures masks { result ≡ Hangul (record { mask_array = jamo_masks plan.now.ot_map }) }
    ensures off_flags { All (λ mask. mask % 8 ≡ 0) (masks_stored result) }
{
    PlanData::Hangul(hangul_shape_plan_t {
        mask_array: [
            0,
            plan.ot_map.get_1_mask(hb_tag_t(*b"ljmo")),
            plan.ot_map.get_1_mask(hb_tag_t(*b"vjmo")),
            plan.ot_map.get_1_mask(hb_tag_t(*b"tjmo")),
        ],
    })
}

// Gives a glyph, besides its own mask, the one of the feature in its auxiliary byte.
#[inline]
fn add_numbered_mask(masks: &[u32; 4], glyph: &mut hb_glyph_info_t)
    ensures { glyph.new ≡ with_numbered_mask masks.now glyph.old }
{
    let feature = usize::from(glyph.auxiliary);
    glyph.mask |= masks.get(feature).copied().unwrap_or(0);
}

/// Gives each of these glyphs, besides its own mask, the one of the feature in its auxiliary byte.
#[inline]
pub fn setup_masks_in(hangul_plan: &hangul_shape_plan_t, glyphs: &mut [hb_glyph_info_t])
    ensures { glyphs.new ≡ map (with_numbered_mask hangul_plan.now.mask_array) glyphs.old }
{
    let masks = &hangul_plan.mask_array;
    change_each_by_in(glyphs, |glyph| add_numbered_mask(masks, glyph));
}

/// Gives each glyph, besides its own mask, the one of the feature in its auxiliary byte: none for
/// 0, then those of leading, vowel and trailing jamo. It takes no memory.
#[inline]
pub fn setup_masks(plan: &hb_ot_shape_plan_t, buffer: &mut hb_buffer_t)
    requires { is_hangul_data plan.now.plan_data ≡ true }
    ensures masks { buffer.new ≡ with_jamo_masks plan.now.plan_data buffer.old }
    ensures flags { OnlyFlagsAdded buffer.old.glyphs buffer.new.glyphs }
{
    match &plan.plan_data {
        PlanData::Hangul(data) => {
            let masks = &data.mask_array;
            buffer.change_all_by(|glyph| add_numbered_mask(masks, glyph));
        }
        _ => unreachable!("the plan has no data of the Hangul shaper"),
    }
}

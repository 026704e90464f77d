//! Thai and Lao: SARA AM in two, and for fonts whose GSUB table doesn't know Thai its private use
//! forms.
ghost use Rattle.std.specs.Prelude.{◌≡◌, ◌||◌, [], length, false, IfOk, IsOk, Ok, OnOk, OnErr};
ghost use Rattle.std.specs.List.{list_any};
ghost use Rattle.shapers_buffer.specs.Glyph.{clusters, characters};
ghost use Rattle.shapers_buffer.specs.Refusals.{RefusesLength};
ghost use Rattle.shapers_text.specs.Thai.{is_sara_am, glyphs_in_two, is_thai};
ghost use Rattle.shapers_text.specs.ThaiForms.{asks_for_forms, preprocessed_in_thai};
ghost use Rattle.shapers_text.specs.ThaiLaws.{ClustersInTwo, FlagsInTwo, KeptInTwo};

use shapers_base::buffer::{Script, ShaperError, hb_buffer_t};
use shapers_base::font::hb_font_t;
use shapers_base::map::TableIndex;
use shapers_base::plan::hb_ot_shape_plan_t;

mod forms;
mod laws;
mod sara_am;

use forms::do_pua_shaping;
pub use laws::{forms_law, in_two_law};
use sara_am::{has_sara_am, rewrite_sara_am};

// The script Thai.
const THAI: Script = Script(*b"Thai");

/// Rewrites a Thai or Lao text before its characters become glyphs: each SARA AM becomes NIKHAHIT,
/// which goes before the above-base marks there, and SARA AA. Then, where the plan's script is Thai
/// and GSUB doesn't have it, marks and bases get their private use forms, as far as the font has
/// them, and are flagged by the plan's `break_flags`.
/// Refuses as a growth does, and takes no memory for a text without SARA AM. (OpenType's notes on
/// Thai and Lao, and the note on Thai OpenType shaping.)
#[inline]
pub fn preprocess_text<F: hb_font_t>(
    plan: &hb_ot_shape_plan_t,
    face: &F,
    buffer: &mut hb_buffer_t,
) -> Result<(), ShaperError>
    requires { buffer.old.positions ≡ [] }
    ensures ok { let new = preprocessed_in_thai plan.now (F.font face.now) buffer.old in
        OnOk result (buffer.new ≡ new) }
    ensures clusters { let us = characters buffer.old.glyphs in
        let cs = clusters buffer.old.glyphs in
        OnOk result (ClustersInTwo buffer.old.level us cs (clusters buffer.new.glyphs)) }
    ensures flags { OnOk result (FlagsInTwo buffer.old.glyphs buffer.new.glyphs) }
    ensures kept { let forms = asks_for_forms plan.now in
        OnOk result (KeptInTwo forms buffer.old.glyphs buffer.new.glyphs) }
    ensures length { let wanted = length (glyphs_in_two buffer.old.glyphs) in
        RefusesLength buffer.old.max_len wanted result }
    ensures err { OnErr result (buffer.new ≡ buffer.old) }
    ensures without { let some = list_any (λ g. is_sara_am g.glyph_id) buffer.old.glyphs in
        some ≡ false → IsOk result }
{
    rewrite_sara_am(buffer)?;
    if wants_forms(plan) {
        do_pua_shaping(plan.break_flags, face, buffer);
    }
    Ok(())
}

/// `preprocess_text`, which returns whether it rewrote the text: where there is no SARA AM and the
/// plan wants no private use forms, it returns false and has changed nothing.
///
/// # Errors
///
/// `TooLong` where the buffer would be longer than `max_len`, `Memory` where memory is refused;
/// nothing has changed then.
pub fn preprocess_text_changes<F: hb_font_t>(
    plan: &hb_ot_shape_plan_t,
    face: &F,
    buffer: &mut hb_buffer_t,
) -> Result<bool, ShaperError>
    requires { buffer.old.positions ≡ [] }
    ensures ok { let new = preprocessed_in_thai plan.now (F.font face.now) buffer.old in
        OnOk result (buffer.new ≡ new) }
    ensures changes { let some = list_any (λ g. is_sara_am g.glyph_id) buffer.old.glyphs in
        IfOk result (λ changes. changes ≡ (some || asks_for_forms plan.now)) }
    ensures clusters { let us = characters buffer.old.glyphs in
        let cs = clusters buffer.old.glyphs in
        OnOk result (ClustersInTwo buffer.old.level us cs (clusters buffer.new.glyphs)) }
    ensures flags { OnOk result (FlagsInTwo buffer.old.glyphs buffer.new.glyphs) }
    ensures kept { let forms = asks_for_forms plan.now in
        OnOk result (KeptInTwo forms buffer.old.glyphs buffer.new.glyphs) }
    ensures unchanged { result ≡ Ok false → buffer.new ≡ buffer.old }
    ensures length { let wanted = length (glyphs_in_two buffer.old.glyphs) in
        RefusesLength buffer.old.max_len wanted result }
    ensures err { OnErr result (buffer.new ≡ buffer.old) }
    ensures without { let some = list_any (λ g. is_sara_am g.glyph_id) buffer.old.glyphs in
        some ≡ false → IsOk result }
{
    prove!(buffer.len() <= buffer.max_len());
    if !has_sara_am(buffer) && !wants_forms(plan) {
        return Ok(false);
    }
    preprocess_text(plan, face, buffer)?;
    Ok(true)
}

// Whether the plan wants private use forms.
fn wants_forms(plan: &hb_ot_shape_plan_t) -> bool
    ensures { result ≡ asks_for_forms plan.now }
{
    is_thai(plan.script) && !plan.ot_map.found_script(TableIndex::GSUB)
}

// Whether the script is Thai.
fn is_thai(script: Option<Script>) -> bool
    ensures { result ≡ is_thai script }
{
    match script {
        None => false,
        Some(script) => script == THAI,
    }
}

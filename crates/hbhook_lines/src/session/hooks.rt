//! The lines `run NAME ..`: the conditions of a call are tested before the call is made.
ghost use Rattle.std.specs.Prelude.{◌≡◌, ◌≤◌, ◌↔◌, [], is_ok, All, IsTrue, OnOk};
ghost use Rattle.rustybuzz_shapers.specs.Hooks.{PlanFits};

use super::Session;
use crate::text::prepare;
use hbhook_commands::{Expected, HookCall, LineFault};
use rustybuzz_shapers::buffer::{Span, hb_glyph_info_t};
use rustybuzz_shapers::plan::hb_ot_shape_plan_t;
use rustybuzz_shapers::shaper::checked::{CallError, Condition};
use rustybuzz_shapers::shaper::{Pause, Preprocess, hb_ot_shaper_t, pause_fits, run_pause};
use shapers_pipeline::TextPlan;
use shapers_plan::ot_shape_plan::driver_masks;

// The conditions of calls.
const SHAPER: Expected = Expected::Condition("a line `set shaper` before it");

const NO_POSITIONS: Expected = Expected::Condition(
    "no positions: a line `set positions no` before it",
);

const POSITIONS: Expected = Expected::Condition(
    "positions: a line `set positions yes` before it, and after the text",
);

const CHARACTERS: Expected = Expected::Condition("a buffer whose glyphs are characters");

const GLYPH_NUMBERS: Expected = Expected::Condition("glyphs whose numbers are at most 65535");

const JAMO: Expected = Expected::Condition("glyphs whose auxiliary bytes are at most 3");

const PLACES: Expected = Expected::Condition(
    "a first place up to the end, and an end up to the buffer's length",
);

const MARKS: Expected = Expected::Condition("32 places at most");

const KINDS: Expected = Expected::Condition("spans whose kinds are at most 15");

const DATA: Expected = Expected::Condition("a shaper that keeps what the pause reads");

impl Session {
    /// Calls a hook of the shaper. Without a shaper, and where the call's conditions fail, the line
    /// is rejected.
    pub(super) fn run(&mut self, call: HookCall) -> Result<(), LineFault> {
        let shaper = self.shaper().ok_or(LineFault::Unreadable(SHAPER))?;
        let plan = shaper.with_data(self.settings.plan()?);
        match call {
            HookCall::Text => self.prepare(shaper, &plan),
            HookCall::Preprocess => self.preprocess(shaper, &plan),
            HookCall::Masks => self.set_masks(shaper, &plan),
            HookCall::Postprocess => self.postprocess(shaper, &plan),
            HookCall::Marks(start, end) => self.reorder_marks(shaper, &plan, start, end),
            HookCall::Compose(a, b) => self.compose(shaper, &plan, a, b),
            HookCall::Decompose(ab) => self.decompose(shaper, &plan, ab),
            HookCall::Pause(pause) => self.pause(&plan, pause),
        }
    }

    // All that comes before the font's lookups.
    fn prepare(
        &mut self,
        shaper: hb_ot_shaper_t,
        plan: &hb_ot_shape_plan_t,
    ) -> Result<(), LineFault> {
        let plan = TextPlan {
            shaper: Some(shaper),
            plan,
            direction: self.buffer.direction(),
            masks: driver_masks(&plan.ot_map),
            ranges: &[],
        };
        let (font, tables) = (&self.settings.font, &self.settings.tables);
        match prepare(&plan, font, tables, &mut self.buffer) {
            Ok(()) => Ok(()),
            Err(CallError::Condition(Condition::Positions)) => {
                Err(LineFault::Unreadable(NO_POSITIONS))
            }
            Err(CallError::Condition(_)) => Err(LineFault::Unreadable(CHARACTERS)),
            Err(CallError::Refused(refusal)) => Err(LineFault::Refused(refusal)),
        }
    }

    // The hook before normalization.
    fn preprocess(
        &mut self,
        shaper: hb_ot_shaper_t,
        plan: &hb_ot_shape_plan_t,
    ) -> Result<(), LineFault> {
        self.check_no_positions()?;
        check(text_fits(shaper, self.buffer.glyphs()), CHARACTERS)?;
        let answer = shaper.preprocess_text(plan, &self.settings.font, &mut self.buffer)?;
        match answer {
            Some(Preprocess::Done) => Ok(()),
            Some(Preprocess::CallerRunsVowelConstraints) => self.answer("caller"),
            None => self.answer("absent"),
        }
    }

    // The hook that sets masks.
    fn set_masks(
        &mut self,
        shaper: hb_ot_shaper_t,
        plan: &hb_ot_shape_plan_t,
    ) -> Result<(), LineFault>
        requires { PlanFits shaper plan.now }
    {
        self.check_no_positions()?;
        check(shaper.glyphs_fit(plan, &self.buffer), CHARACTERS)?;
        check(auxiliary_bytes_fit(shaper, self.buffer.glyphs()), JAMO)?;
        let (font, tables) = (&self.settings.font, &self.settings.tables);
        let done = shaper.setup_masks(plan, font, tables, &mut self.buffer);
        self.answer_if_absent(done)
    }

    // The hook after positioning.
    fn postprocess(
        &mut self,
        shaper: hb_ot_shaper_t,
        plan: &hb_ot_shape_plan_t,
    ) -> Result<(), LineFault> {
        check(self.buffer.positions_len() == self.buffer.len(), POSITIONS)?;
        check(shaper.postprocess_fits(plan, &self.buffer), GLYPH_NUMBERS)?;
        let done = shaper.postprocess_glyphs(plan, &self.settings.font, &mut self.buffer)?;
        self.answer_if_absent(done)
    }

    // The hook that reorders the marks from `start` to `end`.
    fn reorder_marks(
        &mut self,
        shaper: hb_ot_shaper_t,
        plan: &hb_ot_shape_plan_t,
        start: usize,
        end: usize,
    ) -> Result<(), LineFault> {
        self.check_no_positions()?;
        check(start <= end && end <= self.buffer.len(), PLACES)?;
        check(shaper.marks_fit(start, end), MARKS)?;
        let done = shaper.reorder_marks(plan, &mut self.buffer, start, end);
        self.answer_if_absent(done)
    }

    // The hook that composes two characters.
    fn compose(
        &mut self,
        shaper: hb_ot_shaper_t,
        plan: &hb_ot_shape_plan_t,
        a: char,
        b: char,
    ) -> Result<(), LineFault> {
        match shaper.compose(plan, &self.settings.tables, a, b) {
            Some(Some(ab)) => Ok(writeln!(self.answers, "{:04x}", u32::from(ab))?),
            Some(None) => self.answer("none"),
            None => self.answer("absent"),
        }
    }

    // The hook that decomposes a character.
    fn decompose(
        &mut self,
        shaper: hb_ot_shaper_t,
        plan: &hb_ot_shape_plan_t,
        ab: char,
    ) -> Result<(), LineFault> {
        match shaper.decompose(plan, &self.settings.tables, ab) {
            Some(Some((a, b))) => {
                writeln!(self.answers, "{:04x} {:04x}", u32::from(a), u32::from(b))?;
                Ok(())
            }
            Some(None) => self.answer("none"),
            None => self.answer("absent"),
        }
    }

    // A pause, which reads the spans so far.
    fn pause(&mut self, plan: &hb_ot_shape_plan_t, pause: Pause) -> Result<(), LineFault> {
        self.check_no_positions()?;
        check(kinds_fit(self.settings.spans.as_slice()), KINDS)?;
        check(pause_fits(pause, plan), DATA)?;
        check(
            glyph_numbers_fit(pause, self.buffer.glyphs()),
            GLYPH_NUMBERS,
        )?;
        let (font, spans) = (&self.settings.font, self.settings.spans.as_slice());
        run_pause(pause, plan, font, spans, &mut self.buffer)?;
        Ok(())
    }

    // The condition of the calls before positioning: no positions.
    fn check_no_positions(&self) -> Result<(), LineFault>
        ensures { OnOk result (self.now.buffer.positions ≡ []) }
    {
        check(self.buffer.positions_len() == 0, NO_POSITIONS)
    }

    // Prints that a hook is absent, where it is.
    fn answer_if_absent(&mut self, done: Option<()>) -> Result<(), LineFault> {
        match done {
            Some(()) => Ok(()),
            None => self.answer("absent"),
        }
    }

    // Keeps a line that the run prints before the glyphs.
    fn answer(&mut self, line: &str) -> Result<(), LineFault> {
        writeln!(self.answers, "{line}")?;
        Ok(())
    }
}

// A condition, without which the line is rejected.
fn check(holds: bool, condition: Expected) -> Result<(), LineFault>
    ensures { is_ok result ≡ holds }
{
    if holds {
        Ok(())
    } else {
        Err(LineFault::Unreadable(condition))
    }
}

// Whether these glyphs are such as `preprocess` is given: for Hangul, characters.
fn text_fits(shaper: hb_ot_shaper_t, glyphs: &[hb_glyph_info_t]) -> bool {
    let is_character = |glyph: &hb_glyph_info_t| char::from_u32(glyph.glyph_id).is_some();
    !matches!(shaper, hb_ot_shaper_t::Hangul) || glyphs.iter().all(is_character)
}

// Whether these auxiliary bytes are such as `masks` is given: for Hangul 0, or a kind of jamo.
fn auxiliary_bytes_fit(shaper: hb_ot_shaper_t, glyphs: &[hb_glyph_info_t]) -> bool {
    !matches!(shaper, hb_ot_shaper_t::Hangul) || glyphs.iter().all(|glyph| glyph.auxiliary <= 3)
}

// Whether these glyphs are such as the pause is given: for the initial reordering of Indic,
// numbered as a font's are.
fn glyph_numbers_fit(pause: Pause, glyphs: &[hb_glyph_info_t]) -> bool {
    !matches!(pause, Pause::InitialReordering) || glyphs.iter().all(|glyph| glyph.glyph_id <= 65535)
}

// Whether the kind of each span fits the four bits that it has.
fn kinds_fit(spans: &[Span]) -> bool
    ensures { IsTrue result ↔ All (λ span. span.kind ≤ 15) spans.now }
{
    spans.iter().all(|span| span.kind <= 15)
}

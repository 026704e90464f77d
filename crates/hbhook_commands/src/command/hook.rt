//! The lines `run NAME ..`.
use super::fields::{character, decimal};
use crate::expected::{COUNT, Expected};
use crate::fault::LineFault;
use shapers_base::plan::Pause;

// What may follow `run`.
const CALLS: &str =
    "run text, run preprocess, run masks, run postprocess, run marks S E, run compose A B, \
    run decompose A, run pause NAME";

// The names of the pauses.
const PAUSES: &str = "setup_syllables_indic, setup_syllables_khmer, setup_syllables_myanmar, \
    setup_syllables_use, initial_reordering, final_reordering, reorder_khmer, reorder_myanmar, \
    reorder_use, record_rphf, record_pref, record_stch, arabic_fallback_shape, \
    syllabic_clear_var, clear_substitution_flags";

/// A hook or a pause, and its arguments.
#[derive(Clone, Copy)]
pub enum HookCall {
    /// All that comes before the font's lookups.
    Text,
    Preprocess,
    Masks,
    Postprocess,
    /// `marks S E`: the stretch whose marks are ordered.
    Marks(usize, usize),
    Compose(char, char),
    Decompose(char),
    Pause(Pause),
}

impl HookCall {
    /// The hook that the first field names, with the others as its arguments.
    pub(super) fn parse(fields: &[&str]) -> Result<HookCall, LineFault> {
        match *fields {
            ["text"] => Ok(HookCall::Text),
            ["preprocess"] => Ok(HookCall::Preprocess),
            ["masks"] => Ok(HookCall::Masks),
            ["postprocess"] => Ok(HookCall::Postprocess),
            ["marks", start, end] => Ok(HookCall::Marks(
                decimal(start, COUNT)?,
                decimal(end, COUNT)?,
            )),
            ["compose", a, b] => Ok(HookCall::Compose(character(a)?, character(b)?)),
            ["decompose", ab] => Ok(HookCall::Decompose(character(ab)?)),
            ["pause", pause] => Ok(HookCall::Pause(pause_name(pause)?)),
            _ => Err(LineFault::Unreadable(Expected::Fields(CALLS))),
        }
    }
}

fn pause_name(name: &str) -> Result<Pause, LineFault> {
    match name {
        "setup_syllables_indic" => Ok(Pause::SetupSyllablesIndic),
        "setup_syllables_khmer" => Ok(Pause::SetupSyllablesKhmer),
        "setup_syllables_myanmar" => Ok(Pause::SetupSyllablesMyanmar),
        "setup_syllables_use" => Ok(Pause::SetupSyllablesUse),
        "initial_reordering" => Ok(Pause::InitialReordering),
        "final_reordering" => Ok(Pause::FinalReordering),
        "reorder_khmer" => Ok(Pause::ReorderKhmer),
        "reorder_myanmar" => Ok(Pause::ReorderMyanmar),
        "reorder_use" => Ok(Pause::ReorderUse),
        "record_rphf" => Ok(Pause::RecordRphf),
        "record_pref" => Ok(Pause::RecordPref),
        "record_stch" => Ok(Pause::RecordStch),
        "arabic_fallback_shape" => Ok(Pause::ArabicFallbackShape),
        "syllabic_clear_var" => Ok(Pause::SyllabicClearVar),
        "clear_substitution_flags" => Ok(Pause::ClearSubstitutionFlags),
        _ => Err(LineFault::Unreadable(Expected::Word(PAUSES))),
    }
}

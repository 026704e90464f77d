//! The lines `set K V`.
use super::fields::{decimal, four_characters, hexadecimal, yes_or_no};
use crate::expected::{COUNT, Expected};
use crate::fault::LineFault;
use crate::tables::OtherCharacters;
use bitflags::Flags;
use rustybuzz_shapers::shaper::hb_ot_shaper_t;
use shapers_base::buffer::{BufferClusterLevel, BufferFlags, Direction, Script, hb_tag_t};
use shapers_base::plan::{BaseSearch, BreakFlags, StretchStart};

// The names of the settings.
const KEYS: &str = "shaper, script, chosen, found, gposmark, direction, level, flags, maxlen, \
    global, positions, stretch, breaks, base, tables";

// The names of the shapers.
const SHAPERS: &str = "arabic, hangul, hebrew, indic, khmer, myanmar, zawgyi, thai, universal";

// The levels of clusters.
const LEVEL: Expected = Expected::Number(2);

/// A setting and its value.
#[derive(Clone, Copy)]
pub enum Setting {
    Shaper(hb_ot_shaper_t),
    /// The script of the plan and of the buffer.
    Script(Script),
    /// The script chosen in the font.
    Chosen(hb_tag_t),
    /// Whether the font has the script.
    Found(bool),
    /// Whether the font positions marks.
    GposMark(bool),
    Direction(Direction),
    Level(BufferClusterLevel),
    Flags(BufferFlags),
    MaxLen(usize),
    /// The mask of the features that are on everywhere.
    Global(u32),
    /// Whether the buffer has positions.
    Positions(bool),
    /// Where the tiles of a stretched mark begin.
    Stretch(StretchStart),
    /// Which places are flagged unsafe to break.
    Breaks(BreakFlags),
    /// Among which consonants Indic looks for the base of a syllable.
    Base(BaseSearch),
    /// What holds of characters without a line.
    Tables(OtherCharacters),
}

impl Setting {
    /// The setting of this name, with its value.
    pub(super) fn parse(key: &str, value: &str) -> Result<Setting, LineFault> {
        match key {
            "shaper" => Ok(Setting::Shaper(named_shaper(value)?)),
            "script" => Ok(Setting::Script(Script(four_characters(value)?))),
            "chosen" => Ok(Setting::Chosen(hb_tag_t(four_characters(value)?))),
            "found" => Ok(Setting::Found(yes_or_no(value)?)),
            "gposmark" => Ok(Setting::GposMark(yes_or_no(value)?)),
            "direction" => Ok(Setting::Direction(direction(value)?)),
            "level" => Ok(Setting::Level(cluster_level(value)?)),
            "flags" => Ok(Setting::Flags(buffer_flags(value)?)),
            "maxlen" => Ok(Setting::MaxLen(decimal(value, COUNT)?)),
            "global" => Ok(Setting::Global(hexadecimal(value)?)),
            "positions" => Ok(Setting::Positions(yes_or_no(value)?)),
            "stretch" => Ok(Setting::Stretch(stretch_start(value)?)),
            "breaks" => Ok(Setting::Breaks(break_flags(value)?)),
            "base" => Ok(Setting::Base(base_search(value)?)),
            "tables" => Ok(Setting::Tables(other_characters(value)?)),
            _ => Err(LineFault::Unreadable(Expected::Word(KEYS))),
        }
    }
}

fn named_shaper(name: &str) -> Result<hb_ot_shaper_t, LineFault> {
    match name {
        "arabic" => Ok(hb_ot_shaper_t::Arabic),
        "hangul" => Ok(hb_ot_shaper_t::Hangul),
        "hebrew" => Ok(hb_ot_shaper_t::Hebrew),
        "indic" => Ok(hb_ot_shaper_t::Indic),
        "khmer" => Ok(hb_ot_shaper_t::Khmer),
        "myanmar" => Ok(hb_ot_shaper_t::Myanmar),
        "zawgyi" => Ok(hb_ot_shaper_t::MyanmarZawgyi),
        "thai" => Ok(hb_ot_shaper_t::Thai),
        "universal" => Ok(hb_ot_shaper_t::Universal),
        _ => Err(LineFault::Unreadable(Expected::Word(SHAPERS))),
    }
}

fn direction(name: &str) -> Result<Direction, LineFault> {
    match name {
        "ltr" => Ok(Direction::LeftToRight),
        "rtl" => Ok(Direction::RightToLeft),
        _ => Err(LineFault::Unreadable(Expected::Word("ltr, rtl"))),
    }
}

fn cluster_level(number: &str) -> Result<BufferClusterLevel, LineFault> {
    match decimal(number, LEVEL)? {
        0 => Ok(BufferClusterLevel::MonotoneGraphemes),
        1 => Ok(BufferClusterLevel::MonotoneCharacters),
        2 => Ok(BufferClusterLevel::Characters),
        _ => Err(LineFault::Unreadable(LEVEL)),
    }
}

// Flags of a buffer; an unknown bit is rejected.
fn buffer_flags(bits: &str) -> Result<BufferFlags, LineFault> {
    let expected = Expected::Condition("no bits but 20, 40 and 80");
    BufferFlags::from_bits(hexadecimal(bits)?).ok_or(LineFault::Unreadable(expected))
}

fn stretch_start(name: &str) -> Result<StretchStart, LineFault> {
    match name {
        "code" => Ok(StretchStart::AsCode),
        "centred" => Ok(StretchStart::Centred),
        _ => Err(LineFault::Unreadable(Expected::Word("code, centred"))),
    }
}

fn break_flags(name: &str) -> Result<BreakFlags, LineFault> {
    match name {
        "code" => Ok(BreakFlags::AsCode),
        "sound" => Ok(BreakFlags::Sound),
        _ => Err(LineFault::Unreadable(Expected::Word("code, sound"))),
    }
}

fn base_search(name: &str) -> Result<BaseSearch, LineFault> {
    match name {
        "nonmedial" => Ok(BaseSearch::WithoutMedials),
        "all" => Ok(BaseSearch::AllConsonants),
        _ => Err(LineFault::Unreadable(Expected::Word("nonmedial, all"))),
    }
}

fn other_characters(name: &str) -> Result<OtherCharacters, LineFault> {
    match name {
        "lines" => Ok(OtherCharacters::Unknown),
        "unicode" => Ok(OtherCharacters::Unicode),
        _ => Err(LineFault::Unreadable(Expected::Word("lines, unicode"))),
    }
}

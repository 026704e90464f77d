//! The lines of the input: one command each.
mod fields;
mod glyph_field;
mod hook;
mod setting;

use crate::expected::{BYTE, COUNT, Expected, FOUR_BYTES, TWO_BYTES};
use crate::fault::LineFault;
use crate::tables::{CanonicalPair, CharacterEntry};
use fields::{
    character, decimal, decimal_to, four_characters, general_category, hexadecimal, signed,
};
pub use glyph_field::GlyphField;
pub use hook::HookCall;
pub use setting::Setting;
use shapers_base::buffer::{CONTEXT_LENGTH, Span, hb_tag_t};
use shapers_base::font::GlyphId;
use shapers_base::plan::hb_arabic_joining_type_t;
use std::alloc::{AllocError, Global};
use std::ops::Range;

// The first words of lines.
const COMMANDS: &str =
    "font, applies, table, pair, mask, stage, set, text, context, at, span, spans, run";

// A line of a context.
const CONTEXT: Expected = Expected::Fields("context 0 U .. or context 1 U .., with five U at most");

// How many lookups there may be.
const LOOKUPS: usize = 65536;

/// The side of the text that a context is on.
#[derive(Clone, Copy)]
pub enum Side {
    Before,
    After,
}

/// What a line does.
#[derive(Clone, Copy, Debug, PartialEq, Eq)]
pub enum LineKind {
    /// Puts a text into the buffer.
    Text,
    /// Writes to the glyphs of the buffer or to their positions.
    Glyphs,
    /// Calls a hook of the shaper.
    Run,
    /// Sets what later lines read.
    Setting,
}

/// One line of input.
#[derive(Drop)]
pub enum Command {
    /// `font U G W`: a character's glyph, and the glyph's advance.
    Font(char, GlyphId, i32),
    /// `applies I G G` or with three G: glyphs to which a lookup would apply.
    Applies(u16, Vec<GlyphId>),
    /// `table U J GC K P X`: what the tables say of a character.
    Table(char, CharacterEntry),
    /// `pair A B C`: A and B compose to C, and C decomposes to them.
    Pair(CanonicalPair),
    /// `mask T M`: a feature's mask.
    Mask(hb_tag_t, u32),
    /// `stage T I I`: a feature's lookups.
    Stage(hb_tag_t, Range<usize>),
    /// `set K V`
    Set(Setting),
    /// `text U ..`: the characters of the buffer, by numbers or themselves.
    Text(Vec<char>),
    /// `context 0 U ..` or `context 1 U ..`: the nearest characters on one side.
    Context(Side, Vec<char>),
    /// `at I FIELD V`: a field of the glyph at a place.
    At(usize, GlyphField),
    /// `span L K`: one more span.
    Span(Span),
    /// `spans found`: the spans that the shaper's grammar finds in the buffer.
    FindSpans,
    /// `run NAME ..`
    Run(HookCall),
}

impl Command {
    /// The command of a line, whose fields one space separates.
    pub fn parse(alloc: Global, line: &str) -> Result<Command, LineFault> {
        let fields: Vec<&str> = line.split(' ').collect(alloc)?;
        match *fields.as_slice() {
            [word, ref fields @ ..] => read_command(alloc, word, fields),
            [] => Err(LineFault::Unreadable(Expected::Command)),
        }
    }

    /// What the line does.
    pub fn kind(&self) -> LineKind {
        match self {
            Command::Text(_) => LineKind::Text,
            Command::At(_, _) | Command::Set(Setting::Positions(_)) => LineKind::Glyphs,
            Command::Run(_) => LineKind::Run,
            _ => LineKind::Setting,
        }
    }
}

/// What a line does, if it reads.
pub fn kind_of_line(alloc: Global, line: &[u8]) -> Result<LineKind, LineFault> {
    Ok(read_line(alloc, line)?.kind())
}

/// The command of a line, which is text.
pub fn read_line(alloc: Global, line: &[u8]) -> Result<Command, LineFault> {
    let line = str::from_utf8(line).map_err(|_| LineFault::Unreadable(Expected::Text))?;
    Command::parse(alloc, line).map_err(|fault| fault.of_line(line))
}

// The command that the first word of a line names, with the line's other fields.
fn read_command(alloc: Global, word: &str, fields: &[&str]) -> Result<Command, LineFault> {
    match word {
        "font" => font_glyph(fields),
        "applies" => applies(alloc, fields),
        "table" => character_entry(fields),
        "pair" => canonical_pair(fields),
        "mask" => feature_mask(fields),
        "stage" => feature_stage(fields),
        "set" => named_setting(fields),
        "text" => Ok(Command::Text(characters(alloc, fields)?)),
        "context" => context(alloc, fields),
        "at" => field_at_place(fields),
        "span" => span(fields),
        "spans" => found_spans(fields),
        "run" => Ok(Command::Run(HookCall::parse(fields)?)),
        _ => Err(LineFault::Unreadable(Expected::Word(COMMANDS))),
    }
}

// The characters of these fields: each is the number of one, or characters themselves.
fn characters(alloc: Global, fields: &[&str]) -> Result<Vec<char>, LineFault> {
    let mut characters = Vec::with_capacity(alloc, fields.len())?;
    for field in fields {
        push_characters(&mut characters, field)?;
    }
    Ok(characters)
}

// Adds the characters of a field: of ASCII alone it is the number of one, else it is they.
fn push_characters(characters: &mut Vec<char>, field: &str) -> Result<(), LineFault> {
    if field.is_ascii() {
        characters.push(character(field)?).map_err(|_| AllocError)?;
        return Ok(());
    }
    for character in field.chars() {
        characters.push(character).map_err(|_| AllocError)?;
    }
    Ok(())
}

// A character, its glyph and the glyph's advance.
fn font_glyph(fields: &[&str]) -> Result<Command, LineFault> {
    match *fields {
        [u, glyph, advance] => {
            Ok(Command::Font(
                character(u)?,
                GlyphId(decimal(glyph, TWO_BYTES)?),
                signed(advance)?,
            ))
        }
        _ => Err(LineFault::Unreadable(Expected::Fields("font U G W"))),
    }
}

// A lookup and two or three glyphs.
fn applies(alloc: Global, fields: &[&str]) -> Result<Command, LineFault> {
    match *fields {
        [lookup, ref glyphs @ ..] if matches!(glyphs.len(), 2 | 3) => {
            Ok(Command::Applies(decimal(lookup, TWO_BYTES)?, glyph_ids(alloc, glyphs)?))
        }
        _ => Err(LineFault::Unreadable(Expected::Fields("applies I G G, or applies I G G G"))),
    }
}

// Each of these fields as a glyph.
fn glyph_ids(alloc: Global, fields: &[&str]) -> Result<Vec<GlyphId>, LineFault> {
    let mut glyphs = Vec::with_capacity(alloc, fields.len())?;
    for field in fields {
        glyphs
            .push(GlyphId(decimal(field, TWO_BYTES)?))
            .map_err(|_| AllocError)?;
    }
    Ok(glyphs)
}

// A character, its joining type, general category, Indic category, position and universal
// category.
fn character_entry(fields: &[&str]) -> Result<Command, LineFault> {
    match *fields {
        [u, joining, category, indic, position, universal] => {
            let entry = CharacterEntry {
                joining_type: joining_type(joining)?,
                general_category: general_category(category)?,
                indic_category: decimal(indic, BYTE)?,
                indic_position: decimal(position, BYTE)?,
                universal_category: decimal(universal, BYTE)?,
            };
            Ok(Command::Table(character(u)?, entry))
        }
        _ => Err(LineFault::Unreadable(Expected::Fields("table U J GC K P X"))),
    }
}

// A joining type, by its number; there is no 6.
fn joining_type(field: &str) -> Result<hb_arabic_joining_type_t, LineFault> {
    let expected = Expected::Condition("a joining type: 0, 1, 2, 3, 4, 5, 7 or 8");
    match decimal(field, expected)? {
        0 => Ok(hb_arabic_joining_type_t::U),
        1 => Ok(hb_arabic_joining_type_t::L),
        2 => Ok(hb_arabic_joining_type_t::R),
        3 => Ok(hb_arabic_joining_type_t::D),
        4 => Ok(hb_arabic_joining_type_t::GroupAlaph),
        5 => Ok(hb_arabic_joining_type_t::GroupDalathRish),
        7 => Ok(hb_arabic_joining_type_t::T),
        8 => Ok(hb_arabic_joining_type_t::X),
        _ => Err(LineFault::Unreadable(expected)),
    }
}

// Two characters and the one that they compose to.
fn canonical_pair(fields: &[&str]) -> Result<Command, LineFault> {
    match *fields {
        [a, b, c] => Ok(Command::Pair(CanonicalPair {
            first: character(a)?,
            second: character(b)?,
            whole: character(c)?,
        })),
        _ => Err(LineFault::Unreadable(Expected::Fields("pair A B C"))),
    }
}

// A feature and its mask.
fn feature_mask(fields: &[&str]) -> Result<Command, LineFault> {
    match *fields {
        [tag, mask] => Ok(Command::Mask(hb_tag_t(four_characters(tag)?), mask_of_feature(mask)?)),
        _ => Err(LineFault::Unreadable(Expected::Fields("mask T M"))),
    }
}

// A mask without a glyph flag, which are its low three bits.
fn mask_of_feature(field: &str) -> Result<u32, LineFault> {
    let mask = hexadecimal(field)?;
    if mask & 7 == 0 {
        Ok(mask)
    } else {
        let expected = Expected::Condition("a mask without its low three bits");
        Err(LineFault::Unreadable(expected))
    }
}

// A feature and its lookups, from the first to the end, which isn't among them.
fn feature_stage(fields: &[&str]) -> Result<Command, LineFault> {
    match *fields {
        [tag, first, end] => Ok(Command::Stage(
            hb_tag_t(four_characters(tag)?),
            lookups(first, end)?,
        )),
        _ => Err(LineFault::Unreadable(Expected::Fields("stage T I I"))),
    }
}

// A range of the lookups.
fn lookups(first: &str, end: &str) -> Result<Range<usize>, LineFault> {
    let expected = Expected::Condition("a first lookup up to the end, and an end up to 65536");
    let (first, end) = (decimal(first, expected)?, decimal(end, expected)?);
    if first > end || end > LOOKUPS {
        return Err(LineFault::Unreadable(expected));
    }
    Ok(first..end)
}

// What is set, and its value.
fn named_setting(fields: &[&str]) -> Result<Command, LineFault> {
    match *fields {
        [key, value] => Ok(Command::Set(Setting::parse(key, value)?)),
        _ => Err(LineFault::Unreadable(Expected::Fields("set KEY VALUE"))),
    }
}

// A side, and the characters there, of which a buffer keeps no more than a few.
fn context(alloc: Global, fields: &[&str]) -> Result<Command, LineFault> {
    match *fields {
        [side, ref us @ ..] if us.len() <= CONTEXT_LENGTH => {
            let (side, characters) = (side_of_text(side)?, characters(alloc, us)?);
            if characters.len() > CONTEXT_LENGTH {
                return Err(LineFault::Unreadable(CONTEXT));
            }
            Ok(Command::Context(side, characters))
        }
        _ => Err(LineFault::Unreadable(CONTEXT)),
    }
}

// A side of the text: 0 before it, 1 after it.
fn side_of_text(number: &str) -> Result<Side, LineFault> {
    match number {
        "0" => Ok(Side::Before),
        "1" => Ok(Side::After),
        _ => Err(LineFault::Unreadable(Expected::Number(1))),
    }
}

// A place, and a field of the glyph there.
fn field_at_place(fields: &[&str]) -> Result<Command, LineFault> {
    match *fields {
        [place, name, value] => Ok(Command::At(
            decimal(place, COUNT)?,
            GlyphField::parse(name, value)?,
        )),
        _ => Err(LineFault::Unreadable(Expected::Fields("at I FIELD V"))),
    }
}

// The word `found`.
fn found_spans(fields: &[&str]) -> Result<Command, LineFault> {
    match *fields {
        ["found"] => Ok(Command::FindSpans),
        _ => Err(LineFault::Unreadable(Expected::Fields("spans found"))),
    }
}

// A length and a kind.
fn span(fields: &[&str]) -> Result<Command, LineFault> {
    match *fields {
        [len, kind] => Ok(Command::Span(Span {
            len: decimal::<u32>(len, FOUR_BYTES)? as usize,
            kind: decimal_to(kind, 15)?,
        })),
        _ => Err(LineFault::Unreadable(Expected::Fields("span L K"))),
    }
}

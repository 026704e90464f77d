//! The private use forms of Thai, for fonts whose GSUB table doesn't know the script: marks that
//! would touch are shifted, and a descender that is in the way is left out. (The Thai note.)
ghost use Rattle.std.specs.Prelude.{◌≡◌, ◌+◌, ◌-◌, ◌^◌, ◌<◌, ◌≤◌, ◌==◌, [], length, find};
ghost use Rattle.shapers_base.specs.Font.{has_nominal};
ghost use Rattle.shapers_buffer.specs.Glyph.{characters};
ghost use Rattle.shapers_buffer.specs.GlyphFlags.{unsafe_all, unsafe_inside};
ghost use Rattle.shapers_text.specs.ThaiForms.{action_of, is_thai_mark, mappings_of, marks_flagged, shaped_by, pua_shaped, whole_mark_stretches};
ghost use Rattle.shapers_text.specs.ThaiWalk.{types_of, base_after, form_set, after_action, after_character};

use shapers_base::buffer::{GlyphWalk, hb_buffer_t, hb_glyph_info_t, unsafe_to_break_in};
use shapers_base::font::hb_font_t;
use shapers_base::plan::BreakFlags;

/// The type of a consonant.
#[allow(clippy::enum_variant_names)]
#[derive(Clone, Copy)]
enum Consonant {
    /// No ascender and no descender.
    NC,
    /// Ascending.
    AC,
    /// With a descender that a font may leave out.
    RC,
    /// With a descender that stays.
    DC,
    /// Another character.
    NotConsonant,
}

/// The type of a mark.
#[allow(clippy::enum_variant_names)]
#[derive(Clone, Copy)]
enum Mark {
    /// A vowel above.
    AV,
    /// A vowel below.
    BV,
    /// A tone, above.
    T,
    /// Another character.
    NotMark,
}

/// What a mark does.
#[allow(clippy::upper_case_acronyms)]
#[derive(Clone, Copy)]
enum Action {
    /// Nothing.
    NOP,
    /// It is shifted down.
    SD,
    /// It is shifted left.
    SL,
    /// It is shifted down and left.
    SDL,
    /// It takes the descender from its base.
    RD,
}

/// A character, its form by Windows, and its form by Macintosh.
#[derive(Clone, Copy)]
struct PuaMapping(u32, u32, u32);

static SD_MAPPINGS: [PuaMapping; 8] = [
    PuaMapping(0x0E48, 0xF70A, 0xF88B),
    PuaMapping(0x0E49, 0xF70B, 0xF88E),
    PuaMapping(0x0E4A, 0xF70C, 0xF891),
    PuaMapping(0x0E4B, 0xF70D, 0xF894),
    PuaMapping(0x0E4C, 0xF70E, 0xF897),
    PuaMapping(0x0E38, 0xF718, 0xF89B),
    PuaMapping(0x0E39, 0xF719, 0xF89C),
    PuaMapping(0x0E3A, 0xF71A, 0xF89D),
];

static SDL_MAPPINGS: [PuaMapping; 5] = [
    PuaMapping(0x0E48, 0xF705, 0xF88C),
    PuaMapping(0x0E49, 0xF706, 0xF88F),
    PuaMapping(0x0E4A, 0xF707, 0xF892),
    PuaMapping(0x0E4B, 0xF708, 0xF895),
    PuaMapping(0x0E4C, 0xF709, 0xF898),
];

static SL_MAPPINGS: [PuaMapping; 12] = [
    PuaMapping(0x0E48, 0xF713, 0xF88A),
    PuaMapping(0x0E49, 0xF714, 0xF88D),
    PuaMapping(0x0E4A, 0xF715, 0xF890),
    PuaMapping(0x0E4B, 0xF716, 0xF893),
    PuaMapping(0x0E4C, 0xF717, 0xF896),
    PuaMapping(0x0E31, 0xF710, 0xF884),
    PuaMapping(0x0E34, 0xF701, 0xF885),
    PuaMapping(0x0E35, 0xF702, 0xF886),
    PuaMapping(0x0E36, 0xF703, 0xF887),
    PuaMapping(0x0E37, 0xF704, 0xF888),
    PuaMapping(0x0E47, 0xF712, 0xF889),
    PuaMapping(0x0E4D, 0xF711, 0xF899),
];

static RD_MAPPINGS: [PuaMapping; 2] = [
    PuaMapping(0x0E0D, 0xF70F, 0xF89A),
    PuaMapping(0x0E10, 0xF700, 0xF89E),
];

/// The types of a character, as a consonant and as a mark.
#[derive(Clone, Copy)]
struct Types(Consonant, Mark);

const NC: Types = Types(Consonant::NC, Mark::NotMark);

const AC: Types = Types(Consonant::AC, Mark::NotMark);

const RC: Types = Types(Consonant::RC, Mark::NotMark);

const DC: Types = Types(Consonant::DC, Mark::NotMark);

const AV: Types = Types(Consonant::NotConsonant, Mark::AV);

const BV: Types = Types(Consonant::NotConsonant, Mark::BV);

const T: Types = Types(Consonant::NotConsonant, Mark::T);

const NO: Types = Types(Consonant::NotConsonant, Mark::NotMark);

/// The types of the characters from 0E00 to 0E5F, sixteen in a row.
#[rattlefmt::skip]
static TYPES: [Types; 96] = [
    NO, NC, NC, NC, NC, NC, NC, NC, NC, NC, NC, NC, NC, RC, DC, DC,
    RC, NC, NC, NC, NC, NC, NC, NC, NC, NC, NC, AC, NC, AC, NC, AC,
    NC, NC, NC, NC, NC, NC, NC, NC, NC, NC, NC, NC, NC, NC, NC, NO,
    NO, AV, NO, NO, AV, AV, AV, AV, BV, BV, BV, NO, NO, NO, NO, NO,
    NO, NO, NO, NO, NO, NO, NO, AV, T, T, T, T, T, AV, AV, NO,
    NO, NO, NO, NO, NO, NO, NO, NO, NO, NO, NO, NO, NO, NO, NO, NO,
];

// The types of a character. Outside the block of Thai it is neither.
#[inline]
fn types_of(u: u32) -> Types
    ensures { result ≡ types_of u }
{
    let i = u.wrapping_sub(0x0E00);
    if i < 96 { TYPES[i as usize] } else { NO }
}

// What a mark does by the types of its base and itself, with so many marks above and below since
// the base.
fn get_action(base: Consonant, mark: Mark, above: usize, below: usize) -> Action
    ensures { result ≡ action_of base mark above below }
{
    match (base, mark) {
        (Consonant::RC, Mark::BV) if below == 0 => Action::RD,
        (Consonant::NC | Consonant::AC, Mark::BV) if below == 0 => Action::NOP,
        (_, Mark::BV) => Action::SD,
        (Consonant::AC, Mark::AV) if above == 0 => Action::SL,
        (Consonant::AC, Mark::T) if above == 0 => Action::SDL,
        (Consonant::AC, Mark::T) if above == 1 => Action::SL,
        (Consonant::NC | Consonant::RC | Consonant::DC, Mark::T) if above == 0 => Action::SD,
        _ => Action::NOP,
    }
}

// The forms for what a mark does.
fn get_mappings<'a>(action: Action) -> &'a [PuaMapping]
    ensures { result.now ≡ mappings_of action }
{
    match action {
        Action::NOP => &[],
        Action::SD => &SD_MAPPINGS,
        Action::SL => &SL_MAPPINGS,
        Action::SDL => &SDL_MAPPINGS,
        Action::RD => &RD_MAPPINGS,
    }
}

// The forms of a character.
fn find_mapping(mappings: &[PuaMapping], u: u32) -> Option<PuaMapping>
    ensures { result ≡ find (λ m. m.0 == u) mappings.now }
{
    mappings.iter().copied().find(|m| m.0 == u)
}

// The first form of a character that the font has, else the character itself.
fn pua_shape<F: hb_font_t>(u: u32, action: Action, font: &F) -> u32
    ensures { result ≡ shaped_by (has_nominal (F.font font.now)) u action }
{
    match find_mapping(get_mappings(action), u) {
        None => u,
        Some(m) => {
            if font.has_glyph(m.1) {
                m.1
            } else if font.has_glyph(m.2) {
                m.2
            } else {
                u
            }
        }
    }
}

// Flags the places from a base to its last mark, which `end` stands behind: a break there would
// change the forms. The stretch to a base's last mark holds those to the others. One mark behind
// its base flags nothing.
#[inline]
fn flag_marks(glyphs: &mut [hb_glyph_info_t], base: usize, end: usize)
    requires in_order { base ≤ end - 1 }
    requires in_range { end ≤ length glyphs.old }
    ensures { glyphs.new ≡ unsafe_inside base (end - 1) glyphs.old }
{
    if end - base > 2 {
        unsafe_to_break_in(glyphs, base, end - 1);
    }
}

// Gives the glyph at `place` its form.
fn set_form<F: hb_font_t>(font: &F, glyphs: &mut [hb_glyph_info_t], place: usize, action: Action)
    requires { place < length glyphs.old }
    ensures { glyphs.new ≡ form_set (has_nominal (F.font font.now)) place action glyphs.old }
{
    glyphs[place].glyph_id = pua_shape(glyphs[place].glyph_id, action, font);
}

/// The base of the marks that come next, and how many marks stand above and below it so far.
#[derive(Clone, Copy)]
struct Base {
    place: usize,
    consonant: Consonant,
    above: usize,
    below: usize,
}

impl Base {
    // Before any base.
    const NONE: Base = Base {
        place: 0,
        consonant: Consonant::NotConsonant,
        above: 0,
        below: 0,
    };

    // Does what the mark at place `i` does: to itself, or to its base.
    fn act<F: hb_font_t>(self, font: &F, glyphs: &mut [hb_glyph_info_t], i: usize, mark: Mark)
        requires place { self.place < length glyphs.old }
        requires in_range { i < length glyphs.old }
        ensures { let has = has_nominal (F.font font.now) in
            glyphs.new ≡ after_action has self i mark glyphs.old }
    {
        let action = get_action(self.consonant, mark, self.above, self.below);
        match action {
            Action::NOP => {}
            Action::RD => set_form(font, glyphs, self.place, action),
            Action::SD | Action::SL | Action::SDL => set_form(font, glyphs, i, action),
        }
    }

    // Does what the character at place `i` does, and gives the base of what follows: a mark does
    // its action, and another character flags the marks before it.
    fn pass<F: hb_font_t>(self, font: &F, glyphs: &mut [hb_glyph_info_t], i: usize, u: u32) -> Base
        requires place { self.place ≤ i - 1 }
        requires in_range { i < length glyphs.old }
        requires above { self.above + 1 < 2 ^ 64 }
        requires below { self.below + 1 < 2 ^ 64 }
        ensures base { result ≡ base_after self i u }
        ensures glyphs { let has = has_nominal (F.font font.now) in
            glyphs.new ≡ after_character has self i u glyphs.old }
    {
        let Types(consonant, mark) = types_of(u);
        if matches!(mark, Mark::NotMark) {
            flag_marks(glyphs, self.place, i);
            return Base {
                place: i,
                consonant,
                ..Base::NONE
            };
        }
        self.act(font, glyphs, i, mark);
        if matches!(mark, Mark::BV) {
            Base {
                below: self.below + 1,
                ..self
            }
        } else {
            Base {
                above: self.above + 1,
                ..self
            }
        }
    }
}

// Gives each mark, or its base, its form, and flags the marks of each base.
fn shape_marks<F: hb_font_t>(font: &F, glyphs: &mut [hb_glyph_info_t])
    ensures { glyphs.new ≡ pua_shaped (has_nominal (F.font font.now)) glyphs.old }
{
    let mut base = Base::NONE;
    for i in 0..glyphs.len() {
        let u = glyphs[i].glyph_id;
        base = base.pass(font, glyphs, i, u);
    }
    let end = glyphs.len();
    flag_marks(glyphs, base.place, end);
}

// Whether a character is a mark.
#[inline]
fn is_mark(u: u32) -> bool
    ensures { result ≡ is_thai_mark u }
{
    let Types(_, mark) = types_of(u);
    !matches!(mark, Mark::NotMark)
}

// Flags each base with all its marks.
fn flag_whole_marks(glyphs: &mut [hb_glyph_info_t])
    ensures { glyphs.new ≡ unsafe_all (whole_mark_stretches (characters glyphs.old)) glyphs.old }
{
    let mut base = 0;
    for i in 0..glyphs.len() {
        if !is_mark(glyphs[i].glyph_id) {
            unsafe_to_break_in(glyphs, base, i);
            base = i;
        }
    }
    let end = glyphs.len();
    unsafe_to_break_in(glyphs, base, end);
}

// Flags what the choice adds, in glyphs without their forms.
#[inline]
fn flag_breaks(breaks: BreakFlags, glyphs: &mut [hb_glyph_info_t])
    ensures { glyphs.new ≡ marks_flagged breaks glyphs.old }
{
    match breaks {
        BreakFlags::AsCode => {}
        BreakFlags::Sound => flag_whole_marks(glyphs),
    }
}

// The walk over a buffer.
#[derive(Clone, Copy)]
struct PuaShaping<'a, F> {
    breaks: BreakFlags,
    font: &'a F,
}

impl<'a, F: hb_font_t> GlyphWalk for PuaShaping<'a, F> {
    ghost use Rattle.std.specs.Prelude.{⊤, ◌≡◌};
    ghost use Rattle.shapers_base.specs.Font.{has_nominal};
    ghost use Rattle.shapers_text.specs.ThaiForms.{marks_flagged, pua_shaped};

    ghost can_walk = { λ walk glyphs. ⊤ };

    ghost walks = { λ walk _ old new.
        new ≡ pua_shaped (has_nominal (F.font walk.font.now)) (marks_flagged walk.breaks old) };

    #[inline]
    fn walk(&mut self, glyphs: &mut [hb_glyph_info_t]) {
        flag_breaks(self.breaks, glyphs);
        shape_marks(self.font, glyphs);
    }
}

/// Gives the marks of a Thai text, and bases with descenders, their private use forms, and flags
/// what the choice adds.
#[inline(never)]
pub fn do_pua_shaping<F: hb_font_t>(breaks: BreakFlags, font: &F, buffer: &mut hb_buffer_t)
    ensures { let has = has_nominal (F.font font.now) in
        let flagged = marks_flagged breaks buffer.old.glyphs in
        buffer.new ≡ record buffer.old { glyphs = pua_shaped has flagged } }
{
    buffer.walk_outside(&mut PuaShaping { breaks, font });
}

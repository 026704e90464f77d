//! The properties of each character, as its glyph keeps them.
ghost use Rattle.std.specs.Prelude.{◌≡◌, ◌&&◌, ◌||◌, false, true, nat_lt, not, if◌then◌else◌};
ghost use Rattle.shapers_normal.specs.Properties.{is_seen_by_lookups, joiner_class};
ghost use Rattle.shapers_prepare.specs.declared.ot_shape_prepare.properties.Awaited.TheVariants.{Nothing};
ghost use Rattle.shapers_prepare.specs.GlyphProperties.{always_continues, is_mark_character, is_regional_indicator, is_zero_width_joiner, stored_class, stored_properties, properties_set, with_properties};
ghost use Rattle.shapers_prepare.specs.PropertyWalk.{goes_on_behind, of_kind, properties_with, then_awaited};

use super::unicode::UnicodeProperties;
use shapers_base::buffer::{
    GlyphWalk, UnicodeProps, hb_buffer_t, hb_glyph_info_t, hb_unicode_general_category_t,
};

// ZWJ, which joins pictographs.
const ZERO_WIDTH_JOINER: u32 = 0x200D;

/// Sets what each glyph keeps of its character: the general category, the class of a mark, whether
/// it need not be drawn, whether lookups see it all the same, and whether it carries on the grapheme
/// before it. What lookups noted stays. (Unicode Standard Annex 29 as far as HarfBuzz needs it:
/// marks, modifiers of emoji, flags of two regional indicators, pictographs behind ZWJ, half-width
/// marks, tags.)
pub fn set_unicode_properties<U: UnicodeProperties>(unicode: &U, buffer: &mut hb_buffer_t)
    ensures { let text = properties_set (U.properties unicode.now) buffer.old.glyphs in
        buffer.new ≡ record buffer.old { glyphs = text } }
{
    // (properties that panic leave the empty buffer, and no text with some of them)
    buffer.walk_outside(&mut PropertyWalk { unicode });
}

// The walk that sets the properties of a text.
#[derive(Drop)]
struct PropertyWalk<'a, U: UnicodeProperties> {
    unicode: &'a U,
}

impl<'a, U: UnicodeProperties> GlyphWalk for PropertyWalk<'a, U> {
    ghost use Rattle.std.specs.Prelude.{⊤, ◌≡◌};
    ghost use Rattle.shapers_prepare.specs.GlyphProperties.{properties_set};

    ghost can_walk = { λ w gs. ⊤ };

    ghost walks = { λ v w gs hs. hs ≡ properties_set (U.properties v.unicode.now) gs };

    #[inline]
    fn walk(&mut self, glyphs: &mut [hb_glyph_info_t]) {
        set_properties_in(self.unicode, glyphs);
    }
}

// What is awaited behind the characters before one.
#[derive(Clone, Copy)]
pub(super) enum Awaited {
    // A joiner, behind which a pictograph goes on.
    Joiner,
    // Half a flag, which another regional indicator completes.
    HalfFlag,
    // Neither.
    Nothing,
}

// Sets the properties of a text.
fn set_properties_in<U: UnicodeProperties>(unicode: &U, glyphs: &mut [hb_glyph_info_t])
    ensures { glyphs.new ≡ properties_set (U.properties unicode.now) glyphs.old }
{
    let mut before = Awaited::Nothing;
    for glyph in glyphs.iter_mut() {
        before = set_next_properties(unicode, before, glyph);
    }
}

// Sets the properties of one glyph, and returns what is awaited behind it.
#[inline]
fn set_next_properties<U: UnicodeProperties>(
    unicode: &U,
    before: Awaited,
    glyph: &mut hb_glyph_info_t,
) -> Awaited
    ensures set { let p = U.properties unicode.now in
        let c = glyph.old.glyph_id in
        let continues = is_mark_character p c || goes_on_behind p before c in
        glyph.new ≡ with_properties p continues glyph.old }
    ensures awaited { result ≡ then_awaited before glyph.old.glyph_id }
{
    let c = glyph.glyph_id;
    match before {
        // (most characters have smaller numbers than any that goes on, or behind which something is
        // awaited)
        Awaited::Nothing if never_goes_on(c) => {
            glyph.unicode_props = unicode.stored_properties(c);
            Awaited::Nothing
        }
        _ => {
            set_properties(unicode, before, glyph);
            then_awaited(before, c)
        }
    }
}

// Whether a character has a smaller number than any that carries on each grapheme, or behind which
// something is awaited.
#[inline]
fn never_goes_on(c: u32) -> bool
    ensures is { result ≡ nat_lt c 0x200D }
    ensures alone { result ≡ true → always_continues c ≡ false }
    ensures last { result ≡ true → then_awaited Nothing c ≡ Nothing }
{
    c < ZERO_WIDTH_JOINER
}

// What is awaited behind a character, where this was awaited before it.
#[inline]
fn then_awaited(before: Awaited, c: u32) -> Awaited
    ensures { result ≡ then_awaited before c }
{
    if c == ZERO_WIDTH_JOINER {
        return Awaited::Joiner;
    }
    match before {
        Awaited::Joiner | Awaited::Nothing if is_regional_indicator(c) => Awaited::HalfFlag,
        _ => Awaited::Nothing,
    }
}

// Sets the properties of one glyph.
#[inline]
pub(super) fn set_properties<U: UnicodeProperties>(
    unicode: &U,
    before: Awaited,
    glyph: &mut hb_glyph_info_t,
)
    ensures { let p = U.properties unicode.now in
        let c = glyph.old.glyph_id in
        let continues = is_mark_character p c || goes_on_behind p before c in
        glyph.new ≡ with_properties p continues glyph.old }
{
    let c = glyph.glyph_id;
    glyph.unicode_props = match before {
        Awaited::Nothing if never_continues(c) => unicode.stored_properties(c),
        _ => properties_behind(unicode, before, c),
    };
}

// Whether a character has a smaller number than any that carries on each grapheme, but for the joiner:
// most have.
#[inline]
fn never_continues(c: u32) -> bool
    ensures is { result ≡ (nat_lt c 0xFF9E && not (is_zero_width_joiner c)) }
    ensures sound { result ≡ true → always_continues c ≡ false }
{
    c < 0xFF9E && c != ZERO_WIDTH_JOINER
}

// What a glyph keeps of one of the few characters that may go on.
#[cold]
fn properties_behind<U: UnicodeProperties>(unicode: &U, before: Awaited, c: u32) -> UnicodeProps
    ensures { let p = U.properties unicode.now in
        result ≡ stored_properties p (is_mark_character p c || goes_on_behind p before c) c }
{
    let goes_on = goes_on_behind(unicode, before, c);
    let (general, class, ignorable) = unicode.character_kind(c);
    properties_of_kind(general, class, ignorable, goes_on, c)
}

// What a glyph keeps of a character of this category and class, which carries on the grapheme before it
// if it is a mark or goes on.
#[inline]
pub(super) fn properties_of_kind(
    general: hb_unicode_general_category_t,
    class: u8,
    ignorable: bool,
    goes_on: bool,
    c: u32,
) -> UnicodeProps
    ensures { let p = of_kind general class ignorable in
        result ≡ stored_properties p (is_mark_character p c || goes_on) c }
{
    if c < 0x80 || !(general.is_mark() || ignorable) {
        return plain_properties(general, goes_on);
    }
    let is_mark = general.is_mark();
    let class = stored_class(class, c, is_mark, ignorable);
    let is_hidden = ignorable && is_seen_by_lookups(c);
    properties_with(general, class, ignorable, is_mark || goes_on, is_hidden)
}

// The properties of a category and a class, with these bits on or off.
#[inline]
fn properties_with(
    general: hb_unicode_general_category_t,
    class: u8,
    is_ignorable: bool,
    continues: bool,
    is_hidden: bool,
) -> UnicodeProps
    ensures { result ≡ properties_with general class is_ignorable continues is_hidden }
{
    let mut props = UnicodeProps::new(general, class);
    props.set_ignorable(is_ignorable);
    props.set_continuation(continues);
    props.set_hidden(is_hidden);
    props
}

// The properties of a character that is no mark and is always drawn, as most are.
#[inline]
#[tactic(auto, using(crate::proofs::PropertySteps::plain_properties))]
fn plain_properties(general: hb_unicode_general_category_t, continues: bool) -> UnicodeProps
    ensures { result ≡ properties_with general 0 false continues false }
{
    let mut props = UnicodeProps::new(general, 0);
    props.set_continuation(continues);
    props
}

// Whether a character that is no mark carries on the grapheme before it.
#[inline]
fn goes_on_behind<U: UnicodeProperties>(unicode: &U, before: Awaited, c: u32) -> bool
    ensures { result ≡ goes_on_behind (U.properties unicode.now) before c }
{
    match before {
        Awaited::Joiner => always_continues(c) || unicode.is_extended_pictographic(c),
        Awaited::HalfFlag => always_continues(c) || is_regional_indicator(c),
        Awaited::Nothing => always_continues(c),
    }
}

// Whether a character carries on any grapheme: the joiner, katakana's half-width voiced marks, the
// modifiers of an emoji's skin, tags.
#[inline]
fn always_continues(c: u32) -> bool
    ensures { result ≡ always_continues c }
{
    if c < ZERO_WIDTH_JOINER {
        return false;
    }
    matches!(c, ZERO_WIDTH_JOINER | 0xFF9E..=0xFF9F | 0x1F3FB..=0x1F3FF | 0xE0020..=0xE007F)
}

// Whether a character is half of a flag.
#[inline]
pub(super) fn is_regional_indicator(c: u32) -> bool
    ensures { result ≡ is_regional_indicator c }
{
    matches!(c, 0x1F1E6..=0x1F1FF)
}

// The class of a mark, or which joiner a character is that need not be drawn.
#[inline]
fn stored_class(class: u8, c: u32, is_mark: bool, is_ignorable: bool) -> u8
    ensures { result ≡
        (if is_mark then class else if is_ignorable then joiner_class c else 0) }
{
    if is_mark {
        class
    } else if is_ignorable {
        joiner_class(c)
    } else {
        0
    }
}

// Which joiner a character is: 1 for ZWJ, 2 for ZWNJ.
#[inline]
fn joiner_class(c: u32) -> u8
    ensures { result ≡ joiner_class c }
{
    match c {
        ZERO_WIDTH_JOINER => 1,
        0x200C => 2,
        _ => 0,
    }
}

// Whether lookups see a character that need not be drawn: Mongolian variation selectors and tags
// choose forms, and the grapheme joiner keeps marks apart.
#[inline]
fn is_seen_by_lookups(c: u32) -> bool
    ensures { result ≡ is_seen_by_lookups c }
{
    matches!(c, 0x180B..=0x180D | 0x180F | 0xE0020..=0xE007F | 0x034F)
}

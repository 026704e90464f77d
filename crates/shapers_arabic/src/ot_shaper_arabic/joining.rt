//! Joining: each letter takes the form that its neighbours require. (The Unicode Standard, "Cursive
//! Joining"; for Alaph, Dalath and Rish the OpenType specification for Syriac.)
ghost use Rattle.std.specs.Prelude.{◌≡◌, ◌+◌, ◌<◌, ◌≤◌, length, map, Some, slice_set, if◌then◌else◌};
ghost use Rattle.std.specs.Char.{IsScalar};
ghost use Rattle.shapers_buffer.specs.Buffer.{flags_concat, flags_tatweel, has_flag};
ghost use Rattle.shapers_buffer.specs.GlyphFlags.{flagged, tatweel_inside, unsafe_to_concat_in};
ghost use Rattle.shapers_buffer.specs.Properties.{general_category};
ghost use Rattle.shapers_arabic.specs.Joining.{is_passed_over, joins_back, nearest, resolved};
ghost use Rattle.shapers_arabic.specs.JoinedText.{AreCharacters, context_types, context_look_ups};
ghost use Rattle.shapers_arabic.specs.JoiningWalk.{FlaggedBy, IsWithin, JoinsTo, SameText, WalksAll, WalksOn, cell, column_of, given_flags, given_last, joined_at, row_of, state_at_start, step_flags, unformed, waits, written};

use super::arabic_action_t::{FIN2, FIN3, FINA, INIT, ISOL, MED2, MEDI, NONE};
use super::look_ups::LookUps;
use bitflags::Flags;
use shapers_base::buffer::glyph_flag::{SAFE_TO_INSERT_TATWEEL, UNSAFE_TO_BREAK, UNSAFE_TO_CONCAT};
use shapers_base::buffer::{
    BufferFlags, hb_glyph_info_t, hb_unicode_general_category_t, safe_to_insert_tatweel_in,
    unsafe_to_concat_in,
};
use shapers_base::font::Tables;
use shapers_base::plan::hb_arabic_joining_type_t;
use std::sync::ledger::Ledger;

/// What the letter before left, as far as the next one depends on it.
#[derive(Clone, Copy)]
enum State {
    /// After U, which joins nothing, and before any letter.
    Start,
    /// After R, or an Alaph that stands alone; neither joins on.
    Closed,
    /// After L or D that isn't joined; it joins on, and is initial then.
    Initial,
    /// After D that is joined; it joins on, and is medial then.
    Medial,
    /// After an Alaph that is joined; it doesn't join on.
    JoinedAlaph,
    /// After an Alaph of the second or third final form; it doesn't join on.
    LaterAlaph,
    /// After Dalath or Rish, which don't join on.
    DalathRish,
}

impl State {
    // The state's row of the table.
    #[inline]
    fn row(self) -> usize
        ensures row { result ≡ row_of self }
        ensures within { result < 7 }
    {
        self as usize
    }
}

use State::{Closed, DalathRish, Initial, JoinedAlaph, LaterAlaph, Medial, Start};

/// What a letter does: the form that it gives to the letter before it (NONE: that one keeps its
/// own), its own form as long as no letter follows, and the state behind it: three bytes.
#[derive(Clone, Copy)]
struct Transition(u8, u8, State);

/// By the state that the letter before left, and by the letter's type: U, L, R, D, Alaph, Dalath or
/// Rish.
static STATE_TABLE: [[Transition; 6]; 7] = [
    // 0: after U, which joins nothing.
    [
        Transition(NONE, NONE, Start),
        Transition(NONE, ISOL, Initial),
        Transition(NONE, ISOL, Closed),
        Transition(NONE, ISOL, Initial),
        Transition(NONE, ISOL, Closed),
        Transition(NONE, ISOL, DalathRish),
    ],
    // 1: after R, or an Alaph that stands alone; neither joins on.
    [
        Transition(NONE, NONE, Start),
        Transition(NONE, ISOL, Initial),
        Transition(NONE, ISOL, Closed),
        Transition(NONE, ISOL, Initial),
        Transition(NONE, FIN2, LaterAlaph),
        Transition(NONE, ISOL, DalathRish),
    ],
    // 2: after L or D that isn't joined; it joins on.
    [
        Transition(NONE, NONE, Start),
        Transition(NONE, ISOL, Initial),
        Transition(INIT, FINA, Closed),
        Transition(INIT, FINA, Medial),
        Transition(INIT, FINA, JoinedAlaph),
        Transition(INIT, FINA, DalathRish),
    ],
    // 3: after D that is joined; it joins on.
    [
        Transition(NONE, NONE, Start),
        Transition(NONE, ISOL, Initial),
        Transition(MEDI, FINA, Closed),
        Transition(MEDI, FINA, Medial),
        Transition(MEDI, FINA, JoinedAlaph),
        Transition(MEDI, FINA, DalathRish),
    ],
    // 4: after an Alaph that is joined; it doesn't join on.
    [
        Transition(NONE, NONE, Start),
        Transition(NONE, ISOL, Initial),
        Transition(MED2, ISOL, Closed),
        Transition(MED2, ISOL, Initial),
        Transition(MED2, FIN2, LaterAlaph),
        Transition(MED2, ISOL, DalathRish),
    ],
    // 5: after an Alaph of the second or third final form; it doesn't join on.
    [
        Transition(NONE, NONE, Start),
        Transition(NONE, ISOL, Initial),
        Transition(ISOL, ISOL, Closed),
        Transition(ISOL, ISOL, Initial),
        Transition(ISOL, FIN2, LaterAlaph),
        Transition(ISOL, ISOL, DalathRish),
    ],
    // 6: after Dalath or Rish, which don't join on.
    [
        Transition(NONE, NONE, Start),
        Transition(NONE, ISOL, Initial),
        Transition(NONE, ISOL, Closed),
        Transition(NONE, ISOL, Initial),
        Transition(NONE, FIN3, LaterAlaph),
        Transition(NONE, ISOL, DalathRish),
    ],
];

// The column of a letter.
#[inline]
fn column(joining_type: hb_arabic_joining_type_t) -> usize
    ensures column { result ≡ column_of joining_type }
    ensures within { result < 6 }
{
    match joining_type {
        hb_arabic_joining_type_t::T | hb_arabic_joining_type_t::X => 0,
        letter => letter as usize,
    }
}

// The cell of a state and a letter.
#[inline]
fn transition_of(state: State, joining_type: hb_arabic_joining_type_t) -> &'static Transition
    ensures { result.now ≡ cell state joining_type }
{
    &STATE_TABLE[state.row()][column(joining_type)]
}

// The state before a text, by the nearest letter before it.
#[inline]
fn state_at_start(before: Option<hb_arabic_joining_type_t>) -> State
    ensures { result ≡ state_at_start before }
{
    match before {
        None => Start,
        Some(letter) => transition_of(Start, letter).2,
    }
}

// Whether the next letter can change the form of the last one, by the state that it left.
#[inline]
fn can_change(state: State) -> bool
    ensures { result ≡ waits state }
{
    matches!(state, Initial | Medial | JoinedAlaph | LaterAlaph)
}

// Whether a letter joins the one before it, or could.
#[inline]
fn joins_back(joining_type: hb_arabic_joining_type_t) -> bool
    ensures { result ≡ joins_back (Some joining_type) }
{
    matches!(
        joining_type,
        hb_arabic_joining_type_t::R
            | hb_arabic_joining_type_t::D
            | hb_arabic_joining_type_t::GroupAlaph
            | hb_arabic_joining_type_t::GroupDalathRish
    )
}

// Whether a category lets a character of type X be passed over.
#[inline]
fn is_passed_over(category: hb_unicode_general_category_t) -> bool
    ensures { result ≡ is_passed_over category }
{
    matches!(
        category,
        hb_unicode_general_category_t::Mn
            | hb_unicode_general_category_t::Me
            | hb_unicode_general_category_t::Cf
    )
}

// The joining type, where the category decides X.
#[inline]
fn resolve(
    joining_type: hb_arabic_joining_type_t,
    category: hb_unicode_general_category_t,
) -> hb_arabic_joining_type_t
    ensures { result ≡ resolved joining_type category }
{
    match joining_type {
        hb_arabic_joining_type_t::X if is_passed_over(category) => hb_arabic_joining_type_t::T,
        hb_arabic_joining_type_t::X => hb_arabic_joining_type_t::U,
        own => own,
    }
}

// The joining type of a character as the tables have it; no other function looks it up.
#[inline]
fn look_up<T: Tables, L: Ledger>(
    tables: &T,
    c: char,
    count: &mut LookUps<L>,
) -> hb_arabic_joining_type_t
    ensures joining_type { result ≡ (T.tables tables.now).joining c }
    ensures counted { count.new ≡ count.old + 1 }
{
    count.add_one();
    tables.joining_type(c)
}

// The type of a glyph, by its stored category.
#[inline]
fn stored_type<T: Tables, L: Ledger>(
    glyph: &hb_glyph_info_t,
    tables: &T,
    count: &mut LookUps<L>,
) -> hb_arabic_joining_type_t
    requires { IsScalar glyph.now.glyph_id }
    ensures type_is { let own = (T.tables tables.now).joining glyph.now.glyph_id in
        result ≡ resolved own (general_category glyph.now.unicode_props) }
    ensures counted { count.new ≡ count.old + 1 }
{
    let c = char::from_u32(glyph.glyph_id).unwrap();
    resolve(
        look_up(tables, c, count),
        glyph.unicode_props.general_category(),
    )
}

// The nearest type of a context that isn't transparent, by the table's own categories.
#[inline]
pub(super) fn nearest_in<T: Tables, L: Ledger>(
    context: &[char],
    tables: &T,
    count: &mut LookUps<L>,
) -> Option<hb_arabic_joining_type_t>
    ensures nearest { let table = T.tables tables.now in
        result ≡ nearest (context_types table.joining table.general context.now) }
    ensures counted { let table = T.tables tables.now in
        count.new ≡ count.old + context_look_ups (context_types table.joining table.general context.now) }
{
    for &c in context {
        match resolve(look_up(tables, c, count), tables.general_category(c)) {
            hb_arabic_joining_type_t::T => {}
            letter => return Some(letter),
        }
    }
    None
}

/// The last letter of a walk, if there was one yet, and the state that it left.
#[derive(Clone, Copy)]
struct Letters {
    last: Option<usize>,
    state: State,
}

// Gives the glyph at place `i` a form.
#[inline]
fn set_form(glyphs: &mut [hb_glyph_info_t], i: usize, form: u8)
    requires { i < length glyphs.old }
    ensures others { map unformed glyphs.new ≡ map unformed glyphs.old }
    ensures forms { written glyphs.new ≡ slice_set (written glyphs.old) i form }
{
    glyphs[i].auxiliary = form;
}

// The mask bits of a join.
#[inline]
fn join_bits(flags: BufferFlags) -> u32
    ensures { result ≡ if has_flag flags_tatweel flags then 4 else 3 }
{
    if flags.contains(BufferFlags::PRODUCE_SAFE_TO_INSERT_TATWEEL) {
        SAFE_TO_INSERT_TATWEEL
    } else {
        UNSAFE_TO_BREAK | UNSAFE_TO_CONCAT
    }
}

// Adds mask bits to the one of two neighbours whose cluster is above the other's.
#[inline]
fn flag_neighbours(pair: &mut [hb_glyph_info_t], bits: u32)
    requires { length pair.old ≡ 2 }
    ensures { pair.new ≡ flagged bits pair.old }
{
    let (first, second) = (pair[0].cluster, pair[1].cluster);
    if first < second {
        pair[1].mask |= bits;
    } else if second < first {
        pair[0].mask |= bits;
    }
}

// Flags a join from the letter at `last` to the one right before `end`. Most letters join their
// neighbours, which need no walk that looks for the least cluster.
#[inline]
fn flag_join(flags: BufferFlags, glyphs: &mut [hb_glyph_info_t], last: usize, end: usize)
    requires within { last < end }
    requires in_range { end ≤ length glyphs.old }
    ensures { glyphs.new ≡ tatweel_inside (has_flag flags_tatweel flags) last end glyphs.old }
{
    if end - last == 2 {
        flag_neighbours(&mut glyphs[last..end], join_bits(flags));
    } else {
        safe_to_insert_tatweel_in(flags, glyphs, last, end);
    }
}

// Flags no concatenation from place `s` to place `e`, as `unsafe_to_concat_in`, where the flags want
// it, which `concat` says.
#[inline(always)]
fn flag_concat(flags: BufferFlags, concat: bool, glyphs: &mut [hb_glyph_info_t], s: usize, e: usize)
    requires in_order { s ≤ e }
    requires in_range { e ≤ length glyphs.old }
    requires wanted { concat ≡ has_flag flags_concat flags }
    ensures { glyphs.new ≡ unsafe_to_concat_in (has_flag flags_concat flags) s e glyphs.old }
{
    if concat {
        unsafe_to_concat_in(flags, glyphs, s, e);
    }
}

// Gives the letter at `last` the form that the next one requires, which is right before `end`; both
// and what is between are flagged, also where the form could have depended on the next letter.
#[inline(always)]
fn give_form(
    flags: BufferFlags,
    concat: bool,
    glyphs: &mut [hb_glyph_info_t],
    last: usize,
    end: usize,
    given: u8,
    depends: bool,
)
    requires within { last < end }
    requires in_range { end ≤ length glyphs.old }
    requires wanted { concat ≡ has_flag flags_concat flags }
    ensures flagged { FlaggedBy flags (given_flags last end given depends) glyphs.old glyphs.new }
    ensures forms { written glyphs.new ≡ given_last (Some last) given (written glyphs.old) }
{
    if given != NONE {
        set_form(glyphs, last, given);
        flag_join(flags, glyphs, last, end);
    } else if depends {
        flag_concat(flags, concat, glyphs, last, end);
    }
}

// Gives the last letter, if there was one, the form that the next one requires, which is right
// before `end`. A first letter that could join is flagged with all before it.
#[inline(always)]
fn give_last(
    flags: BufferFlags,
    concat: bool,
    glyphs: &mut [hb_glyph_info_t],
    letters: Letters,
    end: usize,
    given: u8,
    joins_back: bool,
)
    requires within { IsWithin letters.last end }
    requires in_range { end ≤ length glyphs.old }
    requires wanted { concat ≡ has_flag flags_concat flags }
    ensures flagged { let calls = step_flags letters.last letters.state end given joins_back in
        FlaggedBy flags calls glyphs.old glyphs.new }
    ensures forms { written glyphs.new ≡ given_last letters.last given (written glyphs.old) }
{
    match letters.last {
        Some(last) => {
            let depends = joins_back || can_change(letters.state);
            give_form(flags, concat, glyphs, last, end, given, depends);
        }
        None if joins_back => flag_concat(flags, concat, glyphs, 0, end),
        None => {}
    }
}

// Joins the letter at place `i` to the one before it.
#[inline(always)]
fn join_letter(
    flags: BufferFlags,
    concat: bool,
    glyphs: &mut [hb_glyph_info_t],
    letters: &mut Letters,
    i: usize,
    letter: hb_arabic_joining_type_t,
)
    requires within { IsWithin letters.old.last i }
    requires in_range { i < length glyphs.old }
    requires wanted { concat ≡ has_flag flags_concat flags }
    ensures flagged { let last = letters.old in
        let given = (cell last.state letter).0 in
        let calls = step_flags last.last last.state (i + 1) given (joins_back (Some letter)) in
        FlaggedBy flags calls glyphs.old glyphs.new }
    ensures forms { let step = cell letters.old.state letter in
        written glyphs.new ≡ joined_at letters.old.last step i (written glyphs.old) }
    ensures last { letters.new.last ≡ Some i }
    ensures state { letters.new.state ≡ (cell letters.old.state letter).2 }
{
    let &Transition(given, own, next) = transition_of(letters.state, letter);
    give_last(
        flags,
        concat,
        glyphs,
        *letters,
        i + 1,
        given,
        joins_back(letter),
    );
    set_form(glyphs, i, own);
    *letters = Letters {
        last: Some(i),
        state: next,
    };
}

// Gives the glyph at place `i`, which has this type, its form as long as nothing follows.
#[inline(always)]
fn join_place(
    flags: BufferFlags,
    concat: bool,
    glyphs: &mut [hb_glyph_info_t],
    letters: &mut Letters,
    i: usize,
    joining_type: hb_arabic_joining_type_t,
)
    requires within { IsWithin letters.old.last i }
    requires in_range { i < length glyphs.old }
    requires wanted { concat ≡ has_flag flags_concat flags }
    ensures text { SameText glyphs.old glyphs.new }
    ensures walked { WalksOn flags i joining_type letters.old glyphs.old letters.new glyphs.new }
    ensures within { IsWithin letters.new.last (i + 1) }
{
    match joining_type {
        hb_arabic_joining_type_t::T => set_form(glyphs, i, NONE),
        letter => join_letter(flags, concat, glyphs, letters, i, letter),
    }
}

// Gives each glyph its form as long as nothing follows the text.
#[inline(always)]
fn join_letters<T: Tables, L: Ledger>(
    flags: BufferFlags,
    concat: bool,
    glyphs: &mut [hb_glyph_info_t],
    state: State,
    tables: &T,
    count: &mut LookUps<L>,
) -> Letters
    requires characters { AreCharacters glyphs.old }
    requires wanted { concat ≡ has_flag flags_concat flags }
    ensures walked { let joining = (T.tables tables.now).joining in
        WalksAll flags joining state glyphs.old result glyphs.new }
    ensures counted { count.new ≡ count.old + length glyphs.old }
    ensures within { IsWithin result.last (length glyphs.old) }
{
    let mut letters = Letters { last: None, state };
    for i in 0..glyphs.len() {
        let joining_type = stored_type(&glyphs[i], tables, count);
        join_place(flags, concat, glyphs, &mut letters, i, joining_type);
    }
    letters
}

// Joins the letters of a text, by a copy of the loop for the flags of concatenation or by one without
// them: few texts want these, and the others take no test for them at each letter.
#[inline]
fn join_text<T: Tables, L: Ledger>(
    flags: BufferFlags,
    glyphs: &mut [hb_glyph_info_t],
    state: State,
    tables: &T,
    count: &mut LookUps<L>,
) -> Letters
    requires { AreCharacters glyphs.old }
    ensures walked { let joining = (T.tables tables.now).joining in
        WalksAll flags joining state glyphs.old result glyphs.new }
    ensures counted { count.new ≡ count.old + length glyphs.old }
    ensures within { IsWithin result.last (length glyphs.old) }
{
    if flags.contains(BufferFlags::PRODUCE_UNSAFE_TO_CONCAT) {
        join_letters(flags, true, glyphs, state, tables, count)
    } else {
        join_letters(flags, false, glyphs, state, tables, count)
    }
}

// Gives each glyph its form, between the nearest letters before and after the text.
#[inline]
pub(super) fn join<T: Tables, L: Ledger>(
    flags: BufferFlags,
    glyphs: &mut [hb_glyph_info_t],
    before: Option<hb_arabic_joining_type_t>,
    after: Option<hb_arabic_joining_type_t>,
    tables: &T,
    count: &mut LookUps<L>,
)
    requires { AreCharacters glyphs.old }
    ensures joined { let joining = (T.tables tables.now).joining in
        JoinsTo flags joining before after glyphs.old glyphs.new }
    ensures counted { count.new ≡ count.old + length glyphs.old }
{
    let letters = join_text(flags, glyphs, state_at_start(before), tables, count);
    if let Some(letter) = after {
        let given = transition_of(letters.state, letter).0;
        let concat = flags.contains(BufferFlags::PRODUCE_UNSAFE_TO_CONCAT);
        let end = glyphs.len();
        give_last(flags, concat, glyphs, letters, end, given, false);
    }
}

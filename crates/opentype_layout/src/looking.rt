//! How far a lookup looks at a place: a text that is joined to there may give something else.
ghost use Rattle.std.specs.Prelude.{◌≡◌, ◌<◌, ◌≤◌, length, is_some};
ghost use Rattle.std.specs.Option.{option_map};
ghost use Rattle.shapers_buffer.specs.Buffer.{flags_concat, has_flag};
ghost use Rattle.opentype_layout.specs.Pattern.{fits, seen_by};
ghost use Rattle.opentype_layout.specs.Rules.{first_at, set_in, sought};
ghost use Rattle.opentype_layout.specs.Sight.{is_passed};
ghost use Rattle.opentype_layout.specs.Looking.{around_looked, context_rules, counted, is_short, spanned, ligature_sought, nothing, rule_list, rule_looked, set_looked, stop_before, stop_in, swept_before, swept_behind, unjoined};
ghost use Rattle.opentype_layout.specs.Ligatures.{input_in};

use crate::glyph_text::GlyphView;
use crate::input::find_input;
use crate::pattern::Pattern;
use crate::places::Places;
use crate::rule_heads::nth;
use crate::rules::{Rule, Tables};
use crate::sight::{Sight, number};
use opentype_face::bytes::{table_at, u16_at};
use opentype_face::glyph_sets::coverage;
use opentype_face::lookup::rule_count;
use shapers_buffer::buffer::{BufferFlags, hb_glyph_info_t, unsafe_to_concat_in};

/// A stretch of a text, from a place up to another one.
#[derive(Clone, Copy, Debug)]
pub struct Stretch {
    /// The first place.
    pub start: usize,
    /// The place behind the last one.
    pub stop: usize,
}

/// How far a search for several places went.
#[derive(Clone, Copy, Debug)]
pub struct Sweep {
    /// The place behind the last glyph that it looked at.
    pub to: usize,
    /// How many places it found.
    pub found: u16,
}

/// The rules that a subtable has for a glyph.
#[derive(Clone, Copy, Debug)]
pub enum RuleSet<'a> {
    /// Ligatures.
    Ligatures(&'a [u8]),
    /// The rules of a context of format 1 or 2.
    Rules(Tables<'a>, &'a [u8]),
    /// The rule of one of format 3.
    One(Tables<'a>, &'a [u8]),
}

// Whether a search for place `k` of a rule passes over a glyph.
#[inline]
#[tactic(auto, unfolding(crate::specs::Pattern::seen_by))]
fn passes(
    gdef: &[u8],
    sight: &Sight,
    pattern: &Pattern<'_>,
    k: u16,
    glyph: &hb_glyph_info_t,
) -> bool
    ensures { result ≡ is_passed (seen_by gdef.now sight.now (fits pattern.now) k glyph.now) }
{
    sight
        .sees(gdef, pattern.fits(k, number(glyph)), glyph)
        .is_none()
}

// The place behind the glyph at which a search from a place on ends.
fn stop_behind(
    gdef: &[u8],
    sight: &Sight,
    pattern: &Pattern<'_>,
    k: u16,
    glyphs: &GlyphView<'_>,
    from: usize,
) -> usize
    ensures { result ≡ stop_in gdef.now sight.now (fits pattern.now) glyphs.now k from }
{
    let mut i = from;
    while let Some(glyph) = glyphs.get(i) {
        if !passes(gdef, sight, pattern, k, glyph) {
            return i + 1;
        }
        i += 1;
    }
    i
}

// The same backwards from a place, by how many glyphs stand between.
fn stop_back(
    gdef: &[u8],
    sight: &Sight,
    pattern: &Pattern<'_>,
    k: u16,
    glyphs: &GlyphView<'_>,
    at: usize,
    from: usize,
) -> usize
    requires { at ≤ length glyphs.now }
    ensures { result ≡ stop_before gdef.now sight.now (fits pattern.now) glyphs.now at k from }
{
    for i in from..at {
        if !passes(gdef, sight, pattern, k, glyphs.at(at - 1 - i)) {
            return i + 1;
        }
    }
    from.max(at)
}

/// How far a search for so many places goes from a place on.
pub fn sweep_behind(
    gdef: &[u8],
    sight: &Sight,
    pattern: &Pattern<'_>,
    count: u16,
    glyphs: &GlyphView<'_>,
    from: usize,
) -> Sweep
    ensures value { result ≡ swept_behind gdef.now sight.now (fits pattern.now) count glyphs.now from }
    ensures few { result.found ≤ count }
{
    let mut to = from;
    for found in 0..count {
        let Some(i) = pattern.next(gdef, sight, found, glyphs, to) else {
            let to = stop_behind(gdef, sight, pattern, found, glyphs, to);
            return Sweep { to, found };
        };
        to = glyphs.after(i);
    }
    Sweep { to, found: count }
}

/// The same backwards from a place, by how many glyphs stand between.
pub fn sweep_back(
    gdef: &[u8],
    sight: &Sight,
    pattern: &Pattern<'_>,
    count: u16,
    glyphs: &GlyphView<'_>,
    at: usize,
) -> Sweep
    requires { at ≤ length glyphs.now }
    ensures { result ≡ swept_before gdef.now sight.now (fits pattern.now) count glyphs.now at }
{
    let mut to = 0;
    for found in 0..count {
        let Some(i) = pattern.previous(gdef, sight, found, glyphs, at, to) else {
            let to = stop_back(gdef, sight, pattern, found, glyphs, at, to);
            return Sweep { to, found };
        };
        to = i + 1;
    }
    Sweep { to, found: count }
}

impl Stretch {
    /// No glyph.
    #[inline]
    pub fn none(at: usize) -> Self
        ensures { result ≡ nothing at }
    {
        Stretch {
            start: at,
            stop: at,
        }
    }

    /// Both, and what is between.
    #[inline]
    pub fn join(self, other: Stretch) -> Self
        ensures { result ≡ spanned self other }
    {
        Stretch {
            start: self.start.min(other.start),
            stop: self.stop.max(other.stop),
        }
    }
}

/// How many glyphs a stretch has at most that is flagged, as in HarfBuzz.
const MOST_FLAGGED: usize = 255;

/// Whether a stretch of so many glyphs is flagged, in a text that had so many glyphs and has so many:
/// those that were added count less, those that were removed more.
#[tactic(auto, unfolding(crate::specs::Looking::is_short))]
pub fn is_short(span: usize, old_len: usize, len: usize) -> bool
    ensures { result ≡ is_short span old_len len }
{
    if len >= old_len {
        let added = len - old_len;
        return added <= span && span - added <= MOST_FLAGGED;
    }
    let removed = old_len - len;
    removed <= MOST_FLAGGED && span <= MOST_FLAGGED - removed
}

/// A stretch, if it isn't too long to be flagged.
#[inline]
#[tactic(auto, unfolding(crate::specs::Looking::counted))]
pub fn count(at: usize, old_len: usize, len: usize, start: usize, stop: usize) -> Stretch
    ensures { result ≡ counted at old_len len start stop }
{
    if start > stop {
        return Stretch::none(at);
    }
    if is_short(stop - start, old_len, len) {
        Stretch { start, stop }
    } else {
        Stretch::none(at)
    }
}

// The stretch that a rule looked at, where its input is found: what stands behind it, then before.
#[tactic(auto, unfolding(crate::specs::Looking::around_looked))]
fn look_around(
    gdef: &[u8],
    context: &Sight,
    old_len: usize,
    glyphs: &GlyphView<'_>,
    at: usize,
    rule: &Rule<'_>,
    end: usize,
) -> Stretch
    requires { at < length glyphs.now }
    ensures { result ≡ around_looked gdef.now context.now old_len glyphs.now at (sought rule.now) end }
{
    let len = glyphs.len();
    let behind = sweep_behind(gdef, context, &rule.behind, rule.behind_count, glyphs, end);
    if behind.found != rule.behind_count {
        return count(at, len, len, at, behind.to);
    }
    let before = sweep_back(gdef, context, &rule.before, rule.before_count, glyphs, at);
    if before.found == rule.before_count {
        return Stretch::none(at);
    }
    let start = at.saturating_sub(before.to.saturating_add(1));
    count(at, old_len, len, start, behind.to)
}

// The stretch that a rule looked at that doesn't fit.
#[tactic(auto, unfolding(crate::specs::Looking::rule_looked))]
fn look(
    gdef: &[u8],
    sight: &Sight,
    context: &Sight,
    old_len: usize,
    glyphs: &GlyphView<'_>,
    at: usize,
    rule: &Rule<'_>,
) -> Stretch
    requires { at < length glyphs.now }
    ensures { result ≡ rule_looked gdef.now sight.now context.now old_len glyphs.now at (sought rule.now) }
{
    if rule.input_count == 0 || rule.input_count > 64 {
        return Stretch::none(at);
    }
    let input = sweep_behind(
        gdef,
        sight,
        &rule.input,
        rule.input_count - 1,
        glyphs,
        glyphs.after(at),
    );
    if !is_one_input(gdef, sight, rule, input.found, glyphs, at) {
        return Stretch::none(at);
    }
    if input.found != rule.input_count - 1 {
        return count(at, glyphs.len(), glyphs.len(), at, input.to);
    }
    look_around(gdef, context, old_len, glyphs, at, rule, input.to)
}

// Whether so many glyphs of a rule's input are there, and can be of one input.
fn is_one_input(
    gdef: &[u8],
    sight: &Sight,
    rule: &Rule<'_>,
    count: u16,
    glyphs: &GlyphView<'_>,
    at: usize,
) -> bool
    requires inside { at < length glyphs.now }
    requires few { count ≤ 63 }
    ensures { result ≡ is_some (input_in gdef.now sight.now (sought rule.now).input count glyphs.now at) }
{
    let (input, mut places) = (&rule.input, Places::new());
    find_input(gdef, sight, input, count, glyphs, at, &mut places)
}

impl<'a> RuleSet<'a> {
    // How many rules there are.
    #[tactic(auto, unfolding(crate::specs::Looking::rule_list))]
    fn count(&self) -> u16
        ensures { result ≡ (rule_list self.now).count }
    {
        match *self {
            RuleSet::Ligatures(set) => rule_count(set),
            RuleSet::Rules(_, set) => rule_count(set),
            RuleSet::One(_, _) => 1,
        }
    }

    // One of the rules.
    #[tactic(auto, unfolding(crate::specs::Looking::rule_list, crate::specs::Pattern::fits))]
    fn nth_rule(&self, i: u16) -> Rule<'a>
        ensures { sought result ≡ (rule_list self.now).rule i }
    {
        match *self {
            RuleSet::Ligatures(set) => ligature_rule(nth(set, i)),
            RuleSet::Rules(tables, set) => tables.rule(nth(set, i)),
            RuleSet::One(tables, rule) => tables.rule(rule),
        }
    }

    /// The stretch that the rules looked at, up to the first that fits.
    #[tactic(auto, unfolding(crate::specs::Looking::set_looked))]
    pub fn look(
        &self,
        gdef: &[u8],
        sight: &Sight,
        context: &Sight,
        old_len: usize,
        glyphs: &GlyphView<'_>,
        at: usize,
    ) -> Stretch
        requires { at < length glyphs.now }
        ensures { result ≡ set_looked gdef.now sight.now context.now old_len glyphs.now at (rule_list self.now) }
    {
        let mut looked = Stretch::none(at);
        for i in 0..self.count() {
            let rule = self.nth_rule(i);
            looked = looked.join(look(gdef, sight, context, old_len, glyphs, at, &rule));
            if rule.fit(gdef, sight, context, glyphs, at).is_some() {
                return looked;
            }
        }
        looked
    }
}

// A ligature as a rule.
#[tactic(auto, unfolding(crate::specs::Pattern::fits))]
fn ligature_rule(bytes: &[u8]) -> Rule<'_>
    ensures { sought result ≡ ligature_sought bytes.now }
{
    Rule {
        before: Pattern::Glyphs(&[]),
        before_count: 0,
        input: Pattern::Glyphs(table_at(bytes, 4)),
        input_count: u16_at(bytes, 2),
        behind: Pattern::Glyphs(&[]),
        behind_count: 0,
        records: &[],
        count: 0,
    }
}

// The set of rules of a context, by its number.
#[tactic(auto, unfolding(crate::specs::Rules::set_in))]
fn rule_set(bytes: &[u8], at: usize, number: u32) -> &[u8]
    requires { at ≤ 10 }
    ensures { result.now ≡ set_in bytes.now at number }
{
    if number >= u32::from(u16_at(bytes, at)) {
        return &[];
    }
    table_at(
        bytes,
        usize::from(u16_at(bytes, at + 2 + number as usize * 2)),
    )
}

// Where the offset of the set of format 3's first glyph stands.
#[inline]
#[tactic(auto, unfolding(crate::specs::Rules::first_at))]
fn place_of_first(chained: bool, bytes: &[u8]) -> usize
    ensures { result ≡ first_at chained bytes.now }
{
    if chained {
        usize::from(u16_at(bytes, 2)) * 2 + 6
    } else {
        6
    }
}

/// The rules that a context has for a glyph.
#[tactic(auto, unfolding(crate::specs::Looking::context_rules, crate::specs::Looking::rule_list))]
pub fn context_rules<'a>(chained: bool, bytes: &'a [u8], glyph: u16) -> Option<RuleSet<'a>>
    ensures { option_map (λ set. rule_list set) result ≡ context_rules chained bytes.now glyph }
{
    let tables = Tables::of(chained, bytes);
    let format = u16_at(bytes, 0);
    if format == 3 {
        let first = u16_at(bytes, place_of_first(chained, bytes));
        coverage(table_at(bytes, usize::from(first)), glyph)?;
        return Some(RuleSet::One(tables, bytes));
    }
    let covered = coverage(table_at(bytes, usize::from(u16_at(bytes, 2))), glyph);
    match (format, covered) {
        (1, Some(number)) => Some(RuleSet::Rules(tables, rule_set(bytes, 4, number))),
        (2, Some(_)) => {
            let number = u32::from(tables.input.class(glyph));
            let sets = if chained { 10 } else { 6 };
            Some(RuleSet::Rules(tables, rule_set(bytes, sets, number)))
        }
        _ => None,
    }
}

/// Flags a stretch as one with no concatenation, as far as the text goes.
#[tactic(auto, unfolding(crate::specs::Looking::unjoined))]
pub fn flag_joins(glyphs: &mut [hb_glyph_info_t], looked: Stretch)
    ensures { glyphs.new ≡ unjoined looked glyphs.old }
{
    let end = glyphs.len().min(looked.stop);
    if looked.start < end {
        let wanted = BufferFlags::PRODUCE_UNSAFE_TO_CONCAT;
        unsafe_to_concat_in(wanted, glyphs, looked.start, end);
    }
}

/// Whether flags of concatenation are wanted.
#[inline]
pub fn wants_concat(flags: BufferFlags) -> bool
    ensures { result ≡ has_flag flags_concat flags }
{
    flags.0 & BufferFlags::PRODUCE_UNSAFE_TO_CONCAT.0 == BufferFlags::PRODUCE_UNSAFE_TO_CONCAT.0
}

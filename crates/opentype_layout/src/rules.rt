//! Rules of contexts and of chained contexts: what they look for, and where they fit.
ghost use Rattle.std.specs.Prelude.{◌≡◌, ◌<◌, ◌≤◌, ℕ, List, true, length, IfSome, None};
ghost use Rattle.opentype_face.specs.Bytes.{table_at, u16_in};
ghost use Rattle.std.specs.Option.{option_map};
ghost use Rattle.opentype_layout.specs.Keys.{AreKeys, IsBarred, bars, begins_with};
ghost use Rattle.opentype_layout.specs.Pattern.{fits, next_in, previous_in};
ghost use Rattle.opentype_layout.specs.Looking.{nth_part};
ghost use Rattle.opentype_layout.specs.Rules.{around, chained_in, context_in, end_in, first_in, found, found_at, kind, kind_in, reach_before, reach_behind, rule_in, set_in, sets_at, shift_in, sought, start_at, test_in, unchained_in};

use crate::class_refs::ClassRef;
use crate::glyph_text::GlyphView;
use crate::input::find_input;
use crate::keys::{Key, Keys, key_before, key_behind};
use crate::pattern::Pattern;
use crate::places::Places;
use crate::rule_heads::{Asked, PreparedRules, nth};
use crate::sets::{place_in_set, place_of_first};
use crate::sight::{Sight, number};
use opentype_face::bytes::{table_at, u16_at};
use opentype_face::glyph_tables::PreparedCoverage;
use opentype_face::lookup::rule_count;

/// What a rule looks for, and the records of the lookups that it applies.
#[derive(Clone, Copy, Debug)]
pub struct Rule<'a> {
    /// The glyphs before a place, counted backwards.
    pub before: Pattern<'a>,
    /// How many they are.
    pub before_count: u16,
    /// The rest of the input, behind the place.
    pub input: Pattern<'a>,
    /// How many glyphs the input has with its first one.
    pub input_count: u16,
    /// The glyphs behind the input.
    pub behind: Pattern<'a>,
    /// How many they are.
    pub behind_count: u16,
    /// The records of its lookups, of four bytes each: a place of the input, and a lookup.
    pub records: &'a [u8],
    /// How many they are.
    pub count: u16,
}

/// A rule that fits.
#[derive(Debug, Drop)]
pub struct Matched<'a> {
    /// The records of its lookups, of four bytes each.
    pub records: &'a [u8],
    /// How many they are.
    pub count: u16,
    /// The places of its input.
    pub places: Places,
    /// The place behind its input.
    pub end: usize,
    /// The first glyph that it looked at.
    pub start: usize,
    /// The place behind the last one.
    pub stop: usize,
}

/// The tables that the numbers of a context's rules refer to.
#[derive(Clone, Copy, Debug)]
pub struct Tables<'a> {
    /// Whether the context is a chained one.
    pub chained: bool,
    /// Its format.
    pub format: u16,
    /// The table of the glyphs before an input.
    pub before: ClassRef<'a>,
    /// The table of the input.
    pub input: ClassRef<'a>,
    /// The table of the glyphs behind it.
    pub behind: ClassRef<'a>,
}

// How many glyphs before a place so many places of a pattern reach over.
#[tactic(auto, unfolding(crate::specs::Rules::reach_before))]
fn look_back(
    gdef: &[u8],
    sight: &Sight,
    pattern: &Pattern<'_>,
    count: u16,
    glyphs: &GlyphView<'_>,
    at: usize,
) -> Option<usize>
    requires { at ≤ length glyphs.now }
    ensures { result ≡ reach_before gdef.now sight.now (fits pattern.now) count glyphs.now at }
{
    let mut from = 0;
    for k in 0..count {
        let found = pattern.previous(gdef, sight, k, glyphs, at, from);
        if let Some(i) = found {
            from = i + 1;
        } else {
            return None;
        }
    }
    Some(from)
}

// The place behind so many places of a pattern, from a place on.
#[tactic(auto, unfolding(crate::specs::Rules::reach_behind))]
fn look_ahead(
    gdef: &[u8],
    sight: &Sight,
    pattern: &Pattern<'_>,
    count: u16,
    glyphs: &GlyphView<'_>,
    from: usize,
) -> Option<usize>
    ensures { result ≡ reach_behind gdef.now sight.now (fits pattern.now) count glyphs.now from }
{
    let mut from = from;
    for k in 0..count {
        let found = pattern.next(gdef, sight, k, glyphs, from);
        if let Some(i) = found {
            from = glyphs.after(i);
        } else {
            return None;
        }
    }
    Some(from)
}

// The place behind an input.
#[inline]
#[tactic(auto, unfolding(crate::specs::Rules::end_in))]
fn end_of(at: usize, places: &[usize]) -> usize
    ensures { result ≡ end_in at places.now }
{
    if places.is_empty() {
        at.saturating_add(1)
    } else {
        places[places.len() - 1].saturating_add(1)
    }
}

impl<'a> Rule<'a> {
    // The rest of a rule whose input is found.
    #[tactic(auto, unfolding(crate::specs::Rules::around))]
    fn fit_around(
        &self,
        gdef: &[u8],
        context: &Sight,
        glyphs: &GlyphView<'_>,
        at: usize,
        behind: &[usize],
    ) -> Option<Matched<'a>>
        requires inside { at < length glyphs.now }
        requires number { length behind.now ≤ 63 }
        ensures { option_map (λ it. found it) result
            ≡ around gdef.now context.now (sought self.now) glyphs.now at (Some behind.now) }
    {
        let end = end_of(at, behind);
        let stop = look_ahead(gdef, context, &self.behind, self.behind_count, glyphs, end)?;
        let back = look_back(gdef, context, &self.before, self.before_count, glyphs, at)?;
        let mut places = Places::new();
        places.push(at);
        places.try_extend_from_slice(behind).unwrap();
        Some(Matched {
            records: self.records,
            count: self.count,
            places,
            end,
            start: at.saturating_sub(back),
            stop,
        })
    }

    /// The rule at a place of a text, where it fits: its input by one sight, its context by
    /// another. A rule of no glyph or of more than 64 fits nowhere.
    #[tactic(auto, unfolding(crate::specs::Rules::found_at, crate::specs::Rules::around))]
    pub fn fit(
        &self,
        gdef: &[u8],
        input: &Sight,
        context: &Sight,
        glyphs: &GlyphView<'_>,
        at: usize,
    ) -> Option<Matched<'a>>
        requires { at < length glyphs.now }
        ensures { option_map (λ it. found it) result
            ≡ found_at gdef.now input.now context.now glyphs.now at (sought self.now) }
    {
        if self.input_count == 0 {
            return None;
        }
        if self.input_count > 64 {
            return None;
        }
        if self.input_count == 1 {
            return self.fit_around(gdef, context, glyphs, at, &[]);
        }
        let (pattern, count) = (&self.input, self.input_count - 1);
        let mut behind = Places::new();
        if !find_input(gdef, input, pattern, count, glyphs, at, &mut behind) {
            return None;
        }
        self.fit_around(gdef, context, glyphs, at, behind.as_slice())
    }
}

// What a list of numbers looks for.
#[tactic(auto, unfolding(crate::specs::Rules::test_in, crate::specs::Pattern::fits))]
fn pattern<'a>(format: u16, numbers: &'a [u8], of: ClassRef<'a>) -> Pattern<'a>
    ensures { fits result ≡ test_in format numbers.now of.entry.bytes.now }
{
    match format {
        1 => Pattern::Glyphs(numbers),
        2 => Pattern::Classes(numbers, of),
        _ => Pattern::Sets(numbers, of.bytes),
    }
}

// What rules must look for first before a place, if they ask about it.
#[inline]
fn before_key(
    is_asked: bool,
    format: u16,
    of: &ClassRef<'_>,
    gdef: &[u8],
    sight: &Sight,
    glyphs: &GlyphView<'_>,
    at: usize,
) -> Key
    requires { at ≤ length glyphs.now }
    ensures { (numbers : List ℕ) → bars result (begins_with numbers) ≡ true →
        previous_in gdef.now sight.now (test_in format numbers of.now.bytes.now) glyphs.now at 0 0
        ≡ None }
{
    if !is_asked {
        return Key::Any;
    }
    key_before(gdef, sight, glyphs, at).by(format, of)
}

// What rules must look for first from a place on, if they ask about it.
#[inline]
fn behind_key(
    is_asked: bool,
    format: u16,
    of: &ClassRef<'_>,
    gdef: &[u8],
    sight: &Sight,
    glyphs: &GlyphView<'_>,
    from: usize,
) -> Key
    ensures { (numbers : List ℕ) → bars result (begins_with numbers) ≡ true →
        next_in gdef.now sight.now (test_in format numbers of.now.bytes.now) glyphs.now 0 from
        ≡ None }
{
    if !is_asked {
        return Key::Any;
    }
    key_behind(gdef, sight, glyphs, from).by(format, of)
}

fn shift(format: u16) -> usize
    ensures value { result ≡ shift_in format }
    ensures few { result ≤ 2 }
{
    if format == 3 { 2 } else { 0 }
}

impl<'a> Tables<'a> {
    // A rule of a chained context.
    #[tactic(auto, unfolding(crate::specs::Rules::chained_in))]
    fn chained_rule(&self, bytes: &'a [u8]) -> Rule<'a>
        ensures { sought result ≡ chained_in (kind self.now) bytes.now }
    {
        let shift = shift(self.format);
        let before_count = u16_at(bytes, shift);
        let input_at = shift + 2 + usize::from(before_count) * 2;
        let input_count = u16_at(bytes, input_at);
        let behind_at = input_at + shift + usize::from(input_count) * 2;
        let behind_count = u16_at(bytes, behind_at);
        let records_at = behind_at + 2 + usize::from(behind_count) * 2;
        Rule {
            before: pattern(self.format, table_at(bytes, shift + 2), self.before),
            before_count,
            input: pattern(
                self.format,
                table_at(bytes, input_at + shift + 2),
                self.input,
            ),
            input_count,
            behind: pattern(self.format, table_at(bytes, behind_at + 2), self.behind),
            behind_count,
            records: table_at(bytes, records_at + 2),
            count: u16_at(bytes, records_at),
        }
    }

    // A rule of a context.
    #[tactic(auto, unfolding(crate::specs::Rules::unchained_in))]
    fn unchained_rule(&self, bytes: &'a [u8]) -> Rule<'a>
        ensures { sought result ≡ unchained_in (kind self.now) bytes.now }
    {
        let shift = shift(self.format);
        let input_count = u16_at(bytes, shift);
        Rule {
            before: pattern(1, &[], ClassRef::of(&[])),
            before_count: 0,
            input: pattern(self.format, table_at(bytes, shift + shift + 4), self.input),
            input_count,
            behind: pattern(1, &[], ClassRef::of(&[])),
            behind_count: 0,
            records: table_at(bytes, shift + shift + 2 + usize::from(input_count) * 2),
            count: u16_at(bytes, shift + 2),
        }
    }

    /// The rule that begins with these bytes: a table of a set, or in format 3 the context itself.
    #[tactic(auto, unfolding(crate::specs::Rules::rule_in))]
    pub fn rule(&self, bytes: &'a [u8]) -> Rule<'a>
        ensures { sought result ≡ rule_in (kind self.now) bytes.now }
    {
        if self.chained {
            self.chained_rule(bytes)
        } else {
            self.unchained_rule(bytes)
        }
    }

    // The tables of a context of format 3, whose offsets are all from its start.
    #[inline]
    #[tactic(auto, unfolding(crate::specs::Rules::kind_in))]
    fn of_sets(chained: bool, bytes: &'a [u8]) -> Self
        requires { u16_in bytes.now 0 ≡ 3 }
        ensures { kind result ≡ kind_in chained bytes.now }
    {
        let table = ClassRef::of(bytes);
        Tables {
            chained,
            format: 3,
            before: table,
            input: table,
            behind: table,
        }
    }

    /// The tables of a context.
    #[tactic(auto, unfolding(crate::specs::Rules::kind_in))]
    pub fn of(chained: bool, bytes: &'a [u8]) -> Self
        ensures { kind result ≡ kind_in chained bytes.now }
    {
        match u16_at(bytes, 0) {
            3 => Self::of_sets(chained, bytes),
            2 if chained => Tables {
                chained: true,
                format: 2,
                before: classes_at(bytes, 4),
                input: classes_at(bytes, 6),
                behind: classes_at(bytes, 8),
            },
            2 => Tables {
                chained: false,
                format: 2,
                before: ClassRef::of(&[]),
                input: classes_at(bytes, 4),
                behind: ClassRef::of(&[]),
            },
            _ => Tables {
                chained,
                format: 1,
                before: ClassRef::of(&[]),
                input: ClassRef::of(&[]),
                behind: ClassRef::of(&[]),
            },
        }
    }

    // What rules must look for beside a place to fit there, as far as they ask about it.
    fn keys(
        &self,
        asked: Asked,
        gdef: &[u8],
        input: &Sight,
        context: &Sight,
        glyphs: &GlyphView<'_>,
        at: usize,
    ) -> Keys
        requires { at < length glyphs.now }
        ensures { AreKeys gdef.now input.now context.now (kind self.now) glyphs.now at result }
    {
        let (format, end) = (self.format, end_of(at, &[]));
        Keys {
            before: before_key(
                asked.before,
                format,
                &self.before,
                gdef,
                context,
                glyphs,
                at,
            ),
            input: behind_key(
                asked.input,
                format,
                &self.input,
                gdef,
                input,
                glyphs,
                glyphs.after(at),
            ),
            behind: behind_key(
                asked.behind,
                format,
                &self.behind,
                gdef,
                context,
                glyphs,
                end,
            ),
        }
    }

    // Whether a rule can't fit a place with these keys.
    #[inline]
    #[tactic(auto, unfolding(crate::specs::Rules::rule_in))]
    fn is_barred(&self, keys: &Keys, bytes: &[u8]) -> bool
        ensures { result ≡ true →
            IsBarred (kind self.now) keys.now (rule_in (kind self.now) bytes.now) }
    {
        if self.format == 3 {
            return false;
        }
        if self.chained {
            keys.bar_chained(bytes)
        } else {
            keys.bar_unchained(bytes)
        }
    }

    // Whether the glyphs beside a place bar the rule of a chained context of format 3.
    #[inline]
    #[tactic(auto, unfolding(crate::specs::Rules::rule_in))]
    fn are_sets_barred(
        &self,
        gdef: &[u8],
        input: &Sight,
        context: &Sight,
        bytes: &[u8],
        glyphs: &GlyphView<'_>,
        at: usize,
    ) -> bool
        requires { at < length glyphs.now }
        ensures { result ≡ true → found_at gdef.now input.now context.now glyphs.now at
            (rule_in (kind self.now) bytes.now) ≡ None }
    {
        if !self.chained {
            return false;
        }
        if self.format != 3 {
            return false;
        }
        let before_count = u16_at(bytes, 2);
        let input_at = 4 + usize::from(before_count) * 2;
        let input_count = u16_at(bytes, input_at);
        if input_count != 1 {
            return input_count > 1
                && key_behind(gdef, input, glyphs, glyphs.after(at)).bars_set(set_at(
                    self.input.bytes,
                    bytes,
                    input_at + 4,
                ));
        }
        if before_count > 0
            && key_before(gdef, context, glyphs, at).bars_set(set_at(self.before.bytes, bytes, 4))
        {
            return true;
        }
        u16_at(bytes, input_at + 4) > 0
            && key_behind(gdef, context, glyphs, end_of(at, &[])).bars_set(set_at(
                self.behind.bytes,
                bytes,
                input_at + 6,
            ))
    }

    // Whether a rule of a set can't fit a place with these keys, by the set's heads if it has them.
    #[inline]
    fn is_nth_barred(
        &self,
        keys: &Keys,
        set: &[u8],
        prepared: Option<&PreparedRules<'_>>,
        i: u16,
    ) -> bool
        requires { IfSome prepared (λ it. it.now ≡ record {
          chained = self.now.chained;
          bytes = set.now;
        }) }
        ensures { result ≡ true →
            IsBarred (kind self.now) keys.now (rule_in (kind self.now) (nth_part set.now i)) }
    {
        if self.format == 3 {
            return false;
        }
        if let Some(rules) = prepared {
            if let Some(head) = rules.head(i) {
                return keys.bar(head);
            }
        }
        self.is_barred(keys, nth(set, i))
    }

    /// The first rule of a set that fits; the set's heads, if it has them, save most reads of its
    /// bytes.
    #[tactic(auto, unfolding(crate::specs::Rules::nth_in, crate::specs::Rules::first_in))]
    pub(crate) fn first_rule(
        &self,
        gdef: &[u8],
        input: &Sight,
        context: &Sight,
        set: &'a [u8],
        prepared: Option<&PreparedRules<'_>>,
        glyphs: &GlyphView<'_>,
        at: usize,
    ) -> Option<Matched<'a>>
        requires inside { at < length glyphs.now }
        requires prepared { IfSome prepared (λ it. it.now ≡ record {
          chained = self.now.chained;
          bytes = set.now;
        }) }
        ensures { option_map (λ it. found it) result
            ≡ first_in gdef.now input.now context.now (kind self.now) set.now glyphs.now at }
    {
        // (most classes of a font have no rule)
        let count = rule_count(set);
        if count == 0 {
            return None;
        }
        let asked = match prepared {
            Some(rules) => rules.asked(),
            None => Asked::all(self.chained),
        };
        let keys = self.keys(asked, gdef, input, context, glyphs, at);
        for i in 0..count {
            if self.is_nth_barred(&keys, set, prepared, i) {
                continue;
            }
            let rule = self.rule(nth(set, i));
            let found = rule.fit(gdef, input, context, glyphs, at);
            if found.is_some() {
                return found;
            }
        }
        None
    }
}

// The table of classes whose offset stands at a place of a context.
#[inline]
fn classes_at(bytes: &[u8], at: usize) -> ClassRef<'_>
    ensures { result.bytes.now ≡ table_at bytes.now (u16_in bytes.now at) }
{
    ClassRef::of(table_at(bytes, usize::from(u16_at(bytes, at))))
}

// The set of glyphs whose offset from the start of a table stands at a place of a rule.
#[inline]
fn set_at<'a>(table: &'a [u8], rule: &[u8], at: usize) -> &'a [u8]
    ensures { result.now ≡ table_at table.now (u16_in rule.now at) }
{
    table_at(table, usize::from(u16_at(rule, at)))
}

// A set of rules of a context, by its number.
#[tactic(auto, unfolding(crate::specs::Rules::set_in))]
pub(crate) fn rule_set(bytes: &[u8], at: usize, i: u32) -> &[u8]
    requires { at ≤ 10 }
    ensures { result.now ≡ set_in bytes.now at i }
{
    if i >= u32::from(u16_at(bytes, at)) {
        return &[];
    }
    table_at(bytes, usize::from(u16_at(bytes, at + 2 + i as usize * 2)))
}

pub(crate) fn place_of_sets(chained: bool) -> usize
    ensures value { result ≡ sets_at chained }
    ensures few { result ≤ 10 }
{
    if chained { 10 } else { 6 }
}

/// The first rule of a context that fits a place of a text: its input by one sight, its context by
/// another. A table of the set of glyphs that the context begins with saves a search in the set.
#[tactic(auto, unfolding(crate::specs::Rules::context_in, crate::specs::Rules::by_glyphs))]
pub fn find_rule<'a>(
    chained: bool,
    gdef: &[u8],
    input: &Sight,
    context: &Sight,
    bytes: &'a [u8],
    set: Option<&PreparedCoverage<'_>>,
    glyphs: &GlyphView<'_>,
    at: usize,
) -> Option<Matched<'a>>
    requires inside { at < length glyphs.now }
    requires set { IfSome set (λ it.
        it.now.set.now ≡ table_at bytes.now (u16_in bytes.now (start_at chained bytes.now))) }
    ensures { option_map (λ it. found it) result
        ≡ context_in chained gdef.now input.now context.now bytes.now glyphs.now at }
{
    let format = u16_at(bytes, 0);
    if format == 3 {
        // (the set is asked last: it may have to be searched, and few rules are left by then; and
        // the tables are made twice, so that a rule that is barred writes none)
        if Tables::of_sets(chained, bytes).are_sets_barred(
            gdef, input, context, bytes, glyphs, at,
        ) {
            return None;
        }
        let first = place_of_first(chained, bytes);
        place_in_set(bytes, first, set, number(glyphs.at(at)))?;
        let rule = Tables::of_sets(chained, bytes).rule(bytes);
        return rule.fit(gdef, input, context, glyphs, at);
    }
    let glyph = number(glyphs.at(at));
    let place = place_in_set(bytes, 2, set, glyph)?;
    let tables = Tables::of(chained, bytes);
    let rules = match format {
        1 => rule_set(bytes, 4, place),
        2 => {
            let class = tables.input.class(glyph);
            rule_set(bytes, place_of_sets(chained), u32::from(class))
        }
        _ => return None,
    };
    tables.first_rule(gdef, input, context, rules, None, glyphs, at)
}

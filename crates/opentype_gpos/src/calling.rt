//! Rules of contexts that fit, and the lookups that they apply.
ghost use Rattle.std.specs.Prelude.{ℕ, ◌≡◌, ◌<◌, ◌≤◌, ◌+◌, ◌-◌, ◌*◌, [], true, length, IfSome, IfNone};
ghost use Rattle.std.specs.Option.{option_map};
ghost use Rattle.opentype_layout.specs.Rules.{Found, found};
ghost use Rattle.opentype_gpos.specs.Called.{Work, lookup_made, record_made, rule_made};
ghost use Rattle.opentype_gpos.specs.CalledWalk.{begun_on, made_if_found, rest_made};
ghost use Rattle.opentype_gpos.specs.Coming.{Setting, setting_of};
ghost use Rattle.opentype_gpos.specs.Moved.{Positions, flagged_up_to};

use crate::coming::{Came, come_to};
use crate::making::{make_move, make_pair};
use crate::moved::flag_up_to;
use crate::pass::Pass;
use crate::trying::flag_tried;
use arrayvec::ArrayVec;
use opentype_face::bytes::u16_at;
use opentype_layout::places::Places;
use opentype_layout::rules::Matched;
use opentype_layout::starts::LookupTable;
use shapers_buffer::buffer::{GlyphPosition, hb_glyph_info_t};

/// A rule that fits, with lookups left to apply.
#[derive(Debug, Default, Drop)]
pub struct Frame<'a> {
    // the records of its lookups, how many they are, and which is next
    pub(crate) records: &'a [u8],
    pub(crate) count: u16,
    pub(crate) next: u16,
    // the places of its input
    pub(crate) places: Places,
}

/// Rules whose lookups apply one another.
pub type Frames<'a> = ArrayVec<Frame<'a>, 63>;

// Applies a lookup at a place; the rule that fits there, if one does.
#[tactic(auto, unfolding(crate::specs::Called::lookup_made))]
fn call<'a>(
    pass: &Pass<'_>,
    lookup: &LookupTable<'a>,
    at: usize,
    glyphs: &mut [hb_glyph_info_t],
    positions: &mut [GlyphPosition],
) -> Option<Matched<'a>>
    requires { length positions.old ≡ length glyphs.old }
    ensures same { (by_rule : Found → Work → Work) (left : ℕ) →
        lookup_made by_rule (setting_of pass.now) lookup.now at
        (record { glyphs = glyphs.old; positions = positions.old; left = left })
        ≡ made_if_found by_rule (option_map (λ it. found it) result)
        (record { glyphs = glyphs.new; positions = positions.new; left = left }) }
{
    let sights = pass.sights(lookup.bytes());
    let came = come_to(pass, &sights, lookup, glyphs, at);
    flag_tried(pass, &sights, lookup, glyphs, at);
    match came {
        Some(Came::Moves(change)) => {
            make_move(pass.direction, &change, at, glyphs, positions);
            None
        }
        Some(Came::Pairs(pair)) => {
            make_pair(pass.direction, &pair, at, glyphs, positions);
            None
        }
        Some(Came::Fits(rule)) => Some(rule),
        None => None,
    }
}

// Applies a record of a rule, if the input has the place that it names, and so many operations are
// left as the lookup takes; else none is left.
#[tactic(auto, unfolding(crate::specs::Called::record_made))]
fn call_record<'a>(
    pass: &Pass<'a>,
    records: &[u8],
    places: &[usize],
    i: u16,
    left: &mut usize,
    glyphs: &mut [hb_glyph_info_t],
    positions: &mut [GlyphPosition],
) -> Option<Matched<'a>>
    requires some { 0 < left.old }
    requires paired { length positions.old ≡ length glyphs.old }
    ensures same { (by_rule : Found → Work → Work) →
        record_made by_rule (setting_of pass.now) records.now places.now i
        (record { glyphs = glyphs.old; positions = positions.old; left = left.old })
        ≡ made_if_found by_rule (option_map (λ it. found it) result)
        (record { glyphs = glyphs.new; positions = positions.new; left = left.new }) }
    ensures fewer { left.new < left.old }
{
    let record = usize::from(i) * 4;
    let sequence = usize::from(u16_at(records, record));
    let called = pass.gpos.lookup(u16_at(records, record + 2));
    let operations = called.operations();
    if operations > *left {
        *left = 0;
        return None;
    }
    *left -= operations;
    if sequence >= places.len() {
        return None;
    }
    call(pass, &called, places[sequence], glyphs, positions)
}

// Flags what a rule looked at.
#[inline]
fn flag_rule(rule: &Matched<'_>, glyphs: &mut [hb_glyph_info_t])
    ensures { glyphs.new ≡ flagged_up_to true rule.now.start (rule.now.stop - 1) glyphs.old }
{
    flag_up_to(true, rule.start, rule.stop.saturating_sub(1), glyphs);
}

// Puts a rule on those that its caller is one of, if that isn't too deep.
fn push_rule<'a>(frames: &mut Frames<'a>, rule: Option<Matched<'a>>, glyphs: &mut [hb_glyph_info_t])
    ensures same { (s : Setting) (ps : Positions) (left : ℕ) →
        rest_made s (begun_on frames.new.items)
        (record { glyphs = glyphs.new; positions = ps; left = left })
        ≡ rest_made s (begun_on frames.old.items)
        (made_if_found (rule_made (63 - length frames.old.items) s) (option_map (λ it. found it) rule.entry)
        (record { glyphs = glyphs.old; positions = ps; left = left })) }
    ensures one { length frames.new.items ≤ length frames.old.items + 1 }
    ensures few { length frames.new.items ≤ 63 }
{
    if frames.is_full() {
        return;
    }
    if let Some(rule) = rule {
        flag_rule(&rule, glyphs);
        frames.push(Frame {
            records: rule.records,
            count: rule.count,
            next: 0,
            places: rule.places,
        });
    }
}

// The next record of the rule on top, or the end of that rule: how many operations are left, or `None`
// where no rule is.
fn step<'a>(
    pass: &Pass<'a>,
    left: usize,
    frames: &mut Frames<'a>,
    glyphs: &mut [hb_glyph_info_t],
    positions: &mut [GlyphPosition],
) -> Option<usize>
    requires some { 0 < left }
    requires few { length frames.old.items ≤ 63 }
    requires paired { length positions.old ≡ length glyphs.old }
    ensures same { IfSome result (λ fewer. rest_made (setting_of pass.now) (begun_on frames.new.items)
        (record { glyphs = glyphs.new; positions = positions.new; left = fewer })
        ≡ rest_made (setting_of pass.now) (begun_on frames.old.items)
        (record { glyphs = glyphs.old; positions = positions.old; left = left })) }
    ensures fewer { IfSome result (λ fewer.
        2 * fewer + length frames.new.items < 2 * left + length frames.old.items) }
    ensures few { length frames.new.items ≤ 63 }
    ensures none { IfNone result (frames.old.items ≡ []) }
    ensures no_glyph { IfNone result (glyphs.new ≡ glyphs.old) }
    ensures no_position { IfNone result (positions.new ≡ positions.old) }
{
    let Some(mut frame) = frames.pop() else {
        return None;
    };
    if frame.next >= frame.count {
        return Some(left);
    }
    let i = frame.next;
    frame.next += 1;
    let mut left = left;
    let inner = call_record(
        pass,
        frame.records,
        frame.places.as_slice(),
        i,
        &mut left,
        glyphs,
        positions,
    );
    frames.push(frame);
    push_rule(frames, inner, glyphs);
    Some(left)
}

// What a rule that another one's lookup found makes of a text; returns how many operations are left.
// (Its rules take many bytes, for which a caller that this is inlined into would make room at
// each call.)
#[inline(never)]
fn run<'a>(
    pass: &Pass<'a>,
    rule: Matched<'a>,
    left: usize,
    glyphs: &mut [hb_glyph_info_t],
    positions: &mut [GlyphPosition],
) -> usize
    requires { length positions.old ≡ length glyphs.old }
    ensures { rule_made 63 (setting_of pass.now) (found rule.entry)
        (record { glyphs = glyphs.old; positions = positions.old; left = left })
        ≡ record { glyphs = glyphs.new; positions = positions.new; left = result } }
{
    let mut frames = Frames::new();
    push_rule(&mut frames, Some(rule), glyphs);
    let mut left = left;
    while left > 0 {
        match step(pass, left, &mut frames, glyphs, positions) {
            Some(fewer) => left = fewer,
            None => return left,
        }
    }
    0
}

// A record of a rule, with what the lookup makes that it applies; returns how many operations are left.
fn apply_record<'a>(
    pass: &Pass<'a>,
    rule: &Matched<'a>,
    i: u16,
    left: usize,
    glyphs: &mut [hb_glyph_info_t],
    positions: &mut [GlyphPosition],
) -> usize
    requires some { 0 < left }
    requires paired { length positions.old ≡ length glyphs.old }
    ensures { record_made (rule_made 63 (setting_of pass.now)) (setting_of pass.now)
        rule.now.records.now rule.now.places.items i
        (record { glyphs = glyphs.old; positions = positions.old; left = left })
        ≡ record { glyphs = glyphs.new; positions = positions.new; left = result } }
{
    let mut left = left;
    let inner = call_record(
        pass,
        rule.records,
        rule.places.as_slice(),
        i,
        &mut left,
        glyphs,
        positions,
    );
    match inner {
        Some(inner) => run(pass, inner, left, glyphs, positions),
        None => left,
    }
}

// How many operations the rules at a place have.
const MOST_OPERATIONS: usize = 4096;

/// What a rule that fits makes of a text, with the lookups that it applies: at most 64 levels deep, and
/// in at most 4,096 operations, of which a lookup takes `LookupTable::operations`.
pub fn apply_rule<'a>(
    pass: &Pass<'a>,
    rule: &Matched<'a>,
    glyphs: &mut [hb_glyph_info_t],
    positions: &mut [GlyphPosition],
)
    requires { length positions.old ≡ length glyphs.old }
    ensures glyphs { let w = rule_made 64 (setting_of pass.now) (found rule.now)
        (record { glyphs = glyphs.old; positions = positions.old; left = 4096 }) in
        glyphs.new ≡ w.glyphs }
    ensures positions { let w = rule_made 64 (setting_of pass.now) (found rule.now)
        (record { glyphs = glyphs.old; positions = positions.old; left = 4096 }) in
        positions.new ≡ w.positions }
{
    flag_rule(rule, glyphs);
    let mut left = MOST_OPERATIONS;
    for i in 0..rule.count {
        if left == 0 {
            return;
        }
        left = apply_record(pass, rule, i, left, glyphs, positions);
    }
}

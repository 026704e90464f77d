//! Finding the syllable that begins a text.
ghost use Rattle.std.specs.Prelude.{◌≡◌, ◌+◌, ◌-◌, ◌<◌, ◌≤◌, ◌⊎◌, drop, false, length, true, ℕ, List, ◌∷◌, IfSome, IfNone};
ghost use Rattle.shapers_spans.specs.Grammar.{BeginsWith};
ghost use Rattle.shapers_spans.specs.Joined.{KnowsJoiners};
ghost use Rattle.shapers_spans.specs.Watch.{IsWatched};

use crate::machine::Machine;
use crate::reads::Reads;
use shapers_base::buffer::{Span, hb_glyph_info_t};
use std::sync::ledger::Ledger;

// What is known of the joiners that stand together in a text.
//
// The machine may cycle in one state for as long as joiners stand there, and end nothing behind them:
// then each of them begins a syllable of its own. So that none of these walks goes over the joiners
// again, it is known where they end; and so that none reads again what stands behind them, a state
// from which nothing ends there.
#[derive(Clone, Copy)]
pub(crate) struct Joiners {
    // the place behind them: from where the walk begins up to there, what is read are joiners
    end: usize,
    // nothing ends from this state behind them
    stuck: u8,
}

impl Joiners {
    // None.
    #[inline]
    pub(crate) fn none() -> Self
        ensures { result.end ≡ 0 }
    {
        Joiners { end: 0, stuck: 0 }
    }

    // Where a walk from `start` goes on that cycles in a state with `n` glyphs behind it: behind the
    // joiners; nowhere, if nothing ends from that state behind them.
    //
    // Few texts cycle, and inlined this would slow down the others.
    #[inline(never)]
    fn behind(&mut self, start: usize, n: usize, state: u8) -> Option<usize>
        requires { start + n ≤ usize.MAX }
        ensures goes { IfSome result (λ place.
            (place ≡ n + (self.old.end - start - n)) × (self.new.end - start ≡ place)
            × (self.new.stuck ≡ state)
            × (start + n ≤ self.old.end → state ≡ self.old.stuck → ⊥)) }
        ensures stops { IfNone result
            ((start + n ≤ self.old.end) × (state ≡ self.old.stuck) × (self.new ≡ self.old)) }
    {
        let here = start + n;
        if here <= self.end && state == self.stuck {
            return None;
        }
        let end = here.max(self.end);
        *self = Joiners { end, stuck: state };
        Some(end - start)
    }
}

// Where the walk goes on in a state in which nothing ends: behind the joiners that are known, if
// the state cycles; and nowhere, if nothing ends behind them either.
#[inline]
fn behind_joiners<M: Machine>(
    machine: &M,
    state: u8,
    start: usize,
    n: usize,
    joiners: &mut Joiners,
) -> Option<usize>
    requires state { M.is_state machine.now state }
    requires fits { start + n ≤ usize.MAX }
    ensures goes { IfSome result (λ place.
        (M.cycles machine.now state ≡ false) × (place ≡ n) × (joiners.new ≡ joiners.old)
        ⊎ (M.cycles machine.now state ≡ true)
        × (place ≡ n + (joiners.old.end - start - n)) × (joiners.new.end - start ≡ place)
        × (joiners.new.stuck ≡ state)
        × (start + n ≤ joiners.old.end → state ≡ joiners.old.stuck → ⊥)) }
    ensures stops { IfNone result
        ((M.cycles machine.now state ≡ true) × (start + n ≤ joiners.old.end)
        × (state ≡ joiners.old.stuck) × (joiners.new ≡ joiners.old)) }
    ensures waits { M.cycles machine.now state ≡ true → M.waits machine.now state ≡ true }
    ensures stays { M.cycles machine.now state ≡ true →
        (k : ℕ) → M.is_joiner machine.now k ≡ true → (w : List ℕ) →
        M.ends machine.now state (k ∷ w) ≡ M.ends machine.now state w }
{
    if !machine.cycles(state) {
        return Some(n);
    }
    joiners.behind(start, n, state)
}

// The syllable that begins what is left of a text at `start`. A state that joiners don't leave goes
// on behind the sequence of them that is known, so that a sequence is read once and not again for
// each of its glyphs; and a state from which nothing ends behind the sequence goes no further.
#[inline]
pub(crate) fn first_span<M: Machine, L: Ledger>(
    machine: &M,
    glyphs: &[hb_glyph_info_t],
    start: usize,
    joiners: &mut Joiners,
    count: &mut Reads<L>,
) -> Span
    requires some { 0 < length glyphs.now }
    requires fits { start + length glyphs.now ≤ usize.MAX }
    requires read { (M.grammar machine.now).passes glyphs.now ≡ false }
    requires joined { let passes = (M.grammar machine.now).passes in
        KnowsJoiners passes (M.is_joiner machine.now) (M.ends machine.now) glyphs.now
        (joiners.old.end - start) joiners.old.stuck }
    ensures opens { BeginsWith (M.grammar machine.now) glyphs.now result }
    ensures some { 0 < result.len }
    ensures within { result.len ≤ length glyphs.now }
    ensures kind { result.kind ≤ 15 }
    ensures read { (M.grammar machine.now).passes (drop result.len glyphs.now) ≡ false }
    ensures joined { let passes = (M.grammar machine.now).passes in
        KnowsJoiners passes (M.is_joiner machine.now) (M.ends machine.now)
        (drop result.len glyphs.now) (joiners.new.end - start - result.len) joiners.new.stuck }
    ensures counted { let passes = (M.grammar machine.now).passes in
        let cycled = M.cycled machine.now in
        let left = record count.new { ahead = count.new.ahead - result.len } in
        (before : ℕ) →
        IsWatched passes cycled glyphs.now (joiners.old.end - start) joiners.old.stuck before
        count.old →
        IsWatched passes cycled (drop result.len glyphs.now)
        (joiners.new.end - start - result.len) joiners.new.stuck before left }
{
    let mut span = Span {
        len: machine.next_read(glyphs, 1),
        kind: machine.other(),
    };
    let mut state = machine.start();
    let mut n = 0;
    while n < glyphs.len() {
        count.read(n);
        state = machine.next(state, glyphs[n].category);
        if machine.is_dead(state) {
            return span;
        }
        n = machine.next_read(glyphs, n + 1);
        match machine.kind(state) {
            Some(kind) => span = Span { len: n, kind },
            None => match behind_joiners(machine, state, start, n, joiners) {
                Some(place) => n = place,
                None => return span,
            },
        }
    }
    span
}

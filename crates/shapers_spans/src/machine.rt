//! Machines that read categories, one after another, and machines by tables.
ghost use Rattle.std.specs.Prelude.{◌≡◌, ◌+◌, ◌<◌, ◌≤◌, ◌⊎◌, ℕ, List, [], ◌∷◌, IsTrue, None, drop, length, true, false};
ghost use Rattle.shapers_spans.specs.Grammar.{IsKind, KindsFit, reach_of};
ghost use Rattle.shapers_spans.specs.Cycling.{AreTablesOf};

use shapers_base::buffer::hb_glyph_info_t;

// What stands for a kind in a table where nothing ends.
const NO_END: u8 = 255;

/// A machine for a grammar: its state says what the rules take from there on.
///
/// Where nothing ends in a state, its rank says how many more states at most come before one in
/// which something does, one that cycles, or the dead one. In a state that cycles, each joiner leads
/// back to it: as many joiners as there are may stand there. The waiting states are those that cycle
/// and those on the way to them, to which joiners alone lead. A text that begins with two joiners
/// leads to one and the same state that cycles, whichever joiners they are.
pub trait Machine {
    ghost use Rattle.std.specs.Prelude.{ℕ, Bool, List, Option};
    ghost use Rattle.shapers_spans.specs.Grammar.{Grammar};

    ghost grammar: { Self → Grammar };

    ghost ends: { Self → ℕ → List ℕ → Option ℕ };

    ghost is_state: { Self → ℕ → Type 0 };

    ghost first: { Self → ℕ };

    ghost is_joiner: { Self → ℕ → Bool };

    ghost rank: { Self → ℕ → ℕ };

    ghost waits: { Self → ℕ → Bool };

    ghost cycles: { Self → ℕ → Bool };

    ghost begun: { Self → ℕ → Bool };

    ghost cycled: { Self → ℕ };

    /// The kind of a glyph that begins nothing that a rule takes.
    fn other(&self) -> u8
        ensures kind { result ≡ (grammar self.now).other }
        ensures fits { result ≤ 15 };

    /// The state in front of a syllable.
    fn start(&self) -> u8
        ensures state { is_state self.now result }
        ensures first { result ≡ first self.now }
        ensures alive { 0 < rank self.now result }
        ensures rank { rank self.now result ≤ 2 }
        ensures waits { waits self.now result ≡ false }
        ensures passes { (grammar self.now).passes [] ≡ false }
        ensures fit { KindsFit (grammar self.now) }
        ensures kinds { (w : List ℕ) → IsKind (grammar self.now) w (ends self.now result w) };

    /// The state behind one more category.
    fn next(&self, state: u8, category: u8) -> u8
        requires { is_state self.now state }
        ensures state { is_state self.now result }
        ensures ends { (w : List ℕ) →
            ends self.now state (category ∷ w) ≡ ends self.now result w }
        ensures falls { 0 < rank self.now state → ends self.now result [] ≡ None →
            cycles self.now result ≡ false → rank self.now result < rank self.now state }
        ensures rank { rank self.now result ≤ 2 }
        ensures one { state ≡ first self.now → is_joiner self.now category ≡ true →
            begun self.now result ≡ true }
        ensures begun { begun self.now result ≡ true →
            (cycles self.now result ≡ false) × (rank self.now result ≤ 1) }
        ensures two { begun self.now state ≡ true → is_joiner self.now category ≡ true →
            (result ≡ cycled self.now) × (ends self.now result [] ≡ None) }
        ensures same { cycles self.now state ≡ true → is_joiner self.now category ≡ true →
            result ≡ state }
        ensures waits { waits self.now result ≡ true →
            (is_joiner self.now category ≡ true)
            × ((waits self.now state ≡ true) ⊎ (ends self.now state [] ≡ None → ⊥)) };

    /// Whether nothing ends from here on.
    fn is_dead(&self, state: u8) -> bool
        requires { is_state self.now state }
        ensures dead { IsTrue result → (w : List ℕ) → ends self.now state w ≡ None }
        ensures alive { result ≡ false → 0 < rank self.now state };

    /// The kind of what ends here, if anything does.
    fn kind(&self, state: u8) -> Option<u8>
        requires { is_state self.now state }
        ensures { result ≡ ends self.now state [] };

    /// Whether joiners, as many as there are, lead from this state back to it.
    fn cycles(&self, state: u8) -> bool
        requires { is_state self.now state }
        ensures cycles { result ≡ cycles self.now state }
        ensures waits { IsTrue result → waits self.now state ≡ true }
        ensures stays { IsTrue result → (k : ℕ) → is_joiner self.now k ≡ true → (w : List ℕ) →
            ends self.now state (k ∷ w) ≡ ends self.now state w };

    /// The first place from `n` on whose glyph is read.
    fn next_read(&self, glyphs: &[hb_glyph_info_t], n: usize) -> usize
        requires { n ≤ length glyphs.now }
        ensures place { result ≡ n + reach_of (grammar self.now).passes (drop n glyphs.now) 0 }
        ensures within { result ≤ length glyphs.now }
        ensures end { (grammar self.now).passes [] ≡ false };
}

/// The tables of a machine, and what it passes over. A row of states, one for each class of
/// categories, says what comes behind a state; behind the dead state are the states that cycle.
pub trait MachineTables {
    ghost use Rattle.shapers_spans.specs.Grammar.{Grammar};
    ghost use Rattle.shapers_spans.specs.Machine.{Tables};
    ghost use Rattle.shapers_spans.specs.Cycling.{Cycling};

    ghost grammar: { Self → Grammar };

    ghost tables: { Self → Tables };

    ghost cycling: { Self → Cycling };

    /// The kind of a glyph that begins nothing that a rule takes.
    fn other_kind(&self) -> u8
        ensures kind { result ≡ (grammar self.now).other }
        ensures fits { result ≤ 15 };

    /// The state in front of a syllable.
    fn first_state(&self) -> u8
        ensures first { result ≡ 0 }
        ensures passes { (grammar self.now).passes [] ≡ false }
        ensures tables { AreTablesOf (grammar self.now) (tables self.now) (cycling self.now) };

    /// The state from which nothing ends.
    fn dead_state(&self) -> u8
        ensures state { result ≡ (cycling self.now).dead }
        ensures tables { AreTablesOf (grammar self.now) (tables self.now) (cycling self.now) };

    /// The class of each category.
    fn classes(&self) -> &[u8; 256]
        ensures classes { result.now ≡ (tables self.now).class_of }
        ensures tables { AreTablesOf (grammar self.now) (tables self.now) (cycling self.now) };

    /// How long a row is: a place for each class.
    fn row_len(&self) -> usize
        ensures { result ≡ (tables self.now).row_len };

    /// The next state, a row for each state.
    fn rows(&self) -> &[u8]
        ensures { result.now ≡ (tables self.now).rows };

    /// The kind of what ends in each state, 255 where nothing does.
    fn kinds(&self) -> &[u8]
        ensures { result.now ≡ (tables self.now).kind_in };

    /// The first place from `n` on whose glyph is read.
    fn read_from(&self, glyphs: &[hb_glyph_info_t], n: usize) -> usize
        requires { n ≤ length glyphs.now }
        ensures place { result ≡ n + reach_of (grammar self.now).passes (drop n glyphs.now) 0 }
        ensures within { result ≤ length glyphs.now }
        ensures end { (grammar self.now).passes [] ≡ false };
}

impl<T: MachineTables> Machine for T {
    ghost use Rattle.std.specs.Prelude.{◌<◌, length};
    ghost use Rattle.shapers_spans.specs.Machine.{ends_by};
    ghost use Rattle.shapers_spans.specs.Cycling.{joins, rank_of, has_begun, has_cycle, has_wait};

    ghost grammar = { λ it. T.grammar it };

    ghost ends = { λ it state w. ends_by (T.tables it) state w };

    ghost is_state = { λ it state. state < length (T.tables it).kind_in };

    ghost first = { λ _. 0 };

    ghost is_joiner = { λ it category. joins (T.tables it) (T.cycling it) category };

    ghost rank = { λ it state. rank_of (T.cycling it) state };

    ghost waits = { λ it state. has_wait (T.cycling it) state };

    ghost cycles = { λ it state. has_cycle (T.cycling it) state };

    ghost begun = { λ it state. has_begun (T.cycling it) state };

    ghost cycled = { λ it. (T.cycling it).cycled };

    #[inline]
    fn other(&self) -> u8 {
        self.other_kind()
    }

    #[inline]
    fn start(&self) -> u8 {
        self.first_state()
    }

    #[inline]
    fn next(&self, state: u8, category: u8) -> u8 {
        let class = self.classes()[category as usize];
        self.rows()[state as usize * self.row_len() + class as usize]
    }

    #[inline]
    fn is_dead(&self, state: u8) -> bool {
        state == self.dead_state()
    }

    #[inline]
    fn kind(&self, state: u8) -> Option<u8> {
        let kind = self.kinds()[state as usize];
        if kind == NO_END { None } else { Some(kind) }
    }

    #[inline]
    fn cycles(&self, state: u8) -> bool {
        state > self.dead_state()
    }

    #[inline]
    fn next_read(&self, glyphs: &[hb_glyph_info_t], n: usize) -> usize {
        self.read_from(glyphs, n)
    }
}

//! What comes before the order of a syllable: its positions, and the moves of single glyphs.
//! (OpenType, development of Indic scripts: "Reorder characters".)
ghost use Rattle.std.specs.Prelude.{◌≡◌, ◌+◌, ◌-◌, ◌<◌, ◌≤◌, length};
ghost use Rattle.shapers_buffer.specs.declared.buffer.placement.Placement.TheVariants.{Forward, Stays};
ghost use Rattle.shapers_indic_initial.specs.InitialReordering.{halant_steps, joiner_steps, first_steps, positioned, with_halant_moved, with_joiner_first, with_marks_and_owners};
ghost use Rattle.shapers_indic_initial.specs.InitialRules as initial;
ghost use Rattle.shapers_indic_initial.specs.InitialRules.{initial_rules};
ghost use Rattle.shapers_indic_initial.specs.PairWalk.{is_consonant_with_sign};
ghost use Rattle.shapers_indic_initial.specs.MovedWalk.{IsUnlisted, MovesUnlisted, PositionsSet, moved_buffer, moved_first_by};
ghost use Rattle.shapers_syllabic.specs.Reordering.{SyllableReordered};

use super::base::{Base, find_base};
use super::halant::{halant_move, joiner_comes_first};
use super::moved::MovedSyllable;
use super::positions::{attach_marks, own, set_positions_by_base};
use super::rules::Rules;
use shapers_base::buffer::{
    GlyphWalk, Placement, Script, SyllableReading, hb_buffer_t, hb_glyph_info_t,
};
use shapers_base::font::hb_font_t;
use shapers_base::plan::ot_category_t::{OT_C, OT_M, OT_MPst, OT_SM};
use shapers_base::plan::ot_position_t::POS_BASE_C;

/// Prepares the syllable from `start` to `end` for its order, and returns its first moves, which
/// aren't written yet. Kannada's opening Ra, H, ZWJ becomes Ra, ZWJ, H; the glyphs get their
/// positions; and by the older specification the H after the base goes behind the last consonant. It
/// takes no memory.
#[inline]
pub(super) fn prepare_for_order<F: hb_font_t>(
    rules: &Rules<F>,
    buffer: &mut hb_buffer_t,
    start: usize,
    end: usize,
) -> MovedSyllable
    requires in_order { start ≤ end }
    requires in_range { end ≤ length buffer.old.glyphs }
    ensures start { result.start ≡ start }
    ensures end { result.end ≡ end }
    ensures unlisted { MovesUnlisted result }
    ensures same_length { length buffer.new.glyphs ≡ length buffer.old.glyphs }
    ensures reordered { let font = F.font rules.now.font.now in
        let r = initial_rules font rules.now.map.now rules.now.plan.now in
        let meaning = positioned r buffer.old.script in
        let steps = first_steps r buffer.old.script in
        SyllableReordered meaning steps start end buffer.old (moved_buffer result buffer.new) }
{
    if is_consonant_with_sign(&buffer.glyphs()[start..end]) {
        return MovedSyllable {
            first: Placement::Stays,
            second: Placement::Stays,
            start,
            end,
        };
    }
    let script = buffer.script();
    let first = put_joiner_first(script, buffer, start, end);
    let second = set_positions(rules, first, buffer, start, end);
    MovedSyllable {
        first,
        second,
        start,
        end,
    }
}

// Whether a syllable is one consonant at the base and a vowel sign or a modifier. Many are: nothing in
// them moves, and their positions are those that they have.
#[inline]
fn is_consonant_with_sign(syllable: &[hb_glyph_info_t]) -> bool
    ensures { result ≡ is_consonant_with_sign syllable.now }
{
    match syllable {
        [first, second] => {
            first.category == OT_C
                && first.auxiliary == POS_BASE_C
                && !first.glyph_props.is_ligated()
                && matches!(second.category, OT_M | OT_MPst | OT_SM)
        }
        _ => false,
    }
}

// Sets the positions of a syllable behind its first move, and returns the second. Nearly always the
// first moves nothing: rustc then has a copy of the code that knows it.
#[inline]
fn set_positions<F: hb_font_t>(
    rules: &Rules<F>,
    first: Placement,
    buffer: &mut hb_buffer_t,
    start: usize,
    end: usize,
) -> Placement
    requires in_order { start ≤ end }
    requires in_range { end ≤ length buffer.old.glyphs }
    requires unlisted { IsUnlisted first start end }
    ensures unlisted { IsUnlisted result start end }
    ensures same_length { length buffer.new.glyphs ≡ length buffer.old.glyphs }
    ensures reordered { let font = F.font rules.now.font.now in
        let r = initial_rules font rules.now.map.now rules.now.plan.now in
        PositionsSet r first result start end buffer.old buffer.new }
{
    match first {
        Placement::Stays => set_positions_behind(rules, Placement::Stays, buffer, start, end),
        _ => set_positions_of_moved(rules, first, buffer, start, end),
    }
}

// Sets them where the first move moves something: in Kannada's opening Ra, H, ZWJ alone.
#[cold]
#[inline(never)]
fn set_positions_of_moved<F: hb_font_t>(
    rules: &Rules<F>,
    first: Placement,
    buffer: &mut hb_buffer_t,
    start: usize,
    end: usize,
) -> Placement
    requires in_order { start ≤ end }
    requires in_range { end ≤ length buffer.old.glyphs }
    requires unlisted { IsUnlisted first start end }
    ensures unlisted { IsUnlisted result start end }
    ensures same_length { length buffer.new.glyphs ≡ length buffer.old.glyphs }
    ensures reordered { let font = F.font rules.now.font.now in
        let r = initial_rules font rules.now.map.now rules.now.plan.now in
        PositionsSet r first result start end buffer.old buffer.new }
{
    set_positions_behind(rules, first, buffer, start, end)
}

// Sets these positions part by part.
#[inline(always)]
fn set_positions_behind<F: hb_font_t>(
    rules: &Rules<F>,
    first: Placement,
    buffer: &mut hb_buffer_t,
    start: usize,
    end: usize,
) -> Placement
    requires in_order { start ≤ end }
    requires in_range { end ≤ length buffer.old.glyphs }
    requires unlisted { IsUnlisted first start end }
    ensures unlisted { IsUnlisted result start end }
    ensures same_length { length buffer.new.glyphs ≡ length buffer.old.glyphs }
    ensures reordered { let font = F.font rules.now.font.now in
        let r = initial_rules font rules.now.map.now rules.now.plan.now in
        PositionsSet r first result start end buffer.old buffer.new }
{
    let script = buffer.script();
    let opened = MovedSyllable {
        first,
        second: Placement::Stays,
        start,
        end,
    };
    let mut positions = PositionsByBase {
        rules,
        base: Base::NONE,
    };
    buffer.walk_arranged(
        &opened.moves_then(Placement::Stays),
        start,
        end,
        &mut positions,
    );
    let base = positions.base.place;
    let second = place_halant(rules.plan.is_old_spec, script, &opened, buffer, base);
    let moved = MovedSyllable {
        first,
        second,
        start,
        end,
    };
    let mut marks = PositionsOfMarks { base };
    buffer.walk_arranged(&moved.moves_then(Placement::Stays), start, end, &mut marks);
    second
}

// Merges an H and the ZWJ behind it, where Kannada has them change places, and returns that move.
#[inline]
fn put_joiner_first(
    script: Option<Script>,
    buffer: &mut hb_buffer_t,
    start: usize,
    end: usize,
) -> Placement
    requires in_order { start ≤ end }
    requires in_range { end ≤ length buffer.old.glyphs }
    ensures unlisted { IsUnlisted result start end }
    ensures others { buffer.new ≡ record buffer.old { glyphs = buffer.new.glyphs } }
    ensures same_length { length buffer.new.glyphs ≡ length buffer.old.glyphs }
    ensures reordered { let opened = moved_buffer (moved_first_by result start end) buffer.new in
        SyllableReordered (with_joiner_first script) (joiner_steps script)
        start end buffer.old opened }
{
    if joiner_comes_first(script, &buffer.glyphs()[start..end]) {
        buffer.merge_clusters(start + 1, start + 3);
        return to_end(start + 1, start + 3);
    }
    Placement::Stays
}

// The move of the H after the base, by the older specification.
#[inline(always)]
fn place_halant(
    is_old_spec: bool,
    script: Option<Script>,
    opened: &MovedSyllable,
    buffer: &mut hb_buffer_t,
    base: usize,
) -> Placement
    requires in_order { opened.now.start ≤ opened.now.end }
    requires in_range { opened.now.end ≤ length buffer.old.glyphs }
    requires unlisted { MovesUnlisted opened.now }
    requires second { opened.now.second ≡ Stays }
    ensures same { buffer.new ≡ buffer.old }
    ensures unlisted { IsUnlisted result opened.now.start opened.now.end }
    ensures reordered { (rules : initial.Rules) → rules.old ≡ is_old_spec → (
        let meaning = with_halant_moved rules script base in
        let steps = halant_steps rules script base in
        SyllableReordered meaning steps opened.now.start opened.now.end
        (moved_buffer opened.now buffer.old)
        (moved_buffer (record opened.now { second = result }) buffer.old)) }
{
    if !is_old_spec {
        return Placement::Stays;
    }
    let mut search = HalantSearch {
        script,
        base,
        places: None,
    };
    let moves = opened.moves_then(Placement::Stays);
    buffer.read_arranged(&moves, opened.start, opened.end, &mut search);
    match search.places {
        None => Placement::Stays,
        Some((halant, last)) => to_end(opened.start + halant, opened.start + last + 1),
    }
}

// The glyph at place `from` behind all others up to `end`.
#[inline]
fn to_end(from: usize, end: usize) -> Placement
    requires { from < end }
    ensures { result ≡ Forward from (from + 1) (end - from - 1) }
{
    Placement::Forward {
        to: from,
        from: from + 1,
        count: end - from - 1,
    }
}

// A look for the H after a base, and the glyph behind which it goes.
#[derive(Drop)]
struct HalantSearch {
    script: Option<Script>,
    base: usize,
    places: Option<(usize, usize)>,
}

impl SyllableReading for HalantSearch {
    ghost use Rattle.std.specs.Prelude.{◌≡◌, ◌<◌, IfSome, length};
    ghost use Rattle.shapers_indic_initial.specs.InitialPositions.{halant_after, halant_from, moved_places};

    ghost can_read = { λ _ _. Unit {0} };

    ghost reads = { λ old new gs.
        (halant_from old.script gs (halant_after old.base gs)
        ≡ moved_places new.places (length gs))
        × IfSome new.places (λ move. move.0 < move.1)
        × IfSome new.places (λ move. move.1 < length gs) };

    #[inline]
    fn read(&mut self, syllable: &[hb_glyph_info_t]) {
        self.places = halant_move(self.script, syllable, self.base);
    }
}

// A walk that finds the base of a syllable and gives the glyphs their positions by it.
#[derive(Drop)]
struct PositionsByBase<'a, F: hb_font_t> {
    rules: &'a Rules<'a, F>,
    base: Base,
}

impl<'a, F: hb_font_t> GlyphWalk for PositionsByBase<'a, F> {
    ghost use Rattle.std.specs.Prelude.{◌≡◌};
    ghost use Rattle.shapers_indic_initial.specs.InitialBase.{base_place, has_indic_reph};
    ghost use Rattle.shapers_indic_initial.specs.InitialPositions.{by_base};
    ghost use Rattle.shapers_indic_initial.specs.InitialRules.{initial_rules};

    ghost can_walk = { λ _ _. Unit {0} };

    ghost walks = { λ v w gs hs.
        let rules = v.rules.now in
        let r = initial_rules (F.font rules.font.now) rules.map.now rules.plan.now in
        (w.base.place ≡ base_place r gs) × (w.base.has_reph ≡ has_indic_reph r gs)
        × (hs ≡ by_base w.base.place w.base.has_reph gs) };

    #[inline(always)]
    fn walk(&mut self, glyphs: &mut [hb_glyph_info_t]) {
        self.base = find_base(self.rules, glyphs);
        set_positions_by_base(glyphs, self.base);
    }
}

// A walk that gives the other glyphs of a syllable with this base their positions by what they go
// with.
#[derive(Drop)]
struct PositionsOfMarks {
    base: usize,
}

impl GlyphWalk for PositionsOfMarks {
    ghost use Rattle.std.specs.Prelude.{◌≡◌};
    ghost use Rattle.shapers_indic_initial.specs.InitialReordering.{with_marks_and_owners};

    ghost can_walk = { λ _ _. Unit {0} };

    ghost walks = { λ v w gs hs. hs ≡ with_marks_and_owners v.base gs };

    #[inline(always)]
    fn walk(&mut self, glyphs: &mut [hb_glyph_info_t]) {
        set_positions_of_marks(glyphs, self.base);
    }
}

// Sets the positions of a syllable with this base by what its glyphs go with.
#[inline]
fn set_positions_of_marks(syllable: &mut [hb_glyph_info_t], base: usize)
    ensures { syllable.new ≡ with_marks_and_owners base syllable.old }
{
    attach_marks(syllable);
    own(syllable, base);
}

//! Reordering a text syllable by syllable.
ghost use Rattle.std.specs.Prelude.{◌≡◌, ◌<◌, ◌≤◌, ◌-◌, ℕ, [], IfOk, OnOk, drop, get_or, length};
ghost use Rattle.std.specs.List.{position};
ghost use Rattle.shapers_buffer.specs.Clusters.{stretch_of};
ghost use Rattle.shapers_buffer.specs.Glyph.{default_glyph};
ghost use Rattle.shapers_syllabic.specs.Borders.{MeetAtBorder};
ghost use Rattle.shapers_syllabic.specs.Reordering.{RefusesIf, SyllablesLinked, TakesText, TextOrdered, glyph_numbers};
ghost use Rattle.shapers_clusters.specs.CarriedGroups.{AreCarried, CanTakeBack, GroupsGuarded, GroupsTakenBack};
ghost use Rattle.shapers_syllabic.specs.ReorderingWalk.{CarryingFits, NextChanging, ReorderedBehind, RestLinked, TakesRest, ToLink, groups_written};
ghost use Rattle.shapers_buffer.specs.Glyphs.{Glyphs};

use shapers_base::buffer::{GlyphWalk, ShaperError, hb_buffer_t, hb_glyph_info_t};
use shapers_clusters::carried_groups::CarriedGroups;

// After how many glyphs the walk looks whether merges have flooded what stands before these: the
// syllables among so few flood it a few times at most, and a look at each would cost more.
const STRIDE: usize = 64;

/// Which glyphs may change their syllable.
pub trait MayChange {
    ghost use Rattle.std.specs.Prelude.{◌≡◌, Bool};
    ghost use Rattle.shapers_buffer.specs.declared.buffer.glyph.hb_glyph_info_t.{hb_glyph_info_t};

    ghost changes: { Self → hb_glyph_info_t → Bool };

    /// Whether a syllable with this glyph may change. A syllable without such a glyph stays as it
    /// is, and need not be looked at.
    fn may_change(&self, glyph: &hb_glyph_info_t) -> bool
        ensures { result ≡ changes self.now glyph.now };
}

/// How one syllable is reordered. What it becomes is a function of its own glyphs, of the buffer's
/// script, and of the plan and the font that the order holds, and has the same glyph numbers. In
/// contracts `takes` is what is required of these numbers, `may_refuse` whether there may be no
/// memory, and `relation` the buffer before and after, clusters and glyph flags among it.
pub trait Reorder: MayChange {
    ghost use Rattle.std.specs.Prelude.{◌≡◌, ◌<◌, ◌≤◌, ℕ, Bool, List, Option, false, length};
    ghost use Rattle.std.specs.List.{list_any};
    ghost use Rattle.std.specs.List.Sorted.{IsPermutation};
    ghost use Rattle.shapers_buffer.specs.declared.buffer.glyph.hb_glyph_info_t.{hb_glyph_info_t};
    ghost use Rattle.shapers_buffer.specs.declared.buffer.tag.Script.{Script};
    ghost use Rattle.shapers_buffer.specs.Buffer.{Buffer};
    ghost use Rattle.shapers_buffer.specs.Clusters.{stretch_of};
    ghost use Rattle.shapers_syllabic.specs.Reordering.{SyllableOrdered, glyph_numbers};

    // What a syllable becomes in a buffer of a script, clusters and glyph flags apart.
    ghost meaning: { Self → Option Script → Glyphs → Glyphs };

    // What is required of a syllable's glyph numbers.
    ghost takes: { Self → List ℕ → Type 0 };

    // Whether the order may refuse, for want of memory.
    ghost may_refuse: { Self → Bool };

    // The buffer before and after the syllable from one place to another is reordered, clusters and
    // glyph flags among it.
    ghost relation: { Self → ℕ → ℕ → Buffer → Buffer → Type 0 };

    /// Reorders the syllable from `start` to `end`. Only an order that may refuse returns `Memory`,
    /// and then nothing is said of the buffer.
    fn reorder(&self, buffer: &mut hb_buffer_t, start: usize, end: usize) -> Result<(), ShaperError>
        requires in_order { start ≤ end }
        requires in_range { end ≤ length buffer.old.glyphs }
        requires without_positions { buffer.old.positions ≡ [] }
        requires takes { takes self.now (glyph_numbers (stretch_of start end buffer.old.glyphs)) }
        ensures related { OnOk result (relation self.now start end buffer.old buffer.new) }
        ensures refusal { RefusesIf (may_refuse self.now) result };

    // No glyph number of a syllable is lost.
    ghost permutes: { (it : Self) (script : Option Script) (gs : Glyphs) →
        IsPermutation (glyph_numbers gs) (glyph_numbers (meaning it script gs)) };

    // What is related has the order that is meant.
    ghost orders: { (it : Self) (s e : ℕ) (old new : Buffer) → relation it s e old new →
        SyllableOrdered (meaning it old.script) s e old new };

    // A syllable without a glyph that may change it stays as it is.
    ghost stays: { (it : Self) (s e : ℕ) (b : Buffer) → s < e → e ≤ length b.glyphs →
        list_any (Self.changes it) (stretch_of s e b.glyphs) ≡ false → relation it s e b b };
}

/// An order whose merges and moves are known: of the clusters and glyph flags after it, all laws of
/// such steps hold.
pub trait ReorderBySteps: Reorder {
    ghost use Rattle.std.specs.Prelude.{ℕ, List, Option};
    ghost use Rattle.shapers_buffer.specs.declared.buffer.glyph.hb_glyph_info_t.{hb_glyph_info_t};
    ghost use Rattle.shapers_buffer.specs.declared.buffer.tag.Script.{Script};
    ghost use Rattle.shapers_buffer.specs.Buffer.{Buffer};
    ghost use Rattle.shapers_clusters.specs.Steps.{Step};
    ghost use Rattle.shapers_syllabic.specs.Reordering.{SyllableReordered};
    ghost use Rattle.shapers_syllabic.specs.ReorderingLaws.{ReorderLaws};

    // The merges and moves that lead a syllable to what it becomes.
    ghost steps: { Self → Option Script → Glyphs → List Step };

    // They fit the syllable, lose nothing, and lead there;
    ghost laws: { (it : Self) (script : Option Script) →
        ReorderLaws (Self.meaning it script) (steps it script) };

    // and they tell what becomes of the buffer.
    ghost leads: { (it : Self) (s e : ℕ) (old new : Buffer) → Self.relation it s e old new →
        SyllableReordered (Self.meaning it old.script) (steps it old.script) s e old new };

    // which is all that is related.
    ghost suffices: { (it : Self) (s e : ℕ) (old new : Buffer) →
        SyllableReordered (Self.meaning it old.script) (steps it old.script) s e old new →
        Self.relation it s e old new };
}

/// Reorders each syllable of the text, from left to right, and empties the placement list, so that
/// no place depends on how syllables were moved. The text becomes what its syllables become, one
/// after another, and the order's relation leads there, one link a syllable. It refuses where the
/// order does, and then nothing is said of the buffer.
///
/// It is linear unless merges of many syllables flood what stands before them again and again, as
/// they may where clusters fall: see [`reorder_syllables_by_steps`].
#[inline]
pub fn reorder_syllables<R: Reorder>(order: &R, buffer: &mut hb_buffer_t) -> Result<(), ShaperError>
    requires without_positions { buffer.old.positions ≡ [] }
    requires takes { TakesText (R.takes order.now) buffer.old.glyphs }
    ensures ordered { OnOk result
        (TextOrdered (R.meaning order.now buffer.old.script) buffer.old buffer.new) }
    ensures linked { OnOk result
        (SyllablesLinked (R.relation order.now) buffer.old buffer.new) }
    ensures refusal { RefusesIf (R.may_refuse order.now) result }
{
    let mut start = 0;
    while let Some(first) = next_changing(order, buffer.glyphs(), start) {
        let end = buffer.next_syllable(first);
        order.reorder(buffer, first, end)?;
        start = end;
    }
    buffer.clear_places();
    Ok(())
}

/// Reorders each syllable of the text, as [`reorder_syllables`], by an order whose merges and moves
/// are known: it is linear whatever the clusters are. It takes no memory but the order's.
#[inline]
pub fn reorder_syllables_by_steps<R: ReorderBySteps>(
    order: &R,
    buffer: &mut hb_buffer_t,
) -> Result<(), ShaperError>
    requires without_positions { buffer.old.positions ≡ [] }
    requires takes { TakesText (R.takes order.now) buffer.old.glyphs }
    ensures ordered { OnOk result
        (TextOrdered (R.meaning order.now buffer.old.script) buffer.old buffer.new) }
    ensures linked { OnOk result
        (SyllablesLinked (R.relation order.now) buffer.old buffer.new) }
    ensures refusal { RefusesIf (R.may_refuse order.now) result }
{
    let mut start = 0;
    while start < buffer.len() {
        let cluster = cluster_before(buffer.glyphs(), start);
        let next = reorder_some(order, buffer, start)?;
        if cluster_before(buffer.glyphs(), start) != cluster {
            return reorder_carrying(order, buffer, next);
        }
        start = next;
    }
    buffer.clear_places();
    Ok(())
}

// Reorders the syllables from one on, up to one that ends a stride behind it or later, or all. It
// returns where the rest starts.
#[inline]
fn reorder_some<R: ReorderBySteps>(
    order: &R,
    buffer: &mut hb_buffer_t,
    from: usize,
) -> Result<usize, ShaperError>
    requires without_positions { buffer.old.positions ≡ [] }
    requires rest { TakesRest (R.takes order.now) from buffer.old }
    ensures linked { IfOk result (λ next. ToLink (R.takes order.now) (R.relation order.now)
        from buffer.old buffer.new next) }
    ensures less { let left = length buffer.old.glyphs - from in
        IfOk result (λ next. 0 < left → length buffer.new.glyphs - next < left) }
    ensures refusal { RefusesIf (R.may_refuse order.now) result }
{
    let enough = from.saturating_add(STRIDE);
    let mut start = from;
    while let Some(first) = next_changing(order, buffer.glyphs(), start) {
        let next = buffer.next_syllable(first);
        order.reorder(buffer, first, next)?;
        if next >= enough {
            return Ok(next);
        }
        start = next;
    }
    Ok(buffer.len())
}

// The cluster of the glyph before a place.
#[inline]
fn cluster_before(glyphs: &[hb_glyph_info_t], place: usize) -> u32 {
    if place == 0 || place > glyphs.len() {
        0
    } else {
        glyphs[place - 1].cluster
    }
}

// Reorders the syllables from one on, behind some that flooded what stands before them: what merges
// flood from here on is carried along and written once, in room that the buffer lends.
#[cold]
#[inline(never)]
fn reorder_carrying<R: ReorderBySteps>(
    order: &R,
    buffer: &mut hb_buffer_t,
    from: usize,
) -> Result<(), ShaperError>
    requires without_positions { buffer.old.positions ≡ [] }
    requires rest { TakesRest (R.takes order.now) from buffer.old }
    ensures linked { OnOk result (RestLinked (R.relation order.now) from buffer.old buffer.new) }
    ensures refusal { RefusesIf (R.may_refuse order.now) result }
{
    let mut groups = CarriedGroups::with_room(buffer.take_group_room());
    let reordered = reorder_along(order, &mut groups, buffer, from);
    buffer.put_group_room_back(groups.into_room());
    reordered
}

// Reorders the syllables from one on, one after another behind what is carried, and writes that.
#[inline]
fn reorder_along<R: ReorderBySteps>(
    order: &R,
    groups: &mut CarriedGroups,
    buffer: &mut hb_buffer_t,
    from: usize,
) -> Result<(), ShaperError>
    requires without_positions { buffer.old.positions ≡ [] }
    requires rest { TakesRest (R.takes order.now) from buffer.old }
    requires start { groups.old.start ≡ 0 }
    requires end { groups.old.end ≡ 0 }
    requires none { groups.old.groups.items ≡ [] }
    ensures linked { OnOk result (RestLinked (R.relation order.now) from buffer.old buffer.new) }
    ensures refusal { RefusesIf (R.may_refuse order.now) result }
{
    let mut start = from;
    while let Some(first) = next_changing(order, buffer.glyphs(), start) {
        let after = buffer.next_syllable(first);
        reorder_guarded(order, groups, buffer, first, after)?;
        start = after;
    }
    write(groups, buffer);
    buffer.clear_places();
    Ok(())
}

// The walk before a syllable. (A closure would do, but what it leaves in the groups that it borrows
// isn't known behind its call.)
#[derive(Drop)]
struct Guarding<'a> {
    groups: &'a mut CarriedGroups,
    first: usize,
    end: usize,
    count: usize,
}

impl<'a> GlyphWalk for Guarding<'a> {
    ghost use Rattle.std.specs.Prelude.{◌≡◌};
    ghost use Rattle.shapers_clusters.specs.CarriedGroups.{GroupsGuarded};
    ghost use Rattle.shapers_syllabic.specs.ReorderingWalk.{CanGuard};

    ghost can_walk = { λ w gs. CanGuard w.first w.end w.groups.now gs };

    ghost walks = { λ v w gs hs.
        GroupsGuarded v.first v.end v.groups.now gs w.groups.now w.count hs
        × (w.groups.ghost_name ≡ v.groups.ghost_name) };

    #[inline]
    fn walk(&mut self, glyphs: &mut [hb_glyph_info_t]) {
        self.count = self.groups.guard(glyphs, self.first, self.end);
    }
}

// The walk behind a syllable.
#[derive(Drop)]
struct TakingBack<'a> {
    groups: &'a mut CarriedGroups,
    count: usize,
}

impl<'a> GlyphWalk for TakingBack<'a> {
    ghost use Rattle.std.specs.Prelude.{◌≡◌};
    ghost use Rattle.shapers_clusters.specs.CarriedGroups.{CanTakeBack, GroupsTakenBack};

    ghost can_walk = { λ w gs. CanTakeBack w.groups.now w.count gs };

    ghost walks = { λ v w gs hs. GroupsTakenBack v.groups.now v.count gs w.groups.now hs
        × (w.groups.ghost_name ≡ v.groups.ghost_name) };

    #[inline]
    fn walk(&mut self, glyphs: &mut [hb_glyph_info_t]) {
        self.groups.take_back(glyphs, self.count);
    }
}

// Lets one glyph stand for each group that the syllable from `first` to `end` could flood, and
// returns how many these are.
#[inline]
fn guard(groups: &mut CarriedGroups, buffer: &mut hb_buffer_t, first: usize, end: usize) -> usize
    requires in_order { first ≤ end }
    requires in_range { end ≤ length buffer.old.glyphs }
    requires fits { AreCarried groups.old buffer.old.glyphs }
    requires further { groups.old.end ≤ first }
    ensures guarded { GroupsGuarded first end groups.old buffer.old.glyphs
        groups.new result buffer.new.glyphs }
    ensures others { buffer.new ≡ record buffer.old { glyphs = buffer.new.glyphs } }
{
    let mut guarding = Guarding {
        groups,
        first,
        end,
        count: 0,
    };
    buffer.walk(&mut guarding);
    guarding.count
}

// Takes back the glyphs that stood for so many groups while a syllable was reordered, and carries
// what it flooded.
#[inline]
fn take_back(groups: &mut CarriedGroups, buffer: &mut hb_buffer_t, count: usize)
    requires fits { CanTakeBack groups.old count buffer.old.glyphs }
    ensures settled { GroupsTakenBack groups.old count buffer.old.glyphs
        groups.new buffer.new.glyphs }
    ensures others { buffer.new ≡ record buffer.old { glyphs = buffer.new.glyphs } }
{
    buffer.walk(&mut TakingBack { groups, count });
}

// Writes what is carried into the glyphs.
#[inline]
fn write(groups: &mut CarriedGroups, buffer: &mut hb_buffer_t)
    requires { AreCarried groups.old buffer.old.glyphs }
    ensures { buffer.new ≡ groups_written groups.old buffer.old }
{
    let len = buffer.len();
    guard(groups, buffer, len, len);
}

// Reorders a syllable, while one glyph stands for each group that it could flood.
#[inline(never)]
fn reorder_guarded<R: ReorderBySteps>(
    order: &R,
    groups: &mut CarriedGroups,
    buffer: &mut hb_buffer_t,
    first: usize,
    end: usize,
) -> Result<(), ShaperError>
    requires in_order { first ≤ end }
    requires in_range { end ≤ length buffer.old.glyphs }
    requires without_positions { buffer.old.positions ≡ [] }
    requires takes { R.takes order.now (glyph_numbers (stretch_of first end buffer.old.glyphs)) }
    requires fits { CarryingFits first groups.old buffer.old.glyphs }
    ensures behind { OnOk result (ReorderedBehind (R.relation order.now) first end
        groups.old buffer.old groups.new buffer.new) }
    ensures refusal { RefusesIf (R.may_refuse order.now) result }
{
    let count = guard(groups, buffer, first, end);
    order.reorder(buffer, first, end)?;
    take_back(groups, buffer, count);
    Ok(())
}

// Where the next syllable starts that may change, of those from `start` on.
#[inline]
fn next_changing<M: MayChange>(order: &M, glyphs: &[hb_glyph_info_t], start: usize) -> Option<usize>
    requires { start ≤ length glyphs.now }
    ensures { NextChanging (M.changes order.now) start glyphs.now result }
{
    let count = first_changing(order, &glyphs[start..])?;
    Some(syllable_start(glyphs, start, start + count))
}

// The first glyph that may change its syllable.
#[inline]
fn first_changing<M: MayChange>(order: &M, glyphs: &[hb_glyph_info_t]) -> Option<usize>
    ensures { result ≡ position (M.changes order.now) glyphs.now }
{
    glyphs.iter().position(|glyph| order.may_change(glyph))
}

// Where the syllable starts that `place` stands in, if one starts at `start`.
#[inline]
fn syllable_start(glyphs: &[hb_glyph_info_t], start: usize, place: usize) -> usize
    requires in_order { start ≤ place }
    requires in_range { place < length glyphs.now }
    ensures from { start ≤ result }
    ensures to { result ≤ place }
    ensures together { (k : ℕ) → result ≤ k → k < place →
        (get_or glyphs.now k default_glyph).syllable
        ≡ (get_or glyphs.now place default_glyph).syllable }
    ensures border { MeetAtBorder (stretch_of start result glyphs.now) (drop result glyphs.now) }
{
    for i in (start..place).rev() {
        if glyphs[i].syllable != glyphs[i + 1].syllable {
            return i + 1;
        }
    }
    start
}

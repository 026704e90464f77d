//! What merges once a syllable is in its new order: the cycles of the order, or all from the base
//! on.
ghost use Rattle.std.specs.Prelude.{◌≡◌, ℕ, ◌<◌, ◌≤◌, ◌+◌, ◌-◌, ◌^◌, ◌||◌, nat_lt, length, fold, max, min, slice_index, slice_set};
ghost use Rattle.shapers_buffer.specs.Clusters.{merge_all};
ghost use Rattle.shapers_clusters.specs.Steps.{shifted};
ghost use Rattle.shapers_indic_initial.specs.CycleWalk.{EachOnce, places_from, with_spent};
ghost use Rattle.shapers_indic_initial.specs.InitialOrder.{cycle, cycle_stretches, stretches_by};
ghost use Rattle.shapers_buffer.specs.Places.{ListsEachOnce};

use shapers_base::buffer::hb_buffer_t;

// The place that the glyph at `place` came from, both from `start` on.
#[inline]
fn old_place(buffer: &hb_buffer_t, start: usize, place: usize) -> usize
    requires in_range { start + place < length buffer.now.glyphs }
    requires fits { start + place < 2 ^ 64 }
    ensures { (end : ℕ) → place < end - start
        → result ≡ slice_index (places_from start end buffer.now.places) place }
{
    buffer.place(start + place).saturating_sub(start)
}

// Spends a place: it is a cycle of its own from now on.
#[inline]
fn spend_place(buffer: &mut hb_buffer_t, start: usize, place: usize)
    requires in_range { start + place < length buffer.old.glyphs }
    requires fits { start + place < 2 ^ 64 }
    ensures others { buffer.new ≡ record buffer.old { places = buffer.new.places } }
    ensures spent { (end : ℕ) → place < end - start → places_from start end buffer.new.places
        ≡ slice_set (places_from start end buffer.old.places) place place }
{
    buffer.set_place(start + place, start + place);
}

// Walks along the cycle of the place `first` and spends each of its places as it passes. Returns the
// least and the greatest.
#[inline]
fn spend_cycle(buffer: &mut hb_buffer_t, start: usize, end: usize, first: usize) -> (usize, usize)
    requires in_order { start ≤ end }
    requires in_range { end ≤ length buffer.old.glyphs }
    requires inside { first < end - start }
    requires once { EachOnce (places_from start end buffer.old.places) }
    ensures others { buffer.new ≡ record buffer.old { places = buffer.new.places } }
    ensures spent { let from = places_from start end buffer.old.places in
        places_from start end buffer.new.places ≡ with_spent from (cycle from first) }
    ensures least { let from = places_from start end buffer.old.places in
        result.0 ≡ fold min first (cycle from first) }
    ensures greatest { let from = places_from start end buffer.old.places in
        result.1 ≡ fold max first (cycle from first) }
    ensures around { (result.0 ≤ first) × (first ≤ result.1) }
    ensures within { result.1 < end - start }
{
    let mut least = first;
    let mut greatest = first;
    let mut place = old_place(buffer, start, first);
    spend_place(buffer, start, first);
    for _ in start..end {
        if place == first {
            break;
        }
        let next = old_place(buffer, start, place);
        spend_place(buffer, start, place);
        least = least.min(place);
        greatest = greatest.max(place);
        place = next;
    }
    (least, greatest)
}

// Each cycle with a place from `base` on merges, from its least place, or `base` if that is
// greater, to its greatest. `base` counts from `start`.
//
// What stands before the base isn't merged here: the final reordering may bring a left matra back to
// the base, past a half form that it stood before (0915 094D 200C 0915 093F), and merges then.
#[inline]
fn merge_cycles(buffer: &mut hb_buffer_t, start: usize, end: usize, base: usize)
    requires in_order { start ≤ end }
    requires in_range { end ≤ length buffer.old.glyphs }
    requires base { base ≤ end - start }
    requires once { EachOnce (places_from start end buffer.old.places) }
    ensures others { buffer.new ≡ record buffer.old {
      glyphs = buffer.new.glyphs;
      places = buffer.new.places;
    } }
    ensures merged { let sts = cycle_stretches (places_from start end buffer.old.places) base in
        buffer.new.glyphs ≡ merge_all buffer.old.level (shifted start sts) buffer.old.glyphs }
{
    for place in base..end - start {
        if old_place(buffer, start, place) != place {
            let (least, greatest) = spend_cycle(buffer, start, end, place);
            buffer.merge_clusters(start + base.max(least), start + greatest + 1);
        }
    }
}

/// Whether all from the base on merges, and no cycles: in the older specification, which moves H's
/// about behind the base, and in a syllable of more than 127 glyphs, whose places HarfBuzz can't
/// tell apart in the byte that it keeps them in.
#[inline]
pub(super) fn merges_all(is_old_spec: bool, len: usize) -> bool
    ensures { result ≡ (is_old_spec || nat_lt 127 len) }
{
    is_old_spec || len > 127
}

/// What merges once the glyphs from `start` to `end` are in their new order: in the older
/// specification, and in a syllable of more than 127 glyphs, all from the base on, else each cycle
/// of the order. `base` counts from `start`. It takes no memory. (HarfBuzz's issue 2272.)
#[inline]
pub(super) fn merge_ordered(
    is_old_spec: bool,
    buffer: &mut hb_buffer_t,
    start: usize,
    end: usize,
    base: usize,
)
    requires in_order { start ≤ end }
    requires in_range { end ≤ length buffer.old.glyphs }
    requires base { base ≤ end - start }
    requires permutes { ListsEachOnce start end buffer.old.places }
    ensures others { buffer.new ≡ record buffer.old {
      glyphs = buffer.new.glyphs;
      places = buffer.new.places;
    } }
    ensures merged { let from = places_from start end buffer.old.places in
        let sts = stretches_by is_old_spec from base in
        buffer.new.glyphs ≡ merge_all buffer.old.level (shifted start sts) buffer.old.glyphs }
{
    if merges_all(is_old_spec, end - start) {
        buffer.merge_clusters(start + base, end);
        return;
    }
    merge_cycles(buffer, start, end, base);
}

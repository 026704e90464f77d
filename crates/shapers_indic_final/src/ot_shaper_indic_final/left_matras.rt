//! The left matras of one syllable moved to their place, in time that is linear in the syllable.
//! Each merges with all behind it up to the base. So at any time at most two ranges of glyphs are in
//! clusters that merges have given them: the matras that have gone with what follows them, and
//! glyphs directly before them. These clusters are written behind the last merge, as the matras
//! move behind it.
ghost use Rattle.std.specs.Prelude.{[], false, ◌≡◌, ℕ, ◌+◌, ◌-◌, ◌<◌, ◌≤◌, ◌++◌, drop, filter, length, map, true, ◌^◌};
ghost use Rattle.std.specs.List.{list_any};
ghost use Rattle.shapers_buffer.specs.declared.buffer.level.BufferClusterLevel.{BufferClusterLevel};
ghost use Rattle.shapers_buffer.specs.Clusters.{in_one_cluster, merges, stretch_of, with_stretch};
ghost use Rattle.shapers_buffer.specs.ListingWalk.{with_listed};
ghost use Rattle.shapers_buffer.specs.Places.{PlacesEachOnce, placed_by};
ghost use Rattle.shapers_buffer.specs.Placements.{MayArrange, arranged, old_place_by_all, placed_by_all};
ghost use Rattle.shapers_buffer.specs.declared.buffer.placement.Placement.TheVariants.{Listed, Stays};
ghost use Rattle.shapers_indic_final.specs.FinalMoveWalk.{matra_placements};
ghost use Rattle.shapers_clusters.specs.Steps.{after_steps, widened};
ghost use Rattle.shapers_indic.specs.Glyphs.{places};
ghost use Rattle.shapers_indic_final.specs.FinalMatras.{is_left, partition_steps};
ghost use Rattle.shapers_indic_final.specs.LeftMatraWalk.{Merged, Reaches, as_partitioned, gone, has_gone, has_stayed, is_listed, flood_passes, merge_stretch, staying, steps_to};

use super::matras::is_left;
use super::moves::{matra_placements, move_matra, write_matra};
use super::reph::is_moving_reph;
use shapers_base::buffer::{
    Arranged, BufferClusterLevel, IntoCluster, Placement, Placements, hb_buffer_t, hb_glyph_info_t,
};

// What merges have put into two clusters, which aren't written yet: where the glyphs before the
// matras start, up to these, and their cluster; the place behind the glyphs from the matras on, and
// their cluster.
#[derive(Clone, Copy)]
struct MergedRanges {
    start: usize,
    before: u32,
    end: usize,
    cluster: u32,
}

// Moves the left matras before place `target` of the syllable from `start` to `end` there, the last
// one first, and merges each with all up to place `base_end`.
#[inline]
pub(super) fn gather_matras(
    target: usize,
    base_end: usize,
    others: bool,
    buffer: &mut hb_buffer_t,
    start: usize,
    end: usize,
) -> Placements
    requires in_range { end ≤ length buffer.old.glyphs }
    requires before { target < base_end }
    requires base_in_order { start + base_end ≤ end }
    ensures glyphs { let new = arranged result start end buffer.new in
        let steps = partition_steps target base_end (stretch_of start end buffer.old.glyphs) in
        let wide = map (widened start end (length buffer.old.glyphs)) steps in
        new ≡ record buffer.old {
          glyphs = after_steps buffer.old.level wide buffer.old.glyphs;
          places = new.places;
        } }
    ensures fits { MayArrange result start end (length buffer.new.glyphs) buffer.new.places }
    ensures second { result.second ≡ Stays }
    ensures third { result.third ≡ Stays }
    ensures same_length { length buffer.new.glyphs ≡ length buffer.old.glyphs }
{
    for i in (0..target).rev() {
        if is_left(&buffer.glyphs()[start..end][i]) {
            if !others && moves_alone(i, buffer.glyphs(), start) {
                write_matra(buffer, start, end, base_end, i, target);
                return Placements::STAY;
            }
            let moves = move_matra(buffer, start, end, base_end, i, target);
            return bring_matras_on(i, target, base_end, moves, buffer, start, end);
        }
    }
    Placements::STAY
}

// Whether the left matra of place `matra` of the syllable from `start` on moves alone: none stands
// before it, and what begins the syllable behind it is no reph that moves.
#[inline]
fn moves_alone(matra: usize, glyphs: &[hb_glyph_info_t], start: usize) -> bool
    requires { start + matra + 1 < length glyphs.now }
    ensures { let before = stretch_of start (start + matra) glyphs.now in
        result ≡ true → list_any is_left before ≡ false }
{
    let first = if matra == 0 { start + 1 } else { start };
    !any_left(&glyphs[start..start + matra]) && !is_moving_reph(&glyphs[first])
}

// Whether some glyph is a left matra.
#[inline]
fn any_left(glyphs: &[hb_glyph_info_t]) -> bool
    ensures { result ≡ list_any is_left glyphs.now }
{
    glyphs.iter().any(is_left)
}

// Moves the left matras before place `top` of the syllable from `start` to `end` on to the places
// before `target`, where one stands that has moved there from `top` and merged with all up to place
// `base_end`, and merges each.
fn bring_matras_on(
    top: usize,
    target: usize,
    base_end: usize,
    moves: Placements,
    buffer: &mut hb_buffer_t,
    start: usize,
    end: usize,
) -> Placements
    requires behind { top < target }
    requires before { target < base_end }
    requires in_order { start + base_end ≤ end }
    requires moved { moves ≡ matra_placements start top target }
    requires fits { MayArrange moves start end (length buffer.old.glyphs) buffer.old.places }
    requires one { let old = arranged moves start end buffer.old in merges buffer.old.level ≡ true
        → in_one_cluster (stretch_of (start + target) (start + base_end) old.glyphs) ≡ true }
    ensures glyphs { let old = arranged moves start end buffer.old in
        let new = arranged result start end buffer.new in
        let steps = steps_to top (target - 1) base_end (stretch_of start end old.glyphs) in
        let wide = map (widened start end (length old.glyphs)) steps in
        new ≡ record old { glyphs = after_steps old.level wide old.glyphs; places = new.places } }
    ensures fits { MayArrange result start end (length buffer.new.glyphs) buffer.new.places }
    ensures second { result.second ≡ Stays }
    ensures third { result.third ≡ Stays }
    ensures same_length { length buffer.new.glyphs ≡ length buffer.old.glyphs }
{
    if !has_left(start, start + top, &buffer.arranged(&moves, start, end)) {
        return moves;
    }
    let ranges = merged_ranges(
        top,
        target,
        base_end,
        &buffer.arranged(&moves, start, end),
        start,
    );
    let len = len_staying(
        start,
        start + top,
        &buffer.arranged(&moves, start, end),
        ranges.start,
        start + target,
    );
    let at = list_matras(top, target, buffer, start, end);
    let listed = Placements {
        first: Placement::Listed,
        second: Placement::Stays,
        third: Placement::Stays,
    };
    merge_stretch(&listed, buffer, start, end, at - len, at, ranges.before);
    merge_stretch(&listed, buffer, start, end, at, ranges.end, ranges.cluster);
    listed
}

// Whether some glyph from place `start` to `end` is a left matra.
#[inline]
fn has_left(start: usize, end: usize, glyphs: &Arranged) -> bool
    requires in_order { start ≤ end }
    requires in_range { end ≤ length glyphs.now }
    ensures { result ≡ list_any is_left (stretch_of start end glyphs.now) }
{
    for i in start..end {
        if is_left(&glyphs.get(i)) {
            return true;
        }
    }
    false
}

// What the merges of the left matras before place `top` of the syllable from `start` on make, as
// `bring_matras_on`.
#[inline]
fn merged_ranges(
    top: usize,
    target: usize,
    base_end: usize,
    glyphs: &Arranged,
    start: usize,
) -> MergedRanges
    requires in_range { start + base_end ≤ length glyphs.now }
    requires fits { start + base_end < 2 ^ 64 }
    requires behind { top < target }
    requires before { target < base_end }
    ensures start { result.start < start + target }
    ensures from { start + base_end ≤ result.end }
    ensures end { result.end ≤ length glyphs.now }
    ensures partitioned { (level : BufferClusterLevel) (end : ℕ)
        → start + base_end ≤ end → end ≤ length glyphs.now
        → (merges level ≡ true
        → in_one_cluster (stretch_of (start + target) (start + base_end) glyphs.now) ≡ true)
        → let steps = steps_to top (target - 1) base_end (stretch_of start end glyphs.now) in
        let wide = map (widened start end (length glyphs.now)) steps in
        as_partitioned level start (start + top) (start + target) result glyphs.now
        ≡ after_steps level wide glyphs.now }
{
    let mut ranges = MergedRanges {
        start: start + target - 1,
        before: glyphs.get(start + target - 1).cluster,
        end: start + base_end,
        cluster: glyphs.get(start + target).cluster,
    };
    for i in (0..top).rev() {
        if is_left(&glyphs.get(start + i)) {
            ranges = with_matra(start + i, start + top, glyphs, ranges);
        }
    }
    ranges
}

// The ranges after the merge of the left matra at place `matra`; those between it and `top` have
// gone.
fn with_matra(matra: usize, top: usize, glyphs: &Arranged, ranges: MergedRanges) -> MergedRanges
    requires inside { matra < length glyphs.now }
    requires start { ranges.start ≤ length glyphs.now }
    requires end { ranges.end ≤ length glyphs.now }
    ensures merged { Merged matra top ranges result glyphs.now }
    ensures end { result.end ≤ length glyphs.now }
{
    let own = if matra < ranges.start {
        glyphs.get(matra).cluster
    } else {
        ranges.before
    };
    let cluster = own.min(ranges.cluster);
    let end = ranges.end + glyphs.cluster_behind(ranges.end, ranges.cluster);
    if own == ranges.before {
        let start = reached(matra, top, glyphs, ranges.start, own);
        MergedRanges {
            start,
            before: cluster,
            end,
            cluster,
        }
    } else {
        MergedRanges {
            end,
            cluster,
            ..ranges
        }
    }
}

// Whether a left matra that has gone stood at `index`: those from `from` on and before `top` have.
#[inline]
fn has_gone(from: usize, top: usize, glyphs: &Arranged, index: usize) -> bool
    requires { index < length glyphs.now }
    ensures { result ≡ has_gone from top glyphs.now index }
{
    from <= index && index < top && is_left(&glyphs.get(index))
}

// How far to the left glyphs before place `start` are in a cluster, but for matras that have gone.
#[inline]
fn reached(from: usize, top: usize, glyphs: &Arranged, start: usize, cluster: u32) -> usize
    requires { start ≤ length glyphs.now }
    ensures { Reaches from top cluster start result glyphs.now }
{
    for j in (0..start).rev() {
        if !is_passed(from, top, glyphs, j, cluster) {
            return j + 1;
        }
    }
    0
}

// Whether what stood at `index` has gone, or is in a cluster.
#[inline]
fn is_passed(from: usize, top: usize, glyphs: &Arranged, index: usize, cluster: u32) -> bool
    requires { index < length glyphs.now }
    ensures { result ≡ flood_passes from top cluster glyphs.now index }
{
    has_gone(from, top, glyphs, index) || glyphs.get(index).cluster == cluster
}

// How many glyphs from place `start` to `end` have stayed.
#[inline]
fn len_staying(from: usize, top: usize, glyphs: &Arranged, start: usize, end: usize) -> usize
    requires in_order { start ≤ end }
    requires in_range { end ≤ length glyphs.now }
    ensures { result ≡ length (filter (has_stayed from top glyphs.now) (places start end)) }
{
    let mut len = 0;
    for j in start..end {
        if !has_gone(from, top, glyphs, j) {
            len += 1;
        }
    }
    len
}

// Whether place `index` is listed: of what has gone, or of what has stayed.
#[inline]
fn is_listed(gone: bool, from: usize, top: usize, glyphs: &Arranged, index: usize) -> bool
    requires { index < length glyphs.now }
    ensures { result ≡ is_listed gone from top glyphs.now index }
{
    has_gone(from, top, glyphs, index) == gone
}

// In the syllable from `start` to `end`, where the glyph of place `matra` has gone to `target`,
// lists where what has gone of the left matras before it, or what has stayed, of the places from
// `from` to `to` came from, from place `at` on. Returns the place behind them.
fn list_places(
    gone: bool,
    matra: usize,
    target: usize,
    buffer: &mut hb_buffer_t,
    start: usize,
    end: usize,
    from: usize,
    to: usize,
    at: usize,
) -> usize
    requires before { matra ≤ target }
    requires inside { start + target < end }
    requires in_range { end ≤ length buffer.old.glyphs }
    requires in_order { from ≤ to }
    requires within { to ≤ end }
    requires room { let moves = matra_placements start matra target in
        let gs = placed_by_all moves start end [] buffer.old.glyphs in
        at + length (filter (is_listed gone start (start + matra) gs) (places from to)) ≤ end }
    ensures listed { let moves = matra_placements start matra target in
        let gs = placed_by_all moves start end [] buffer.old.glyphs in
        let all = filter (is_listed gone start (start + matra) gs) (places from to) in
        let old = map (old_place_by_all moves start end []) all in
        buffer.new ≡ record buffer.old { places = with_listed at old buffer.old.places } }
    ensures behind { let moves = matra_placements start matra target in
        let gs = placed_by_all moves start end [] buffer.old.glyphs in
        result ≡ at + length (filter (is_listed gone start (start + matra) gs) (places from to)) }
{
    let moves = matra_placements(start, matra, target);
    let mut at = at;
    for k in from..to {
        if is_listed(
            gone,
            start,
            start + matra,
            &buffer.arranged(&moves, start, end),
            k,
        ) {
            let place = buffer.arranged_place(&moves, start, end, k);
            buffer.set_place(at, place);
            at += 1;
        }
    }
    at
}

// In the syllable from `start` to `end`, where the glyph of place `matra` has gone to `target`,
// lists where each comes from if the left matras before it go before it. Returns the place of the
// first of them.
fn list_matras(
    matra: usize,
    target: usize,
    buffer: &mut hb_buffer_t,
    start: usize,
    end: usize,
) -> usize
    requires before { matra ≤ target }
    requires inside { start + target < end }
    requires in_range { end ≤ length buffer.old.glyphs }
    ensures moved { let moves = matra_placements start matra target in
        let gs = placed_by_all moves start end [] buffer.old.glyphs in
        placed_by Listed start end buffer.new.places buffer.old.glyphs
        ≡ staying start (start + matra) gs 0 (start + target)
        ++ (gone start (start + matra) gs 0 (start + target) ++ drop (start + target) gs) }
    ensures others { buffer.new ≡ record buffer.old { places = buffer.new.places } }
    ensures each { PlacesEachOnce Listed start end buffer.new.places }
    ensures at { let moves = matra_placements start matra target in
        let gs = placed_by_all moves start end [] buffer.old.glyphs in
        let all = places start (start + target) in
        result ≡ start + length (filter (has_stayed start (start + matra) gs) all) }
{
    let at = list_places(
        false,
        matra,
        target,
        buffer,
        start,
        end,
        start,
        start + target,
        start,
    );
    let behind = list_places(
        true,
        matra,
        target,
        buffer,
        start,
        end,
        start,
        start + target,
        at,
    );
    list_places(
        false,
        matra,
        target,
        buffer,
        start,
        end,
        start + target,
        end,
        behind,
    );
    at
}

// Puts the glyphs from `from` to `to` of a text whose syllable from `start` to `end` has moved into
// a cluster, at a level that merges.
fn merge_stretch(
    moves: &Placements,
    buffer: &mut hb_buffer_t,
    start: usize,
    end: usize,
    from: usize,
    to: usize,
    cluster: u32,
)
    requires fits { MayArrange moves.now start end (length buffer.old.glyphs) buffer.old.places }
    requires in_order { from ≤ to }
    requires in_range { to ≤ length buffer.old.glyphs }
    ensures glyphs { let old = arranged moves.now start end buffer.old in
        arranged moves.now start end buffer.new ≡ record old {
          glyphs = with_stretch from to (merge_stretch buffer.old.level cluster) old.glyphs;
        } }
    ensures others { buffer.new ≡ record buffer.old { glyphs = buffer.new.glyphs } }
    ensures same_length { length buffer.new.glyphs ≡ length buffer.old.glyphs }
{
    match buffer.cluster_level() {
        BufferClusterLevel::MonotoneGraphemes | BufferClusterLevel::MonotoneCharacters => {
            buffer.change_arranged(moves, start, end, from, to, &IntoCluster(cluster));
        }
        BufferClusterLevel::Characters => {}
    }
}

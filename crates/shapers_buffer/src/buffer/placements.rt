//! Placements one after another. A syllable may move in steps that merge clusters and search between
//! the moves: each step adds a placement, reads and merges through those before it, and behind the
//! last one the syllable is written once.
ghost use Rattle.std.specs.Prelude.{◌≡◌, ◌+◌, ◌-◌, ◌<◌, ◌≤◌, ◌^◌, drop, length, map, take, slice_index_or, vec_capacity};
ghost use Rattle.std.specs.List.{prefix_len};
ghost use Rattle.shapers_buffer.specs.Glyph.{clusters, default_glyph};
ghost use Rattle.shapers_buffer.specs.ClusterRanges.{with_range};
ghost use Rattle.shapers_buffer.specs.RangeWalk.{equal_before, equal_behind};
ghost use Rattle.shapers_buffer.specs.Clusters.{has_cluster, least, merge, merged, stretch_of, with_stretch};
ghost use Rattle.shapers_buffer.specs.Places.{PlacesEachOnce, place_at};
ghost use Rattle.shapers_buffer.specs.Placements.{MayArrange, arranged, forward_place, is_still, moves_nothing, old_place, old_place_by_all, placed_by_all};

use super::cluster_ranges::ClusterRange;
use super::glyph::hb_glyph_info_t;
use super::hb_buffer_t;
use super::merging::{IntoCluster, merges};
use super::placement::{Placement, make_spare};
use super::walking::{GlyphChange, GlyphWalk};
use std::marker::Model;

/// Three placements of one syllable, one after another. At most one of them should be
/// [`Placement::Listed`], since the buffer has one list.
#[derive(Clone, Copy, Debug, PartialEq, Eq)]
pub struct Placements {
    /// What moves first.
    pub first: Placement,
    /// What moves then, by the places behind the first.
    pub second: Placement,
    /// What moves last, by the places behind the second.
    pub third: Placement,
}

impl Placements {
    /// Nothing moves.
    pub const STAY: Placements = Placements {
        first: Placement::Stays,
        second: Placement::Stays,
        third: Placement::Stays,
    };

    /// Whether nothing moves.
    #[inline]
    pub fn moves_nothing(&self) -> bool
        ensures { result ≡ moves_nothing self.now }
    {
        is_still(self.first) && is_still(self.second) && is_still(self.third)
    }
}

// Whether a placement moves nothing.
#[inline]
fn is_still(placement: Placement) -> bool
    ensures { result ≡ is_still placement }
{
    match placement {
        Placement::Stays => true,
        Placement::Forward { .. } | Placement::Listed => false,
    }
}

// The place that the list says for `index`.
#[inline]
fn place_in(places: &[usize], index: usize) -> usize
    ensures { result ≡ place_at places.now index }
{
    places.get(index).copied().unwrap_or(0)
}

// The place from which a glyph comes to `index`, where the `count` glyphs from place `from` on come
// to the place `to`.
#[inline]
fn forward_place(to: usize, from: usize, count: usize, index: usize) -> usize
    requires in_order { to ≤ from }
    requires fits { from + count < 2 ^ 64 }
    ensures { result ≡ forward_place to from count index }
{
    if index < to {
        index
    } else if index < to + count {
        from + (index - to)
    } else if index < from + count {
        index - count
    } else {
        index
    }
}

// The place from which a placement brings a glyph to `index`.
#[inline]
fn old_place(
    placement: Placement,
    places: &[usize],
    start: usize,
    end: usize,
    index: usize,
) -> usize
    requires in_order { start ≤ end }
    requires each { PlacesEachOnce placement start end places.now }
    ensures { result ≡ old_place placement start end places.now index }
{
    match placement {
        Placement::Stays => index,
        Placement::Forward { to, from, count } => forward_place(to, from, count, index),
        Placement::Listed => {
            if start <= index && index < end {
                place_in(places, index)
            } else {
                index
            }
        }
    }
}

// The place from which the placements, one after another, bring a glyph to `index`.
#[inline]
fn old_place_by_all(
    placements: &Placements,
    places: &[usize],
    start: usize,
    end: usize,
    index: usize,
) -> usize
    requires in_order { start ≤ end }
    requires first { PlacesEachOnce placements.now.first start end places.now }
    requires second { PlacesEachOnce placements.now.second start end places.now }
    requires third { PlacesEachOnce placements.now.third start end places.now }
    ensures { result ≡ old_place_by_all placements.now start end places.now index }
{
    let third = old_place(placements.third, places, start, end, index);
    let second = old_place(placements.second, places, start, end, third);
    old_place(placements.first, places, start, end, second)
}

/// A look at the glyphs of a syllable, which keeps what it found.
pub trait SyllableReading {
    ghost use Rattle.shapers_buffer.specs.Glyphs.{Glyphs};

    ghost can_read: { Self → Glyphs → Type 0 };

    ghost reads: { Self → Self → Glyphs → Type 0 };

    /// Reads the syllable.
    fn read(&mut self, syllable: &[hb_glyph_info_t])
        requires { can_read self.old syllable.now }
        ensures { reads self.old self.new syllable.now };
}

/// A text with one syllable moved by placements, to be read before the syllable is written.
#[derive(Debug, Drop)]
pub struct Arranged<'a> {
    buffer: &'a hb_buffer_t,
    placements: Placements,
    start: usize,
    end: usize,
}

impl<'a> Model for Arranged<'a> {
    ghost use Rattle.std.specs.Prelude.{length};
    ghost use Rattle.shapers_buffer.specs.Glyphs.{Glyphs};

    ghost Value = { Glyphs };

    ghost use Rattle.shapers_buffer.specs.Placements.{MayArrange, placed_by_all};

    ghost view = { λ a.
        placed_by_all a.placements a.start a.end a.buffer.now.places a.buffer.now.glyphs };

    ghost invariant = { λ a. MayArrange a.placements a.start a.end (length a.buffer.now.glyphs)
        a.buffer.now.places };
}

impl<'a> Arranged<'a> {
    /// The number of glyphs.
    #[inline]
    pub fn len(&self) -> usize
        ensures { result ≡ length self.now }
    {
        self.buffer.len()
    }

    /// How many glyphs of a cluster stand from place `start` on.
    #[inline]
    pub fn cluster_behind(&self, start: usize, cluster: u32) -> usize
        requires { start ≤ length self.now }
        ensures len { result ≡ prefix_len (has_cluster cluster) (drop start self.now) }
        ensures within { start + result ≤ length self.now }
        ensures fits { start + result < 2 ^ 64 }
    {
        let end = self.len();
        for i in start..end {
            if self.get(i).cluster != cluster {
                return i - start;
            }
        }
        end - start
    }

    /// The glyph at `index`.
    #[inline]
    pub fn get(&self, index: usize) -> hb_glyph_info_t
        requires { index < length self.now }
        ensures { result ≡ slice_index_or self.now index default_glyph }
    {
        let place = self
            .buffer
            .arranged_place(&self.placements, self.start, self.end, index);
        self.buffer.get(place)
    }
}

impl hb_buffer_t {
    /// The text with the syllable from `start` to `end` moved by placements, to be read.
    #[inline]
    pub fn arranged<'a>(&'a self, placements: &Placements, start: usize, end: usize) -> Arranged<'a>
        requires { MayArrange placements.now start end (length self.now.glyphs) self.now.places }
        ensures text { let ps = placements.now in
            result ≡ placed_by_all ps start end self.now.places self.now.glyphs }
        ensures same_length { length result ≡ length self.now.glyphs }
    {
        Arranged {
            buffer: self,
            placements: *placements,
            start,
            end,
        }
    }

    /// Writes the syllable from `start` to `end`, moved by placements. Positions stay. It takes no
    /// memory.
    #[inline]
    pub fn apply_all(&mut self, start: usize, end: usize, placements: &Placements)
        requires { MayArrange placements.now start end (length self.old.glyphs) self.old.places }
        ensures { let ps = placements.now in
            let moved = placed_by_all ps start end self.old.places self.old.glyphs in
            self.new ≡ record self.old { glyphs = moved } }
    {
        let Placements {
            first,
            second,
            third,
        } = *placements;
        if is_still(second) && is_still(third) {
            self.apply(start, end, first);
        } else if is_still(first) && is_still(third) {
            self.apply(start, end, second);
        } else if is_still(first) && is_still(second) {
            self.apply(start, end, third);
        } else {
            self.apply_one_after_another(start, end, placements);
        }
    }

    // The same by the place that each glyph comes from.
    #[cold]
    #[inline(never)]
    fn apply_one_after_another(&mut self, start: usize, end: usize, placements: &Placements)
        requires { MayArrange placements.now start end (length self.old.glyphs) self.old.places }
        ensures { let ps = placements.now in
            let moved = placed_by_all ps start end self.old.places self.old.glyphs in
            self.new ≡ record self.old { glyphs = moved } }
    {
        make_spare(&mut self.spare, self.info[start..end].len());
        reorder(
            &mut self.info,
            &self.places,
            &mut self.spare,
            placements,
            start,
            end,
        );
    }

    /// Shows the syllable from `start` to `end`, moved by placements. It takes no memory.
    #[inline(always)]
    pub fn read_arranged<R: SyllableReading>(
        &mut self,
        placements: &Placements,
        start: usize,
        end: usize,
        reading: &mut R,
    )
        requires arranges { MayArrange placements.now start end
            (length self.old.glyphs) self.old.places }
        requires readable { let moved = placed_by_all placements.now start end
            self.old.places self.old.glyphs in
            R.can_read reading.old (stretch_of start end moved) }
        ensures same { self.new ≡ self.old }
        ensures read { let moved = placed_by_all placements.now start end
            self.old.places self.old.glyphs in
            R.reads reading.old reading.new (stretch_of start end moved) }
    {
        if placements.moves_nothing() {
            reading.read(&self.info[start..end]);
        } else {
            gather_spare(
                &self.info,
                &self.places,
                &mut self.spare,
                placements,
                start,
                end,
            );
            reading.read(&self.spare[..end - start]);
        }
    }

    /// Walks over the syllable from `start` to `end`, moved by placements. It takes no memory.
    #[inline(always)]
    pub fn walk_arranged<W: GlyphWalk>(
        &mut self,
        placements: &Placements,
        start: usize,
        end: usize,
        walk: &mut W,
    )
        requires arranges { MayArrange placements.now start end
            (length self.old.glyphs) self.old.places }
        requires walkable { let moved = arranged placements.now start end self.old in
            W.can_walk walk.old (stretch_of start end moved.glyphs) }
        ensures walked { let old = arranged placements.now start end self.old in
            let new = arranged placements.now start end self.new in
            W.walks walk.old walk.new
            (stretch_of start end old.glyphs) (stretch_of start end new.glyphs) }
        ensures glyphs { let old = arranged placements.now start end self.old in
            let new = arranged placements.now start end self.new in
            let syllable = stretch_of start end new.glyphs in
            new ≡ record old { glyphs = with_stretch start end (λ _. syllable) old.glyphs } }
        ensures others { self.new ≡ record self.old { glyphs = self.new.glyphs } }
        ensures same_length { length self.new.glyphs ≡ length self.old.glyphs }
    {
        if placements.moves_nothing() {
            walk_in(&mut self.info, start, end, walk);
        } else {
            self.walk_through(placements, start, end, walk);
        }
    }

    // The same over a copy of the syllable.
    #[cold]
    #[inline(never)]
    fn walk_through<W: GlyphWalk>(
        &mut self,
        placements: &Placements,
        start: usize,
        end: usize,
        walk: &mut W,
    )
        requires arranges { MayArrange placements.now start end
            (length self.old.glyphs) self.old.places }
        requires walkable { let moved = arranged placements.now start end self.old in
            W.can_walk walk.old (stretch_of start end moved.glyphs) }
        ensures walked { let old = arranged placements.now start end self.old in
            let new = arranged placements.now start end self.new in
            W.walks walk.old walk.new
            (stretch_of start end old.glyphs) (stretch_of start end new.glyphs) }
        ensures glyphs { let old = arranged placements.now start end self.old in
            let new = arranged placements.now start end self.new in
            let syllable = stretch_of start end new.glyphs in
            new ≡ record old { glyphs = with_stretch start end (λ _. syllable) old.glyphs } }
        ensures others { self.new ≡ record self.old { glyphs = self.new.glyphs } }
        ensures same_length { length self.new.glyphs ≡ length self.old.glyphs }
    {
        make_spare(&mut self.spare, self.info[start..end].len());
        walk_copy(
            &mut self.info,
            &self.places,
            &mut self.spare,
            placements,
            start,
            end,
            walk,
        );
    }

    /// The place from which placements bring a glyph to `index`.
    #[inline]
    pub fn arranged_place(
        &self,
        placements: &Placements,
        start: usize,
        end: usize,
        index: usize,
    ) -> usize
        requires arranges { MayArrange placements.now start end
            (length self.now.glyphs) self.now.places }
        requires inside { index < length self.now.glyphs }
        ensures place { result ≡ old_place_by_all placements.now start end self.now.places index }
        ensures within { result < length self.now.glyphs }
        ensures fits { result + 1 < 2 ^ 64 }
    {
        old_place_by_all(placements, &self.places, start, end, index)
    }

    /// Changes each glyph that stands from `from` to `to` once the placements are applied.
    #[inline]
    pub fn change_arranged<C: GlyphChange>(
        &mut self,
        placements: &Placements,
        start: usize,
        end: usize,
        from: usize,
        to: usize,
        change: &C,
    )
        requires arranges { MayArrange placements.now start end
            (length self.old.glyphs) self.old.places }
        requires in_order { from ≤ to }
        requires in_range { to ≤ length self.old.glyphs }
        ensures glyphs { let old = arranged placements.now start end self.old in
            arranged placements.now start end self.new ≡ record old {
              glyphs = with_stretch from to (map (C.changed change.now)) old.glyphs;
            } }
        ensures others { self.new ≡ record self.old { glyphs = self.new.glyphs } }
        ensures same_length { length self.new.glyphs ≡ length self.old.glyphs }
    {
        for i in from..to {
            let place = self.arranged_place(placements, start, end, i);
            self.change_each(place, place + 1, change);
        }
    }
}

// The least cluster of the glyphs from `start` to `end`.
#[inline]
fn least_cluster(glyphs: &Arranged, start: usize, end: usize) -> u32
    requires some { start < end }
    requires in_range { end ≤ length glyphs.now }
    ensures { result ≡ least (clusters (stretch_of start end glyphs.now)) }
{
    let mut least = glyphs.get(start).cluster;
    for i in start + 1..end {
        least = least.min(glyphs.get(i).cluster);
    }
    least
}

// How many glyphs of cluster `from` stand directly before place `end`, if that becomes another one.
#[inline]
fn equal_before(glyphs: &Arranged, end: usize, from: u32, to: u32) -> usize
    requires { end ≤ length glyphs.now }
    ensures len { result ≡ equal_before from to (take end glyphs.now) }
    ensures within { result ≤ end }
{
    if from == to {
        return 0;
    }
    for i in (0..end).rev() {
        if glyphs.get(i).cluster != from {
            return end - i - 1;
        }
    }
    end
}

// How many glyphs of cluster `from` stand from place `start` on, if that becomes another one.
#[inline]
fn equal_behind(glyphs: &Arranged, start: usize, from: u32, to: u32) -> usize
    requires { start ≤ length glyphs.now }
    ensures len { result ≡ equal_behind from to (drop start glyphs.now) }
    ensures within { start + result ≤ length glyphs.now }
    ensures fits { start + result < 2 ^ 64 }
{
    if from == to {
        return 0;
    }
    glyphs.cluster_behind(start, from)
}

// What a merge of the glyphs from `start` to `end`, of at least two places, puts into one cluster.
#[inline]
fn merged_range(glyphs: &Arranged, start: usize, end: usize) -> ClusterRange
    requires two { start + 1 < end }
    requires in_range { end ≤ length glyphs.now }
    ensures merged { with_range result glyphs.now ≡ merged start end glyphs.now }
    ensures in_order { result.start ≤ result.end }
    ensures in_range { result.end ≤ length glyphs.now }
{
    let first = glyphs.get(start).cluster;
    let last = glyphs.get(end - 1).cluster;
    let cluster = least_cluster(glyphs, start + 1, end).min(first);
    let before = equal_before(glyphs, start, first, cluster);
    let behind = equal_behind(glyphs, end, last, cluster);
    ClusterRange {
        start: start - before,
        end: end + behind,
        cluster,
    }
}

impl hb_buffer_t {
    /// Merges the glyphs that stand from `from` to `to` once the placements are applied, as
    /// [`hb_buffer_t::merge_clusters`] does where they are.
    #[inline]
    pub fn merge_arranged(
        &mut self,
        placements: &Placements,
        start: usize,
        end: usize,
        from: usize,
        to: usize,
    )
        requires arranges { MayArrange placements.now start end
            (length self.old.glyphs) self.old.places }
        requires in_order { from ≤ to }
        requires in_range { to ≤ length self.old.glyphs }
        ensures glyphs { let old = arranged placements.now start end self.old in
            arranged placements.now start end self.new
            ≡ record old { glyphs = merge self.old.level from to old.glyphs } }
        ensures others { self.new ≡ record self.old { glyphs = self.new.glyphs } }
        ensures same_length { length self.new.glyphs ≡ length self.old.glyphs }
    {
        if placements.moves_nothing() {
            self.merge_clusters(from, to);
        } else {
            self.merge_through(placements, start, end, from, to);
        }
    }

    // The same by the places where the glyphs are.
    fn merge_through(
        &mut self,
        placements: &Placements,
        start: usize,
        end: usize,
        from: usize,
        to: usize,
    )
        requires arranges { MayArrange placements.now start end
            (length self.old.glyphs) self.old.places }
        requires in_order { from ≤ to }
        requires in_range { to ≤ length self.old.glyphs }
        ensures glyphs { let old = arranged placements.now start end self.old in
            arranged placements.now start end self.new
            ≡ record old { glyphs = merge self.old.level from to old.glyphs } }
        ensures others { self.new ≡ record self.old { glyphs = self.new.glyphs } }
        ensures same_length { length self.new.glyphs ≡ length self.old.glyphs }
    {
        if merges(self.cluster_level) && to - from >= 2 {
            let range = merged_range(&self.arranged(placements, start, end), from, to);
            let change = IntoCluster(range.cluster);
            self.change_arranged(placements, start, end, range.start, range.end, &change);
        }
    }
}

// Writes the glyphs from `start` to `end`, moved by placements.
fn reorder(
    glyphs: &mut [hb_glyph_info_t],
    places: &[usize],
    spare: &mut [hb_glyph_info_t],
    placements: &Placements,
    start: usize,
    end: usize,
)
    requires arranges { MayArrange placements.now start end (length glyphs.old) places.now }
    requires room { end - start ≤ length spare.old }
    ensures { let moved = placed_by_all placements.now start end places.now glyphs.old in
        glyphs.new ≡ with_stretch start end (λ _. stretch_of start end moved) glyphs.old }
{
    let spare = &mut spare[..end - start];
    gather(glyphs, places, placements, start, end, spare);
    glyphs[start..end].copy_from_slice(spare);
}

// Writes the glyphs that placements bring to the places from `start` to `end`.
fn gather(
    glyphs: &[hb_glyph_info_t],
    places: &[usize],
    placements: &Placements,
    start: usize,
    end: usize,
    to: &mut [hb_glyph_info_t],
)
    requires arranges { MayArrange placements.now start end (length glyphs.now) places.now }
    requires as_many { length to.old ≡ end - start }
    ensures { let moved = placed_by_all placements.now start end places.now glyphs.now in
        to.new ≡ stretch_of start end moved }
{
    for i in 0..end - start {
        let place = old_place_by_all(placements, places, start, end, start + i);
        to[i] = glyphs[place];
    }
}

// Writes the glyphs that placements bring to the places from `start` to `end` into the room for
// them.
#[cold]
#[inline(never)]
fn gather_spare(
    glyphs: &[hb_glyph_info_t],
    places: &[usize],
    spare: &mut Vec<hb_glyph_info_t>,
    placements: &Placements,
    start: usize,
    end: usize,
)
    requires arranges { MayArrange placements.now start end (length glyphs.now) places.now }
    requires room { length glyphs.now ≤ vec_capacity spare.old }
    ensures gathered { let moved = placed_by_all placements.now start end places.now glyphs.now in
        take (end - start) spare.new.items ≡ stretch_of start end moved }
    ensures opened { end - start ≤ length spare.new.items }
    ensures capacity { vec_capacity spare.old ≤ vec_capacity spare.new }
{
    make_spare(spare, end - start);
    gather_front(glyphs, places, spare, placements, start, end);
}

// Writes them to the front of a list.
fn gather_front(
    glyphs: &[hb_glyph_info_t],
    places: &[usize],
    spare: &mut [hb_glyph_info_t],
    placements: &Placements,
    start: usize,
    end: usize,
)
    requires arranges { MayArrange placements.now start end (length glyphs.now) places.now }
    requires room { end - start ≤ length spare.old }
    ensures gathered { let moved = placed_by_all placements.now start end places.now glyphs.now in
        take (end - start) spare.new ≡ stretch_of start end moved }
    ensures same_length { length spare.new ≡ length spare.old }
{
    let spare = &mut spare[..end - start];
    gather(glyphs, places, placements, start, end, spare);
}

// Walks over the glyphs from `start` to `end`.
#[inline]
fn walk_in<W: GlyphWalk>(glyphs: &mut [hb_glyph_info_t], start: usize, end: usize, walk: &mut W)
    requires in_order { start ≤ end }
    requires in_range { end ≤ length glyphs.old }
    requires walkable { W.can_walk walk.old (stretch_of start end glyphs.old) }
    ensures walked { W.walks walk.old walk.new
        (stretch_of start end glyphs.old) (stretch_of start end glyphs.new) }
    ensures others { let syllable = stretch_of start end glyphs.new in
        glyphs.new ≡ with_stretch start end (λ _. syllable) glyphs.old }
    ensures same_length { length glyphs.new ≡ length glyphs.old }
{
    walk.walk(&mut glyphs[start..end]);
}

// Walks over a copy of the glyphs that placements bring to the places from `start` to `end`, and
// writes each of them where it came from.
fn walk_copy<W: GlyphWalk>(
    glyphs: &mut [hb_glyph_info_t],
    places: &[usize],
    spare: &mut [hb_glyph_info_t],
    placements: &Placements,
    start: usize,
    end: usize,
    walk: &mut W,
)
    requires arranges { MayArrange placements.now start end (length glyphs.old) places.now }
    requires room { end - start ≤ length spare.old }
    requires walkable { let moved = placed_by_all placements.now start end places.now glyphs.old in
        W.can_walk walk.old (stretch_of start end moved) }
    ensures walked { let old = placed_by_all placements.now start end places.now glyphs.old in
        let new = placed_by_all placements.now start end places.now glyphs.new in
        W.walks walk.old walk.new (stretch_of start end old) (stretch_of start end new) }
    ensures others { let old = placed_by_all placements.now start end places.now glyphs.old in
        let new = placed_by_all placements.now start end places.now glyphs.new in
        new ≡ with_stretch start end (λ _. stretch_of start end new) old }
    ensures same_length { length glyphs.new ≡ length glyphs.old }
{
    let copy = &mut spare[..end - start];
    gather(glyphs, places, placements, start, end, copy);
    walk.walk(copy);
    put_back(glyphs, places, placements, start, end, copy);
}

// Writes the glyphs that placements bring to the places from `start` to `end` where they come from.
fn put_back(
    glyphs: &mut [hb_glyph_info_t],
    places: &[usize],
    placements: &Placements,
    start: usize,
    end: usize,
    from: &[hb_glyph_info_t],
)
    requires arranges { MayArrange placements.now start end (length glyphs.old) places.now }
    requires as_many { length from.now ≡ end - start }
    ensures put { let old = placed_by_all placements.now start end places.now glyphs.old in
        let new = placed_by_all placements.now start end places.now glyphs.new in
        new ≡ with_stretch start end (λ _. from.now) old }
    ensures same_length { length glyphs.new ≡ length glyphs.old }
{
    for i in 0..end - start {
        let place = old_place_by_all(placements, places, start, end, start + i);
        glyphs[place] = from[i];
    }
}

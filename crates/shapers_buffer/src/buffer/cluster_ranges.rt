//! Ranges of glyphs that merges have put into one cluster, which is written once, behind the last
//! of these merges.
ghost use Rattle.std.specs.Prelude.{◌≡◌, ℕ, ◌<◌, ◌≤◌, ◌+◌, ◌^◌, length};
ghost use Rattle.std.specs.List.{list_all, prefix_len, suffix_len};
ghost use Rattle.shapers_buffer.specs.Clusters.{has_cluster, merge, merged};
ghost use Rattle.shapers_buffer.specs.ClusterRanges.{RangeFits, with_range};
ghost use Rattle.shapers_buffer.specs.RangeWalk.{ReachesGlyph, equal_before, equal_behind};

use super::glyph::hb_glyph_info_t;
use super::merging::{least_cluster, merges, set_cluster};
use super::{BufferClusterLevel, hb_buffer_t};

/// Glyphs that merges have put into one cluster, which isn't written yet: where they start, the
/// place behind them, and their cluster.
#[derive(Clone, Copy, Debug)]
pub struct ClusterRange {
    pub(super) start: usize,
    pub(super) end: usize,
    pub(super) cluster: u32,
}

impl ClusterRange {
    /// No glyphs.
    pub const NONE: Self = ClusterRange {
        start: 0,
        end: 0,
        cluster: 0,
    };
}

impl hb_buffer_t {
    /// Merges the glyphs from `start` to `end`, as `merge_clusters`, of the buffer with a range in
    /// its cluster. Where they start in the range nothing is written and only what is new is read,
    /// else the range is written and another begins. Returns the range that is to be written then.
    #[inline]
    pub fn merge_range(&mut self, range: ClusterRange, start: usize, end: usize) -> ClusterRange
        requires in_order { start ≤ end }
        requires in_range { end ≤ length self.old.glyphs }
        requires fits { RangeFits range self.old.glyphs }
        ensures others { self.new ≡ record self.old { glyphs = self.new.glyphs } }
        ensures merged { with_range result self.new.glyphs
            ≡ merge self.old.level start end (with_range range self.old.glyphs) }
        ensures fits { RangeFits result self.new.glyphs }
        ensures same_length { length self.new.glyphs ≡ length self.old.glyphs }
    {
        merge_range_in(self.cluster_level, &mut self.info, range, start, end)
    }

    /// Puts the glyphs of a range into its cluster.
    #[inline]
    pub fn write_range(&mut self, range: ClusterRange)
        requires { RangeFits range self.old.glyphs }
        ensures { self.new ≡ record self.old { glyphs = with_range range self.old.glyphs } }
    {
        write_range_in(&mut self.info, range);
    }
}

/// Merges over glyphs in a slice, as `hb_buffer_t::merge_range`.
#[inline]
pub fn merge_range_in(
    level: BufferClusterLevel,
    glyphs: &mut [hb_glyph_info_t],
    range: ClusterRange,
    start: usize,
    end: usize,
) -> ClusterRange
    requires in_order { start ≤ end }
    requires in_range { end ≤ length glyphs.old }
    requires fits { RangeFits range glyphs.old }
    ensures merged { with_range result glyphs.new ≡ merge level start end (with_range range glyphs.old) }
    ensures fits { RangeFits result glyphs.new }
{
    if merges(level) && end - start >= 2 {
        merge_two(glyphs, range, start, end)
    } else {
        range
    }
}

/// Puts the glyphs of a range in a slice into its cluster.
#[inline]
pub fn write_range_in(glyphs: &mut [hb_glyph_info_t], range: ClusterRange)
    requires { RangeFits range glyphs.old }
    ensures { glyphs.new ≡ with_range range glyphs.old }
{
    set_cluster(&mut glyphs[range.start..range.end], range.cluster);
}

// Merges the glyphs from `start` to `end`, of at least two places.
#[inline]
fn merge_two(
    glyphs: &mut [hb_glyph_info_t],
    range: ClusterRange,
    start: usize,
    end: usize,
) -> ClusterRange
    requires two { start + 1 < end }
    requires in_range { end ≤ length glyphs.old }
    requires fits { RangeFits range glyphs.old }
    ensures merged { with_range result glyphs.new ≡ merged start end (with_range range glyphs.old) }
    ensures fits { RangeFits result glyphs.new }
{
    let range = reaching(glyphs, range, start);
    if range.start <= start && start < range.end {
        return if end <= range.end {
            range
        } else {
            grown(glyphs, range, end)
        };
    }
    write_range_in(glyphs, range);
    grown(glyphs, range_of_one(glyphs, start), end)
}

// The range with the glyphs behind it up to `index`, if these are all in its cluster.
#[inline]
fn reaching(glyphs: &[hb_glyph_info_t], range: ClusterRange, index: usize) -> ClusterRange
    requires inside { index + 1 < length glyphs.now }
    requires room { index + 1 < 2 ^ 64 }
    requires fits { RangeFits range glyphs.now }
    ensures reached { ReachesGlyph index range glyphs.now result }
    ensures same { with_range result glyphs.now ≡ with_range range glyphs.now }
    ensures fits { RangeFits result glyphs.now }
{
    if range.start < range.end
        && range.end <= index
        && are_in(&glyphs[range.end..index + 1], range.cluster)
    {
        ClusterRange {
            end: index + 1,
            ..range
        }
    } else {
        range
    }
}

// Whether all glyphs are in a cluster.
#[inline]
fn are_in(glyphs: &[hb_glyph_info_t], cluster: u32) -> bool
    ensures { result ≡ list_all (has_cluster cluster) glyphs.now }
{
    glyphs.iter().all(|glyph| glyph.cluster == cluster)
}

// One glyph as a range.
#[inline]
fn range_of_one(glyphs: &[hb_glyph_info_t], index: usize) -> ClusterRange
    requires inside { index + 1 < length glyphs.now }
    requires fits { index + 1 < 2 ^ 64 }
    ensures start { result.start ≡ index }
    ensures end { result.end ≡ index + 1 }
    ensures same { with_range result glyphs.now ≡ glyphs.now }
    ensures fits { RangeFits result glyphs.now }
{
    ClusterRange {
        start: index,
        end: index + 1,
        cluster: glyphs[index].cluster,
    }
}

// The range that a merge from a place of this one to `end` makes, if that lies behind it.
#[inline]
fn grown(glyphs: &[hb_glyph_info_t], range: ClusterRange, end: usize) -> ClusterRange
    requires some { range.start < range.end }
    requires further { range.end < end }
    requires in_range { end ≤ length glyphs.now }
    requires fits { RangeFits range glyphs.now }
    ensures merged { (start : ℕ) → range.start ≤ start → start < range.end
        → with_range result glyphs.now ≡ merged start end (with_range range glyphs.now) }
    ensures fits { RangeFits result glyphs.now }
{
    let added = &glyphs[range.end..end];
    let last = added[added.len() - 1].cluster;
    let cluster = least_cluster(added).min(range.cluster);
    let before = equal_before(&glyphs[..range.start], range.cluster, cluster);
    let behind = equal_behind(&glyphs[end..], last, cluster);
    ClusterRange {
        start: range.start - before,
        end: end + behind,
        cluster,
    }
}

// How many glyphs of cluster `from` end the list, if that becomes another one.
#[inline]
fn equal_before(glyphs: &[hb_glyph_info_t], from: u32, to: u32) -> usize
    ensures len { result ≡ equal_before from to glyphs.now }
    ensures within { result ≤ length glyphs.now }
{
    if from == to {
        0
    } else {
        len_at_end(glyphs, from)
    }
}

// How many glyphs of cluster `from` begin the list, if that becomes another one.
#[inline]
fn equal_behind(glyphs: &[hb_glyph_info_t], from: u32, to: u32) -> usize
    ensures len { result ≡ equal_behind from to glyphs.now }
    ensures within { result ≤ length glyphs.now }
{
    if from == to {
        0
    } else {
        len_in_front(glyphs, from)
    }
}

// How many glyphs of a cluster end the list.
#[inline]
fn len_at_end(glyphs: &[hb_glyph_info_t], cluster: u32) -> usize
    ensures len { result ≡ suffix_len (has_cluster cluster) glyphs.now }
    ensures within { result ≤ length glyphs.now }
{
    glyphs
        .iter()
        .rev()
        .take_while(|glyph| glyph.cluster == cluster)
        .count()
}

// How many glyphs of a cluster begin the list.
#[inline]
fn len_in_front(glyphs: &[hb_glyph_info_t], cluster: u32) -> usize
    ensures len { result ≡ prefix_len (has_cluster cluster) glyphs.now }
    ensures within { result ≤ length glyphs.now }
{
    glyphs
        .iter()
        .take_while(|glyph| glyph.cluster == cluster)
        .count()
}

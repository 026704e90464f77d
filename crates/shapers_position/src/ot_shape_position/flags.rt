//! The glyph flags of whole clusters.
ghost use Rattle.std.specs.Prelude.{◌≡◌, ◌<◌, ◌≤◌, ◌+◌, drop, length, map};
ghost use Rattle.std.specs.List.{list_any, prefix_len};
ghost use Rattle.shapers_buffer.specs.Clusters.{first_cluster, has_cluster, with_stretch};
ghost use Rattle.shapers_position.specs.ClusterFlags.{flags_wanted, flags_of, flags_propagated, flags_shared, is_flagged, joins_decided, with_flags};

use bitflags::Flags;
use glyph_flag::{SAFE_TO_INSERT_TATWEEL, UNSAFE_TO_BREAK, UNSAFE_TO_CONCAT};
use shapers_base::buffer::{BufferFlags, glyph_flag, hb_buffer_t, hb_glyph_info_t};

/// Gives all glyphs of a cluster the flags that one of them has, so that a line breaker may read
/// any. `UNSAFE_TO_CONCAT` is kept where the buffer wants it. Where it wants tatweels, a cluster
/// that is unsafe to break takes none before it, and one that takes one is unsafe to break and to
/// concatenate: the line would lose the tatweel. (HarfBuzz's `hb_propagate_flags`.)
pub fn propagate_flags(buffer: &mut hb_buffer_t)
    ensures { let text = flags_propagated buffer.old.flags buffer.old.glyphs in
        buffer.new ≡ record buffer.old { glyphs = text } }
{
    if !has_flags(buffer.glyphs()) {
        return;
    }
    let flags = buffer.flags();
    buffer.with_glyphs_mut(|glyphs| propagate_in(flags, glyphs));
}

// Whether one of these glyphs has flags.
#[inline]
fn has_flags(glyphs: &[hb_glyph_info_t]) -> bool
    ensures { result ≡ list_any is_flagged glyphs.now }
{
    glyphs.iter().any(is_flagged)
}

#[inline]
fn is_flagged(glyph: &hb_glyph_info_t) -> bool
    ensures { result ≡ is_flagged glyph.now }
{
    glyph.mask & 7 != 0
}

// Gives all glyphs of each cluster the same flags.
fn propagate_in(wanted: BufferFlags, glyphs: &mut [hb_glyph_info_t])
    ensures { glyphs.new ≡ flags_propagated wanted glyphs.old }
{
    let mut start = 0;
    while start < glyphs.len() {
        let end = start + first_cluster_len(rest_from(glyphs, start));
        share_flags_from(wanted, glyphs, start, end);
        start = end;
    }
}

// The glyphs from a place on.
#[inline]
fn rest_from(glyphs: &[hb_glyph_info_t], start: usize) -> &[hb_glyph_info_t]
    requires { start ≤ length glyphs.now }
    ensures { result.now ≡ drop start glyphs.now }
{
    &glyphs[start..]
}

// How many glyphs are in the cluster that begins the text.
#[inline]
fn first_cluster_len(glyphs: &[hb_glyph_info_t]) -> usize
    requires { 0 < length glyphs.now }
    ensures len { result ≡
        1 + prefix_len (has_cluster (first_cluster glyphs.now)) (drop 1 glyphs.now) }
    ensures within { result ≤ length glyphs.now }
{
    1 + len_in_front(&glyphs[1..], glyphs[0].cluster)
}

// How many glyphs of a cluster begin the list.
#[inline]
fn len_in_front(glyphs: &[hb_glyph_info_t], cluster: u32) -> usize
    ensures len { result ≡ prefix_len (has_cluster cluster) glyphs.now }
    ensures within { result ≤ length glyphs.now }
{
    glyphs
        .iter()
        .take_while(|glyph| glyph.cluster == cluster)
        .count()
}

// Gives the glyphs from `s` to `e`, which are a cluster, the same flags.
#[inline]
fn share_flags_from(wanted: BufferFlags, glyphs: &mut [hb_glyph_info_t], s: usize, e: usize)
    requires in_order { s ≤ e }
    requires in_range { e ≤ length glyphs.old }
    ensures { glyphs.new ≡ with_stretch s e (flags_shared wanted) glyphs.old }
{
    share_flags(wanted, &mut glyphs[s..e]);
}

// Gives the glyphs of a cluster the same flags.
#[inline]
fn share_flags(wanted: BufferFlags, cluster: &mut [hb_glyph_info_t])
    ensures { cluster.new ≡ flags_shared wanted cluster.old }
{
    if cluster.len() == 1 {
        let flags = flags_wanted(wanted, cluster[0].mask & 7);
        put_flags(&mut cluster[0], flags);
        return;
    }
    let flags = flags_wanted(wanted, flags_of(cluster));
    set_flags(cluster, flags);
}

// The flags that one of these glyphs has.
#[inline]
fn flags_of(cluster: &[hb_glyph_info_t]) -> u32
    ensures { result ≡ flags_of cluster.now }
{
    let mut flags = 0;
    for glyph in cluster {
        flags |= glyph.mask & 7;
    }
    flags
}

// The flags of a cluster that the buffer wants.
#[inline]
fn flags_wanted(wanted: BufferFlags, flags: u32) -> u32
    ensures { result ≡ flags_wanted wanted flags }
{
    let settled = if wanted.contains(BufferFlags::PRODUCE_SAFE_TO_INSERT_TATWEEL) {
        joins_decided(flags)
    } else {
        flags
    };
    if wanted.contains(BufferFlags::PRODUCE_UNSAFE_TO_CONCAT) {
        settled
    } else {
        settled & (UNSAFE_TO_BREAK | SAFE_TO_INSERT_TATWEEL)
    }
}

// These flags where tatweels are wanted: one put in breaks the line's shape, unless that is shaped
// anew.
#[inline]
fn joins_decided(flags: u32) -> u32
    ensures { result ≡ joins_decided flags }
{
    if flags & UNSAFE_TO_BREAK == UNSAFE_TO_BREAK {
        flags & (UNSAFE_TO_BREAK | UNSAFE_TO_CONCAT)
    } else if flags & SAFE_TO_INSERT_TATWEEL == SAFE_TO_INSERT_TATWEEL {
        flags | (UNSAFE_TO_BREAK | UNSAFE_TO_CONCAT)
    } else {
        flags
    }
}

// Puts these flags in the place of each glyph's own.
#[inline]
fn set_flags(cluster: &mut [hb_glyph_info_t], flags: u32)
    ensures { cluster.new ≡ map (with_flags flags) cluster.old }
{
    for glyph in cluster.iter_mut() {
        put_flags(glyph, flags);
    }
}

#[inline]
fn put_flags(glyph: &mut hb_glyph_info_t, flags: u32)
    ensures { glyph.new ≡ with_flags flags glyph.old }
{
    glyph.mask &= !7;
    glyph.mask |= flags;
}

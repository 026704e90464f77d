//! Ignorable glyphs that are drawn by an invisible one, or go.
ghost use Rattle.std.specs.Prelude.{◌≡◌, ◌<◌, ◌≤◌, ◌+◌, [], count_by, drop, length, map, min, take};
ghost use Rattle.std.specs.List.{prefix_len, suffix_len};
ghost use Rattle.std.specs.Option.{option_or};
ghost use Rattle.shapers_buffer.specs.Clusters.{has_cluster, merge};
ghost use Rattle.shapers_position.specs.Ignorables.{covering, drawn_by, is_of_cluster, ignorables_hidden, ignorables_removed, in_place_of, is_default_ignorable, stays_in_text, positions_kept, removed, removed_behind};

use super::ignorables::{DefaultIgnorables, has_ignorable, is_default_ignorable};
use shapers_base::buffer::{
    BufferClusterLevel, GlyphPosition, PositionedWalk, hb_buffer_t, hb_glyph_info_t,
    merge_clusters_in,
};
use shapers_base::font::{GlyphId, hb_font_t};

// The character whose glyph draws nothing.
const SPACE: u32 = 0x20;

/// Draws each glyph that is to be hidden by an invisible one: the caller's, or else the font's
/// space. In a font without one, and where they are to go, they go with their positions, and a
/// glyph beside them takes in their cluster, so that the text of each is still some glyph's.
/// (HarfBuzz's `hb_ot_hide_default_ignorables` and `delete_glyphs_inplace`.)
pub fn hide_default_ignorables<F: hb_font_t>(
    ignorables: DefaultIgnorables,
    invisible_glyph: Option<GlyphId>,
    font: &F,
    buffer: &mut hb_buffer_t,
)
    ensures { let glyph = option_or invisible_glyph ((F.font font.now).nominal 0x20) in
        buffer.new ≡ ignorables_hidden ignorables glyph buffer.old }
{
    // so that a return with nothing changed knows how many positions there are
    prove!(buffer.positions_len() <= buffer.len());
    if !has_ignorable(buffer.glyphs()) {
        return;
    }
    match ignorables {
        DefaultIgnorables::Hide => match invisible_glyph.or_else(|| font.get_nominal_glyph(SPACE)) {
            Some(glyph) => draw_by(glyph, buffer),
            None => remove_ignorables(buffer),
        },
        DefaultIgnorables::Preserve => {}
        DefaultIgnorables::Remove => remove_ignorables(buffer),
    }
}

// Draws each ignorable glyph by this one.
fn draw_by(glyph: GlyphId, buffer: &mut hb_buffer_t)
    ensures { buffer.new ≡ record buffer.old { glyphs = map (drawn_by glyph) buffer.old.glyphs } }
{
    buffer.change_all_by(|info| {
        if is_default_ignorable(info) {
            info.glyph_id = u32::from(glyph.0);
        }
    });
}

// Takes the ignorable glyphs out of a text, with their positions.
fn remove_ignorables(buffer: &mut hb_buffer_t)
    ensures { buffer.new ≡ ignorables_removed buffer.old }
{
    let kept = count_kept(buffer.glyphs());
    let level = buffer.cluster_level();
    if buffer.positions_len() > 0 {
        buffer.walk_positioned(&PositionRemoval {});
    }
    buffer.with_glyphs_mut(|glyphs| remove_ignorables_in(level, glyphs));
    buffer.truncate(kept);
}

// How many glyphs stay.
fn count_kept(glyphs: &[hb_glyph_info_t]) -> usize
    ensures count { result ≡ count_by stays_in_text glyphs.now }
    ensures within { result ≤ length glyphs.now }
{
    glyphs
        .iter()
        .filter(|glyph| !is_default_ignorable(glyph))
        .count()
}

// The walk that brings the positions of the glyphs that stay to the front.
#[derive(Drop)]
struct PositionRemoval {}

impl PositionedWalk for PositionRemoval {
    ghost use Rattle.std.specs.Prelude.{◌≡◌, count_by, length, take};
    ghost use Rattle.shapers_position.specs.Ignorables.{stays_in_text, positions_kept};

    ghost can_walk = { λ w gs ps. length ps ≡ length gs };

    ghost walks = { λ w gs ps hs qs.
        (hs ≡ gs) × (take (count_by stays_in_text gs) qs ≡ positions_kept gs ps) };

    #[inline]
    fn walk(&self, glyphs: &mut [hb_glyph_info_t], positions: &mut [GlyphPosition]) {
        remove_positions(glyphs, positions);
    }
}

// Brings the positions of the glyphs that stay to the front.
fn remove_positions(glyphs: &[hb_glyph_info_t], positions: &mut [GlyphPosition])
    requires { length positions.old ≡ length glyphs.now }
    ensures { take (count_by stays_in_text glyphs.now) positions.new
        ≡ positions_kept glyphs.now positions.old }
{
    let mut kept = 0;
    for i in 0..glyphs.len() {
        if !is_default_ignorable(&glyphs[i]) {
            positions[kept] = positions[i];
            kept += 1;
        }
    }
}

// Brings the glyphs that stay to the front, in the clusters of those that go.
#[inline]
fn remove_ignorables_in(level: BufferClusterLevel, glyphs: &mut [hb_glyph_info_t])
    ensures { take (count_by stays_in_text glyphs.old) glyphs.new ≡ removed level glyphs.old }
{
    merge_leading(level, glyphs);
    remove_glyphs(glyphs);
}

// Merges the ignorable glyphs that begin a text with the first one that stays.
fn merge_leading(level: BufferClusterLevel, glyphs: &mut [hb_glyph_info_t])
    ensures { let opening = prefix_len is_default_ignorable glyphs.old in
        glyphs.new ≡ merge level 0 (min (opening + 1) (length glyphs.old)) glyphs.old }
{
    let opening = leading_len(glyphs);
    let end = (opening + 1).min(glyphs.len());
    merge_clusters_in(level, glyphs, 0, end);
}

// How many ignorable glyphs begin a text.
#[inline]
fn leading_len(glyphs: &[hb_glyph_info_t]) -> usize
    ensures len { result ≡ prefix_len is_default_ignorable glyphs.now }
    ensures within { result ≤ length glyphs.now }
{
    glyphs
        .iter()
        .take_while(|glyph| is_default_ignorable(glyph))
        .count()
}

// Brings the glyphs that stay to the front.
fn remove_glyphs(glyphs: &mut [hb_glyph_info_t])
    ensures { take (count_by stays_in_text glyphs.old) glyphs.new ≡ removed_behind [] glyphs.old }
{
    let mut kept = 0;
    for i in 0..glyphs.len() {
        kept = move_or_remove(glyphs, kept, i);
    }
}

// Looks at the glyph at `i`, of those before which the first `kept` stay: it comes behind these, or
// goes. One that goes, and is the last of its cluster there, leaves that to them. How many stay
// then.
fn move_or_remove(glyphs: &mut [hb_glyph_info_t], kept: usize, i: usize) -> usize
    requires few { kept ≤ i }
    requires inside { i < length glyphs.old }
    ensures rest { removed_behind (take result glyphs.new) (drop (i + 1) glyphs.new)
        ≡ removed_behind (take kept glyphs.old) (drop i glyphs.old) }
    ensures count { result + count_by stays_in_text (drop (i + 1) glyphs.new)
        ≡ kept + count_by stays_in_text (drop i glyphs.old) }
    ensures few { result ≤ i + 1 }
{
    let glyph = glyphs[i];
    if !is_default_ignorable(&glyph) {
        glyphs[kept] = glyph;
        return kept + 1;
    }
    if !is_of_cluster(&glyphs[i + 1..], glyph.cluster) {
        cover(&mut glyphs[..kept], &glyph);
    }
    kept
}

// Whether the next glyph is of this cluster.
#[inline]
fn is_of_cluster(behind: &[hb_glyph_info_t], cluster: u32) -> bool
    ensures { result ≡ is_of_cluster cluster behind.now }
{
    match behind.first() {
        Some(next) => next.cluster == cluster,
        None => false,
    }
}

// Puts the last glyphs of one cluster into that of a glyph that goes, if that is below theirs.
fn cover(kept: &mut [hb_glyph_info_t], gone: &hb_glyph_info_t)
    ensures { kept.new ≡ covering gone.now kept.old }
{
    if kept.is_empty() {
        return;
    }
    let cluster = kept[kept.len() - 1].cluster;
    if gone.cluster < cluster {
        let start = kept.len() - len_at_end(kept, cluster);
        take_place_of(gone, &mut kept[start..]);
    }
}

// How many glyphs of a cluster end the list.
#[inline]
fn len_at_end(glyphs: &[hb_glyph_info_t], cluster: u32) -> usize
    ensures len { result ≡ suffix_len (has_cluster cluster) glyphs.now }
    ensures within { result ≤ length glyphs.now }
{
    glyphs
        .iter()
        .rev()
        .take_while(|glyph| glyph.cluster == cluster)
        .count()
}

// Gives these glyphs the cluster and the glyph flags of one that goes.
fn take_place_of(gone: &hb_glyph_info_t, glyphs: &mut [hb_glyph_info_t])
    ensures { glyphs.new ≡ map (in_place_of gone.now) glyphs.old }
{
    for glyph in glyphs.iter_mut() {
        take_in(glyph, gone);
    }
}

// Gives a glyph the cluster and the glyph flags of one that goes.
#[inline]
fn take_in(glyph: &mut hb_glyph_info_t, gone: &hb_glyph_info_t)
    ensures { glyph.new ≡ in_place_of gone.now glyph.old }
{
    glyph.cluster = gone.cluster;
    glyph.mask &= !7;
    glyph.mask |= gone.mask & 7;
}

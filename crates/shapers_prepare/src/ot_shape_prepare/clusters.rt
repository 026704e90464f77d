//! Clusters by graphemes.
ghost use Rattle.std.specs.Prelude.{◌≡◌};
ghost use Rattle.std.specs.List.{list_any};
ghost use Rattle.shapers_buffer.specs.Clusters.{merge_all};
ghost use Rattle.shapers_buffer.specs.GlyphFlags.{unsafe_all};
ghost use Rattle.shapers_buffer.specs.Properties.{is_continuation};
ghost use Rattle.shapers_prepare.specs.Graphemes.{clusters_formed, graphemes};

use shapers_base::buffer::{
    BufferClusterLevel, ClusterRange, hb_buffer_t, hb_glyph_info_t, merge_range_in,
    unsafe_to_break_in, write_range_in,
};

/// Brings each grapheme into one cluster where that is the level, and else flags it unsafe to break
/// inside.
pub fn form_clusters(buffer: &mut hb_buffer_t)
    ensures { let text = clusters_formed buffer.old.level buffer.old.glyphs in
        buffer.new ≡ record buffer.old { glyphs = text } }
{
    if !has_continuation(buffer.glyphs()) {
        return;
    }
    let level = buffer.cluster_level();
    buffer.with_glyphs_mut(|glyphs| form_clusters_in(level, glyphs));
}

// Whether a glyph carries on the grapheme before it: else each is one of its own.
#[inline]
fn has_continuation(glyphs: &[hb_glyph_info_t]) -> bool
    ensures { result ≡ list_any (λ g. is_continuation g.unicode_props) glyphs.now }
{
    glyphs
        .iter()
        .any(|glyph| glyph.unicode_props.is_continuation())
}

// Brings each grapheme of these glyphs into one cluster at the level of graphemes, and else flags it.
#[inline]
fn form_clusters_in(level: BufferClusterLevel, glyphs: &mut [hb_glyph_info_t])
    ensures { glyphs.new ≡ clusters_formed level glyphs.old }
{
    match level {
        BufferClusterLevel::MonotoneGraphemes => merge_graphemes_in(level, glyphs),
        BufferClusterLevel::MonotoneCharacters | BufferClusterLevel::Characters => {
            flag_graphemes_in(glyphs)
        }
    }
}

// Merges each grapheme. What merges have put into one cluster is written once.
pub(super) fn merge_graphemes_in(level: BufferClusterLevel, glyphs: &mut [hb_glyph_info_t])
    ensures { glyphs.new ≡ merge_all level (graphemes glyphs.old) glyphs.old }
{
    if glyphs.is_empty() {
        return;
    }
    let mut pending = ClusterRange::NONE;
    let mut start = 0;
    for i in 1..glyphs.len() {
        if !glyphs[i].unicode_props.is_continuation() {
            pending = merge_range_in(level, glyphs, pending, start, i);
            start = i;
        }
    }
    let end = glyphs.len();
    pending = merge_range_in(level, glyphs, pending, start, end);
    write_range_in(glyphs, pending);
}

// Flags each grapheme unsafe to break inside.
fn flag_graphemes_in(glyphs: &mut [hb_glyph_info_t])
    ensures { glyphs.new ≡ unsafe_all (graphemes glyphs.old) glyphs.old }
{
    if glyphs.is_empty() {
        return;
    }
    let mut start = 0;
    for i in 1..glyphs.len() {
        if !glyphs[i].unicode_props.is_continuation() {
            unsafe_to_break_in(glyphs, start, i);
            start = i;
        }
    }
    let end = glyphs.len();
    unsafe_to_break_in(glyphs, start, end);
}

//! Texts in which merges may flood again and again what stands before them.
ghost use Rattle.std.specs.Prelude.{◌≡◌};
ghost use Rattle.shapers_clusters.specs.Floods.{clusters_fall, floods_again};

use shapers_buffer::buffer::hb_glyph_info_t;

// In a text of at most so many glyphs a look at each cluster would cost more than floods that come
// again.
const FEW: usize = 256;

/// Whether merges, from the first place on to the last, may flood again and again what stands before
/// them: where clusters never fall, they flood nothing there. In a text of few glyphs only its ends
/// are looked at.
#[inline]
pub fn floods_again(glyphs: &[hb_glyph_info_t]) -> bool
    ensures { result ≡ floods_again glyphs.now }
{
    if glyphs.len() > FEW {
        clusters_fall(glyphs)
    } else {
        !glyphs.is_empty() && glyphs[glyphs.len() - 1].cluster < glyphs[0].cluster
    }
}

// Whether a glyph has a cluster below that of the one before it.
#[inline(never)]
fn clusters_fall(glyphs: &[hb_glyph_info_t]) -> bool
    ensures { result ≡ clusters_fall glyphs.now }
{
    let mut before = 0;
    for glyph in glyphs {
        if glyph.cluster < before {
            return true;
        }
        before = glyph.cluster;
    }
    false
}

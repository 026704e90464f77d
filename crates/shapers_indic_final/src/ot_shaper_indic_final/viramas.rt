//! Viramas that lookups put in for several glyphs and then took apart become halants again. The
//! steps behind look for halants; a font may form a letter and its virama in one stage and part
//! them in a later one, and the parts then have the category of the first character, which is no
//! halant.
ghost use Rattle.std.specs.Prelude.{◌≡◌, ◌≤◌, length, map};
ghost use Rattle.shapers_buffer.specs.Clusters.{with_stretch};
ghost use Rattle.shapers_indic_final.specs.FinalGlyphs.{is_lost_virama, recovered};

use shapers_base::buffer::{hb_buffer_t, hb_glyph_info_t};
use shapers_base::font::GlyphId;
use shapers_base::plan::ot_category_t::OT_H;

// Recovers the viramas of the syllable from `start` to `end`.
#[inline]
pub(super) fn recover_viramas(
    virama: Option<GlyphId>,
    buffer: &mut hb_buffer_t,
    start: usize,
    end: usize,
)
    requires in_order { start ≤ end }
    requires in_range { end ≤ length buffer.old.glyphs }
    ensures { let change = with_stretch start end (map (recovered virama)) in
        buffer.new ≡ record buffer.old { glyphs = change buffer.old.glyphs } }
{
    buffer.change_each_by(start, end, |glyph| recover(virama, glyph));
}

// Makes a virama that was taken apart a halant again.
#[inline]
fn recover(virama: Option<GlyphId>, glyph: &mut hb_glyph_info_t)
    ensures { glyph.new ≡ recovered virama glyph.old }
{
    if is_lost_virama(virama, glyph) {
        glyph.category = OT_H;
        glyph.glyph_props.set_ligated(false);
        glyph.glyph_props.set_multiplied(false);
    }
}

// Whether a glyph is the virama's, and lookups put it in for several and then took it apart.
#[inline]
pub(super) fn is_lost_virama(virama: Option<GlyphId>, glyph: &hb_glyph_info_t) -> bool
    ensures { result ≡ is_lost_virama virama glyph.now }
{
    match virama {
        Some(virama) => {
            glyph.glyph_id == u32::from(virama.0)
                && glyph.glyph_props.is_ligated()
                && glyph.glyph_props.is_multiplied()
        }
        None => false,
    }
}

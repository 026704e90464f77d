//! A face: the tables of a font, over its bytes.
ghost use Rattle.std.specs.Prelude.{◌≡◌, ◌<◌, ◌^◌, option_map};
ghost use Rattle.opentype_face.specs.Faces.{
  ascender_of,
  descender_of,
  face_in,
  gdef_in,
  glyph_count_of,
  h_advance_of,
  left_side_bearing_of,
  line_height_of,
  origin_by_bearing,
  origin_by_box,
  origin_without_vorg,
  outline_of,
  tables_in,
  tables_of,
  top_with_bearing,
  v_advance_of,
  v_origin_of,
  variation_glyph_of,
};
ghost use Rattle.opentype_face.specs.Characters.{nominal_in};
ghost use Rattle.opentype_face.specs.Metrics.{units_in};
ghost use Rattle.opentype_face.specs.Names.{name_in};
ghost use Rattle.opentype_face.specs.Views.{Gives};

use crate::bytes::{capped, low16, u16_at};
use crate::characters::{Characters, choose, subtable};
use crate::directory::{FaceError, directory, table};
use crate::ignored::is_ignored;
use crate::variants::{GlyphVariant, glyph_variant};
use crate::{metrics, names, origins, outlines};

/// The tables of a font, each empty where the font has none. Nothing is copied.
#[derive(Clone, Copy, Debug)]
pub struct Face<'a> {
    /// Units, and the format of `loca`.
    pub head: &'a [u8],
    /// How many glyphs there are.
    pub maxp: &'a [u8],
    /// Heights of lines, and how many long metrics there are.
    pub hhea: &'a [u8],
    /// Advances and bearings on the left.
    pub hmtx: &'a [u8],
    /// As `hhea`, for lines from the top down.
    pub vhea: &'a [u8],
    /// Advances and bearings on top.
    pub vmtx: &'a [u8],
    /// Heights of vertical origins.
    pub vorg: &'a [u8],
    /// Heights of lines, and pages of old fonts.
    pub os2: &'a [u8],
    /// Names of glyphs.
    pub post: &'a [u8],
    /// Where outlines begin.
    pub loca: &'a [u8],
    /// Outlines.
    pub glyf: &'a [u8],
    /// Classes of glyphs; empty where HarfBuzz ignores the table.
    pub gdef: &'a [u8],
    /// Substitutions.
    pub gsub: &'a [u8],
    /// Positions.
    pub gpos: &'a [u8],
    /// The subtable of `cmap` for characters.
    pub characters: Characters<'a>,
    /// That for characters with selectors, of format 14.
    pub selectors: &'a [u8],
}

/// Reads a face of a font file, by its index in a collection. It takes 530 steps at most.
///
/// # Errors
/// The bytes are no font, the file has no face of that index, or the tables `head` or `maxp` are missing.
pub fn parse(bytes: &[u8], index: u32) -> Result<Face<'_>, FaceError>
    ensures { Gives tables_of result (face_in bytes.now index) }
{
    let directory = directory(bytes, index)?;
    let face = face_of(bytes, directory);
    if face.head.is_empty() {
        return Err(FaceError::MissingHead);
    }
    if face.maxp.is_empty() {
        return Err(FaceError::MissingMaxp);
    }
    Ok(face)
}

fn face_of<'a>(bytes: &'a [u8], directory: &[u8]) -> Face<'a>
    ensures { tables_of result ≡ tables_in bytes.now directory.now }
{
    let os2 = table(bytes, directory, 0x4F53_2F32);
    let cmap = table(bytes, directory, 0x636D_6170);
    Face {
        head: table(bytes, directory, 0x6865_6164),
        maxp: table(bytes, directory, 0x6D61_7870),
        hhea: table(bytes, directory, 0x6868_6561),
        hmtx: table(bytes, directory, 0x686D_7478),
        vhea: table(bytes, directory, 0x7668_6561),
        vmtx: table(bytes, directory, 0x766D_7478),
        vorg: table(bytes, directory, 0x564F_5247),
        os2,
        post: table(bytes, directory, 0x706F_7374),
        loca: table(bytes, directory, 0x6C6F_6361),
        glyf: table(bytes, directory, 0x676C_7966),
        gdef: gdef_of(bytes, directory),
        gsub: table(bytes, directory, 0x4753_5542),
        gpos: table(bytes, directory, 0x4750_4F53),
        characters: choose(cmap, metrics::font_page(os2)),
        selectors: subtable(cmap, 5),
    }
}

/// GDEF, unless it is one of those that HarfBuzz ignores, or of a version that it doesn't read.
fn gdef_of<'a>(bytes: &'a [u8], directory: &[u8]) -> &'a [u8]
    ensures { result.now ≡ gdef_in bytes.now directory.now }
{
    let gdef = table(bytes, directory, 0x4744_4546);
    let gsub = table(bytes, directory, 0x4753_5542);
    let gpos = table(bytes, directory, 0x4750_4F53);
    if u16_at(gdef, 0) != 1 || is_ignored(gdef.len(), gsub.len(), gpos.len()) {
        &[]
    } else {
        gdef
    }
}

impl Face<'_> {
    /// How many units an em has.
    pub fn units_per_em(&self) -> u16
        ensures { result ≡ units_in self.now.head.now }
    {
        metrics::units_per_em(self.head)
    }

    /// How many glyphs the font has, by `maxp`, or where that has more, by `loca`.
    pub fn glyph_count(&self) -> u16
        ensures { result ≡ glyph_count_of (tables_of self.now) }
    {
        let count = metrics::glyph_count(self.maxp);
        let outlines = outlines::outline_count(self.head, self.loca);
        if outlines <= usize::from(count) {
            return count;
        }
        low16(capped(65535, outlines))
    }

    /// The glyph of a character, in at most 80 steps.
    pub fn get_nominal_glyph(&self, c: u32) -> Option<u16>
        ensures { result ≡ nominal_in self.now.characters.encoding self.now.characters.subtable.now c }
    {
        self.characters.get_nominal_glyph(c)
    }

    /// The glyph of a character with a selector behind it, in at most 180 steps.
    pub fn get_variation_glyph(&self, c: u32, selector: u32) -> Option<u16>
        ensures { result ≡ variation_glyph_of (tables_of self.now) c selector }
    {
        match glyph_variant(self.selectors, c, selector) {
            GlyphVariant::NotFound => None,
            GlyphVariant::Found(glyph) => Some(glyph),
            GlyphVariant::UseDefault => self.get_nominal_glyph(c),
        }
    }

    /// How far a glyph goes to the right: half an em where the font has no advances.
    #[inline]
    pub fn h_advance(&self, glyph: u16) -> u16
        ensures { result ≡ h_advance_of (tables_of self.now) glyph }
    {
        if metrics::has_long_metric(self.hhea, self.hmtx, glyph) {
            return u16_at(self.hmtx, usize::from(glyph) * 4);
        }
        self.shared_h_advance(glyph)
    }

    // The same by all that the tables have for glyphs without an advance of their own. (A function of
    // its own, so that what most glyphs need is short.)
    #[inline(never)]
    fn shared_h_advance(&self, glyph: u16) -> u16
        ensures { result ≡ h_advance_of (tables_of self.now) glyph }
    {
        match metrics::advance(self.hhea, self.hmtx, self.glyph_count(), glyph) {
            Some(advance) => advance,
            None => self.units_per_em() / 2,
        }
    }

    /// How far down a glyph goes; `None` where the font has no vertical advances. (HarfBuzz then takes the
    /// height of a line.)
    pub fn v_advance(&self, glyph: u16) -> Option<u16>
        ensures { result ≡ v_advance_of (tables_of self.now) glyph }
    {
        metrics::advance(self.vhea, self.vmtx, self.glyph_count(), glyph)
    }

    /// The left side bearing of a glyph, where its box begins.
    pub fn left_side_bearing(&self, glyph: u16) -> i16
        ensures { result ≡ left_side_bearing_of (tables_of self.now) glyph }
    {
        let count = metrics::glyph_count(self.maxp);
        metrics::side_bearing(self.hhea, self.hmtx, count, glyph)
    }

    /// The outline of a glyph; `None` where the font has none of its number.
    pub fn outline(&self, glyph: u16) -> Option<&[u8]>
        ensures { option_map (λ x. x.now) result ≡ outline_of (tables_of self.now) glyph }
    {
        if usize::from(glyph) >= outlines::outline_count(self.head, self.loca) {
            return None;
        }
        Some(outlines::outline(self.head, self.loca, self.glyf, glyph))
    }

    /// How far the font rises above the base line.
    pub fn ascender(&self) -> i32
        ensures { result ≡ ascender_of (tables_of self.now) }
    {
        metrics::ascender(self.hhea, self.os2, self.units_per_em())
    }

    /// How far it goes below, as a number of at most 0.
    pub fn descender(&self) -> i32
        ensures { result ≡ descender_of (tables_of self.now) }
    {
        metrics::descender(self.hhea, self.os2, self.units_per_em())
    }

    /// How high above the base line a glyph's origin for vertical text lies, as HarfBuzz has it: by `VORG`; by
    /// outlines and `vmtx`; in the middle of a line, by outlines alone; or at the ascender. It takes 2,048 steps at
    /// most for each of 64 components in one another.
    pub fn v_origin(&self, glyph: u16) -> i32
        ensures { result ≡ v_origin_of (tables_of self.now) glyph }
    {
        match metrics::vertical_origin(self.vorg, glyph) {
            Some(height) => i32::from(height),
            None => self.v_origin_without_vorg(glyph),
        }
    }

    #[tactic(auto, unfolding(crate::specs::Faces::origin_without_vorg))]
    fn v_origin_without_vorg(&self, glyph: u16) -> i32
        ensures { result ≡ origin_without_vorg (tables_of self.now) glyph }
    {
        if metrics::long_metrics(self.vhea, self.vmtx) == 0
            || outlines::outline_count(self.head, self.loca) == 0
        {
            self.v_origin_by_box(glyph)
        } else {
            self.v_origin_by_bearing(glyph)
        }
    }

    #[tactic(auto, unfolding(crate::specs::Faces::origin_by_box))]
    fn v_origin_by_box(&self, glyph: u16) -> i32
        ensures { result ≡ origin_by_box (tables_of self.now) (outline_of (tables_of self.now) glyph) }
    {
        match self.outline(glyph) {
            Some(outline) => origins::centred_origin(outline, self.line_height()),
            None => self.ascender(),
        }
    }

    #[tactic(auto, unfolding(crate::specs::Faces::origin_by_bearing))]
    fn v_origin_by_bearing(&self, glyph: u16) -> i32
        ensures { result ≡ origin_by_bearing (tables_of self.now) glyph }
    {
        if usize::from(glyph) >= outlines::outline_count(self.head, self.loca) {
            return 0;
        }
        let glyph = origins::measured_glyph(self.head, self.loca, self.glyf, glyph);
        self.top_with_bearing(glyph)
    }

    #[tactic(auto, unfolding(crate::specs::Faces::top_with_bearing))]
    fn top_with_bearing(&self, glyph: u16) -> i32
        ensures { result ≡ top_with_bearing (tables_of self.now) glyph }
    {
        let top = origins::top(outlines::outline(self.head, self.loca, self.glyf, glyph));
        let count = metrics::glyph_count(self.maxp);
        let bearing = metrics::side_bearing(self.vhea, self.vmtx, count, glyph);
        origins::above(top, bearing)
    }

    #[tactic(auto, unfolding(crate::specs::Faces::line_height_of))]
    fn line_height(&self) -> u32
        ensures value { result ≡ line_height_of (tables_of self.now) }
        ensures bound { result < 2 ^ 17 }
    {
        metrics::line_height(self.hhea, self.os2, self.units_per_em())
    }

    /// The name of a glyph; empty where the font has none.
    pub fn glyph_name(&self, glyph: u16) -> &[u8]
        ensures { result.now ≡ name_in self.now.post.now glyph }
    {
        names::glyph_name(self.post, glyph)
    }
}

//! The font that the lines `font` and `applies` describe.
use shapers_base::buffer::hb_tag_t;
use shapers_base::font::{GlyphId, hb_font_t};
use std::alloc::{AllocError, Global};
use std::collections::BTreeMap;

/// A font of the lines so far: glyphs of characters, advances of glyphs, and what its lookups
/// would apply to.
#[derive(Drop)]
pub struct LineFont {
    glyphs: BTreeMap<u32, GlyphId>,
    advances: BTreeMap<u16, i32>,
    applied: Vec<Applied>,
}

// Glyphs to which a lookup would apply.
#[derive(Drop)]
struct Applied {
    lookup: u16,
    glyphs: Vec<GlyphId>,
}

impl LineFont {
    /// A font without a glyph or a lookup.
    pub fn new(alloc: Global) -> Self {
        LineFont {
            glyphs: BTreeMap::new(alloc),
            advances: BTreeMap::new(alloc),
            applied: Vec::new(alloc),
        }
    }

    /// Gives a character a glyph, and the glyph an advance.
    pub fn add_glyph(
        &mut self,
        character: char,
        glyph: GlyphId,
        advance: i32,
    ) -> Result<(), AllocError> {
        self.glyphs.insert(u32::from(character), glyph)?;
        self.advances.insert(glyph.0, advance)?;
        Ok(())
    }

    /// From now on the lookup would apply to these glyphs.
    pub fn add_applied(&mut self, lookup: u16, glyphs: Vec<GlyphId>) -> Result<(), AllocError> {
        self.applied.push(Applied { lookup, glyphs })?;
        Ok(())
    }

    /// The advance of a glyph, 0 for a number that no glyph has.
    pub fn advance(&self, glyph_id: u32) -> i32 {
        match u16::try_from(glyph_id) {
            Ok(glyph) => self.glyph_h_advance(GlyphId(glyph)),
            Err(_) => 0,
        }
    }
}

impl hb_font_t for LineFont {
    ghost use Rattle.std.specs.Prelude.{false, pos, unwrap_or};
    ghost use Rattle.std.specs.Ordering.{nat_cmp};
    ghost use Rattle.std.specs.BTreeMap.{get};
    ghost use Rattle.hbhook_commands.specs.Font.{some_applies};

    ghost font = { λ font. record {
      nominal = λ c. get nat_cmp font.glyphs c;
      advance = λ glyph. unwrap_or (get nat_cmp font.advances glyph.0) (pos 0);
      applies = λ lookup glyphs _. some_applies font.applied.items lookup glyphs;
      offers = λ _. false;
    } };

    fn get_nominal_glyph(&self, c: u32) -> Option<GlyphId> {
        self.glyphs.get(&c).copied()
    }

    fn has_glyph(&self, c: u32) -> bool {
        self.glyphs.contains_key(&c)
    }

    fn glyph_h_advance(&self, glyph: GlyphId) -> i32 {
        self.advances.get(&glyph.0).copied().unwrap_or(0)
    }

    fn would_apply(&self, lookup: u16, glyphs: &[GlyphId], _zero_context: bool) -> bool {
        self.applied.iter().any(|line| line.lookup == lookup && line.glyphs.as_slice() == glyphs)
    }

    fn has_feature(&self, _tag: hb_tag_t) -> bool {
        false
    }
}

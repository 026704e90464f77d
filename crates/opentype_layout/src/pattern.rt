//! What places of a rule look for, and where they find it.
ghost use Rattle.std.specs.Prelude.{◌≡◌, ◌<◌, ◌≤◌, length, IfSome};
ghost use Rattle.opentype_layout.specs.Pattern.{fits, next_in, previous_in, seen_by};

use crate::class_refs::ClassRef;
use crate::glyph_text::GlyphView;
use crate::sight::{Sight, number};
use opentype_face::bytes::{table_at, u16_at};
use opentype_face::glyph_sets::coverage;
use shapers_buffer::buffer::hb_glyph_info_t;

/// What the places of a rule look for, one after another. Its numbers stand at the start of a
/// table.
#[derive(Clone, Copy, Debug)]
pub enum Pattern<'a> {
    /// These glyphs.
    Glyphs(&'a [u8]),
    /// Glyphs of these classes, by a table of classes.
    Classes(&'a [u8], ClassRef<'a>),
    /// Glyphs of sets, whose offsets these are, from the start of another table.
    Sets(&'a [u8], &'a [u8]),
}

impl<'a> Pattern<'a> {
    /// Whether a glyph fits a place.
    #[inline]
    #[tactic(auto, unfolding(crate::specs::Pattern::fits))]
    pub fn fits(&self, k: u16, glyph: u16) -> bool
        ensures { result ≡ fits self.now k glyph }
    {
        match *self {
            Pattern::Glyphs(glyphs) => u16_at(glyphs, usize::from(k) * 2) == glyph,
            Pattern::Classes(classes, of) => u16_at(classes, usize::from(k) * 2) == of.class(glyph),
            Pattern::Sets(offsets, table) => {
                let offset = usize::from(u16_at(offsets, usize::from(k) * 2));
                coverage(table_at(table, offset), glyph).is_some()
            }
        }
    }

    // What a search for a place makes of a glyph.
    #[tactic(auto, unfolding(crate::specs::Pattern::seen_by))]
    fn sees(&self, gdef: &[u8], sight: &Sight, k: u16, glyph: &hb_glyph_info_t) -> Option<bool>
        ensures { result ≡ seen_by gdef.now sight.now (fits self.now) k glyph.now }
    {
        sight.sees(gdef, self.fits(k, number(glyph)), glyph)
    }

    // The first glyph from a place on that fits a place of the rule, where a search has passed over
    // those before it. (Apart from the first glyph, at which most searches end: a loop costs more.)
    #[inline(never)]
    fn next_further(
        &self,
        gdef: &[u8],
        sight: &Sight,
        k: u16,
        glyphs: &GlyphView<'_>,
        from: usize,
    ) -> Option<usize>
        ensures value { result ≡ next_in gdef.now sight.now (fits self.now) glyphs.now k from }
        ensures within { IfSome result (λ i. i < length glyphs.now) }
    {
        let mut i = from;
        while let Some(glyph) = glyphs.get(i) {
            let seen = self.sees(gdef, sight, k, glyph);
            if let Some(is_found) = seen {
                return if is_found { Some(i) } else { None };
            }
            i += 1;
        }
        None
    }

    /// The first glyph from a place on that fits a place of the rule.
    #[inline]
    pub fn next(
        &self,
        gdef: &[u8],
        sight: &Sight,
        k: u16,
        glyphs: &GlyphView<'_>,
        from: usize,
    ) -> Option<usize>
        ensures value { result ≡ next_in gdef.now sight.now (fits self.now) glyphs.now k from }
        ensures within { IfSome result (λ i. i < length glyphs.now) }
    {
        let Some(glyph) = glyphs.get(from) else {
            return None;
        };
        let seen = self.sees(gdef, sight, k, glyph);
        if let Some(is_found) = seen {
            return if is_found { Some(from) } else { None };
        }
        self.next_further(gdef, sight, k, glyphs, from + 1)
    }

    // The nearest glyph before a place that fits a place of the rule, by how many glyphs stand between,
    // where a search has passed over so many nearer ones.
    #[inline(never)]
    fn previous_further(
        &self,
        gdef: &[u8],
        sight: &Sight,
        k: u16,
        glyphs: &GlyphView<'_>,
        at: usize,
        from: usize,
    ) -> Option<usize>
        requires { at ≤ length glyphs.now }
        ensures value { result
            ≡ previous_in gdef.now sight.now (fits self.now) glyphs.now at k from }
        ensures within { IfSome result (λ i. i < at) }
    {
        for i in from..at {
            let seen = self.sees(gdef, sight, k, glyphs.at(at - 1 - i));
            if let Some(is_found) = seen {
                return if is_found { Some(i) } else { None };
            }
        }
        None
    }

    /// The nearest glyph before a place that fits a place of the rule, by how many glyphs stand
    /// between, of which so many are passed already.
    #[inline]
    pub fn previous(
        &self,
        gdef: &[u8],
        sight: &Sight,
        k: u16,
        glyphs: &GlyphView<'_>,
        at: usize,
        from: usize,
    ) -> Option<usize>
        requires { at ≤ length glyphs.now }
        ensures value { result
            ≡ previous_in gdef.now sight.now (fits self.now) glyphs.now at k from }
        ensures within { IfSome result (λ i. i < at) }
    {
        if from >= at {
            return None;
        }
        let seen = self.sees(gdef, sight, k, glyphs.at(at - 1 - from));
        if let Some(is_found) = seen {
            return if is_found { Some(from) } else { None };
        }
        self.previous_further(gdef, sight, k, glyphs, at, from + 1)
    }
}

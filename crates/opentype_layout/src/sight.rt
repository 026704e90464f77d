//! Which glyphs a lookup sees.
ghost use Rattle.std.specs.Prelude.{◌≡◌, ◌%◌};
ghost use Rattle.opentype_layout.specs.Sight.{flag_in, ignores, is_joiner, may_pass, seen_as, set_count, sight_of_context, sight_of_input, syllable_in};

use opentype_face::bytes::{table_at, u16_at};
use opentype_face::classes::is_in_mark_set;
use opentype_face::lookup::{lookup_flag, mark_set};
use shapers_buffer::buffer::hb_glyph_info_t;

/// How a plan has a lookup applied.
#[derive(Clone, Copy, Debug)]
pub struct Application {
    /// Whether the lookup is one of GPOS.
    pub of_gpos: bool,
    /// The bits of its features: a glyph is changed whose mask has one of them.
    pub mask: u32,
    /// Whether contexts of GSUB pass over zero width non-joiners.
    pub auto_zwnj: bool,
    /// Whether the input passes over zero width joiners.
    pub auto_zwj: bool,
    /// Whether a rule of GSUB stays in the syllable of its first glyph.
    pub per_syllable: bool,
}

/// What a search looks at.
#[derive(Clone, Copy, Debug)]
pub struct Sight {
    /// The flag of the lookup.
    pub flag: u16,
    /// The number of its set of marks.
    pub set: u16,
    /// A glyph is found whose mask has one of these bits.
    pub mask: u32,
    /// The syllable that it is in, or 0 for any.
    pub syllable: u8,
    /// Whether the search passes over zero width non-joiners.
    pub over_zwnj: bool,
    /// Whether it passes over zero width joiners.
    pub over_zwj: bool,
    /// Whether the lookup is one of GPOS: the search passes over hidden signs then.
    pub of_gpos: bool,
}

// How many sets of marks a font has.
fn mark_set_count(gdef: &[u8]) -> u16
    ensures { result ≡ set_count gdef.now }
{
    let at = if u16_at(gdef, 2) == 0 {
        0
    } else {
        usize::from(u16_at(gdef, 12))
    };
    u16_at(table_at(gdef, at), 2)
}

// The flag of a lookup; where its set of marks isn't there, it has none.
#[tactic(auto, unfolding(crate::specs::Sight::flag_in))]
fn sound_flag(gdef: &[u8], lookup: &[u8]) -> u16
    ensures { result ≡ flag_in gdef.now lookup.now }
{
    let flag = lookup_flag(lookup);
    // (most lookups have no set of marks)
    if flag & 16 == 0 {
        return flag;
    }
    if mark_set(lookup) < mark_set_count(gdef) {
        return flag;
    }
    flag & 0xFFEF
}

// The syllable that a lookup stays in, or 0.
fn syllable_of(how: &Application, syllable: u8) -> u8
    ensures { result ≡ syllable_in how.now syllable }
{
    if how.of_gpos {
        return 0;
    }
    if how.per_syllable { syllable } else { 0 }
}

/// A glyph's number, of 16 bits in a font.
#[inline]
pub fn number(glyph: &hb_glyph_info_t) -> u16
    ensures { result ≡ glyph.now.glyph_id % 65536 }
{
    (glyph.glyph_id % 65536) as u16
}

/// Whether a lookup ignores a glyph.
#[inline]
#[tactic(auto, unfolding(crate::specs::Sight::ignores))]
pub fn ignores_glyph(gdef: &[u8], flag: u16, set: u16, glyph: &hb_glyph_info_t) -> bool
    ensures { result ≡ ignores gdef.now flag set glyph.now }
{
    let props = glyph.glyph_props.0;
    if props & flag & 0x0E != 0 {
        return true;
    }
    if props & 8 != 8 {
        return false;
    }
    if flag & 16 == 16 {
        return !is_in_mark_set(gdef, set, number(glyph));
    }
    flag / 256 != 0 && flag / 256 != props / 256
}

// Whether a glyph is a format character with this bit.
#[inline]
fn joins(bit: u16, glyph: &hb_glyph_info_t) -> bool
    ensures { result ≡ is_joiner bit glyph.now }
{
    glyph.unicode_props.0 % 32 == 1 && glyph.unicode_props.0 & bit == bit
}

impl Sight {
    /// What the input of a lookup's rules looks at, where the first glyph is in a syllable.
    #[tactic(auto, unfolding(crate::specs::Sight::sight_of_input))]
    pub fn of_input(gdef: &[u8], lookup: &[u8], how: &Application, syllable: u8) -> Sight
        ensures { result ≡ sight_of_input gdef.now lookup.now how.now syllable }
    {
        Sight {
            flag: sound_flag(gdef, lookup),
            set: mark_set(lookup),
            mask: how.mask,
            syllable: syllable_of(how, syllable),
            over_zwnj: how.of_gpos,
            over_zwj: how.auto_zwj,
            of_gpos: how.of_gpos,
        }
    }

    /// What their contexts look at: glyphs of every feature.
    #[tactic(auto, unfolding(crate::specs::Sight::sight_of_context))]
    pub fn of_context(gdef: &[u8], lookup: &[u8], how: &Application, syllable: u8) -> Sight
        ensures { result ≡ sight_of_context gdef.now lookup.now how.now syllable }
    {
        Sight {
            flag: sound_flag(gdef, lookup),
            set: mark_set(lookup),
            mask: 0xFFFF_FFFF,
            syllable: syllable_of(how, syllable),
            over_zwnj: how.of_gpos || how.auto_zwnj,
            over_zwj: true,
            of_gpos: how.of_gpos,
        }
    }

    /// Whether a search may pass over a glyph that isn't drawn.
    #[inline]
    #[tactic(auto, unfolding(crate::specs::Sight::may_pass))]
    pub fn may_pass(&self, glyph: &hb_glyph_info_t) -> bool
        ensures { result ≡ may_pass self.now glyph.now }
    {
        let props = glyph.unicode_props.0;
        props & 32 == 32
            && glyph.glyph_props.0 & 16 != 16
            && (self.of_gpos || props & 64 != 64)
            && (self.over_zwnj || !joins(512, glyph))
            && (self.over_zwj || !joins(256, glyph))
    }

    /// What a search makes of a glyph that fits its pattern or doesn't: whether it is found, or
    /// `None` where the search goes on.
    #[inline]
    #[tactic(auto, unfolding(crate::specs::Sight::seen_as))]
    pub fn sees(&self, gdef: &[u8], fits: bool, glyph: &hb_glyph_info_t) -> Option<bool>
        ensures { result ≡ seen_as gdef.now self.now fits glyph.now }
    {
        if ignores_glyph(gdef, self.flag, self.set, glyph) {
            return None;
        }
        let is_inside = self.syllable == 0 || self.syllable == glyph.syllable;
        if fits && glyph.mask & self.mask != 0 && is_inside {
            return Some(true);
        }
        if self.may_pass(glyph) {
            None
        } else {
            Some(false)
        }
    }
}

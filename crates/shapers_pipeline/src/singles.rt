//! Lookups that put single glyphs for others.
ghost use Rattle.std.specs.Prelude.{◌≡◌, find};
ghost use Rattle.shapers_pipeline.specs.Singles.{is_single_for, single_applied};

use crate::lookups::Lookups;
use shapers_base::buffer::{GlyphChange, GlyphProps, ShaperError, hb_buffer_t, hb_glyph_info_t};
use shapers_plan::ot_map::StageLookup;
use shapers_position::ot_shape_position::GlyphClasses;

/// An entry of a single substitution.
#[derive(Clone, Copy, Debug, PartialEq, Eq)]
pub struct Single {
    /// The number of the lookup.
    pub lookup: u16,
    /// The glyph that goes.
    pub glyph: u16,
    /// The one in its place.
    pub substitute: u16,
}

/// The lookups of a font that has single substitutions alone, and no positions: of several entries
/// of a lookup for one glyph the first counts. Lookup flags are none. (OpenType, GSUB, lookup type
/// 1.)
#[derive(Clone, Copy, Debug)]
pub struct SingleLookups<'a> {
    /// The entries of all lookups.
    pub singles: &'a [Single],
}

impl<'a> GlyphClasses for SingleLookups<'a> {
    ghost use Rattle.std.specs.Prelude.{false};

    ghost marks = { λ it g. false };

    #[inline]
    fn is_mark(&self, _glyph: &hb_glyph_info_t) -> bool {
        false
    }
}

impl<'a> Lookups for SingleLookups<'a> {
    ghost use Rattle.std.specs.Prelude.{false, refl};
    ghost use Rattle.shapers_buffer.specs.Properties.{no_marks};
    ghost use Rattle.shapers_pipeline.specs.Singles.{singles_applied};
    ghost use Rattle.shapers_pipeline.specs.SingleLaws.{singles_grow, singles_keep};

    ghost noted = { λ it g. no_marks };

    ghost substituted = { λ it lookup b. singles_applied it.singles.now lookup b };

    ghost growth_of = { λ it lookup. 1 };

    ghost substituting_refuses = { λ it lookup b. record { too_long = false; memory = false } };

    ghost positioned = { λ it lookup b. b };

    ghost finished = { λ it b. b };

    ghost positioning_refuses = { λ it lookup b. record { too_long = false; memory = false } };

    #[inline]
    fn glyph_props(&self, _glyph: &hb_glyph_info_t) -> GlyphProps {
        GlyphProps::NONE
    }

    #[inline]
    fn growth(&self, _lookup: &StageLookup) -> usize {
        1
    }

    fn substitute(
        &self,
        lookup: &StageLookup,
        buffer: &mut hb_buffer_t,
    ) -> Result<(), ShaperError> {
        let end = buffer.len();
        let change = SingleChange {
            singles: self.singles,
            lookup: *lookup,
        };
        buffer.change_each(0, end, &change);
        Ok(())
    }

    fn position(
        &self,
        _lookup: &StageLookup,
        _buffer: &mut hb_buffer_t,
    ) -> Result<(), ShaperError> {
        Ok(())
    }

    fn finish_positions(&self, _buffer: &mut hb_buffer_t) {}

    ghost substituting_keeps = { λ it lookup b none. singles_keep it.singles.now lookup b };

    ghost substituting_grows = { λ it lookup b none. singles_grow it.singles.now lookup b };

    ghost positioning_keeps = { λ it lookup b paired.
        record { others = refl; glyphs = refl; positions = refl } };

    ghost finishing_keeps = { λ it b paired.
        record { others = refl; glyphs = refl; positions = refl } };
}

// A lookup of one glyph.
#[derive(Clone, Copy)]
struct SingleChange<'a> {
    singles: &'a [Single],
    lookup: StageLookup,
}

impl<'a> GlyphChange for SingleChange<'a> {
    ghost use Rattle.shapers_pipeline.specs.Singles.{single_applied};

    ghost changed = { λ change g. single_applied change.singles.now change.lookup g };

    #[inline]
    fn change(&self, glyph: &mut hb_glyph_info_t) {
        if glyph.mask & self.lookup.mask == 0 {
            return;
        }
        if let Some(single) = single_for(self.singles, &self.lookup, glyph) {
            glyph.glyph_id = u32::from(single.substitute);
            glyph.glyph_props.set_substituted(true);
        }
    }
}

// The first entry of a lookup for a glyph.
#[inline]
fn single_for(singles: &[Single], lookup: &StageLookup, glyph: &hb_glyph_info_t) -> Option<Single>
    ensures { result ≡ find (is_single_for lookup.now glyph.now) singles.now }
{
    let mut entries = singles.iter().copied();
    entries.find(|single| single.lookup == lookup.index
        && u32::from(single.glyph) == glyph.glyph_id)
}

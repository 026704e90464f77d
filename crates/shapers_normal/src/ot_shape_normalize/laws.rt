//! Laws of normalization, for every shaper, font and tables.
ghost use Rattle.std.specs.Prelude.{◌≡◌, ◌*◌, ◌-◌, ◌^◌, min};
ghost use Rattle.shapers_normal.specs.Laws.{ComesApartInHalves, GrowsNinefold, MakesNoCluster, NormalizesInHalves, PartsAreDrawn, NormalizesMonotone, WholeTextsStay};

/// For how many glyphs a text of so many has room, whatever becomes of it: nine times as many.
#[inline]
pub fn length_bound(len: usize) -> usize
    ensures bound { result ≡ min (len * 9) (2 ^ 64 - 1) }
    ensures law { GrowsNinefold }
{
    len.saturating_mul(9)
}

/// The font has a glyph for each character that another comes apart into.
pub fn parts_law()
    ensures { PartsAreDrawn }
{}

/// A text cut before a glyph that is no mark, into halves that share no cluster: they come apart as
/// the whole does.
pub fn halves_law()
    ensures { ComesApartInHalves }
{}

/// With the later rounds in each text, halves that share no cluster are normalized as the whole is,
/// where the second one begins with no mark.
pub fn normalization_halves_law()
    ensures { NormalizesInHalves }
{}

/// Each cluster of a text that is normalized is one that it had.
pub fn clusters_law()
    ensures { MakesNoCluster }
{}

/// A text without marks that the font has gets its glyphs and nothing else, for a shaper that
/// leaves letters whole.
pub fn whole_texts_law()
    ensures { WholeTextsStay }
{}

/// Clusters that rise, or fall, still do once the text is normalized, at the levels that merge.
pub fn monotone_law()
    ensures { NormalizesMonotone }
{}

//! Laws of graphemes.
ghost use Rattle.shapers_prepare.specs.GraphemeLaws.{FormedCutsAreExact, GraphemesCover, NoGraphemeSplits};

/// The graphemes, one after another, are the text; a text that is reversed has them from the last
/// to the first. At the level of graphemes none is split, whatever the clusters; where these never
/// decrease, or never increase, they still do so, and change exactly between graphemes that shared
/// none.
pub fn graphemes_law()
    ensures cover { GraphemesCover }
    ensures whole { NoGraphemeSplits }
    ensures exact { FormedCutsAreExact }
{}

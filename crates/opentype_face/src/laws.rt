//! What holds of the searches.
ghost use Rattle.opentype_face.specs.CoverageLaws.{CoverageLaw, CoverageRangesLaw};
ghost use Rattle.opentype_face.specs.SearchLaws.{SearchLaw};

/// Where ranges are in order, a search by halves finds the first that holds a number, and else none does.
pub fn search_law()
    ensures { SearchLaw }
{}

/// Where the glyphs of a Coverage of format 1 rise, its answer is the glyph's place in the list.
pub fn coverage_law()
    ensures { CoverageLaw }
{}

/// Where the ranges of a Coverage of format 2 are in order and their places go on from one to the next, its answer is
/// the glyph's place among all glyphs of the ranges.
pub fn coverage_ranges_law()
    ensures { CoverageRangesLaw }
{}

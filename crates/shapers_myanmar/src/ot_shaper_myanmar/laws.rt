//! Laws of the reordering, each the contract of a function that does nothing.
ghost use Rattle.shapers_myanmar.specs.MyanmarLaws.{MyanmarCutsBetweenSpans, MyanmarMovesMerged, MyanmarReadsNoSerials, MyanmarReorderLaws};
ghost use Rattle.shapers_myanmar.specs.MyanmarUnits.{MyanmarDrawingOrder};

/// The steps of a syllable take each of its places once, lead to its order, and move only inside
/// what they merged first.
pub fn myanmar_reorder_laws()
    ensures laws { MyanmarReorderLaws }
    ensures merged { MyanmarMovesMerged }
{}

/// The order of a syllable doesn't read the serial of its byte, so that pauses can be cut between
/// any two spans.
pub fn myanmar_reads_no_serials()
    ensures { MyanmarReadsNoSerials }
{}

/// A set-up and a reordering pause directly after it, cut between any two spans, give what they give
/// on the halves, serials apart, whose own serials may be others.
pub fn myanmar_cuts_between_spans()
    ensures { MyanmarCutsBetweenSpans }
{}

/// The order of a syllable in the script's own words: left vowels, the last one first, each with its
/// VS; what stood before the base; medial Ra; the base; the reph, and what follows it in its old
/// order, but an anusvara in a sequence of vowels below stands before them.
pub fn myanmar_drawing_order()
    ensures { MyanmarDrawingOrder }
{}

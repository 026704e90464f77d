//! Laws of the reordering, each the contract of a function that does nothing.
ghost use Rattle.shapers_universal.specs.UniversalLaws.{UniversalCutsBetweenSpans, UniversalMovesMerged, UniversalReadsNoMasks, UniversalReadsNoSerials, UniversalReorderLaws};

/// The steps of a syllable take each of its places once, lead to its order, and move only inside
/// what they merged first.
pub fn universal_reorder_laws()
    ensures laws { UniversalReorderLaws }
    ensures merged { UniversalMovesMerged }
{}

/// The order of a syllable reads neither the serial of its byte, so that pauses can be cut between
/// any two spans, nor masks, which the set-up gives by the syllables beside it.
pub fn universal_reads_no_serials()
    ensures serials { UniversalReadsNoSerials }
    ensures masks { UniversalReadsNoMasks }
{}

/// A set-up and a reordering pause directly after it, cut between any two spans, give what they
/// give on the halves, serials and masks of forms apart.
pub fn universal_cuts_between_spans()
    ensures { UniversalCutsBetweenSpans }
{}

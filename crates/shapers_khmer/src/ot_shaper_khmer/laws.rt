//! Laws of the reordering, each the contract of a function that does nothing.
ghost use Rattle.shapers_khmer.specs.KhmerLaws.{KhmerCutsBetweenSpans, KhmerMovesMerged, KhmerReadsNoSerials, KhmerReorderLaws};
ghost use Rattle.shapers_khmer.specs.KhmerMovers.{KhmerByMoversLaw, KhmerMoversLaw, KhmerMoversMasksLaw, KhmerMoversMergesLaw};

/// The steps of a syllable take each of its places once, lead to its order, and move only inside
/// what they merged first.
pub fn khmer_reorder_laws()
    ensures laws { KhmerReorderLaws }
    ensures merged { KhmerMovesMerged }
{}

/// The order of a syllable doesn't read the serial of its byte, so that pauses can be cut between
/// any two spans.
pub fn khmer_reads_no_serials()
    ensures { KhmerReadsNoSerials }
{}

/// What the cases make of a regular syllable, by its movers. They are the left vowels, and, if the
/// first Coeng with Ro is among the first three, each Coeng with its Ro from that one to the first
/// without. First stand the movers, the last first, and then the rest in order. Pref goes to the
/// moving pairs, cfar to all behind the first of them, the other masks to all but the first glyph.
/// For each mover merges the stretch from the syllable's start to its end.
pub fn khmer_orders_by_movers()
    ensures syllable { KhmerByMoversLaw }
    ensures order { KhmerMoversLaw }
    ensures masks { KhmerMoversMasksLaw }
    ensures merges { KhmerMoversMergesLaw }
{}

/// A set-up and a reordering pause directly after it, cut between any two spans, give what they
/// give on the halves, serials apart, whose own serials may be others.
pub fn khmer_cuts_between_spans()
    ensures { KhmerCutsBetweenSpans }
{}

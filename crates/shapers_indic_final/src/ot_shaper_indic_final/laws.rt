//! Laws of the final reordering, each the contract of a function that does nothing.
ghost use Rattle.shapers_indic_final.specs.FinalClusters.{FinalCutsLaw, FinalMergesLaw};
ghost use Rattle.shapers_indic_final.specs.FinalCuts.{FinalCutsBetweenSpans};
ghost use Rattle.shapers_indic_final.specs.FinalLaws.{FinalReadsNoSerials, FinalReorderLaws, FinalTextLaws, FinalTextReadsNoSerials};

/// The steps of a syllable take each of its places once and lead to its final order.
pub fn final_reorder_laws()
    ensures { FinalReorderLaws }
{}

/// What a syllable becomes depends on the kind in its bytes and not on their serials, so that
/// pauses can be cut between any two spans; so does what a text becomes.
pub fn final_reads_no_serials()
    ensures syllable { FinalReadsNoSerials }
    ensures text { FinalTextReadsNoSerials }
{}

/// After the pause no glyph is lost, no cluster rises, glyph flags stay unless it fell, but for a
/// break before a syllable that opens inside a word, and labels that clusters and merged stretches
/// respect are still respected.
pub fn final_text_laws()
    ensures { FinalTextLaws }
{}

/// At the levels that merge, each stretch of places that the steps of a syllable merge is in one
/// cluster when they are done.
pub fn final_merges()
    ensures { FinalMergesLaw }
{}

/// No more is merged where all clusters are different: neighbours share one then only if such a
/// stretch holds both, and each stretch so joined has the least cluster that its glyphs had.
pub fn final_cuts()
    ensures { FinalCutsLaw }
{}

/// A set-up, a reordering pause and the final reordering, directly after one another and cut
/// between any two spans, give what they give on the halves, serials and the bits of init apart.
pub fn final_cuts_between_spans()
    ensures { FinalCutsBetweenSpans }
{}

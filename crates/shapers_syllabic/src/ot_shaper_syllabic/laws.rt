//! Laws of the syllabic scripts: dotted circles, reordering, and cuts between syllables.
ghost use Rattle.shapers_syllabic.specs.CircleLaws.{CirclesCanBeErased, CirclesKeepClusters};
ghost use Rattle.shapers_syllabic.specs.ReorderingLaws.{PausesCutAtSpans, ReorderingCutsAtBorders, ReorderingLosesNothing, SerialsDontCount, TextReorderedLaw};
ghost use Rattle.shapers_syllabic.specs.SpanCuts.{PausesCutBetweenSpans};
ghost use Rattle.shapers_syllabic.specs.Borders.{SpansCutLaw};

/// Without its circles a text with circles is the text that they came into, and what was added is
/// one circle for each broken syllable, in order.
pub fn circles_can_be_erased()
    ensures { CirclesCanBeErased }
{}

/// Circles bring no cluster that the text didn't have.
pub fn circles_keep_clusters()
    ensures { CirclesKeepClusters }
{}

/// A set-up by spans and a reordering pause directly after it give what they give on the halves,
/// cut between any two spans, but for serials.
pub fn pauses_cut_law()
    ensures { PausesCutAtSpans }
{}

/// The same with clusters, and of halves whose bytes have other serials, as long as neighbouring
/// syllables differ.
pub fn pauses_cut_between_spans()
    ensures { PausesCutBetweenSpans }
{}

/// A reordering loses nothing: the text after has the glyphs of the text before in some order.
pub fn reordering_loses_nothing()
    ensures { ReorderingLosesNothing }
{}

/// The laws of clusters and glyph flags hold of a text that is reordered syllable by syllable.
pub fn text_reordered_law()
    ensures { TextReorderedLaw }
{}

/// A reordering pause on a text gives what it gives on the halves, cut at any border of syllables.
pub fn reordering_cuts_at_borders()
    ensures { ReorderingCutsAtBorders }
{}

/// The serials of syllables don't count: a pause of an instance that doesn't read them makes the
/// same of texts that differ in them alone.
pub fn serials_dont_count()
    ensures { SerialsDontCount }
{}

/// Spans set up a text as they set up its halves, cut between any two of them, but for serials.
pub fn spans_cut_law()
    ensures { SpansCutLaw }
{}

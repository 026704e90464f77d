//! Laws of the initial reordering, each the contract of a function that does nothing.
ghost use Rattle.shapers_indic_initial.specs.InitialClusters.{InitialClustersLaw, OrderMergesLaw};
ghost use Rattle.shapers_indic_initial.specs.InitialLaws.{InitialCutsBetweenSpans, InitialReorderLaws, InitialTextMerges, InitiallyAsPause, OrderByFontLaws, OrderByFontReadsNoSerials};

/// The steps of a syllable take each of its places once and lead to its order, also where positions
/// by the font come first.
pub fn initial_reorder_laws()
    ensures order { InitialReorderLaws }
    ensures by_font { OrderByFontLaws }
{}

/// The pause is one of dotted circles and syllables, each with its positions by the font first.
pub fn initially_as_pause()
    ensures { InitiallyAsPause }
{}

/// A set-up and the pause directly after it, cut between any two spans, give what they give on the
/// halves, serials apart, whose own serials may be others.
pub fn initial_cuts_between_spans()
    ensures { InitialCutsBetweenSpans }
{}

/// What the order of a syllable merges: places from the base on that a glyph moved over share one
/// cluster, and where all clusters are different no more is merged.
pub fn order_merges()
    ensures { OrderMergesLaw }
{}

/// What the order merges of each syllable in its text, by its order view and clusters.
pub fn initial_clusters()
    ensures { InitialClustersLaw }
{}

/// What the order merges of each syllable after the pause.
pub fn initial_text_merges()
    ensures { InitialTextMerges }
{}

/// What a syllable becomes depends on the kind in its bytes and not on their serials, so that the
/// pause can be cut between any two spans.
pub fn order_by_font_reads_no_serials()
    ensures { OrderByFontReadsNoSerials }
{}

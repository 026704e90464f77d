//! What holds of any cut by a grammar.
ghost use Rattle.std.specs.Prelude.{◌≡◌, false};
ghost use Rattle.shapers_spans.specs.Cuts.{GrammarCutsBetweenSpans, ReadsAlike, joiner_waits};
ghost use Rattle.shapers_spans.specs.Grammar.{Grammar};
ghost use Rattle.shapers_spans.specs.Passing.{none_passed, begins_passed};
ghost use Rattle.shapers_buffer.specs.Glyphs.{Glyphs};

/// A text cut between two spans has the spans of the whole on either side, if its left half is read
/// alike alone; a grammar that reads each glyph reads all halves alike.
pub fn spans_cut_between_spans()
    ensures cut { (g : Grammar) → GrammarCutsBetweenSpans g }
    ensures alike { (g : Grammar) (gs hs : Glyphs) → g.passes ≡ none_passed →
        ReadsAlike g gs hs }
{}

/// The universal grammar reads a left half alike, unless it ends with a ZWNJ that is passed over for
/// a mark in the right half.
pub fn universal_reads_alike()
    ensures { (g : Grammar) (gs hs : Glyphs) → g.passes ≡ begins_passed →
        joiner_waits gs hs ≡ false → ReadsAlike g gs hs }
{}

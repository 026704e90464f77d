//! Carets, edits and breaks of a text that is shaped all the way.
ghost use Rattle.shapers_editing.specs.EditedNormal.{NormalizedOutside};
ghost use Rattle.shapers_editing.specs.PipelineBreaks.{MasksSetInPieces, PipelineBreaks, ShaperStagesBreak, ShapingBreaks, SinglesLeavePieces, StagesLeavePieces};
ghost use Rattle.shapers_editing.specs.ShapedCarets.{ShapedTextHasCarets};

use shapers_break_laws::shapers_break_law;
use shapers_normal::ot_shape_normalize::normalization_halves_law;
use shapers_pipeline::pipeline_clusters_law;

/// The stops of a text whose clusters rose before it was shaped, from its characters to its glyphs
/// with positions, map the text for a caret, and each was a border of clusters before; at the levels
/// that merge, where each pause keeps clusters rising or falling, each cluster is a stop, in the
/// direction that the clusters go in.
pub fn pipeline_carets_law()
    ensures { ShapedTextHasCarets }
{
    pipeline_clusters_law();
}

/// What normalization makes of a text around an edit, with the later rounds in each text: the glyphs
/// outside the edited part come out as before, where the parts may be cut. Where the rounds run as
/// in the code they needn't: a mark at the text's end decides whether a first letter is composed.
pub fn normalization_edits_law()
    ensures { NormalizedOutside }
{
    normalization_halves_law();
}

/// A text may be broken at every clear place behind the stages of its lookups, where each lookup
/// leaves the pieces' results side by side in the text that it was given, as single substitutions do,
/// and each pause does: what becomes of each piece by itself is what became of it in the text, up to
/// the numbers of ligatures. From its fractions on, where its masks are set piece by piece; from its
/// characters on, where these are prepared and normalized so.
pub fn pipeline_breaks_law()
    ensures stages { StagesLeavePieces }
    ensures singles { SinglesLeavePieces }
    ensures masks { MasksSetInPieces }
    ensures texts { PipelineBreaks }
    ensures shaping { ShapingBreaks }
    ensures syllables { ShaperStagesBreak }
{
    shapers_break_law();
}

//! The laws of joining in halves of a text.
ghost use Rattle.shapers_arabic.specs.Breaks.{AsCodeLaw, ExactLaw};
ghost use Rattle.shapers_arabic.specs.Concatenation.{ConcatenationLaw};
ghost use Rattle.shapers_arabic.specs.Edited.{GlyphsStayNear};
ghost use Rattle.shapers_arabic.specs.Edits.{EditsStayNear};
ghost use Rattle.shapers_arabic.specs.JoinedText.{CopiedContextsCut, CopiedContextsShow};
ghost use Rattle.shapers_arabic.specs.Together.{GlyphsConcatenate};

/// A law of joining: contexts that are copied from the text show the neighbours, where one of their
/// at most five characters isn't transparent or the text ends there; so halves with such contexts
/// act as the whole.
pub fn copied_contexts_law()
    ensures shown { CopiedContextsShow }
    ensures halves { CopiedContextsCut }
{}

/// Where a text may be broken, on lists of joining types: what joining flags by itself are the
/// places where the first half, cut off, loses a form; with Sound a place has no flag exactly where
/// the forms of the text are those of its halves.
pub fn joining_breaks_law()
    ensures as_code { AsCodeLaw }
    ensures exact { ExactLaw }
{}

/// Texts that are open at their borders may be put together: they keep their forms. So may buffers
/// where no glyph flag forbids it.
pub fn joining_concatenation_law()
    ensures types { ConcatenationLaw }
    ensures glyphs { GlyphsConcatenate }
{}

/// Edits stay near: where one place of a text changes, only its own form changes and those of the
/// nearest letters on both sides (selectors apart). So in buffers, where any stretch of glyphs is
/// replaced by any other, with the selectors directly behind those letters and behind the edit.
pub fn joining_edits_law()
    ensures types { EditsStayNear }
    ensures glyphs { GlyphsStayNear }
{}

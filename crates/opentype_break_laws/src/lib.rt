//! What the lookups of a font leave of a text's pieces: laws, and fonts that they are read for.
#![tactic(auto)]

ghost use Rattle.opentype_break_laws.specs.FontPieces.{FontLookupsLeavePieces, FontRunsLeavePieces, FontTextsBreak, OneForOneGoesByPieces};
ghost use Rattle.opentype_break_laws.specs.FontContexts.{ContextRunsLeavePieces, ContextsLeavePieces, ShortTextsFlag};
ghost use Rattle.opentype_break_laws.specs.Sequences.{PresenceCompares};

mod font_positions;
mod normalized_text;
mod one_as_two;
mod one_context;
mod two_adjustments;
mod two_pairs;
mod two_singles;

pub use font_positions::font_positions_law;
pub use normalized_text::substitute_normalized;
pub use one_as_two::substitute_sequence;
pub use one_context::substitute_in_context;
use shapers_editing::pipeline_breaks_law;
pub use two_adjustments::adjust_glyphs;
pub use two_pairs::kern_glyphs;
pub use two_singles::substitute_two;

/// A lookup of a font whose subtables put one glyph for one (types 1 and 3, with no alternate picked
/// at random), and a lookup of any type that begins at no glyph of the text, leaves the pieces'
/// results of the text side by side. One of ligatures (type 4) and one of sequences (type 2) do so in
/// texts that take them piece by piece. So do the lookups of a run, where each of them is such at its
/// text; and a text that is shaped by them may be broken at every clear place, from its fractions on
/// and up to the last stage. Sequences may follow ligatures, if numbers of ligatures are compared only
/// by whether a glyph has one.
pub fn font_pieces_law()
    ensures lookups { FontLookupsLeavePieces }
    ensures runs { FontRunsLeavePieces }
    ensures one_for_one { OneForOneGoesByPieces }
    ensures texts { FontTextsBreak }
    ensures presence { PresenceCompares }
{
    pipeline_breaks_law();
}

/// A lookup of contexts (types 5 and 6) whose rules put one glyph for one leaves the pieces' results
/// of a text side by side. Each rule that fits has to flag what it looked at, as in every text of at
/// most 255 glyphs, and both the text and its pieces need operations for a rule at each glyph. So do
/// such lookups, and those that put one glyph for one, one after another.
pub fn font_contexts_law()
    ensures pieces { ContextsLeavePieces }
    ensures short { ShortTextsFlag }
    ensures runs { ContextRunsLeavePieces }
{}

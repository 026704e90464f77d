//! The law of widths.
ghost use Rattle.shapers_stretch.specs.StretchLaws.{WidthsHold};

/// The law of widths, of what `postprocess_glyphs` makes of a text: it is the parts of the text
/// before, one after another, each with its sequence laid. The laid copies have no advance, and
/// stand where their moves lead, each by the font's advance, an added one by the overlap less.
/// These moves together are the width that the numbers of the sequence say; and where its repeating
/// tiles have a width and fit into what the fixed ones leave of the word, that is the width of the
/// word, or more by less than one unit for each added copy.
pub fn widths_law()
    ensures { WidthsHold }
{}

//! Laws of Thai: what its two rewritings make of clusters and glyph flags.
ghost use Rattle.shapers_text.specs.ThaiLaws.{InTwoLaw, FormsLaw};

/// What the rewriting of SARA AM makes of clusters and glyph flags: flags and old clusters, the
/// cluster law and exact cuts.
pub fn in_two_law()
    ensures { InTwoLaw }
{}

/// The private use forms change characters and masks alone, so the laws of clusters hold with them.
pub fn forms_law()
    ensures { FormsLaw }
{}

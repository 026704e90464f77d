//! The law of canonical equivalence.
ghost use Rattle.shapers_equivalence_laws.specs.Equivalence.{OrdersAlike};
ghost use Rattle.shapers_equivalence_laws.specs.Laws.{ComesApartExactly, NormalizesEquivalently, OrdersMarksEquivalently, SequencesNormalizeEquivalently};
ghost use Rattle.shapers_equivalence_laws.specs.PreparedTexts.{PreparedTextsArePlain, PreparedTextsStayEquivalent, ShortTextsStayEquivalent, TextsAreHandedOver};
ghost use Rattle.shapers_equivalence_laws.specs.Staying.{TextsInFormStay};
ghost use Rattle.shapers_equivalence_laws.specs.Shapers.{ShapersKeepTexts, ShapersNormalizeEquivalently};

/// Texts that are equivalent, taken apart to the end and each sequence of marks sorted by class,
/// are the same; the sort is stable.
pub fn order_law()
    ensures { OrdersAlike }
{}

/// A text is canonically equivalent to what it becomes, whatever the font has and whichever rounds
/// run: taken apart to the end both are the same characters, and marks of one class stand in the
/// same order. The shaper decomposes and composes by canonical pairs, and its order of marks leaves
/// them in that of their classes.
pub fn equivalence_law()
    ensures apart { ComesApartExactly }
    ensures ordered { OrdersMarksEquivalently }
    ensures normalized { NormalizesEquivalently }
{}

/// So it is for each shaper without an order of marks of its own, where no sequence is longer than
/// 32 marks.
pub fn sequences_law()
    ensures { SequencesNormalizeEquivalently }
{}

/// So it is with Unicode's tables for each shaper, where Khmer finds no split vowel. The order of marks
/// of Arabic and Hebrew keeps a text equivalent, but behind it a mark may compose over another one of
/// its class.
pub fn shapers_law()
    ensures ordered { ShapersNormalizeEquivalently }
    ensures short { ShapersKeepTexts }
{}

/// A text that is composed or decomposed as the font and the shaper want it stays: each glyph gets
/// its number, and nothing else.
pub fn staying_law()
    ensures { TextsInFormStay }
{}

/// What `shape` and `prepare_text` normalize is plain, if the text has no variation selector and its
/// shaper's preprocessing makes no character out of a mark with a class: a circle in Hangul and in
/// Sinhala, a private use form in Thai. So these laws hold of it; and from left to right it is the
/// text itself, where no shaper rewrites it.
pub fn prepared_law()
    ensures handed_over { TextsAreHandedOver }
    ensures plain { PreparedTextsArePlain }
    ensures equivalent { PreparedTextsStayEquivalent }
    ensures short { ShortTextsStayEquivalent }
{}

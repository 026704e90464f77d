//! Laws of Hangul: what the rewriting makes of clusters, and what it spells.
ghost use Rattle.shapers_hangul.specs.HangulLaws.{RewrittenLaw, SpellingLaw};

/// What the rewriting makes of clusters: each glyph is its source where that stood, joined with
/// what belongs to it; no cluster rises, none is new; the cluster law of tones, and exact cuts.
pub fn rewriting_law()
    ensures { RewrittenLaw }
{}

/// What a unit becomes spells what it takes, syllable characters by their jamo; so the result
/// spells the text, tones and circles apart.
pub fn spelling_law()
    ensures { SpellingLaw }
{}

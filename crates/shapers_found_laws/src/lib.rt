//! What holds of the syllables that a grammar finds: the laws that spare other laws a premise about
//! spans. Each function here does nothing, and its contract is the law.
#![tactic(auto)]

ghost use Rattle.std.specs.Prelude.{[], ◌∷◌};
ghost use Rattle.shapers_base.specs.declared.plan.pause.Pause.TheVariants.{ReorderKhmer, ReorderMyanmar, SetupSyllablesKhmer, SetupSyllablesMyanmar};
ghost use Rattle.shapers_found_laws.specs.FoundBorders.{BordersPart, FoundOpensWith};
ghost use Rattle.shapers_found_laws.specs.FoundIndic.{FoundIndicKnows, FoundIndicOpens, FoundIndicSorts, OthersKnow};
ghost use Rattle.shapers_found_laws.specs.FoundPauses.{FoundCirclesSort, FoundPausesSort, FoundStagesKnow};
ghost use Rattle.shapers_found_laws.specs.FoundSyllables.{FoundAtMostOne, FoundKindsKnown, KeptAtMostOne, OpensAsItHas, SetUpAtMostOne};
ghost use Rattle.shapers_found_laws.specs.FoundUniversal.{FoundUniversalOpens, FoundUniversalSorts};
ghost use Rattle.shapers_spans.specs.Indic.{indic_grammar};
ghost use Rattle.shapers_spans.specs.Khmer.{khmer_grammar};
ghost use Rattle.shapers_spans.specs.Myanmar.{myanmar_grammar};
ghost use Rattle.shapers_spans.specs.Universal.{universal_grammar};

use rustybuzz_shapers::shaper::monotone_law;

/// No syllable that a grammar finds has two rephas: Repha in Indic and Khmer, R in the universal
/// shaper. So a set-up leaves it, and whatever moves no glyph and makes none a repha; and no
/// syllable opens with two.
pub fn found_rephas_law()
    ensures indic { FoundAtMostOne indic_grammar 14 }
    ensures khmer { FoundAtMostOne khmer_grammar 14 }
    ensures universal { FoundAtMostOne universal_grammar 18 }
    ensures set_up { SetUpAtMostOne }
    ensures kept { KeptAtMostOne }
    ensures opens { OpensAsItHas }
{}

/// The kinds that a grammar finds are those that its reordering knows, so that no reordering
/// directly behind a set-up by found spans refuses with `UnknownSyllable`.
pub fn found_kinds_law()
    ensures indic { FoundKindsKnown indic_grammar 5 }
    ensures khmer { FoundKindsKnown khmer_grammar 2 }
    ensures myanmar { FoundKindsKnown myanmar_grammar 3 }
    ensures universal { FoundKindsKnown universal_grammar 8 }
{}

/// In the stages of Khmer and of Myanmar, whose set-up finds syllables, with lookups that move no
/// glyph and make none a repha, as single substitutions do: each pause keeps clusters rising or
/// falling, and so do the circles of the reordering, so that the laws of the pipeline need no premise
/// about them; and no pause finds a syllable of unknown kind.
pub fn found_pauses_law()
    ensures khmer { FoundPausesSort SetupSyllablesKhmer ReorderKhmer 14 }
    ensures myanmar { FoundPausesSort SetupSyllablesMyanmar ReorderMyanmar 14 }
    ensures circles_in_khmer { FoundCirclesSort SetupSyllablesKhmer ReorderKhmer 14 }
    ensures circles_in_myanmar { FoundCirclesSort SetupSyllablesMyanmar ReorderMyanmar 14 }
    ensures known_in_khmer { FoundStagesKnow SetupSyllablesKhmer ReorderKhmer 14 }
    ensures known_in_myanmar { FoundStagesKnow SetupSyllablesMyanmar ReorderMyanmar 14 }
{
    monotone_law();
}

/// In the stages of Indic, whose set-up finds syllables: with lookups behind it that give no syllable a
/// repha or an unknown kind, no syllable opens with two rephas where the initial reordering opens
/// circles, so that these keep clusters rising or falling, and no pause finds a syllable of unknown
/// kind. Nor does one of any stages that ask for no kinds, as the universal shaper's.
pub fn found_indic_law()
    ensures opens { FoundIndicOpens }
    ensures sorts { FoundIndicSorts }
    ensures known { FoundIndicKnows }
    ensures others { OthersKnow }
{
    monotone_law();
}

/// In the stages of the universal shaper, whose set-up finds syllables, with a mask of rphf that is
/// its own, and with lookups that give no syllable a repha: no syllable opens with two rephas where
/// the reordering opens circles, although one was recorded, so that each pause keeps clusters rising
/// or falling, and the laws of the pipeline need no premise about it.
pub fn found_universal_law()
    ensures opens { FoundUniversalOpens }
    ensures sorts { FoundUniversalSorts }
{}

/// Where borders of syllables that a grammar finds are those of clusters. A syllable of a known whole
/// kind opens with one of a few categories, letters and their like; so where these begin graphemes,
/// and what opens other syllables does, and neighbours share a cluster only inside a grapheme, each
/// border of spans is one of clusters.
pub fn found_borders_law()
    ensures indic { FoundOpensWith indic_grammar 3 (1 ∷ 2 ∷ 10 ∷ 11 ∷ 14 ∷ 15 ∷ 17 ∷ 18 ∷ []) }
    ensures khmer { FoundOpensWith khmer_grammar 0 (1 ∷ 2 ∷ 10 ∷ 11 ∷ 15 ∷ []) }
    ensures myanmar { FoundOpensWith myanmar_grammar 0 (1 ∷ 2 ∷ 10 ∷ 11 ∷ 15 ∷ 18 ∷ []) }
    ensures universal { FoundOpensWith universal_grammar 6 (0 ∷ 1 ∷ 4 ∷ 5 ∷ 18 ∷ 43 ∷ 49 ∷ 51 ∷ []) }
    ensures part { BordersPart }
{}

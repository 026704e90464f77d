//! The headline, its law of widths, the cut between spans, and the law of breaks.
ghost use Rattle.rustybuzz_shapers.specs.Again.{MasksOnce, PausesOnce};
ghost use Rattle.rustybuzz_shapers.specs.Apart.{HalvesStayApart, HooksMakeNoCluster, PausesMakeNoCluster};
ghost use Rattle.rustybuzz_shapers.specs.Breaks.{TextsBreakAsFlagged};
ghost use Rattle.rustybuzz_shapers.specs.Lengths.{PausesGrow, PreprocessingGrows};
ghost use Rattle.rustybuzz_shapers.specs.Edited.{TextsStayNear};
ghost use Rattle.rustybuzz_shapers.specs.Together.{TextsConcatenate};
ghost use Rattle.shapers_arabic.specs.Breaks.{AsCodeLaw, ExactLaw};
ghost use Rattle.shapers_arabic.specs.Concatenation.{ConcatenationLaw};
ghost use Rattle.shapers_arabic.specs.Edits.{EditsStayNear};
ghost use Rattle.rustybuzz_shapers.specs.Cuts.{IndicIsCutAfterBoth, IsCut, UniversalIsCut};
ghost use Rattle.rustybuzz_shapers.specs.Headline.{ActionsByRule};
ghost use Rattle.rustybuzz_shapers.specs.Monotone.{CirclesStayMonotone, ExactCutsStayMonotone, HangulStaysMonotone, IndicKeepsHalves, MarksStayMonotone, MasksStayMonotone, PausesStayMonotone, StretchStaysMonotone, ThaiStaysMonotone};
ghost use Rattle.rustybuzz_shapers.specs.Pauses.{by_initial, by_khmer, by_myanmar};
ghost use Rattle.shapers_base.specs.declared.plan.pause.Pause.TheVariants.{SetupSyllablesIndic, SetupSyllablesKhmer, SetupSyllablesMyanmar, InitialReordering, ReorderKhmer, ReorderMyanmar};
ghost use Rattle.rustybuzz_shapers.specs.Regrouped.{SyllablesRegrouped};
ghost use Rattle.rustybuzz_shapers.specs.TextCuts.{HangulCuts, ThaiCuts};
ghost use Rattle.rustybuzz_shapers.specs.Stretched.{LineAdvances, StretchesCover};

use shapers_arabic::ot_shaper_arabic::{
    joining_breaks_law, joining_concatenation_law, joining_edits_law,
};
use shapers_indic_final::ot_shaper_indic_final::laws::final_cuts_between_spans;
use shapers_indic_initial::ot_shaper_indic_initial::laws::{
    initial_cuts_between_spans, initial_reorder_laws, order_by_font_reads_no_serials,
};
use shapers_khmer::ot_shaper_khmer::khmer_cuts_between_spans;
use shapers_myanmar::ot_shaper_myanmar::myanmar_cuts_between_spans;
use shapers_universal::ot_shaper_use::universal_cuts_between_spans;

/// The headline, of each call that didn't refuse, from what its contract says. Each Arabic action is
/// the written rule of three joining types, so cut halves whose contexts show the neighbours act as
/// the whole, one leading sequence of selectors apart. Every pause that reorders regroups each
/// syllable by itself. A stretched mark that fits is as wide as its word, or wider by less than one
/// unit per added copy.
#[inline]
pub fn headline()
    ensures actions { ActionsByRule }
    ensures syllables { SyllablesRegrouped }
    ensures widths { StretchesCover }
{
    stretches_cover_law();
}

/// Where a text whose letters join may be broken. A place is clear if no glyph of the greater of the
/// two clusters that meet there is unsafe to break. With the choice Sound the text may be broken at
/// every clear place, as the code has it where what Sound adds doesn't reach over it; and with
/// either the first piece keeps its forms there. Where each glyph is a cluster of its own, clusters
/// rise or fall and nothing was flagged before, no flag is needless: none of Sound's for the pieces,
/// none of the code's for the first piece. On lists of joining types: what joining flags by itself
/// are the places where the first half loses a form, and what Sound flags those where either does.
/// With each choice, texts without a flag at their borders may be put together, and edits stay near,
/// on lists of types and in buffers.
#[inline]
pub fn breaks_law()
    ensures texts { TextsBreakAsFlagged }
    ensures as_code { AsCodeLaw }
    ensures exact { ExactLaw }
    ensures concatenation { ConcatenationLaw }
    ensures edits { EditsStayNear }
    ensures texts_together { TextsConcatenate }
    ensures texts_edited { TextsStayNear }
{
    joining_breaks_law();
    joining_concatenation_law();
    joining_edits_law();
}

/// What postprocessing makes of an Arabic text is its parts, one after another, each with its
/// sequence of tiles laid: as wide as the numbers of the sequence say, and where the repeating
/// tiles have a width and fit into what the fixed ones leave, as the word, or wider by less than
/// one unit for each added copy. The line gets narrower by the tiles alone, since their copies have
/// no advance.
pub fn stretches_cover_law()
    ensures cover { StretchesCover }
    ensures line { LineAdvances }
{}

/// For each shaper of syllables a set-up and the reorderings that run directly after it, cut between
/// any two spans, give what they give on the halves, one after the other; clusters too where the
/// halves share none. The halves' bytes may have other serials.
#[inline]
pub fn cuts_at_borders_law()
    ensures khmer { IsCut SetupSyllablesKhmer ReorderKhmer by_khmer }
    ensures myanmar { IsCut SetupSyllablesMyanmar ReorderMyanmar (λ plan. by_myanmar) }
    ensures universal { UniversalIsCut }
    ensures initial { IsCut SetupSyllablesIndic InitialReordering by_initial }
    ensures both { IndicIsCutAfterBoth }
{
    khmer_cuts_between_spans();
    myanmar_cuts_between_spans();
    universal_cuts_between_spans();
    initial_cuts_between_spans();
    initial_reorder_laws();
    order_by_font_reads_no_serials();
    final_cuts_between_spans();
}

/// Every pause that reorders makes of each syllable by itself what its definition says, of that
/// syllable, the plan, the font and the buffer's script alone, but for the mask of `init`, which
/// also looks at the glyph before; and it loses no glyph.
pub fn syllables_regrouped_law()
    ensures { SyllablesRegrouped }
{}

/// Clusters that rise along the text before rise after it, and those that fall fall, at the levels
/// that merge: after each hook, and after every pause but the reorderings of Indic, of the text with
/// the circles that the pause opens; and circles leave them so, where no syllable begins with two
/// rephas. The reorderings of Indic leave them so across the borders of syllables: halves that share
/// no cluster keep to their own.
pub fn monotone_law()
    ensures pauses { PausesStayMonotone }
    ensures thai { ThaiStaysMonotone }
    ensures hangul { HangulStaysMonotone }
    ensures stretch { StretchStaysMonotone }
    ensures marks { MarksStayMonotone }
    ensures masks { MasksStayMonotone }
    ensures indic { IndicKeepsHalves }
    ensures circles { CirclesStayMonotone }
    ensures exact { ExactCutsStayMonotone }
{}

/// How long a text gets: by preprocessing for Thai and Lao one longer for each SARA AM, for Hangul at
/// most three times as long; by a pause one longer for each broken syllable, where circles are
/// opened. `hb_ot_shaper_t::length_bound` is room enough.
pub fn lengths_law()
    ensures preprocessing { PreprocessingGrows }
    ensures pauses { PausesGrow }
{}

/// What hooks and pauses make of two halves of a text that share no cluster shares none, since none
/// of them makes a cluster.
pub fn apart_law()
    ensures hooks { HooksMakeNoCluster }
    ensures pauses { PausesMakeNoCluster }
    ensures halves { HalvesStayApart }
{}

/// What changes nothing when it is done again at once: the pauses that set syllables by spans alone,
/// and those that record what a lookup did, or clear it; setting masks, but for Arabic and the
/// universal shaper.
pub fn again_law()
    ensures pauses { PausesOnce }
    ensures masks { MasksOnce }
{}

/// A Thai or Lao text cut before a glyph that is no above-base mark and no SARA AM (where private use
/// forms follow, before no mark either) is preprocessed as its halves are, one after the other; so is
/// a Hangul text that is cut between two items. Clusters too where the halves share none.
pub fn text_cuts_law()
    ensures thai { ThaiCuts }
    ensures hangul { HangulCuts }
{}

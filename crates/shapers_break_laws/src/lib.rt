//! Where a text may be broken once its hooks and pauses have run: the laws of clear places. Each
//! function here does nothing, and its contract is the law.
#![tactic(auto)]

ghost use Rattle.rustybuzz_shapers.specs.Pauses.{by_khmer, by_myanmar};
ghost use Rattle.shapers_base.specs.declared.plan.pause.Pause.TheVariants.{ReorderKhmer, ReorderMyanmar, SetupSyllablesKhmer, SetupSyllablesMyanmar};
ghost use Rattle.shapers_break_laws.specs.ChainBreaks.{ChainBreaksBy, InitialChainBreaks};
ghost use Rattle.shapers_break_laws.specs.ClearSteps.{ClearBeforeLaw};
ghost use Rattle.shapers_break_laws.specs.FinalBreaks.{FinalTextBreaks};
ghost use Rattle.shapers_break_laws.specs.HangulBreaks.{HangulBreaksLaw};
ghost use Rattle.shapers_break_laws.specs.HangulSound.{HangulSoundBreaksLaw};
ghost use Rattle.shapers_break_laws.specs.IndicBreaks.{InitialPausesBreak, InitialTextBreaks};
ghost use Rattle.shapers_break_laws.specs.IndicChain.{IndicChainBreaks, IndicPausesBreak, InitialReorderedApart};
ghost use Rattle.shapers_break_laws.specs.KeptFlags.{AddedFlagsClearNone, PausesClearNone};
ghost use Rattle.shapers_break_laws.specs.MarkBreaks.{MarksBreakLaw};
ghost use Rattle.shapers_break_laws.specs.PauseBreaks.{PausesBreakLaw};
ghost use Rattle.shapers_break_laws.specs.ScriptBreaks.{MyanmarHasNoRepha, PausesBreakBy, UniversalPausesBreak};
ghost use Rattle.shapers_break_laws.specs.Setup.{SetupBreaksLaw};
ghost use Rattle.shapers_break_laws.specs.ShaperBreaks.{LeavePiecesEach, MasksLeavePieces, PausesAreListed, PausesLeavePieces, ShapersBreakLaw};
ghost use Rattle.shapers_break_laws.specs.StretchBreaks.{StretchBreaksLaw};
ghost use Rattle.shapers_break_laws.specs.ThaiBreaks.{SaraAmsBreakLaw, ThaiFormsBreakLaw};
ghost use Rattle.shapers_break_laws.specs.ThaiSound.{ThaiSoundBreakLaw};
ghost use Rattle.shapers_break_laws.specs.BetweenPauses.{BetweenPausesLaw, LeavesHalvesThen};
ghost use Rattle.shapers_break_laws.specs.NeedlessForms.{NoFormFlagIsNeedless};
ghost use Rattle.shapers_break_laws.specs.UniversalChain.{UniversalChainBreaks, UniversalSoundChainBreaks, UniversalSoundPausesBreak};
ghost use Rattle.shapers_break_laws.specs.UniversalSound.{UniversalSoundBreaks};
ghost use Rattle.shapers_break_laws.specs.KeptTextBreaks.{KeptTextBreaksApartLaw, KeptTextBreaksLaw};

use shapers_indic_final::ot_shaper_indic_final::laws::{final_reorder_laws, final_text_laws};
use shapers_indic_initial::ot_shaper_indic_initial::laws::{
    initial_reorder_laws, order_by_font_reads_no_serials,
};
use shapers_khmer::ot_shaper_khmer::{khmer_reads_no_serials, khmer_reorder_laws};
use shapers_myanmar::ot_shaper_myanmar::{myanmar_reads_no_serials, myanmar_reorder_laws};
use shapers_universal::ot_shaper_use::{
    universal_cuts_between_spans, universal_reads_no_serials, universal_reorder_laws,
};

/// Reordering moves no clear place to where none was: a place that is clear after steps that move
/// only inside what they merged was clear before them.
pub fn clear_before_law()
    ensures { ClearBeforeLaw }
{}

/// A set-up by spans flags all places inside them, so that a clear place is a border of spans, and
/// the text may be broken there.
pub fn setup_breaks_law()
    ensures { SetupBreaksLaw }
{}

/// A set-up and a reordering directly after it, whatever circles open between, may be broken at
/// every clear place: it is a border of two spans.
pub fn pauses_break_law()
    ensures { PausesBreakLaw }
{}

/// Where clusters rise or fall along the text, at the levels that merge, the set-up and the
/// reordering of Khmer, of Myanmar and of the universal shaper may be broken at every clear place, in
/// the universal one masks of forms apart. Where circles open behind rephas no syllable may open with
/// two of these; Myanmar has none.
pub fn script_breaks_law()
    ensures khmer { PausesBreakBy SetupSyllablesKhmer ReorderKhmer by_khmer }
    ensures myanmar { PausesBreakBy SetupSyllablesMyanmar ReorderMyanmar (λ plan. by_myanmar) }
    ensures myanmar_rephas { MyanmarHasNoRepha }
    ensures universal { UniversalPausesBreak }
{
    khmer_reorder_laws();
    khmer_reads_no_serials();
    myanmar_reorder_laws();
    myanmar_reads_no_serials();
    universal_reorder_laws();
    universal_cuts_between_spans();
}

/// Where letters don't join, the set-up of the universal shaper with `Sound` may be broken at every
/// clear place, masks of forms included, whatever the clusters.
pub fn universal_sound_breaks_law()
    ensures { UniversalSoundBreaks }
{}

/// A text whose marks a shaper reordered may be broken at every clear place, where no place within
/// their run was clear before: each half is what it is by itself, glyph for glyph.
pub fn marks_break_law()
    ensures { MarksBreakLaw }
{}

/// Flags that forbid a break outlive what comes later: a place that is clear after masks are set, or
/// after a pause, was clear before; of pauses that reorder, where clusters rise or fall, at the levels
/// that merge. Nothing is said of the reorderings of Indic.
pub fn kept_flags_law()
    ensures masks { AddedFlagsClearNone }
    ensures pauses { PausesClearNone }
{
    khmer_reorder_laws();
    myanmar_reorder_laws();
    universal_reorder_laws();
}

/// A Thai or Lao text that was preprocessed may be broken wherever two clusters meet, where clusters
/// rise or fall, at the levels that merge; with private use forms where each mark is in the cluster of
/// the glyph before it once the SARA AMs are in two; with these and `Sound`, at every clear place.
pub fn thai_breaks_law()
    ensures sara_ams { SaraAmsBreakLaw }
    ensures forms { ThaiFormsBreakLaw }
    ensures sound { ThaiSoundBreakLaw }
{}

/// A Hangul text that was preprocessed may be broken wherever two clusters meet, where clusters are
/// whole graphemes and rise or fall, and each tone without width is in the cluster of the glyph
/// before it. With all flags of `Sound` it may be broken at every clear place, where clusters rise or
/// fall, at the levels that merge.
pub fn hangul_breaks_law()
    ensures graphemes { HangulBreaksLaw }
    ensures sound { HangulSoundBreaksLaw }
{}

/// A text whose marks were stretched may be broken at every clear place, where clusters rise or fall:
/// each half is what it is by itself, glyph for glyph, with its positions.
pub fn stretch_breaks_law()
    ensures { StretchBreaksLaw }
{}

/// A pause that moves only inside what it merged may be broken at every clear place of what it makes
/// of a text, whatever made the text what it is: where syllables kept the flags that forbid a break
/// inside them, and clusters rise or fall, or syllables share none, at the levels that merge.
pub fn kept_text_breaks_law()
    ensures monotone { KeptTextBreaksLaw }
    ensures apart { KeptTextBreaksApartLaw }
{}

/// Where each border of spans is one of clusters, the set-up and the initial reordering of Indic may
/// be broken at every clear place, in Kannada if H and ZWJ share a cluster; and so may the initial
/// reordering of any text whose syllables kept their flags and share no cluster.
pub fn initial_breaks_law()
    ensures pauses { InitialPausesBreak }
    ensures text { InitialTextBreaks }
{
    initial_reorder_laws();
    order_by_font_reads_no_serials();
}

/// The same with lookups between the set-up and the reordering that leave the halves' results side
/// by side and take no flag from a glyph: each half is set up, given to the same lookups and
/// reordered by itself.
pub fn chain_breaks_law()
    ensures khmer { ChainBreaksBy SetupSyllablesKhmer ReorderKhmer by_khmer }
    ensures myanmar { ChainBreaksBy SetupSyllablesMyanmar ReorderMyanmar (λ plan. by_myanmar) }
    ensures initial { InitialChainBreaks }
{
    khmer_reorder_laws();
    khmer_reads_no_serials();
    myanmar_reorder_laws();
    myanmar_reads_no_serials();
    initial_reorder_laws();
    order_by_font_reads_no_serials();
}

/// The final reordering of Indic may be broken at every clear place, of any text whose syllables
/// kept their flags and share no cluster, where in each at most one left matra moves or there are at
/// most two clusters.
pub fn final_breaks_law()
    ensures { FinalTextBreaks }
{
    final_reorder_laws();
    final_text_laws();
}

/// With `Sound`, where letters don't join, the set-up and the reordering of the universal shaper may
/// be broken at every clear place, masks of forms included; and so with lookups in between that
/// leave results side by side where these are clear. With either choice and such lookups that read
/// no masks of forms it may be broken, these masks apart.
pub fn universal_chain_breaks_law()
    ensures sound { UniversalSoundPausesBreak }
    ensures sound_chain { UniversalSoundChainBreaks }
    ensures chain { UniversalChainBreaks }
{
    universal_reorder_laws();
    universal_reads_no_serials();
}

/// Where letters don't join, no flag that `Sound` adds to the set-up of the universal shaper is
/// needless: inside such a stretch it can't be broken, a half would take another form.
pub fn needless_forms_law()
    ensures { NoFormFlagIsNeedless }
{}

/// The pauses between the set-up and the reordering of the universal shaper are as these laws
/// require of lookups, and so are several one after the other.
pub fn between_pauses_law()
    ensures pauses { BetweenPausesLaw }
    ensures several { LeavesHalvesThen }
{}

/// The set-up of Indic and both reorderings may be broken at every clear place, with lookups in
/// between that leave the halves' results side by side: where syllables share no cluster before
/// either reordering, and before the final one kept their flags and are as it requires. Directly
/// behind one another, where clusters rise or fall, syllables of two clusters require no more than
/// that each border of spans is one of clusters.
pub fn indic_breaks_law()
    ensures chain { IndicChainBreaks }
    ensures pauses { IndicPausesBreak }
    ensures initial { InitialReorderedApart }
{
    initial_reorder_laws();
    order_by_font_reads_no_serials();
    final_reorder_laws();
    final_text_laws();
}

/// Each shaper's text may be broken at every clear place: what becomes of each piece by itself is what
/// became of it in the text. Pauses that change glyph by glyph leave the pieces' results side by side,
/// and so does one such thing behind another. The law is of the whole chain of a shaper's hooks and
/// pauses, those of its own lists, with anything in between that leaves results so, and such things
/// behind them, but behind Indic's final reordering and the universal one.
pub fn shapers_break_law()
    ensures laws { ShapersBreakLaw }
    ensures pauses { PausesAreListed }
    ensures masks { MasksLeavePieces }
    ensures by_glyph { PausesLeavePieces }
    ensures in_turn { LeavePiecesEach }
{
    khmer_reorder_laws();
    khmer_reads_no_serials();
    myanmar_reorder_laws();
    myanmar_reads_no_serials();
    initial_reorder_laws();
    order_by_font_reads_no_serials();
    script_breaks_law();
    universal_chain_breaks_law();
    indic_breaks_law();
}

//! The laws of clusters and glyph flags: what merges and moves do to any list of glyphs. Each
//! function here does nothing, and its contract is the law.
#![tactic(auto)]

ghost use Rattle.shapers_clusters.specs.Borders.{BareLaw};
ghost use Rattle.shapers_clusters.specs.Breaks.{ClearLaw, NeedlessLaw};
ghost use Rattle.shapers_clusters.specs.Laws.{ViewLaw, FlagCallsLaw, MergeLaw, ExactCutsLaw, StepsLaw, PermutedLaw, ClustersLaw, MergedStepsLaw, SparedStepsLaw, ClustersReorderedLaw, SeenStepsLaw, ReorderedLaw, WidenedLaw, AlongLaw, HalvesLaw, AloneLaw, MadeLaw, MovedSourcesLaw};

pub mod carried_groups;
pub mod floods;

/// Merges leave the order view; the three flag calls change nothing but glyph flags.
pub fn view_law()
    ensures { ViewLaw }
{}

/// Flag calls of all three kinds, one after another, change nothing but glyph flags and take none
/// away.
pub fn flag_calls_law()
    ensures { FlagCallsLaw }
{}

/// What one merge of clusters does to any glyphs.
pub fn merge_law()
    ensures { MergeLaw }
{}

/// Exact cuts: where clusters never decrease, or never increase, merges leave exactly the cuts that
/// no merged stretch holds, and each place gets the least cluster of its block.
pub fn exact_cuts_law()
    ensures { ExactCutsLaw }
{}

/// What merges and moves, in any order, do to any glyphs: order view, clusters and flags.
pub fn steps_law()
    ensures { StepsLaw }
{}

/// Moves that take each place once lose no glyph.
pub fn permuted_law()
    ensures { PermutedLaw }
{}

/// What merges and moves, in any order, do to any clusters: none is new, and labels are respected.
pub fn clusters_law()
    ensures { ClustersLaw }
{}

/// Moves inside merged stretches leave the merged clusters in place: the cluster law and exact
/// cuts.
pub fn merged_steps_law()
    ensures { MergedStepsLaw }
{}

/// Moves that leave what merged before them, or move inside what they merge: each merged stretch is
/// in one cluster in the end, and exact cuts where all clusters are different.
pub fn spared_steps_law()
    ensures { SparedStepsLaw }
{}

/// What a hook that reorders makes of the clusters: none is new, labels, exact cuts and the cluster
/// law.
pub fn clusters_reordered_law()
    ensures { ClustersReorderedLaw }
{}

/// The laws of steps through a view that hides what else a hook changes.
pub fn seen_steps_law()
    ensures { SeenStepsLaw }
{}

/// What a hook that reorders promises, whatever else it changes: no glyph is lost, flags, clusters,
/// exact cuts and the cluster law.
pub fn reordered_law()
    ensures { ReorderedLaw }
{}

/// Steps over a stretch of places are steps over all places.
pub fn widened_law()
    ensures { WidenedLaw }
{}

/// Steps of neighbouring stretches, one after another, are steps over all places.
pub fn along_law()
    ensures { AlongLaw }
{}

/// Two halves of a text that share no cluster merge and move each for itself.
pub fn halves_law()
    ensures { HalvesLaw }
{}

/// A stretch of a text whose clusters no place elsewhere has merges and moves as by itself.
pub fn alone_law()
    ensures { AloneLaw }
{}

/// Made and dropped glyphs: exact cuts, flags and old clusters seen through each glyph's source.
pub fn made_law()
    ensures { MadeLaw }
{}

/// Made glyphs that move inside merged stretches: the cluster law.
pub fn moved_sources_law()
    ensures { MovedSourcesLaw }
{}

/// At a clear place no flag call forbids a break.
pub fn clear_law()
    ensures { ClearLaw }
{}

/// Where each glyph is a cluster of its own and clusters rise or fall, a place that no flag call
/// forbids is clear.
pub fn needless_law()
    ensures { NeedlessLaw }
{}

/// At a bare border no flag call forbids a break or a concatenation.
pub fn bare_law()
    ensures { BareLaw }
{}

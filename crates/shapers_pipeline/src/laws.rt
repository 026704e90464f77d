//! Laws: of the order of marks that normalization takes from the shapers, and of the whole, what
//! becomes of a text's clusters.
ghost use Rattle.shapers_pipeline.specs.ClusterLaws.{PreparationKeepsClusters, StagesKeepClusters};
ghost use Rattle.shapers_pipeline.specs.NormalizeLaws.{ShapersOrderAlone, ShapersOrderMonotone};
ghost use Rattle.shapers_pipeline.specs.ShapeLaws.{FinishKeepsClusters, ShapingKeepsClusters};

use rustybuzz_shapers::shaper::{apart_law, monotone_law};
use shapers_normal::ot_shape_normalize;
use shapers_position::ot_shape_position::{flags_law, hiding_law};
use shapers_prepare::ot_shape_prepare::graphemes_law;

/// From a text's characters to its glyphs with positions each cluster is one that the text had; and
/// at the levels that merge, clusters that rise along the text, or fall, still rise or fall: before
/// the lookups and behind them always, and through the stages where each pause keeps them so. The
/// reorderings of Indic don't for every text, nor does a circle behind two rephas.
pub fn pipeline_clusters_law()
    ensures preparation { PreparationKeepsClusters }
    ensures stages { StagesKeepClusters }
    ensures finish { FinishKeepsClusters }
    ensures whole { ShapingKeepsClusters }
{
    apart_law();
    monotone_law();
    ot_shape_normalize::clusters_law();
    ot_shape_normalize::monotone_law();
    orders_alone_law();
    orders_monotone_law();
    graphemes_law();
    hiding_law();
    flags_law();
}

/// Each shaper's order of marks is as the law of halves requires: with the later rounds in each
/// text, halves are normalized as the whole is, where the second one begins with no mark.
pub fn orders_alone_law()
    ensures { ShapersOrderAlone }
{}

/// Each shaper's order of marks keeps clusters rising, or falling, at the levels that merge; so
/// does normalization.
pub fn orders_monotone_law()
    ensures { ShapersOrderMonotone }
{}

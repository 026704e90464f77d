//! The laws of lookups: each function does nothing, and its contract is the law.
ghost use Rattle.opentype_gsub.specs.Laws.{ClusterLaw, GrowthLaw, OthersLaw};

/// A lookup changes the glyphs of a buffer alone.
pub fn others_law()
    ensures { OthersLaw }
{}

/// A lookup, by any bytes, makes no new cluster, and clusters that rise or fall along the text still
/// do.
pub fn cluster_law()
    ensures { ClusterLaw }
{}

/// A lookup makes a text at most `growth` times as long.
pub fn growth_law()
    ensures { GrowthLaw }
{}

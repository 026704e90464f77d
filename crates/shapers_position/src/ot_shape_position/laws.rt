//! Laws of positions, of ignorable glyphs that are hidden or go, and of flags that clusters share.
ghost use Rattle.shapers_position.specs.Laws.{DrawnLaw, FlagsLaw, OneFlagTells, OneGlyphTells, PositionsLaw, RemovalLaw};

/// What `zero_mark_widths`, `zero_width_default_ignorables` and `set_space_widths` make of any
/// positions: as many, each changed by its own glyph alone.
pub fn positions_law()
    ensures { PositionsLaw }
{}

/// What `hide_default_ignorables` makes of any glyphs. Where the ignorable ones are drawn by
/// another glyph, they keep all but their number. Where they go, it leaves the others in their
/// order, with their positions, in clusters that were there; where these rise, or fall, they still
/// do.
pub fn hiding_law()
    ensures drawn { DrawnLaw }
    ensures removed { RemovalLaw }
{}

/// What `propagate_flags` makes of any glyphs: nothing but glyph flags changes, those of a cluster
/// are alike, a second time changes nothing unless tatweels are wanted, and one glyph tells whether
/// a line may be broken beside it.
pub fn flags_law()
    ensures shared { FlagsLaw }
    ensures one_glyph { OneGlyphTells }
    ensures one_flag { OneFlagTells }
{}

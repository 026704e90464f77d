//! The laws of lookups: each function does nothing, and its contract is the law.
ghost use Rattle.opentype_gpos.specs.Laws.{FinishLaw, InsideLaw, KernLaw, MarkLaw, PositionLaw};

/// A lookup, by any bytes, changes positions and glyph flags alone, and there are as many of them.
pub fn position_law()
    ensures { PositionLaw }
{}

/// So does the table `kern`.
pub fn kern_law()
    ensures { KernLaw }
{}

/// So does the placing of marks without GPOS, in any font.
pub fn mark_law()
    ensures { MarkLaw }
{}

/// So do attachments, behind the last lookup.
pub fn finish_law()
    ensures { FinishLaw }
{}

/// Every attachment that a lookup makes points inside the text.
pub fn inside_law()
    ensures { InsideLaw }
{}

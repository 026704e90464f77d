//! What the lookups of a font's GPOS leave of the positions of a text's pieces: laws.
ghost use Rattle.opentype_break_laws.specs.FontPositions.{FontLookupsLeavePositions, FontPositionsBreak, FontRunsLeavePositions, FontStagesBreak, ShortTextsMoveByPieces, SinglesMoveByPieces};
ghost use Rattle.opentype_break_laws.specs.Marks.{FontMarksLeavePositions, ShortTextsTakeMarks};
ghost use Rattle.opentype_break_laws.specs.Pairs.{ShortTextsTakePairs};

use shapers_editing::pipeline_breaks_law;

/// A lookup of a font that adjusts single glyphs (type 1), and a lookup of any type that begins at no
/// glyph of the text, leaves the positions of the text's pieces side by side. One of pairs (type 2)
/// does so in texts that take pairs, as each text does of at most 255 glyphs of which none is
/// ignorable. So do such lookups one after another; and a text that is positioned by them may be
/// broken at every clear place, from its advances on and up to attachments, before it is turned to
/// its drawing order. So may one that lookups of the font substitute in stages before. A lookup that
/// attaches marks to bases (type 4) leaves positions so in texts that take marks, as each text does of
/// at most 255 glyphs of which none is of a ligature's component; this is of the lookup by itself.
pub fn font_positions_law()
    ensures lookups { FontLookupsLeavePositions }
    ensures runs { FontRunsLeavePositions }
    ensures singles { SinglesMoveByPieces }
    ensures pairs { ShortTextsTakePairs }
    ensures short { ShortTextsMoveByPieces }
    ensures marks { FontMarksLeavePositions }
    ensures short_marks { ShortTextsTakeMarks }
    ensures texts { FontPositionsBreak }
    ensures stages { FontStagesBreak }
{
    pipeline_breaks_law();
}

//! A face, with tables that are made of it once.
ghost use Rattle.std.specs.Prelude.{◌≡◌};
ghost use Rattle.opentype_face.specs.Characters.{nominal_in};
ghost use Rattle.opentype_face.specs.ClassTables.{props_if_any};

use crate::tables::{LayoutTable, PreparedTable};
use opentype_face::character_table::{CharacterTable, PreparedCharacters};
use opentype_face::class_table::{ClassTable, PreparedClasses};
use opentype_face::face::Face;
use std::alloc::Global;

/// How many pages of 256 characters have tables at most: these take 128 KiB.
const MOST_PAGES: u16 = 256;

/// How many bytes a face's tables may take in any font.
const LEAST_BUDGET: usize = 0x8_0000;

/// A face, with the tables that were made of it, if some were.
#[derive(Debug, Drop)]
pub struct FaceTables<'a> {
    /// The face.
    pub face: Face<'a>,
    characters: CharacterTable<'a>,
    classes: ClassTable<'a>,
    gsub: LayoutTable<'a>,
    gpos: LayoutTable<'a>,
    ghost encoding_fits: { characters.characters.encoding ≡ face.characters.encoding },
    ghost subtable_fits: { characters.characters.subtable.now ≡ face.characters.subtable.now },
    ghost gdef_fits: { classes.gdef.now ≡ face.gdef.now },
    ghost gsub_fits: { gsub ≡ face.gsub.now },
    ghost gpos_fits: { gpos ≡ face.gpos.now },
}

impl<'a> FaceTables<'a> {
    /// A face alone.
    pub fn of(face: &Face<'a>) -> Self
        ensures { result.face ≡ face.now }
    {
        FaceTables {
            face: *face,
            characters: CharacterTable::of(face.characters),
            classes: ClassTable::of(face.gdef),
            gsub: LayoutTable::of(face.gsub),
            gpos: LayoutTable::of(face.gpos),
        }
    }

    /// The glyph of a character.
    #[inline]
    pub fn get_nominal_glyph(&self, c: u32) -> Option<u16>
        ensures { let it = self.now.face.characters in
            result ≡ nominal_in it.encoding it.subtable.now c }
    {
        self.characters.get_nominal_glyph(c)
    }

    /// The class of a glyph as lookups keep it, in a font that has classes.
    #[inline]
    pub fn glyph_props(&self, glyph: u16) -> Option<u16>
        ensures { result ≡ props_if_any self.now.face.gdef.now glyph }
    {
        self.classes.glyph_props(glyph)
    }

    /// GDEF, with its classes.
    #[inline]
    pub fn classes(&self) -> &ClassTable<'a>
        ensures { result.now.gdef.now ≡ self.now.face.gdef.now }
    {
        &self.classes
    }

    /// GSUB.
    #[inline]
    pub fn gsub(&self) -> &LayoutTable<'a>
        ensures { result.now ≡ self.now.face.gsub.now }
    {
        &self.gsub
    }

    /// GPOS.
    #[inline]
    pub fn gpos(&self) -> &LayoutTable<'a>
        ensures { result.now ≡ self.now.face.gpos.now }
    {
        &self.gpos
    }
}

/// A face, with tables that were made of it.
#[derive(Debug, Drop)]
pub struct PreparedFace<'a> {
    /// The face.
    pub face: Face<'a>,
    characters: PreparedCharacters<'a>,
    classes: PreparedClasses<'a>,
    gsub: PreparedTable<'a>,
    gpos: PreparedTable<'a>,
    ghost encoding_fits: { characters.characters.encoding ≡ face.characters.encoding },
    ghost subtable_fits: { characters.characters.subtable.now ≡ face.characters.subtable.now },
    ghost gdef_fits: { classes.gdef.now ≡ face.gdef.now },
    ghost gsub_fits: { gsub ≡ face.gsub.now },
    ghost gpos_fits: { gpos ≡ face.gpos.now },
}

impl<'a> PreparedFace<'a> {
    /// Makes tables of a face's characters, classes and lookups, of 512 KiB at most, or of half as many
    /// bytes as the font's file has, where that is more. What they have no room for is searched in the
    /// font's bytes. Where memory is refused there are fewer or none.
    pub fn new(alloc: Global, face: &Face<'a>, file_len: usize) -> Self
        ensures { result.face ≡ face.now }
    {
        let mut budget = (file_len / 2).max(LEAST_BUDGET);
        let characters = PreparedCharacters::new(face.characters, MOST_PAGES, alloc, &mut budget);
        let classes = PreparedClasses::new(face.gdef, face.glyph_count(), alloc, &mut budget);
        // (GPOS has half of it, so that large tables of GSUB leave room for its bits)
        let mut share = budget / 2;
        let gpos = PreparedTable::new(alloc, true, face.gpos, &mut share);
        budget = budget.saturating_sub(budget / 2).saturating_add(share);
        let gsub = PreparedTable::new(alloc, false, face.gsub, &mut budget);
        PreparedFace {
            face: *face,
            characters,
            classes,
            gsub,
            gpos,
        }
    }

    /// The face with these tables.
    #[inline]
    pub fn tables(&self) -> FaceTables<'_>
        ensures { result.face ≡ self.now.face }
    {
        FaceTables {
            face: self.face,
            characters: self.characters.table(),
            classes: self.classes.table(),
            gsub: self.gsub.table(),
            gpos: self.gpos.table(),
        }
    }
}

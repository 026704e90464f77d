//! The glyphs of characters, by tables that are made once.
ghost use Rattle.std.specs.Prelude.{◌≡◌, ◌≤◌, length, IfOk};
ghost use Rattle.opentype_face.specs.Characters.{nominal_in};
ghost use Rattle.opentype_face.specs.CharacterTables.{TellsCharacters};

use crate::character_pages::{fill, mark_pages};
use crate::characters::Characters;
use std::alloc::{AllocError, Global};

/// How many pages the characters up to U+1FFFF have.
const PAGE_COUNT: usize = 512;

/// How many bytes a page takes.
const PAGE_SIZE: usize = 512;

/// The subtable of `cmap`, with the glyphs of some pages of 256 characters beside it.
#[derive(Clone, Copy, Debug)]
pub struct CharacterTable<'a> {
    /// The subtable and what its characters are.
    pub characters: Characters<'a>,
    pages: &'a [u16],
    glyphs: &'a [u16],
    ghost tells: { TellsCharacters characters.encoding characters.subtable.now pages.now glyphs.now },
}

impl<'a> CharacterTable<'a> {
    /// The subtable alone.
    pub fn of(characters: Characters<'a>) -> Self
        ensures { result.characters ≡ characters.entry }
    {
        CharacterTable {
            characters,
            pages: &[],
            glyphs: &[],
        }
    }

    /// The glyph of a character, without a search where the tables have its page.
    #[inline]
    pub fn get_nominal_glyph(&self, c: u32) -> Option<u16>
        ensures { let it = self.now.characters in result ≡ nominal_in it.encoding it.subtable.now c }
    {
        let (page, at) = (c as usize / 256, c as usize % 256);
        if page < self.pages.len() {
            let place = usize::from(self.pages[page]) * 256 + at;
            if place < self.glyphs.len() {
                let glyph = self.glyphs[place];
                return if glyph == 0 { None } else { Some(glyph) };
            }
        }
        self.characters.get_nominal_glyph(c)
    }
}

/// The subtable of `cmap`, with tables of some pages that were made of it.
#[derive(Debug, Drop)]
pub struct PreparedCharacters<'a> {
    /// The subtable and what its characters are.
    pub characters: Characters<'a>,
    pages: Vec<u16>,
    glyphs: Vec<u16>,
    ghost tells: { TellsCharacters characters.encoding characters.subtable.now pages.items glyphs.items },
}

// How many of the marked pages get tables: so many at most, if a budget pays for them.
fn count_of_pages(marks: &[bool], most_pages: u16, budget: usize) -> u16
    ensures { result ≤ most_pages }
{
    let marked = marks.iter().filter(|mark| **mark).count();
    let paid = marked.min(budget / PAGE_SIZE);
    paid.min(usize::from(most_pages)) as u16
}

// The numbers of pages that have tables, and the glyphs of these.
#[derive(Debug, Drop)]
struct PageTables {
    pages: Vec<u16>,
    glyphs: Vec<u16>,
}

// Tables of the pages that are marked, of so many at most.
fn tables_of_pages(
    characters: &Characters<'_>,
    marks: &[bool],
    most_pages: u16,
    alloc: Global,
) -> Result<PageTables, AllocError>
    requires { length marks.now ≤ 4352 }
    ensures { let it = characters.now in IfOk result (λ tables.
        TellsCharacters it.encoding it.subtable.now tables.pages.items tables.glyphs.items) }
{
    let mut pages = Vec::with_capacity(alloc, marks.len())?;
    let mut glyphs = Vec::with_capacity(alloc, usize::from(most_pages) * 256)?;
    fill(characters, marks, most_pages, &mut pages, &mut glyphs)?;
    Ok(PageTables { pages, glyphs })
}

impl<'a> PreparedCharacters<'a> {
    /// Makes tables of the pages up to U+1FFFF that have characters, of so many at most. Each takes 512 bytes,
    /// for which a budget pays, and 256 searches. Where memory is refused there are none.
    pub fn new(
        characters: Characters<'a>,
        most_pages: u16,
        alloc: Global,
        budget: &mut usize,
    ) -> Self
        ensures { result.characters ≡ characters.entry }
    {
        let mut marks = [false; PAGE_COUNT];
        mark_pages(characters.subtable, &mut marks);
        let count = count_of_pages(&marks, most_pages, *budget);
        match tables_of_pages(&characters, &marks, count, alloc) {
            Ok(PageTables { pages, glyphs }) => {
                *budget = budget.saturating_sub(usize::from(count) * PAGE_SIZE + PAGE_COUNT * 2);
                PreparedCharacters {
                    characters,
                    pages,
                    glyphs,
                }
            }
            Err(_) => PreparedCharacters {
                characters,
                pages: Vec::new(alloc),
                glyphs: Vec::new(alloc),
            },
        }
    }

    /// The subtable with these tables.
    #[inline]
    pub fn table(&self) -> CharacterTable<'_>
        ensures { result.characters ≡ self.now.characters }
    {
        CharacterTable {
            characters: self.characters,
            pages: self.pages.as_slice(),
            glyphs: self.glyphs.as_slice(),
        }
    }
}

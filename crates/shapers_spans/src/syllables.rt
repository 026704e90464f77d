//! The syllables of a text, written into its glyphs.
ghost use Rattle.std.specs.Prelude.{◌≡◌, ◌+◌, ◌*◌, ◌%◌, ◌<◌, ◌≤◌, length, map, ℕ};
ghost use Rattle.shapers_buffer.specs.Clusters.{with_stretch};
ghost use Rattle.shapers_buffer.specs.Syllables.{in_syllable};
ghost use Rattle.shapers_spans.specs.Grammar.{lead_spans};
ghost use Rattle.shapers_spans.specs.Written.{AreInSyllables};

use crate::finding::{Joiners, first_span};
use crate::machine::Machine;
use crate::reads::Reads;
use shapers_base::buffer::{GlyphWalk, hb_buffer_t, hb_glyph_info_t, set_syllable};
use std::marker::Brand;
use std::sync::ledger::{Blank, Ledger};

/// Finds the syllables of the buffer's text, by a machine, and gives each glyph the byte of its own.
/// It takes no memory.
#[inline]
pub fn find_syllables_in<M: Machine>(machine: &M, buffer: &mut hb_buffer_t)
    ensures found { AreInSyllables (M.grammar machine.now) buffer.old.glyphs buffer.new.glyphs }
    ensures others { buffer.new ≡ record buffer.old { glyphs = buffer.new.glyphs } }
{
    buffer.walk(&mut FindSyllables { machine });
}

// The walk that finds syllables.
#[derive(Clone, Copy)]
struct FindSyllables<'a, M: Machine> {
    machine: &'a M,
}

impl<'a, M: Machine> GlyphWalk for FindSyllables<'a, M> {
    ghost use Rattle.std.specs.Prelude.{⊤};
    ghost use Rattle.shapers_spans.specs.Written.{AreInSyllables};

    ghost can_walk = { λ _ _. ⊤ };

    ghost walks = { λ walk _ old new. AreInSyllables (M.grammar walk.machine.now) old new };

    #[inline]
    fn walk(&mut self, glyphs: &mut [hb_glyph_info_t]) {
        find_syllables(self.machine, glyphs);
    }
}

/// Finds the syllables of the glyphs, by a machine, and gives each glyph the byte of its own. It
/// takes no memory.
#[inline]
pub fn find_syllables<M: Machine>(machine: &M, glyphs: &mut [hb_glyph_info_t])
    ensures { AreInSyllables (M.grammar machine.now) glyphs.old glyphs.new }
{
    find_syllables_with::<M, Brand>(machine, glyphs, Blank::new(1));
}

// Finds syllables as `find_syllables`, with a count of reads of its own.
#[inline]
fn find_syllables_with<M: Machine, L: Ledger>(
    machine: &M,
    glyphs: &mut [hb_glyph_info_t],
    blank: Blank,
)
    requires name { blank.name ≡ L.name }
    requires parts { blank.parts ≡ L.parts }
    requires some { 0 < blank.parts }
    ensures { AreInSyllables (M.grammar machine.now) glyphs.old glyphs.new }
{
    let mut count = Reads::<L>::new(blank, 0);
    find_syllables_counted(machine, glyphs, &mut count);
}

// How many spans what is passed over in front makes.
#[inline]
fn lead_count(lead: usize) -> usize
    ensures count { (k : ℕ) → result ≡ length (lead_spans lead k) }
    ensures few { result ≤ lead }
{
    if lead == 0 { 0 } else { 1 }
}

// Gives the glyphs from `start` to `end` the byte of a span of this kind, behind so many spans.
#[inline]
fn write_span(glyphs: &mut [hb_glyph_info_t], start: usize, end: usize, spans: usize, kind: u8)
    requires in_order { start ≤ end }
    requires in_range { end ≤ length glyphs.old }
    requires kind { kind ≤ 15 }
    ensures { let byte = (spans % 15 + 1) * 16 + kind in
        glyphs.new ≡ with_stretch start end (map (in_syllable byte)) glyphs.old }
{
    let serial = (spans % 15 + 1) as u8;
    set_syllable(&mut glyphs[start..end], serial * 16 + kind);
}

/// Finds the syllables of the glyphs, by a machine, and gives each glyph the byte of its own; counts
/// how often one of them is read: at most five times, whichever it is. It takes no memory.
pub fn find_syllables_counted<M: Machine, L: Ledger>(
    machine: &M,
    glyphs: &mut [hb_glyph_info_t],
    count: &mut Reads<L>,
)
    ensures syllables { AreInSyllables (M.grammar machine.now) glyphs.old glyphs.new }
    ensures counted { count.new.reads ≤ count.old.reads + 5 }
{
    let mut start = machine.next_read(glyphs, 0);
    write_span(glyphs, 0, start, 0, machine.other());
    let mut spans = lead_count(start);
    count.pass(start);
    let mut joiners = Joiners::none();
    while start < glyphs.len() {
        let span = first_span(machine, &glyphs[start..], start, &mut joiners, count);
        count.pass(span.len);
        let end = start + span.len;
        write_span(glyphs, start, end, spans, span.kind);
        start = end;
        spans += 1;
    }
}

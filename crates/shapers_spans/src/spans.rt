//! The syllables of a text, as a list.
ghost use Rattle.std.specs.Prelude.{◌≡◌, ◌+◌, ◌<◌, ◌≤◌, List, [], length, vec_capacity, IfOk, IsOk, IsOkUnless, OnErr, OnOk};
ghost use Rattle.shapers_buffer.specs.declared.buffer.refusal.ShaperError.TheVariants.{Memory};
ghost use Rattle.shapers_buffer.specs.declared.buffer.syllables.Span.{Span};
ghost use Rattle.shapers_spans.specs.Cuts.{AreSpansOf};
ghost use Rattle.shapers_spans.specs.Grammar.{lead_spans};

use crate::finding::{Joiners, first_span};
use crate::machine::Machine;
use crate::reads::Reads;
use shapers_base::buffer::{ShaperError, Span, hb_glyph_info_t};
use std::alloc::Global;
use std::marker::Brand;
use std::sync::ledger::{Blank, Ledger};

/// The syllables of the glyphs, by a machine. They cover the glyphs, and their kinds fit a syllable
/// byte. The only refusal is `Memory`.
pub fn spans_of<M: Machine>(
    machine: &M,
    glyphs: &[hb_glyph_info_t],
    alloc: Global,
) -> Result<Vec<Span>, ShaperError>
    ensures spans { IfOk result
        (λ spans. AreSpansOf (M.grammar machine.now) glyphs.now spans.items) }
    ensures refusal { IsOkUnless result Memory }
{
    let mut spans = Vec::new(alloc);
    spans_into(machine, glyphs, &mut spans)?;
    Ok(spans)
}

/// Fills the list with the syllables of the glyphs, by a machine. A list that has room for them
/// takes no memory. The only refusal is `Memory`.
pub fn spans_into<M: Machine>(
    machine: &M,
    glyphs: &[hb_glyph_info_t],
    spans: &mut Vec<Span>,
) -> Result<(), ShaperError>
    ensures spans { OnOk result (AreSpansOf (M.grammar machine.now) glyphs.now spans.new.items) }
    ensures refusal { IsOkUnless result Memory }
    ensures room { (all : List Span) → AreSpansOf (M.grammar machine.now) glyphs.now all →
        length all ≤ vec_capacity spans.old → IsOk result }
{
    spans_into_with::<M, Brand>(machine, glyphs, spans, Blank::new(1))
}

// Fills the list as `spans_into`, with a count of reads of its own.
#[inline]
fn spans_into_with<M: Machine, L: Ledger>(
    machine: &M,
    glyphs: &[hb_glyph_info_t],
    spans: &mut Vec<Span>,
    blank: Blank,
) -> Result<(), ShaperError>
    requires name { blank.name ≡ L.name }
    requires parts { blank.parts ≡ L.parts }
    requires some { 0 < blank.parts }
    ensures spans { OnOk result (AreSpansOf (M.grammar machine.now) glyphs.now spans.new.items) }
    ensures refusal { IsOkUnless result Memory }
    ensures room { (all : List Span) → AreSpansOf (M.grammar machine.now) glyphs.now all →
        length all ≤ vec_capacity spans.old → IsOk result }
{
    let mut count = Reads::<L>::new(blank, 0);
    spans_into_counted(machine, glyphs, spans, &mut count)
}

// The glyphs that are passed over in front, as a span of their own.
#[inline]
fn push_lead(lead: usize, kind: u8, spans: &mut Vec<Span>) -> Result<(), ShaperError>
    requires { spans.old.items ≡ [] }
    ensures ok { OnOk result (spans.new.items ≡ lead_spans lead kind) }
    ensures refusal { IsOkUnless result Memory }
    ensures full { OnErr result (vec_capacity spans.old < length (lead_spans lead kind)) }
    ensures capacity { vec_capacity spans.old ≤ vec_capacity spans.new }
{
    if lead == 0 {
        return Ok(());
    }
    spans
        .push(Span { len: lead, kind })
        .map_err(|_| ShaperError::Memory)
}

/// Fills the list with the syllables of the glyphs, by a machine, and counts how often one of them is
/// read: at most five times, whichever it is. A list that has room for them takes no memory. The
/// only refusal is `Memory`.
pub fn spans_into_counted<M: Machine, L: Ledger>(
    machine: &M,
    glyphs: &[hb_glyph_info_t],
    spans: &mut Vec<Span>,
    count: &mut Reads<L>,
) -> Result<(), ShaperError>
    ensures spans { OnOk result (AreSpansOf (M.grammar machine.now) glyphs.now spans.new.items) }
    ensures counted { OnOk result (count.new.reads ≤ count.old.reads + 5) }
    ensures refusal { IsOkUnless result Memory }
    ensures room { (all : List Span) → AreSpansOf (M.grammar machine.now) glyphs.now all →
        length all ≤ vec_capacity spans.old → IsOk result }
{
    spans.clear();
    let mut start = machine.next_read(glyphs, 0);
    push_lead(start, machine.other(), spans)?;
    count.pass(start);
    let mut joiners = Joiners::none();
    while start < glyphs.len() {
        let span = first_span(machine, &glyphs[start..], start, &mut joiners, count);
        count.pass(span.len);
        spans.push(span).map_err(|_| ShaperError::Memory)?;
        start += span.len;
    }
    Ok(())
}

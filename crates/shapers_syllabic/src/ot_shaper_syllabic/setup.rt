//! Cutting a text into syllables.
ghost use Rattle.std.specs.Prelude.{◌≡◌, ◌≤◌, ◌==◌, All, IsTrue, OnErr, OnOk, length, map};
ghost use Rattle.std.specs.List.{list_any};
ghost use Rattle.shapers_buffer.specs.Clusters.{with_stretch};
ghost use Rattle.shapers_buffer.specs.Glyph.{clusters};
ghost use Rattle.shapers_buffer.specs.GlyphFlags.{with_bits_off};
ghost use Rattle.shapers_syllabic.specs.Borders.{SetupCutsAtSpans};
ghost use Rattle.shapers_syllabic.specs.Syllabic.{in_unsafe_syllable, setup_by_bytes, unsafe_spans, unsafe_syllables, with_unsafe_syllables};
ghost use Rattle.shapers_buffer.specs.Refusals.{RefusesInput};
ghost use Rattle.shapers_buffer.specs.Syllables.{in_syllable, kind_of, spans_cover, spans_refusal, with_spans};

use shapers_base::buffer::glyph_flag::{UNSAFE_TO_BREAK, UNSAFE_TO_CONCAT};
use shapers_base::buffer::{
    ShaperError, Span, first_syllable_len, has_span_of_kind, hb_buffer_t, hb_glyph_info_t,
    least_cluster, spans_cover, unsafe_to_break_in,
};

/// Cuts the text into the syllables of these spans, marks whether one is of the broken kind, and
/// flags the inside of each syllable as unsafe to break. Refuses with `SpansDontCover` where a span
/// is empty or the lengths don't add up to the buffer's. It takes no memory and leaves the clusters
/// as they are.
#[inline]
pub fn setup_syllables(
    spans: &[Span],
    broken_kind: u8,
    buffer: &mut hb_buffer_t,
) -> Result<(), ShaperError>
    requires { All (λ span. span.kind ≤ 15) spans.now }
    ensures refusal { RefusesInput (spans_refusal spans.now buffer.old) result }
    ensures ok { let cut = with_spans spans.now broken_kind buffer.old in
        OnOk result (buffer.new ≡ with_unsafe_syllables cut) }
    ensures cut { OnOk result
        (SetupCutsAtSpans spans.now broken_kind buffer.old buffer.new) }
    ensures clusters { clusters buffer.new.glyphs ≡ clusters buffer.old.glyphs }
    ensures err { OnErr result (buffer.new ≡ buffer.old) }
{
    if !spans_cover(buffer.len(), spans) {
        return Err(ShaperError::SpansDontCover);
    }
    buffer.with_glyphs_mut(|glyphs| setup_spans(glyphs, spans));
    if has_span_of_kind(spans, broken_kind) {
        buffer.set_has_broken_syllable(true);
    }
    Ok(())
}

/// Sets up a text whose glyphs have their syllable bytes already: flags the inside of each syllable
/// as unsafe to break, and marks whether one is of the broken kind. It takes no memory.
#[inline]
pub fn setup_by_bytes(broken_kind: u8, buffer: &mut hb_buffer_t)
    ensures { buffer.new ≡ setup_by_bytes broken_kind buffer.old }
{
    if has_syllable_of_kind(buffer.glyphs(), broken_kind) {
        buffer.set_has_broken_syllable(true);
    }
    buffer.with_glyphs_mut(flag_syllables_in);
}

/// Flags the inside of each syllable of these glyphs as unsafe to break and to concatenate.
#[inline]
pub fn flag_syllables_in(glyphs: &mut [hb_glyph_info_t])
    ensures { glyphs.new ≡ unsafe_syllables glyphs.old }
{
    let mut start = 0;
    while start < glyphs.len() {
        let end = start + first_syllable_len(&glyphs[start..]);
        unsafe_to_break_in(glyphs, start, end);
        start = end;
    }
}

// Whether some syllable is of this kind.
#[inline]
fn has_syllable_of_kind(glyphs: &[hb_glyph_info_t], kind: u8) -> bool
    ensures { result ≡ list_any (λ g. kind_of g.syllable == kind) glyphs.now }
{
    glyphs.iter().any(|glyph| glyph.syllable % 16 == kind)
}

// Gives each place the byte of the span that covers it, and flags the inside of each span.
#[inline]
fn setup_spans(glyphs: &mut [hb_glyph_info_t], spans: &[Span])
    requires covered { IsTrue (spans_cover (length glyphs.old) spans.now) }
    requires kinds { All (λ span. span.kind ≤ 15) spans.now }
    ensures { glyphs.new ≡ unsafe_spans spans.now glyphs.old }
{
    let mut start = 0;
    for (i, span) in spans.iter().enumerate() {
        let serial = (i % 15 + 1) as u8;
        let end = start + span.len;
        setup_span_in(glyphs, start, end, serial * 16 + span.kind);
        start = end;
    }
}

// Makes one syllable of the glyphs from `s` to `e`.
#[inline]
fn setup_span_in(glyphs: &mut [hb_glyph_info_t], s: usize, e: usize, byte: u8)
    requires in_order { s ≤ e }
    requires in_range { e ≤ length glyphs.old }
    ensures { glyphs.new ≡ with_stretch s e (in_unsafe_syllable byte) glyphs.old }
{
    setup_span(&mut glyphs[s..e], byte);
}

// Makes one syllable of these glyphs: gives them this byte, and flags its inside.
#[inline]
fn setup_span(glyphs: &mut [hb_glyph_info_t], byte: u8)
    ensures { glyphs.new ≡ in_unsafe_syllable byte glyphs.old }
{
    if glyphs.is_empty() {
        return;
    }
    let least = least_cluster(glyphs);
    setup_each(glyphs, byte, least);
}

// Gives these glyphs this byte, and flags those outside the least cluster.
#[inline]
fn setup_each(glyphs: &mut [hb_glyph_info_t], byte: u8, least: u32)
    ensures { glyphs.new ≡ map (λ g. with_bits_off 3 least (in_syllable byte g)) glyphs.old }
{
    for glyph in glyphs.iter_mut() {
        glyph.syllable = byte;
        if glyph.cluster != least {
            glyph.mask |= UNSAFE_TO_BREAK | UNSAFE_TO_CONCAT;
        }
    }
}

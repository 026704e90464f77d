//! Syllables in the buffer: longest sequences of glyphs of equal syllable bytes.
ghost use Rattle.std.specs.Prelude.{◌≡◌, ◌==◌, ◌+◌, ◌<◌, ◌≤◌, All, OnOk, OnErr, IsTrue, length, drop, map};
ghost use Rattle.shapers_buffer.specs.Clusters.{with_stretch};
ghost use Rattle.shapers_buffer.specs.Refusals.{RefusesInput};
ghost use Rattle.shapers_buffer.specs.Syllables.{first_syllable_len, spans_cover, spans_refusal, with_spans, with_bytes, span_bytes, has_byte, in_syllable, unknown_syllable};
ghost use Rattle.std.specs.List.{prefix_len, list_any};

use super::glyph::hb_glyph_info_t;
use super::{ShaperError, hb_buffer_t};

/// A syllable as the script's grammar found it: its number of glyphs, and its kind, at most 15. C's
/// layout.
#[repr(C)]
#[derive(Clone, Copy, Debug, PartialEq, Eq)]
pub struct Span {
    /// How many glyphs it covers.
    pub len: usize,
    /// The kind that the grammar gave it, at most 15.
    pub kind: u8,
}

impl hb_buffer_t {
    /// Where the syllable ends that place `start` stands in: behind the longest sequence of its
    /// byte from `start` on.
    ///
    /// # Panics
    ///
    /// Where `start` is no place of the buffer.
    #[inline]
    pub fn next_syllable(&self, start: usize) -> usize
        requires { start < length self.now.glyphs }
        ensures end { result ≡ start + first_syllable_len (drop start self.now.glyphs) }
        ensures within { result ≤ length self.now.glyphs }
        ensures further { start < result }
    {
        start + first_syllable_len(&self.info[start..])
    }

    /// The first place of the first syllable whose kind is above `last_kind`: one of unknown kind.
    #[inline]
    pub fn unknown_syllable(&self, last_kind: u8) -> Option<usize>
        ensures { result ≡ unknown_syllable last_kind self.now.glyphs }
    {
        first_above(&self.info, last_kind)
    }

    /// Gives each place the syllable byte of the span that covers it, and sets the mark of a broken
    /// syllable where a span is of the broken kind. Refuses with `SpansDontCover` where a span is
    /// empty or the lengths don't add up to the buffer's. It takes no memory.
    ///
    /// # Errors
    ///
    /// `SpansDontCover`; nothing has changed then.
    #[inline]
    pub fn set_spans(&mut self, spans: &[Span], broken_kind: u8) -> Result<(), ShaperError>
        requires { All (λ span. span.kind ≤ 15) spans.now }
        ensures refusal { RefusesInput (spans_refusal spans.now self.old) result }
        ensures ok { OnOk result (self.new ≡ with_spans spans.now broken_kind self.old) }
        ensures err { OnErr result (self.new ≡ self.old) }
    {
        if !spans_cover(self.info.len(), spans) {
            return Err(ShaperError::SpansDontCover);
        }
        set_bytes(&mut self.info, spans);
        if has_span_of_kind(spans, broken_kind) {
            self.has_broken_syllable = true;
        }
        Ok(())
    }
}

/// How long the syllable is that begins the text: the longest sequence of its first byte.
#[inline]
pub fn first_syllable_len(glyphs: &[hb_glyph_info_t]) -> usize
    requires { 0 < length glyphs.now }
    ensures len { result ≡ first_syllable_len glyphs.now }
    ensures some { 0 < result }
    ensures within { result ≤ length glyphs.now }
{
    1 + leading_syllable_len(&glyphs[1..], glyphs[0].syllable)
}

// How many glyphs at the front have this syllable byte.
#[inline]
fn leading_syllable_len(glyphs: &[hb_glyph_info_t], byte: u8) -> usize
    ensures run { result ≡ prefix_len (has_byte byte) glyphs.now }
    ensures within { result ≤ length glyphs.now }
{
    glyphs
        .iter()
        .take_while(|glyph| glyph.syllable == byte)
        .count()
}

// The first place whose kind is above this one.
#[inline]
fn first_above(glyphs: &[hb_glyph_info_t], last_kind: u8) -> Option<usize>
    ensures { result ≡ unknown_syllable last_kind glyphs.now }
{
    glyphs
        .iter()
        .position(|glyph| glyph.syllable % 16 > last_kind)
}

/// Whether a span is of this kind.
#[inline]
pub fn has_span_of_kind(spans: &[Span], kind: u8) -> bool
    ensures { result ≡ list_any (λ span. span.kind == kind) spans.now }
{
    spans.iter().any(|span| span.kind == kind)
}

/// Whether no span is empty and the lengths add up to `len`.
#[inline]
pub fn spans_cover(len: usize, spans: &[Span]) -> bool
    ensures { result ≡ spans_cover len spans.now }
{
    let mut rest = len;
    for span in spans {
        if span.len == 0 || span.len > rest {
            return false;
        }
        rest -= span.len;
    }
    rest == 0
}

// Gives each place the byte of the span that covers it.
#[inline]
fn set_bytes(glyphs: &mut [hb_glyph_info_t], spans: &[Span])
    requires covered { IsTrue (spans_cover (length glyphs.old) spans.now) }
    requires kinds { All (λ span. span.kind ≤ 15) spans.now }
    ensures { glyphs.new ≡ with_bytes glyphs.old (span_bytes 0 spans.now) }
{
    let mut start = 0;
    for (i, span) in spans.iter().enumerate() {
        let serial = (i % 15 + 1) as u8;
        let end = start + span.len;
        set_syllable_in(glyphs, start, end, serial * 16 + span.kind);
        start = end;
    }
}

// Gives the glyphs from `start` to `end` one syllable byte.
#[inline]
fn set_syllable_in(glyphs: &mut [hb_glyph_info_t], start: usize, end: usize, byte: u8)
    requires in_order { start ≤ end }
    requires in_range { end ≤ length glyphs.old }
    ensures { glyphs.new ≡ with_stretch start end (map (in_syllable byte)) glyphs.old }
{
    set_syllable(&mut glyphs[start..end], byte);
}

/// Gives all these glyphs one syllable byte.
#[inline]
pub fn set_syllable(glyphs: &mut [hb_glyph_info_t], byte: u8)
    ensures { glyphs.new ≡ map (in_syllable byte) glyphs.old }
{
    for glyph in glyphs.iter_mut() {
        glyph.syllable = byte;
    }
}

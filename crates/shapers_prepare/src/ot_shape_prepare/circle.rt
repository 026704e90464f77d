//! A dotted circle in front of a text that begins with a mark.
ghost use Rattle.std.specs.Prelude.{◌≡◌, ◌&&◌, ◌<◌, ◌-◌, [], ◌∷◌, IsOk, OnErr, OnOk, length, take};
ghost use Rattle.shapers_buffer.specs.Refusals.{RefusesLength};
ghost use Rattle.shapers_prepare.specs.FirstCircle.{begins_with_mark, first_circle, wants_first_circle, with_first_circle};

use super::properties::{Awaited, set_properties};
use super::unicode::UnicodeProperties;
use bitflags::Flags;
use shapers_base::buffer::{BufferFlags, ShaperError, hb_buffer_t, hb_glyph_info_t};
use shapers_base::font::hb_font_t;

/// The flag of a buffer whose text is the beginning of one, as a paragraph's. No other crate reads
/// it.
pub const BEGINNING_OF_TEXT: BufferFlags = BufferFlags(0x02);

// The character of the dotted circle.
const DOTTED_CIRCLE: u32 = 0x25CC;

/// Puts a dotted circle in front of a text that begins with a mark, where the flags say that it is
/// the beginning of one, nothing stands before it, the caller allows circles and the font has one.
/// The circle takes the cluster and the features of the mark. Where no circle comes it takes no
/// memory.
///
/// # Errors
///
/// `TooLong` where the buffer would be longer than `max_len`, `Memory` where memory is refused;
/// nothing has changed then.
pub fn insert_dotted_circle<U: UnicodeProperties, F: hb_font_t>(
    unicode: &U,
    font: &F,
    buffer: &mut hb_buffer_t,
) -> Result<(), ShaperError>
    requires { buffer.old.positions ≡ [] }
    ensures ok { let p = U.properties unicode.now in
        let text = with_first_circle p (F.font font.now) buffer.old in
        OnOk result (buffer.new ≡ record buffer.old { glyphs = text }) }
    ensures length { let p = U.properties unicode.now in
        let text = with_first_circle p (F.font font.now) buffer.old in
        RefusesLength buffer.old.max_len (length text) result }
    ensures err { OnErr result (buffer.new ≡ buffer.old) }
    ensures without_memory { let p = U.properties unicode.now in
        with_first_circle p (F.font font.now) buffer.old ≡ buffer.old.glyphs → IsOk result }
{
    // so that a return with nothing changed keeps the promise on lengths, too
    prove!(buffer.len() <= buffer.max_len());
    if !wants_first_circle(buffer) || !font.has_glyph(DOTTED_CIRCLE) {
        return Ok(());
    }
    let circle = first_circle(unicode, buffer.get(0));
    buffer.grow(1)?;
    buffer.with_glyphs_mut(|glyphs| put_in_front(circle, glyphs));
    Ok(())
}

// Whether a text wants a circle in front.
#[inline]
fn wants_first_circle(buffer: &hb_buffer_t) -> bool
    ensures { result ≡ wants_first_circle buffer.now }
{
    let flags = buffer.flags();
    flags.contains(BEGINNING_OF_TEXT)
        && !flags.contains(BufferFlags::DO_NOT_INSERT_DOTTED_CIRCLE)
        && buffer.pre_context().is_empty()
        && begins_with_mark(buffer.glyphs())
}

// Whether the first of these glyphs is a mark.
#[inline]
fn begins_with_mark(glyphs: &[hb_glyph_info_t]) -> bool
    ensures { result ≡ begins_with_mark glyphs.now }
{
    !glyphs.is_empty() && glyphs[0].unicode_props.general_category().is_mark()
}

// The circle before a glyph.
#[inline]
fn first_circle<U: UnicodeProperties>(unicode: &U, glyph: hb_glyph_info_t) -> hb_glyph_info_t
    ensures { result ≡ first_circle (U.properties unicode.now) glyph }
{
    let mut circle = hb_glyph_info_t {
        glyph_id: DOTTED_CIRCLE,
        cluster: glyph.cluster,
        mask: glyph.mask,
        ..hb_glyph_info_t::DEFAULT
    };
    set_properties(unicode, Awaited::Nothing, &mut circle);
    circle
}

// Moves all glyphs but the last up by one place and puts one in front.
#[inline]
fn put_in_front(glyph: hb_glyph_info_t, glyphs: &mut [hb_glyph_info_t])
    requires { 0 < length glyphs.old }
    ensures { glyphs.new ≡ glyph ∷ take (length glyphs.old - 1) glyphs.old }
{
    let end = glyphs.len() - 1;
    glyphs.copy_within(0..end, 1);
    glyphs[0] = glyph;
}

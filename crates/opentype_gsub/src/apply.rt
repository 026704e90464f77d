//! What subtables make of a text at a place.
ghost use Rattle.std.specs.Prelude.{◌≡◌, ◌<◌, ◌≤◌, ◌==◌, ◌-◌, ◌+◌, ℕ, false, length, slice_index, IfOk};
ghost use Rattle.opentype_gsub.specs.Decided.{covered_in};
ghost use Rattle.opentype_layout.specs.SubstitutionTables.{first_place};
ghost use Rattle.opentype_gsub.specs.Applied.{IsChange, alternate_put, chosen_put, is_random, ligature_put, ligated_put, multiple_put, next_state, two_byte_number, one_put, random_put, sequence_put, single_put, value_of};
ghost use Rattle.opentype_gsub.specs.Setting.{setting_of};
ghost use Rattle.shapers_buffer.specs.declared.buffer.lookup_record.LookupRecord.{LookupRecord};

use crate::decided::{alternate_at, set_by, single_at};
use crate::edits::{count_of, delete, multiply, replace};
use crate::ligating::ligate;
use crate::matching::{Fitting, first_fitting};
use crate::pass::Pass;
use opentype_face::bytes::u16_at;
use opentype_face::class_table::ClassTable;
use opentype_layout::glyph_text::GlyphText;
use opentype_layout::sight::{Sight, number};
use opentype_layout::substitution_tables::SubtableAt;
use shapers_buffer::buffer::{BufferClusterLevel, LookupRecord, ShaperError, hb_glyph_info_t};

// The place behind so many glyphs of a text. (The text's length fits a `usize`, and so does this.)
#[inline]
fn behind_sequence(text: &GlyphText, at: usize, count: u16) -> usize
    requires { at + count ≤ length text.now }
    ensures { result ≡ at + count }
{
    at.saturating_add(usize::from(count)).min(text.len())
}

/// Puts the glyphs of a sequence in for one, and returns the place behind them. More than the text
/// may get aren't put in, and the record of its lookups says so.
///
/// # Errors
///
/// `Memory`.
pub fn put_sequence(
    pass: &Pass<'_>,
    text: &mut GlyphText,
    lookups: &mut LookupRecord,
    at: usize,
    sequence: &[u8],
) -> Result<usize, ShaperError>
    requires here { at < length text.old }
    ensures { IfOk result (λ next. sequence_put (setting_of pass.now) at text.old lookups.old
        sequence.now ≡ record { text = text.new; next = next; lookups = lookups.new }) }
{
    let count = count_of(sequence);
    if count == 0 {
        delete(pass.level, text, at);
        return Ok(at);
    }
    if count == 1 {
        replace(&pass.classes, text, at, u16_at(sequence, 2), 0);
        return Ok(at + 1);
    }
    if usize::from(count) - 1 > pass.limit.saturating_sub(text.len()) {
        lookups.is_complete = false;
        return Ok(at + 1);
    }
    multiply(&pass.classes, text, at, sequence)?;
    Ok(behind_sequence(text, at, count))
}

#[tactic(auto, unfolding(crate::specs::Applied::single_put))]
fn apply_single(
    classes: &ClassTable<'_>,
    bytes: &[u8],
    place: Option<u32>,
    text: &mut GlyphText,
    at: usize,
) -> Option<usize>
    requires here { at < length text.old }
    requires place { place ≡ covered_in bytes.now (two_byte_number text.old at) }
    ensures { (r : LookupRecord) → IsChange (single_put classes.now.gdef.now bytes.now
        text.old at r) text.old r text.new r result }
{
    match single_at(bytes, number(text.at(at)), place) {
        Some(to) => {
            replace(classes, text, at, to, 0);
            Some(at + 1)
        }
        None => None,
    }
}

#[tactic(auto, unfolding(crate::specs::Applied::alternate_put))]
fn apply_alternate(
    classes: &ClassTable<'_>,
    bytes: &[u8],
    place: Option<u32>,
    value: u32,
    text: &mut GlyphText,
    at: usize,
) -> Option<usize>
    requires here { at < length text.old }
    requires place { place ≡ covered_in bytes.now (two_byte_number text.old at) }
    ensures { (r : LookupRecord) → IsChange (alternate_put classes.now.gdef.now bytes.now value
        text.old at r) text.old r text.new r result }
{
    match alternate_at(value, set_by(bytes, place)) {
        Some(to) => {
            replace(classes, text, at, to, 0);
            Some(at + 1)
        }
        None => None,
    }
}

#[tactic(auto, unfolding(crate::specs::Applied::multiple_put))]
fn apply_multiple(
    pass: &Pass<'_>,
    bytes: &[u8],
    place: Option<u32>,
    text: &mut GlyphText,
    lookups: &mut LookupRecord,
    at: usize,
) -> Result<Option<usize>, ShaperError>
    requires here { at < length text.old }
    requires place { place ≡ covered_in bytes.now (two_byte_number text.old at) }
    ensures { IfOk result (λ next. IsChange (multiple_put (setting_of pass.now) bytes.now
        text.old at lookups.old) text.old lookups.old text.new lookups.new next) }
{
    match set_by(bytes, place) {
        Some(sequence) => Ok(Some(put_sequence(pass, text, lookups, at, sequence)?)),
        None => Ok(None),
    }
}

#[inline]
#[tactic(auto, unfolding(crate::specs::Applied::ligated_put))]
fn apply_ligature(
    classes: &ClassTable<'_>,
    level: BufferClusterLevel,
    sight: &Sight,
    bytes: &[u8],
    place: Option<u32>,
    text: &mut GlyphText,
    at: usize,
) -> Option<usize>
    requires here { at < length text.old }
    requires place { place ≡ covered_in bytes.now (two_byte_number text.old at) }
    ensures { (r : LookupRecord) → IsChange (ligated_put classes.now.gdef.now level sight.now
        bytes.now text.old at r) text.old r text.new r result }
{
    let set = set_by(bytes, place)?;
    // (by reference, since it would be moved with the room for its places)
    match &first_fitting(classes.gdef, sight, set, &text.view(), at) {
        Some(fitting) => Some(put_ligature(classes, level, text, at, fitting)),
        None => None,
    }
}

// Puts a ligature in. Returns the place behind it.
fn put_ligature(
    classes: &ClassTable<'_>,
    level: BufferClusterLevel,
    text: &mut GlyphText,
    at: usize,
    fitting: &Fitting,
) -> usize
    requires here { at < length text.old }
    requires within { (j : ℕ) → j < length fitting.now.places.items →
        slice_index fitting.now.places.items j < length text.old }
    ensures { (r : LookupRecord) → ligature_put classes.now.gdef.now level at text.old r
        (fitting.now.glyph, fitting.now.places.items)
        ≡ record { text = text.new; next = result; lookups = r } }
{
    let places = fitting.places.as_slice();
    if places.is_empty() {
        replace(classes, text, at, fitting.glyph, 0);
        return at + 1;
    }
    let last = places[places.len() - 1];
    ligate(classes, level, text, at, places, fitting.glyph);
    last.saturating_sub(places.len() - 1)
}

// The value of a feature at a glyph.
pub(crate) fn value(sight: &Sight, glyph: &hb_glyph_info_t) -> u32
    ensures { result ≡ value_of sight.now glyph.now }
{
    let mask = u64::from(sight.mask);
    let lowest = mask & (4294967296 - mask);
    let value = u64::from(glyph.mask & sight.mask) / lowest.max(1);
    value as u32
}

/// The value of a feature that asks for an alternate at random.
const AT_RANDOM: u32 = 255;

// Whether an alternate is picked at random, where the plan allows it.
pub(crate) fn is_random(random: bool, sight: &Sight, glyph: &hb_glyph_info_t) -> bool
    ensures { result ≡ is_random random sight.now glyph.now }
{
    random && value(sight, glyph) == AT_RANDOM
}

// The next state of the generator that picks alternates. As in HarfBuzz, the product has 32 bits.
fn next_state(state: u32) -> u32
    ensures { result ≡ next_state state }
{
    state.wrapping_mul(48271) % 2147483647
}

// Puts one of a glyph's alternates in its place, at random. A break anywhere would change which ones
// are picked.
#[tactic(auto, unfolding(crate::specs::Applied::random_put))]
fn apply_random(
    classes: &ClassTable<'_>,
    bytes: &[u8],
    place: Option<u32>,
    text: &mut GlyphText,
    lookups: &mut LookupRecord,
    at: usize,
) -> Option<usize>
    requires here { at < length text.old }
    requires place { place ≡ covered_in bytes.now (two_byte_number text.old at) }
    ensures { IsChange (random_put classes.now.gdef.now bytes.now text.old at lookups.old)
        text.old lookups.old text.new lookups.new result }
{
    let set = set_by(bytes, place)?;
    let count = u32::from(u16_at(set, 0));
    if count == 0 {
        return None;
    }
    lookups.random_state = next_state(lookups.random_state);
    let chosen = lookups.random_state % count + 1;
    let len = text.len();
    text.unsafe_to_break(0, len);
    replace(classes, text, at, u16_at(set, chosen as usize * 2), 0);
    Some(at + 1)
}

// Puts the alternate in that the value of the feature chooses, or one at random.
#[tactic(auto, unfolding(crate::specs::Applied::chosen_put))]
fn apply_chosen(
    pass: &Pass<'_>,
    sight: &Sight,
    bytes: &[u8],
    place: Option<u32>,
    text: &mut GlyphText,
    lookups: &mut LookupRecord,
    at: usize,
) -> Option<usize>
    requires here { at < length text.old }
    requires place { place ≡ covered_in bytes.now (two_byte_number text.old at) }
    ensures { IsChange (chosen_put (setting_of pass.now) sight.now bytes.now text.old at
        lookups.old) text.old lookups.old text.new lookups.new result }
{
    if is_random(pass.lookup.random, sight, text.at(at)) {
        return apply_random(&pass.classes, bytes, place, text, lookups, at);
    }
    let value = value(sight, text.at(at));
    apply_alternate(&pass.classes, bytes, place, value, text, at)
}

/// What a subtable that adds no glyph makes of a text at a place, by the place of the glyph there in
/// the set that it begins with: the place behind what it did, if it fits. It takes no memory.
// (a call would pass on much that the caller has at hand)
#[inline(always)]
#[tactic(auto, unfolding(crate::specs::Applied::one_put))]
pub fn apply_in_room(
    pass: &Pass<'_>,
    sight: &Sight,
    subtable: &SubtableAt<'_>,
    text: &mut GlyphText,
    lookups: &mut LookupRecord,
    at: usize,
) -> Option<usize>
    requires here { at < length text.old }
    requires few { (subtable.now.kind == 2) ≡ false }
    requires place { subtable.now.place ≡ first_place (record {
      kind = subtable.now.kind;
      bytes = subtable.now.bytes.now;
    }) (two_byte_number text.old at) }
    ensures { IsChange (one_put (setting_of pass.now) sight.now subtable.now.kind
        subtable.now.bytes.now text.old at lookups.old) text.old lookups.old text.new lookups.new
        result }
{
    let (bytes, place) = (subtable.bytes, subtable.place);
    match subtable.kind {
        1 => apply_single(&pass.classes, bytes, place, text, at),
        3 => apply_chosen(pass, sight, bytes, place, text, lookups, at),
        4 => apply_ligature(&pass.classes, pass.level, sight, bytes, place, text, at),
        _ => None,
    }
}

/// What a subtable makes of a text at a place, by the place of the glyph there in the set that it
/// begins with: the place behind what it did, if it fits.
///
/// # Errors
///
/// `Memory`.
#[inline]
#[tactic(auto, unfolding(crate::specs::Applied::one_put))]
pub fn apply_one(
    pass: &Pass<'_>,
    sight: &Sight,
    subtable: &SubtableAt<'_>,
    text: &mut GlyphText,
    lookups: &mut LookupRecord,
    at: usize,
) -> Result<Option<usize>, ShaperError>
    requires here { at < length text.old }
    requires place { subtable.now.place ≡ first_place (record {
      kind = subtable.now.kind;
      bytes = subtable.now.bytes.now;
    }) (two_byte_number text.old at) }
    ensures { IfOk result (λ next. IsChange (one_put (setting_of pass.now) sight.now
        subtable.now.kind subtable.now.bytes.now text.old at lookups.old) text.old
        lookups.old text.new lookups.new next) }
{
    if subtable.kind == 2 {
        return apply_multiple(pass, subtable.bytes, subtable.place, text, lookups, at);
    }
    Ok(apply_in_room(pass, sight, subtable, text, lookups, at))
}

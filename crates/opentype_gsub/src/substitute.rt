//! A lookup of GSUB over a buffer.
ghost use Rattle.std.specs.Prelude.{◌≡◌, ◌<◌, ◌≤◌, ℕ, true, [], length, IfOk, IsOkUnless, OnErr, OnOk};
ghost use Rattle.opentype_face.specs.Lookups.{lookup_in};
ghost use Rattle.opentype_layout.specs.Text.{glyph_at};
ghost use Rattle.opentype_gsub.specs.Presence.{applied_from, is_left};
ghost use Rattle.shapers_buffer.specs.Refusals.{RefusesLength};
ghost use Rattle.shapers_buffer.specs.declared.buffer.refusal.ShaperError.TheVariants.{Memory};
ghost use Rattle.opentype_gsub.specs.Setting.{setting_of};
ghost use Rattle.opentype_gsub.specs.Substituted.{limit_in, substituted};

use crate::apply_along::apply_along;
use crate::pass::{LookupUse, Pass};
use crate::plain::{apply_plain, are_plain};
use crate::presence::first_place;
use crate::reverse::apply_backward;
use opentype_face::class_table::ClassTable;
use opentype_face::lookup::subtable_type;
use opentype_layout::glyph_text::GlyphText;
use opentype_layout::looking::wants_concat;
use opentype_layout::starts::LookupTable;
use opentype_layout::tables::LayoutTable;
use shapers_buffer::buffer::{LookupRecord, ShaperError, hb_buffer_t, hb_glyph_info_t};

// How many glyphs a text may get.
#[inline]
fn limit(len: usize, max_len: usize) -> usize
    ensures { result ≡ limit_in len max_len }
{
    len.saturating_mul(256).max(65536).min(max_len)
}

// Applies a lookup by its table to a list of glyphs, from a place on.
#[inline]
#[tactic(auto, unfolding(crate::specs::Presence::applied_from))]
fn apply_from<'a>(
    pass: &Pass<'a>,
    table: &LookupTable<'a>,
    first: usize,
    text: &mut GlyphText,
    lookups: &mut LookupRecord,
) -> Result<(), ShaperError>
    ensures { OnOk result (
        applied_from (setting_of pass.now) table.now first text.old lookups.old
        ≡ record { text = text.new; lookups = lookups.new }) }
{
    if subtable_type(7, table.bytes(), 0) == 8 {
        apply_backward(pass, table, text);
        return Ok(());
    }
    let steps = text.len().saturating_sub(first);
    apply_along(pass, table, text, lookups, first, steps)
}

// A new list of glyphs, in the buffer's room: what a lookup makes of the buffer's from a place on.
#[inline]
fn apply(
    pass: &Pass<'_>,
    table: &LookupTable<'_>,
    first: usize,
    lookups: &mut LookupRecord,
    buffer: &mut hb_buffer_t,
) -> Result<Vec<hb_glyph_info_t>, ShaperError>
    ensures text { IfOk result (λ text.
        applied_from (setting_of pass.now) table.now first buffer.old.glyphs lookups.old
        ≡ record { text = text.items; lookups = lookups.new }) }
    ensures same { buffer.new ≡ buffer.old }
{
    let mut glyphs = buffer.take_list();
    glyphs.extend_from_slice(buffer.glyphs())?;
    let mut text = GlyphText::new(glyphs);
    apply_from(pass, table, first, &mut text, lookups)?;
    Ok(text.into_list())
}

// Puts these glyphs and this record in the place of the buffer's.
#[inline]
fn replace(
    text: Vec<hb_glyph_info_t>,
    lookups: LookupRecord,
    buffer: &mut hb_buffer_t,
) -> Result<(), ShaperError>
    ensures ok { OnOk result (buffer.new ≡ record buffer.old {
      glyphs = text.items;
      positions = [];
      lookups = lookups;
    }) }
    ensures length { RefusesLength buffer.old.max_len (length text.items) result }
    ensures err { OnErr result (buffer.new ≡ buffer.old) }
{
    buffer.replace_glyphs(text)?;
    buffer.set_lookup_record(lookups);
    Ok(())
}

// The same from a place on, before which the lookup can't begin, by its table.
#[inline(never)]
#[tactic(auto, unfolding(crate::specs::Substituted::substituted))]
fn substitute_from(
    classes: &ClassTable<'_>,
    gsub: &LayoutTable<'_>,
    lookup_use: &LookupUse,
    table: &LookupTable<'_>,
    first: usize,
    buffer: &mut hb_buffer_t,
) -> Result<(), ShaperError>
    requires unplaced { buffer.old.positions ≡ [] }
    requires table { table.now ≡ lookup_in gsub.now lookup_use.now.index }
    requires left { (j : ℕ) → j < first →
        is_left lookup_use.now table.now (glyph_at buffer.old.glyphs j) ≡ true }
    requires within { first ≤ length buffer.old.glyphs }
    ensures ok { OnOk result (buffer.new ≡ substituted classes.now.gdef.now gsub.now lookup_use.now buffer.old) }
    ensures refusal { IsOkUnless result Memory }
    ensures err { OnErr result (buffer.new ≡ buffer.old) }
{
    let len = buffer.len();
    let pass = Pass {
        classes: *classes,
        gsub,
        level: buffer.cluster_level(),
        concat: wants_concat(buffer.flags()),
        len,
        limit: limit(len, buffer.max_len()),
        lookup: *lookup_use,
    };
    if are_plain(table) {
        apply_plain(&pass, table, first, buffer);
        return Ok(());
    }
    // (the buffer keeps its record until the glyphs are replaced, since a refusal changes nothing)
    let mut lookups = buffer.lookup_record();
    match apply(&pass, table, first, &mut lookups, buffer) {
        Ok(text) => replace(text, lookups, buffer),
        Err(_) => Err(ShaperError::Memory),
    }
}

/// Applies a lookup of GSUB, as a plan has it, to a text of glyphs without positions. The text gets
/// at most `growth` times as long, and never longer than the buffer may get. The operations that its
/// rules take come from the record of the text's lookups, which also says whether any were missing.
///
/// # Errors
///
/// `Memory`; nothing has changed then.
#[inline]
#[tactic(auto, unfolding(crate::specs::Substituted::substituted))]
pub fn substitute(
    classes: &ClassTable<'_>,
    gsub: &LayoutTable<'_>,
    lookup_use: &LookupUse,
    buffer: &mut hb_buffer_t,
) -> Result<(), ShaperError>
    requires { buffer.old.positions ≡ [] }
    ensures ok { OnOk result (buffer.new ≡ substituted classes.now.gdef.now gsub.now lookup_use.now buffer.old) }
    ensures refusal { IsOkUnless result Memory }
    ensures err { OnErr result (buffer.new ≡ buffer.old) }
{
    // (most lookups have nothing to do in a text)
    let table = gsub.lookup(lookup_use.index);
    let first = first_place(lookup_use, &table, buffer.glyphs());
    if first >= buffer.len() {
        return Ok(());
    }
    substitute_from(classes, gsub, lookup_use, &table, first, buffer)
}

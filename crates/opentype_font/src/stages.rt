//! The lookups of a stage, one after another: those that can begin nowhere in the text are passed
//! over.
ghost use Rattle.std.specs.Prelude.{◌≡◌, [], length, true, IfErr, IfSome, IsOkUnless, IsSomeAnd, OnErr, OnOk};
ghost use Rattle.shapers_buffer.specs.declared.buffer.refusal.ShaperError.TheVariants.{Memory};
ghost use Rattle.shapers_pipeline.specs.Lookups.{StoppedIn, looked_up};
ghost use Rattle.opentype_layout.specs.LookupRows.{AreAbsent};
ghost use Rattle.opentype_font.specs.Lookups.{application_for, may_lack_memory, positioned_by, substituted_by, use_for};
ghost use Rattle.opentype_font.specs.Presence.{AreSeen, IsAbsent};

use opentype_gpos::apply_along::position;
use opentype_gsub::pass::LookupUse;
use opentype_gsub::substitute::substitute;
use opentype_layout::face_tables::FaceTables;
use opentype_layout::lookup_rows::LookupBits;
use opentype_layout::sight::Application;
use opentype_layout::tables::LayoutTable;
use shapers_base::buffer::{ShaperError, hb_buffer_t};
use shapers_plan::ot_map::StageLookup;

// How GSUB applies a lookup of a plan.
#[inline]
fn use_for(lookup: &StageLookup) -> LookupUse
    ensures { result ≡ use_for lookup.now }
{
    LookupUse {
        index: lookup.index,
        mask: lookup.mask,
        auto_zwnj: lookup.auto_zwnj,
        auto_zwj: lookup.auto_zwj,
        random: lookup.random,
        per_syllable: lookup.per_syllable,
    }
}

// How GPOS applies a lookup of a plan, which reaches over syllables.
#[inline]
fn application_for(lookup: &StageLookup) -> Application
    ensures { result ≡ application_for lookup.now }
{
    Application {
        of_gpos: true,
        mask: lookup.mask,
        auto_zwnj: lookup.auto_zwnj,
        auto_zwj: lookup.auto_zwj,
        per_syllable: false,
    }
}

/// Applies a lookup of GSUB.
#[inline]
pub(crate) fn substitute_by(
    tables: &FaceTables<'_>,
    lookup: &StageLookup,
    buffer: &mut hb_buffer_t,
) -> Result<(), ShaperError>
    requires { buffer.old.positions ≡ [] }
    ensures ok { let f = substituted_by tables.now.face.gdef.now tables.now.face.gsub.now in
        OnOk result (buffer.new ≡ f lookup.now buffer.old) }
    ensures refusal { IsOkUnless result Memory }
    ensures err { OnErr result (buffer.new ≡ buffer.old) }
{
    substitute(tables.classes(), tables.gsub(), &use_for(lookup), buffer)
}

/// Applies a lookup of GPOS.
#[inline]
pub(crate) fn position_by(tables: &FaceTables<'_>, lookup: &StageLookup, buffer: &mut hb_buffer_t)
    requires { length buffer.old.positions ≡ length buffer.old.glyphs }
    ensures { let f = positioned_by tables.now.face.gdef.now tables.now.face.gpos.now in
        buffer.new ≡ f lookup.now buffer.old }
{
    let how = application_for(lookup);
    position(tables.face.gdef, tables.gpos(), lookup.index, &how, buffer);
}

// The lookups that may begin in a text, if they are known, and if more than two are to be applied.
// (Two are tried as soon as those that may begin are found.)
#[inline]
fn present_among(
    of_gpos: bool,
    table: &LayoutTable<'_>,
    list: &[StageLookup],
    buffer: &hb_buffer_t,
) -> Option<LookupBits>
    ensures { IfSome result (λ bits. AreAbsent of_gpos table.now bits buffer.now.glyphs) }
{
    if list.len() > 2 {
        table.present(of_gpos, buffer.glyphs())
    } else {
        None
    }
}

/// Whether a lookup is known to be none of these.
#[inline]
pub(crate) fn is_absent(present: Option<LookupBits>, index: u16) -> bool
    ensures { result ≡ true → IsSomeAnd present (λ it. IsAbsent it index) }
{
    match present {
        Some(LookupBits { low, high }) => {
            let word = if index < 64 { low } else { high };
            index < 128 && word >> (index % 64) & 1 == 0
        }
        None => false,
    }
}

// The lookups of GSUB that may begin in a text, if they are known, and whether these are the ones of
// the text as it is now.
#[derive(Clone, Copy)]
struct Seen {
    present: Option<LookupBits>,
    is_fresh: bool,
}

// Whether a lookup of GSUB is known to leave a text as it is; what was known before another lookup is
// asked anew, if it says so.
#[inline]
fn is_left(
    tables: &FaceTables<'_>,
    lookup: &StageLookup,
    seen: &mut Seen,
    buffer: &hb_buffer_t,
) -> bool
    requires { AreSeen tables.now.face.gsub.now seen.old buffer.now.glyphs }
    ensures seen { AreSeen tables.now.face.gsub.now seen.new buffer.now.glyphs }
    ensures same { let f = substituted_by tables.now.face.gdef.now tables.now.face.gsub.now in
        result ≡ true → f lookup.now buffer.now ≡ buffer.now }
{
    if !is_absent(seen.present, lookup.index) {
        return false;
    }
    if seen.is_fresh {
        return true;
    }
    seen.present = tables.gsub().present(false, buffer.glyphs());
    seen.is_fresh = true;
    is_absent(seen.present, lookup.index)
}

// Applies a lookup of GSUB, unless it is known to leave the text as it is.
#[inline]
fn substitute_seen(
    tables: &FaceTables<'_>,
    lookup: &StageLookup,
    seen: &mut Seen,
    buffer: &mut hb_buffer_t,
) -> Result<(), ShaperError>
    requires unplaced { buffer.old.positions ≡ [] }
    requires seen { AreSeen tables.now.face.gsub.now seen.old buffer.old.glyphs }
    ensures ok { let f = substituted_by tables.now.face.gdef.now tables.now.face.gsub.now in
        OnOk result (buffer.new ≡ f lookup.now buffer.old) }
    ensures refusal { IsOkUnless result Memory }
    ensures err { OnErr result (buffer.new ≡ buffer.old) }
    ensures seen { AreSeen tables.now.face.gsub.now seen.new buffer.new.glyphs }
{
    if is_left(tables, lookup, seen, buffer) {
        return Ok(());
    }
    seen.is_fresh = false;
    substitute_by(tables, lookup, buffer)
}

/// Applies lookups of GSUB, one after another.
#[inline]
pub(crate) fn substitute_all(
    tables: &FaceTables<'_>,
    list: &[StageLookup],
    buffer: &mut hb_buffer_t,
) -> Result<(), ShaperError>
    requires { buffer.old.positions ≡ [] }
    ensures ok { let f = substituted_by tables.now.face.gdef.now tables.now.face.gsub.now in
        OnOk result (buffer.new ≡ looked_up f list.now buffer.old) }
    ensures refusal { IsOkUnless result Memory }
    ensures err { let f = substituted_by tables.now.face.gdef.now tables.now.face.gsub.now in
        IfErr result (λ e. StoppedIn f may_lack_memory list.now buffer.old buffer.new e) }
{
    let present = present_among(false, tables.gsub(), list, buffer);
    let mut seen = Seen {
        present,
        is_fresh: true,
    };
    for lookup in list {
        substitute_seen(tables, lookup, &mut seen, buffer)?;
    }
    Ok(())
}

// Applies a lookup of GPOS, unless it can begin nowhere in the text.
#[inline]
fn position_present(
    tables: &FaceTables<'_>,
    lookup: &StageLookup,
    present: Option<LookupBits>,
    buffer: &mut hb_buffer_t,
)
    requires paired { length buffer.old.positions ≡ length buffer.old.glyphs }
    requires absent { let gpos = tables.now.face.gpos.now in
        IfSome present (λ bits. AreAbsent true gpos bits buffer.old.glyphs) }
    ensures { let f = positioned_by tables.now.face.gdef.now tables.now.face.gpos.now in
        buffer.new ≡ f lookup.now buffer.old }
{
    if is_absent(present, lookup.index) {
        return;
    }
    position_by(tables, lookup, buffer);
}

/// Applies lookups of GPOS, one after another. (No lookup changes what glyphs there are, so those that
/// may begin are found once.)
pub(crate) fn position_all(tables: &FaceTables<'_>, list: &[StageLookup], buffer: &mut hb_buffer_t)
    requires { length buffer.old.positions ≡ length buffer.old.glyphs }
    ensures { let f = positioned_by tables.now.face.gdef.now tables.now.face.gpos.now in
        buffer.new ≡ looked_up f list.now buffer.old }
{
    let present = present_among(true, tables.gpos(), list, buffer);
    for lookup in list {
        position_present(tables, lookup, present, buffer);
    }
}

//! A lookup along a text.
ghost use Rattle.std.specs.Prelude.{◌≡◌, ◌<◌, length, IfOk, OnOk};
ghost use Rattle.opentype_gsub.specs.Setting.{setting_of, sights_within};
ghost use Rattle.opentype_gsub.specs.Along.{lookup_stepped, lookup_applied};

use crate::machine::apply_nested;
use crate::pass::{Pass, Sights};
use crate::presence::next_place;
use opentype_layout::glyph_text::GlyphText;
use opentype_layout::starts::LookupTable;
use shapers_buffer::buffer::{LookupRecord, ShaperError};

// What a lookup does at a place; the next place.
#[inline]
#[tactic(auto, unfolding(crate::specs::Along::lookup_stepped))]
fn step<'a>(
    pass: &Pass<'a>,
    sights: &Sights,
    lookup: &LookupTable<'a>,
    text: &mut GlyphText,
    lookups: &mut LookupRecord,
    at: usize,
) -> Result<usize, ShaperError>
    requires here { at < length text.old }
    requires sights { let it = setting_of pass.now in
        sights.now ≡ sights_within it.gdef it.lookup lookup.now 0 }
    ensures { IfOk result (λ next.
        lookup_stepped (setting_of pass.now) lookup.now text.old at lookups.old
        ≡ record { text = text.new; next = next; lookups = lookups.new }) }
{
    if !pass.lookup.sees_by(pass.classes.gdef, sights, text.at(at)) {
        return Ok(at + 1);
    }
    match apply_nested(pass, sights, lookup, text, lookups, at)? {
        Some(next) => Ok(next),
        None => Ok(at + 1),
    }
}

/// Applies a lookup by its table along a text from a place on, in at most so many steps, and with the
/// operations that the text has left.
///
/// # Errors
///
/// `Memory`.
#[inline]
pub fn apply_along<'a>(
    pass: &Pass<'a>,
    lookup: &LookupTable<'a>,
    text: &mut GlyphText,
    lookups: &mut LookupRecord,
    first: usize,
    steps: usize,
) -> Result<(), ShaperError>
    ensures { OnOk result (lookup_applied steps (lookup_stepped (setting_of pass.now) lookup.now)
        text.old first lookups.old
        ≡ record { text = text.new; lookups = lookups.new }) }
{
    let sights = pass
        .lookup
        .sights_within(pass.classes.gdef, lookup.bytes(), 0);
    let (mut at, mut steps) = (first, steps);
    // (the first place was found before)
    let mut place = first;
    while steps > 0 {
        if place >= text.len() {
            return Ok(());
        }
        let passed = place - at;
        if passed >= steps {
            return Ok(());
        }
        at = step(pass, &sights, lookup, text, lookups, place)?;
        steps -= passed + 1;
        place = next_place(&pass.lookup, lookup, &text.view(), at);
    }
    Ok(())
}

//! Lookups that add no glyphs and have no rules, in the buffer's own list.
ghost use Rattle.std.specs.Prelude.{◌≡◌, ◌<◌, true, false, length, []};
ghost use Rattle.opentype_face.specs.Firsts.{first_from};
ghost use Rattle.opentype_face.specs.Lookups.{subtables_in, type_in};
ghost use Rattle.opentype_gsub.specs.Along.{lookup_stepped};
ghost use Rattle.opentype_gsub.specs.Applied.{two_byte_number};
ghost use Rattle.opentype_gsub.specs.Came.{IsCome, came_in, nth_came};
ghost use Rattle.opentype_gsub.specs.Looked.{tried};
ghost use Rattle.opentype_gsub.specs.PlainLookups.{ArePlain, is_plain, outcome_of};
ghost use Rattle.opentype_gsub.specs.Presence.{applied_from};
ghost use Rattle.opentype_gsub.specs.Setting.{how_of, setting_of};
ghost use Rattle.opentype_gsub.specs.declared.pass.Sights.{Sights};
ghost use Rattle.opentype_layout.specs.Sight.{sight_of_input};

use crate::apply::apply_in_room;
use crate::pass::Pass;
use crate::presence::next_place;
use crate::trying::flag_tried;
use opentype_face::bytes::u16_at;
use opentype_layout::glyph_text::GlyphText;
use opentype_layout::sight::{Sight, number};
use opentype_layout::starts::LookupTable;
use shapers_buffer::buffer::{GlyphEditing, LookupRecord, hb_buffer_t, hb_glyph_info_t};

// Whether a subtable of a type puts single glyphs in, and has no rules.
#[inline]
fn is_plain(kind: u16) -> bool
    ensures { result ≡ is_plain kind }
{
    kind == 1 || kind == 3 || kind == 4
}

/// Whether a lookup's table has subtables, and all of them put single glyphs in.
#[inline]
pub(crate) fn are_plain(lookup: &LookupTable<'_>) -> bool
    ensures { result ≡ true → ArePlain lookup.now }
{
    let (count, kind) = (lookup.count(), u16_at(lookup.bytes(), 0));
    // (only in type 7 subtables have types of their own)
    if kind != 7 {
        return count > 0 && is_plain(kind);
    }
    for i in 0..count {
        if !is_plain(lookup.subtable(i).kind) {
            return false;
        }
    }
    count > 0
}

// What one of a lookup's subtables does at a place, by the number of the glyph there.
#[inline]
#[tactic(auto, unfolding(crate::specs::Came::nth_came))]
fn put_by(
    pass: &Pass<'_>,
    sight: &Sight,
    lookup: &LookupTable<'_>,
    i: u16,
    glyph: u16,
    text: &mut GlyphText,
    lookups: &mut LookupRecord,
    at: usize,
) -> Option<usize>
    requires here { at < length text.old }
    requires glyph { glyph ≡ two_byte_number text.old at }
    requires plain { is_plain (type_in 7 lookup.now i) ≡ true }
    ensures { (sights : Sights) → sights.input ≡ sight.now →
        IsCome (nth_came (setting_of pass.now) sights lookup.now at text.old lookups.old i)
        text.old lookups.old text.new lookups.new (outcome_of result) }
{
    let subtable = lookup.subtable(i).at(glyph);
    apply_in_room(pass, sight, &subtable, text, lookups, at)
}

// What the first of a lookup's subtables that fits does at a place.
#[inline]
fn put_among(
    pass: &Pass<'_>,
    sight: &Sight,
    lookup: &LookupTable<'_>,
    text: &mut GlyphText,
    lookups: &mut LookupRecord,
    at: usize,
) -> Option<usize>
    requires here { at < length text.old }
    requires plain { ArePlain lookup.now }
    ensures { (sights : Sights) → sights.input ≡ sight.now →
        IsCome (first_from (subtables_in lookup.now)
        (nth_came (setting_of pass.now) sights lookup.now at text.old lookups.old) 0)
        text.old lookups.old text.new lookups.new (outcome_of result) }
{
    let glyph = number(text.at(at));
    let (count, mut from) = (lookup.count(), 0);
    while from < count {
        let Some(i) = lookup.next_start(false, glyph, from) else {
            return None;
        };
        match put_by(pass, sight, lookup, i, glyph, text, lookups, at) {
            Some(next) => return Some(next),
            None => from = i + 1,
        }
    }
    None
}

// What a lookup does at a place, behind the flags of what is tried in vain.
#[inline]
fn put_at(
    pass: &Pass<'_>,
    sight: &Sight,
    lookup: &LookupTable<'_>,
    text: &mut GlyphText,
    lookups: &mut LookupRecord,
    at: usize,
) -> Option<usize>
    requires here { at < length text.old }
    requires plain { ArePlain lookup.now }
    requires sight { let it = setting_of pass.now in
        sight.now ≡ sight_of_input it.gdef lookup.now (how_of it.lookup) 0 }
    ensures { let s = setting_of pass.now in
        let gs = tried s lookup.now text.old at in
        IsCome (came_in s lookup.now gs at lookups.old) gs lookups.old text.new lookups.new
        (outcome_of result) }
{
    flag_tried(pass, lookup.bytes(), text, at);
    let seen = pass.lookup.sight_from(sight, text.at(at));
    put_among(pass, &seen, lookup, text, lookups, at)
}

// What a lookup does at a place that it may begin at; the next place.
#[inline]
#[tactic(auto, unfolding(crate::specs::Along::lookup_stepped))]
fn step(
    pass: &Pass<'_>,
    sight: &Sight,
    lookup: &LookupTable<'_>,
    text: &mut GlyphText,
    lookups: &mut LookupRecord,
    at: usize,
) -> usize
    requires here { at < length text.old }
    requires plain { ArePlain lookup.now }
    requires sight { let it = setting_of pass.now in
        sight.now ≡ sight_of_input it.gdef lookup.now (how_of it.lookup) 0 }
    ensures { lookup_stepped (setting_of pass.now) lookup.now text.old at lookups.old
        ≡ record { text = text.new; next = result; lookups = lookups.new } }
{
    if !pass.lookup.sees_in(pass.classes.gdef, sight, text.at(at)) {
        return at + 1;
    }
    match put_at(pass, sight, lookup, text, lookups, at) {
        Some(next) => next,
        None => at + 1,
    }
}

// Applies a lookup by its table along a text from a place on.
#[inline]
fn put_along(
    pass: &Pass<'_>,
    lookup: &LookupTable<'_>,
    text: &mut GlyphText,
    lookups: &mut LookupRecord,
    first: usize,
)
    requires { ArePlain lookup.now }
    ensures { applied_from (setting_of pass.now) lookup.now first text.old lookups.old
        ≡ record { text = text.new; lookups = lookups.new } }
{
    let sight = pass.lookup.sight(pass.classes.gdef, lookup.bytes());
    let (mut at, mut steps) = (first, text.len().saturating_sub(first));
    // (the first place was found before)
    let mut place = first;
    while steps > 0 {
        if place >= text.len() {
            return;
        }
        let passed = place - at;
        if passed >= steps {
            return;
        }
        at = step(pass, &sight, lookup, text, lookups, place);
        steps -= passed + 1;
        place = next_place(&pass.lookup, lookup, &text.view(), at);
    }
}

// A lookup by its table along a text from a place on, and the record of the text's lookups.
#[derive(Drop)]
struct Putting<'a> {
    pass: &'a Pass<'a>,
    lookup: &'a LookupTable<'a>,
    first: usize,
    lookups: LookupRecord,
}

impl<'a> GlyphEditing for Putting<'a> {
    ghost use Rattle.std.specs.Prelude.{◌≡◌};
    ghost use Rattle.opentype_gsub.specs.PlainLookups.{ArePlain};
    ghost use Rattle.opentype_gsub.specs.Presence.{applied_from};
    ghost use Rattle.opentype_gsub.specs.Setting.{setting_of};

    ghost can_edit = { λ w gs. ArePlain w.lookup.now };

    ghost edits = { λ v w gs hs. applied_from (setting_of v.pass.now) v.lookup.now v.first gs v.lookups
        ≡ record { text = hs; lookups = w.lookups } };

    #[inline]
    fn edit(&mut self, glyphs: Vec<hb_glyph_info_t>) -> Vec<hb_glyph_info_t> {
        let mut text = GlyphText::new(glyphs);
        put_along(
            self.pass,
            self.lookup,
            &mut text,
            &mut self.lookups,
            self.first,
        );
        text.into_list()
    }
}

/// Applies a lookup whose subtables put single glyphs in, by its table and from a place on, to a
/// buffer without positions. It takes no memory.
#[inline]
pub(crate) fn apply_plain(
    pass: &Pass<'_>,
    lookup: &LookupTable<'_>,
    first: usize,
    buffer: &mut hb_buffer_t,
)
    requires plain { ArePlain lookup.now }
    requires unplaced { buffer.old.positions ≡ [] }
    ensures text { applied_from (setting_of pass.now) lookup.now first buffer.old.glyphs
        buffer.old.lookups
        ≡ record { text = buffer.new.glyphs; lookups = buffer.new.lookups } }
    ensures others { buffer.new ≡ record buffer.old {
      glyphs = buffer.new.glyphs;
      positions = [];
      lookups = buffer.new.lookups;
    } }
{
    let mut putting = Putting {
        pass,
        lookup,
        first,
        lookups: buffer.lookup_record(),
    };
    buffer.edit_outside(&mut putting);
    buffer.set_lookup_record(putting.lookups);
}

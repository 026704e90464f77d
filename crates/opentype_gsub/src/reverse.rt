//! Type 8: one glyph for one by the glyphs around it, from the end of the text to its start.
ghost use Rattle.std.specs.Prelude.{◌≡◌, ◌<◌, length};
ghost use Rattle.opentype_face.specs.Firsts.{first_from};
ghost use Rattle.opentype_face.specs.Lookups.{subtables_in};
ghost use Rattle.opentype_layout.specs.Rules.{sought};
ghost use Rattle.opentype_gsub.specs.Reversed.{all_looked_back, around_in, is_replaced, nth_looked_back, reverse_looked, tried_back, glyphs_at, nth_reversed, reversed_in, lookup_stepped_back, applied_backward};
ghost use Rattle.opentype_gsub.specs.Decided.{covered_in};
ghost use Rattle.opentype_gsub.specs.Setting.{setting_of};

use crate::decided::covered;
use crate::edits::replace;
use crate::flagging::{flag_joins, flag_stretch};
use crate::pass::{Pass, Sights};
use crate::presence::is_passed;
use opentype_face::bytes::{table_at, u16_at};
use opentype_face::lookup::{subtable, subtable_count, subtable_type};
use opentype_layout::glyph_text::{GlyphText, GlyphView};
use opentype_layout::looking::{Stretch, count, sweep_back, sweep_behind};
use opentype_layout::pattern::Pattern;
use opentype_layout::rules::Rule;
use opentype_layout::sight::number;
use opentype_layout::starts::LookupTable;

// The glyphs before and behind the one.
#[tactic(auto, unfolding(crate::specs::Reversed::around_in, opentype_layout::specs::Pattern::fits))]
fn around(bytes: &[u8]) -> Rule<'_>
    ensures { sought result ≡ around_in bytes.now }
{
    let before_count = u16_at(bytes, 4);
    let behind_at = 6 + usize::from(before_count) * 2;
    Rule {
        before: Pattern::Sets(table_at(bytes, 6), bytes),
        before_count,
        input: Pattern::Glyphs(&[]),
        input_count: 1,
        behind: Pattern::Sets(table_at(bytes, behind_at + 2), bytes),
        behind_count: u16_at(bytes, behind_at),
        records: &[],
        count: 0,
    }
}

// Where the count of the glyphs stands that come in.
#[tactic(auto, unfolding(crate::specs::Reversed::glyphs_at))]
fn place_of_glyphs(bytes: &[u8]) -> usize
    ensures value { result ≡ glyphs_at bytes.now }
    ensures few { result < 1048576 }
{
    let behind_at = 6 + usize::from(u16_at(bytes, 4)) * 2;
    behind_at + 2 + usize::from(u16_at(bytes, behind_at)) * 2
}

/// A glyph that comes in for another one.
#[derive(Clone, Copy, Debug)]
pub struct Reversal {
    /// The glyph.
    pub glyph: u16,
    /// The first glyph that the rule looked at.
    pub start: usize,
    /// The place behind the last one.
    pub stop: usize,
}

// One glyph for another, by a subtable of type 8.
#[tactic(auto, unfolding(crate::specs::Reversed::reversed_in))]
fn reversed(
    gdef: &[u8],
    sights: &Sights,
    bytes: &[u8],
    glyphs: &GlyphView<'_>,
    at: usize,
) -> Option<Reversal>
    requires { at < length glyphs.now }
    ensures { result ≡ reversed_in gdef.now sights.now bytes.now glyphs.now at }
{
    if u16_at(bytes, 0) != 1 {
        return None;
    }
    let Some(i) = covered(bytes, number(glyphs.at(at))) else {
        return None;
    };
    let from = place_of_glyphs(bytes);
    if i >= u32::from(u16_at(bytes, from)) {
        return None;
    }
    let (input, context) = (&sights.input, &sights.context);
    match around(bytes).fit(gdef, input, context, glyphs, at) {
        Some(matched) => Some(Reversal {
            glyph: u16_at(bytes, from + 2 + i as usize * 2),
            start: matched.start,
            stop: matched.stop,
        }),
        None => None,
    }
}

// The stretch that a subtable looked at that doesn't fit.
#[tactic(auto, unfolding(crate::specs::Reversed::reverse_looked))]
fn look_around(
    gdef: &[u8],
    sights: &Sights,
    bytes: &[u8],
    glyphs: &GlyphView<'_>,
    at: usize,
) -> Stretch
    requires { at < length glyphs.now }
    ensures { result ≡ reverse_looked gdef.now sights.now bytes.now glyphs.now at }
{
    let (rule, context) = (around(bytes), &sights.context);
    let before = sweep_back(gdef, context, &rule.before, rule.before_count, glyphs, at);
    if before.found != rule.before_count {
        return Stretch::none(at);
    }
    let behind = sweep_behind(
        gdef,
        context,
        &rule.behind,
        rule.behind_count,
        glyphs,
        glyphs.after(at),
    );
    if behind.found == rule.behind_count {
        return Stretch::none(at);
    }
    let len = glyphs.len();
    count(at, len, len, at.saturating_sub(before.to), behind.to)
}

// Whether a subtable has a glyph to put in.
fn replaces(bytes: &[u8], glyph: u16) -> bool
    ensures { result ≡ is_replaced bytes.now (covered_in bytes.now glyph) }
{
    match covered(bytes, glyph) {
        Some(i) => i < u32::from(u16_at(bytes, place_of_glyphs(bytes))),
        None => false,
    }
}

// The stretch that one of a lookup's subtables looked at that doesn't fit.
#[tactic(auto, unfolding(crate::specs::Reversed::nth_looked_back))]
fn look(
    gdef: &[u8],
    sights: &Sights,
    lookup: &[u8],
    i: u16,
    glyphs: &GlyphView<'_>,
    at: usize,
) -> Stretch
    requires { at < length glyphs.now }
    ensures { result ≡ nth_looked_back gdef.now sights.now lookup.now glyphs.now at i }
{
    if subtable_type(7, lookup, i) != 8 {
        return Stretch::none(at);
    }
    let bytes = subtable(7, lookup, i);
    if u16_at(bytes, 0) != 1 {
        return Stretch::none(at);
    }
    if replaces(bytes, number(glyphs.at(at))) {
        look_around(gdef, sights, bytes, glyphs, at)
    } else {
        Stretch::none(at)
    }
}

// The stretch that the subtables of a lookup looked at, up to the first that fits.
fn look_among(
    gdef: &[u8],
    sights: &Sights,
    lookup: &[u8],
    glyphs: &GlyphView<'_>,
    at: usize,
) -> Stretch
    requires { at < length glyphs.now }
    ensures { result ≡ all_looked_back gdef.now sights.now lookup.now glyphs.now at }
{
    let mut looked = Stretch::none(at);
    for i in 0..subtable_count(lookup) {
        looked = looked.join(look(gdef, sights, lookup, i, glyphs, at));
        if nth(gdef, sights, lookup, i, glyphs, at).is_some() {
            return looked;
        }
    }
    looked
}

// Flags what a lookup looks at that doesn't fit a place, where that is wanted.
#[tactic(auto, unfolding(crate::specs::Reversed::tried_back))]
fn flag_tried(pass: &Pass<'_>, lookup: &[u8], text: &mut GlyphText, at: usize)
    requires { at < length text.old }
    ensures { text.new ≡ tried_back (setting_of pass.now) lookup.now text.old at }
{
    if !pass.concat {
        return;
    }
    let gdef = pass.classes.gdef;
    let sights = pass.lookup.sights(gdef, lookup, text.at(at));
    let looked = look_among(gdef, &sights, lookup, &text.view(), at);
    flag_joins(text, looked);
}

// One glyph for another, by one of a lookup's subtables.
#[tactic(auto, unfolding(crate::specs::Reversed::nth_reversed))]
fn nth(
    gdef: &[u8],
    sights: &Sights,
    lookup: &[u8],
    i: u16,
    glyphs: &GlyphView<'_>,
    at: usize,
) -> Option<Reversal>
    requires { at < length glyphs.now }
    ensures { result ≡ nth_reversed gdef.now sights.now lookup.now glyphs.now at i }
{
    if subtable_type(7, lookup, i) != 8 {
        return None;
    }
    reversed(gdef, sights, subtable(7, lookup, i), glyphs, at)
}

// One glyph for another, by the first subtable that fits.
fn first(
    gdef: &[u8],
    sights: &Sights,
    lookup: &[u8],
    glyphs: &GlyphView<'_>,
    at: usize,
) -> Option<Reversal>
    requires { at < length glyphs.now }
    ensures { result ≡ first_from (subtables_in lookup.now)
        (nth_reversed gdef.now sights.now lookup.now glyphs.now at) 0 }
{
    for i in 0..subtable_count(lookup) {
        let found = nth(gdef, sights, lookup, i, glyphs, at);
        if found.is_some() {
            return found;
        }
    }
    None
}

// What a lookup does at a place.
#[tactic(auto, unfolding(crate::specs::Reversed::lookup_stepped_back))]
fn step_back(pass: &Pass<'_>, lookup: &LookupTable<'_>, text: &mut GlyphText, at: usize)
    requires { at < length text.old }
    ensures value { text.new ≡ lookup_stepped_back (setting_of pass.now) lookup.now text.old at }
    ensures length { length text.new ≡ length text.old }
{
    let glyph = *text.at(at);
    if is_passed(&pass.lookup, lookup, &glyph) {
        return;
    }
    let bytes = lookup.bytes();
    if !pass.lookup.sees(pass.classes.gdef, bytes, &glyph) {
        return;
    }
    let sights = pass.lookup.sights(pass.classes.gdef, bytes, &glyph);
    flag_tried(pass, bytes, text, at);
    if let Some(it) = first(pass.classes.gdef, &sights, bytes, &text.view(), at) {
        let len = text.len();
        flag_stretch(text, len, it.start, it.stop);
        replace(&pass.classes, text, at, it.glyph, 0);
    }
}

/// Applies a lookup by its table from the last glyph of a text to its first one.
pub fn apply_backward(pass: &Pass<'_>, lookup: &LookupTable<'_>, text: &mut GlyphText)
    ensures { text.new ≡ applied_backward (length text.old)
        (lookup_stepped_back (setting_of pass.now) lookup.now) text.old }
{
    for at in (0..text.len()).rev() {
        step_back(pass, lookup, text, at);
    }
}

//! Which flags of concatenation a lookup sets at a place, by the rules that don't fit there.
ghost use Rattle.std.specs.Prelude.{◌≡◌, ◌<◌, length, is_some};
ghost use Rattle.std.specs.Option.{option_map};
ghost use Rattle.opentype_gsub.specs.Applied.{alternate_put, chosen_put, ligated_put, multiple_put, one_put, random_put, single_put};
ghost use Rattle.opentype_gsub.specs.Looked.{lookup_looked, rules_in, subtable_looked, tried};
ghost use Rattle.opentype_gsub.specs.Came.{nth_came};
ghost use Rattle.opentype_gsub.specs.Setting.{setting_of, sights_of};
ghost use Rattle.opentype_layout.specs.Looking.{rule_list, unjoined};
ghost use Rattle.opentype_layout.specs.Text.{glyph_at};
ghost use Rattle.shapers_buffer.specs.declared.buffer.lookup_record.LookupRecord.{LookupRecord};

use crate::apply::{is_random, value};
use crate::decided::{alternate, set_of, single};
use crate::flagging::flag_joins;
use crate::matching::first_fitting;
use crate::pass::{Pass, Sights};
use opentype_face::bytes::u16_at;
use opentype_face::lookup::{subtable, subtable_count, subtable_type};
use opentype_layout::glyph_text::{GlyphText, GlyphView};
use opentype_layout::looking::{RuleSet, Stretch, context_rules};
use opentype_layout::rules::find_rule;
use opentype_layout::sight::number;

// Whether a subtable of type 4 has a ligature that fits a place.
#[tactic(auto, unfolding(crate::specs::Applied::ligated_put))]
fn ligates(
    pass: &Pass<'_>,
    sights: &Sights,
    bytes: &[u8],
    glyphs: &GlyphView<'_>,
    at: usize,
) -> bool
    requires { at < length glyphs.now }
    ensures { let s = setting_of pass.now in
        (r : LookupRecord) → result
        ≡ is_some (ligated_put s.gdef s.level sights.now.input bytes.now glyphs.now at r) }
{
    match set_of(bytes, number(glyphs.at(at))) {
        Some(set) => first_fitting(pass.classes.gdef, &sights.input, set, glyphs, at).is_some(),
        None => false,
    }
}

// Whether a subtable of type 3 has an alternate for the glyph at a place.
#[tactic(auto, unfolding(crate::specs::Applied::chosen_put, crate::specs::Applied::random_put, crate::specs::Applied::alternate_put))]
fn alternates(
    pass: &Pass<'_>,
    sights: &Sights,
    bytes: &[u8],
    glyphs: &GlyphView<'_>,
    at: usize,
) -> bool
    requires { at < length glyphs.now }
    ensures { (r : LookupRecord) → result
        ≡ is_some (chosen_put (setting_of pass.now) sights.now.input bytes.now glyphs.now at r) }
{
    let glyph = number(glyphs.at(at));
    if is_random(pass.lookup.random, &sights.input, glyphs.at(at)) {
        return match set_of(bytes, glyph) {
            Some(set) => u16_at(set, 0) != 0,
            None => false,
        };
    }
    alternate(bytes, glyph, value(&sights.input, glyphs.at(at))).is_some()
}

// Whether a subtable of types 1 to 4 does something at a place.
#[tactic(auto, unfolding(crate::specs::Applied::one_put, crate::specs::Applied::single_put, crate::specs::Applied::multiple_put))]
fn applies(
    pass: &Pass<'_>,
    sights: &Sights,
    kind: u16,
    bytes: &[u8],
    glyphs: &GlyphView<'_>,
    at: usize,
) -> bool
    requires { at < length glyphs.now }
    ensures { let s = setting_of pass.now in
        (r : LookupRecord) → result
        ≡ is_some (one_put s sights.now.input kind bytes.now glyphs.now at r) }
{
    match kind {
        1 => single(bytes, number(glyphs.at(at))).is_some(),
        2 => set_of(bytes, number(glyphs.at(at))).is_some(),
        3 => alternates(pass, sights, bytes, glyphs, at),
        4 => ligates(pass, sights, bytes, glyphs, at),
        _ => false,
    }
}

// Whether one of a lookup's subtables does something at a place.
#[tactic(auto, unfolding(crate::specs::Came::nth_came))]
fn comes(
    pass: &Pass<'_>,
    sights: &Sights,
    lookup: &[u8],
    i: u16,
    glyphs: &GlyphView<'_>,
    at: usize,
) -> bool
    requires { at < length glyphs.now }
    ensures { let s = setting_of pass.now in
        (r : LookupRecord) → result
        ≡ is_some (nth_came s sights.now lookup.now at glyphs.now r i) }
{
    let kind = subtable_type(7, lookup, i);
    let bytes = subtable(7, lookup, i);
    if kind == 5 || kind == 6 {
        let (input, context) = (&sights.input, &sights.context);
        return find_rule(
            kind == 6,
            pass.classes.gdef,
            input,
            context,
            bytes,
            None,
            glyphs,
            at,
        )
        .is_some();
    }
    applies(pass, sights, kind, bytes, glyphs, at)
}

// The rules that a subtable has for a glyph.
#[tactic(auto, unfolding(crate::specs::Looked::rules_in, opentype_layout::specs::Looking::rule_list))]
pub fn rules<'a>(kind: u16, bytes: &'a [u8], glyph: u16) -> Option<RuleSet<'a>>
    ensures { option_map (λ set. rule_list set) result ≡ rules_in kind bytes.now glyph }
{
    match kind {
        4 => match set_of(bytes, glyph) {
            Some(set) => Some(RuleSet::Ligatures(set)),
            None => None,
        },
        5 => context_rules(false, bytes, glyph),
        6 => context_rules(true, bytes, glyph),
        _ => None,
    }
}

// The stretch that the rules of a subtable looked at, up to the first that fits.
#[tactic(auto, unfolding(crate::specs::Looked::subtable_looked))]
fn look_by(
    pass: &Pass<'_>,
    sights: &Sights,
    lookup: &[u8],
    i: u16,
    glyphs: &GlyphView<'_>,
    at: usize,
) -> Stretch
    requires { at < length glyphs.now }
    ensures { result ≡ subtable_looked (setting_of pass.now) sights.now lookup.now glyphs.now at i }
{
    let kind = subtable_type(7, lookup, i);
    match rules(kind, subtable(7, lookup, i), number(glyphs.at(at))) {
        Some(rules) => {
            let (input, context) = (&sights.input, &sights.context);
            rules.look(pass.classes.gdef, input, context, pass.len, glyphs, at)
        }
        None => Stretch::none(at),
    }
}

// The stretch that the subtables of a lookup looked at, up to the first that does something.
fn look_among(
    pass: &Pass<'_>,
    sights: &Sights,
    lookup: &[u8],
    glyphs: &GlyphView<'_>,
    at: usize,
) -> Stretch
    requires { at < length glyphs.now }
    ensures { result ≡ lookup_looked (setting_of pass.now) sights.now lookup.now glyphs.now at }
{
    let mut looked = Stretch::none(at);
    for i in 0..subtable_count(lookup) {
        looked = looked.join(look_by(pass, sights, lookup, i, glyphs, at));
        if comes(pass, sights, lookup, i, glyphs, at) {
            return looked;
        }
    }
    looked
}

// Flags what a lookup's rules look at that don't fit a place. (Few callers want that.)
#[inline(never)]
fn flag_looked(pass: &Pass<'_>, lookup: &[u8], text: &mut GlyphText, at: usize)
    requires { at < length text.old }
    ensures { let s = setting_of pass.now in
        let sights = sights_of s.gdef s.lookup lookup.now (glyph_at text.old at) in
        text.new ≡ unjoined (lookup_looked s sights lookup.now text.old at) text.old }
{
    let sights = pass.lookup.sights(pass.classes.gdef, lookup, text.at(at));
    let looked = look_among(pass, &sights, lookup, &text.view(), at);
    flag_joins(text, looked);
}

/// The same where that is wanted.
#[inline]
#[tactic(auto, unfolding(crate::specs::Looked::tried))]
pub(crate) fn flag_tried(pass: &Pass<'_>, lookup: &[u8], text: &mut GlyphText, at: usize)
    ensures { text.new ≡ tried (setting_of pass.now) lookup.now text.old at }
{
    if !pass.concat {
        return;
    }
    if at >= text.len() {
        return;
    }
    flag_looked(pass, lookup, text, at);
}

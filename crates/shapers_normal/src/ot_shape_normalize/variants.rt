//! Variation selectors: a character and a selector become one glyph, if the font has it.
ghost use Rattle.std.specs.Prelude.{◌≡◌, ◌<◌, ◌≤◌, ◌+◌, ◌++◌, drop, length, map, vec_capacity, None, IfSome};
ghost use Rattle.std.specs.List.{list_any, prefix_len};
ghost use Rattle.shapers_normal.specs.Variants.{form_written, forms_written, has_variant_at, is_kept_cluster, is_selector_behind, is_selector_glyph, selecting_nothing, selects_form, variant_joined, variants_joined, with_number};

use super::context::NormalizeContext;
use super::decomposing::{push_within, rest_from};
use super::sorting::{is_mark, join_in};
use shapers_base::buffer::{
    BufferClusterLevel, GlyphProps, hb_glyph_info_t, hb_unicode_general_category_t,
};

// What the byte of a mark's class holds of a selector that selects nothing, by HarfBuzz's number.
const SELECTOR: u8 = 4;

// Whether a character selects a form of the one before it.
#[inline]
fn selects_form(c: u32) -> bool
    ensures { result ≡ selects_form c }
{
    matches!(c, 0xFE00..=0xFE0F | 0xE0100..=0xE01EF)
}

// Whether a glyph is a selector.
#[inline]
pub(super) fn is_selector(glyph: &hb_glyph_info_t) -> bool
    ensures { result ≡ is_selector_glyph glyph.now }
{
    selects_form(glyph.glyph_id)
}

// Whether one of these glyphs is a selector.
#[inline]
pub(super) fn has_selector(glyphs: &[hb_glyph_info_t]) -> bool
    ensures { result ≡ list_any is_selector_glyph glyphs.now }
{
    glyphs.iter().any(is_selector)
}

// Whether a cluster is kept as it is: one of its glyphs is a selector, and it has others.
#[inline]
pub(super) fn is_kept(cluster: &[hb_glyph_info_t]) -> bool
    ensures { result ≡ is_kept_cluster cluster.now }
{
    cluster.len() != 1 && has_selector(cluster)
}

// Brings each character and its selector that one glyph stands for into one cluster.
pub(super) fn join_variants<C: NormalizeContext>(
    context: &C,
    level: BufferClusterLevel,
    glyphs: &mut [hb_glyph_info_t],
)
    ensures { glyphs.new ≡ variants_joined (C.context context.now) level glyphs.old }
{
    for i in 0..glyphs.len().saturating_sub(1) {
        join_variant(context, level, glyphs, i);
    }
}

// Brings the character at `i` and the selector behind it into one cluster, if one glyph stands for
// both.
#[inline]
fn join_variant<C: NormalizeContext>(
    context: &C,
    level: BufferClusterLevel,
    glyphs: &mut [hb_glyph_info_t],
    i: usize,
)
    requires in_range { i + 1 < length glyphs.old }
    ensures { glyphs.new ≡ variant_joined (C.context context.now) level glyphs.old i }
{
    if has_variant_at(context, glyphs, i) {
        join_in(level, glyphs, i, i + 2);
    }
}

// Whether one glyph stands for the character at `i` and the selector behind it.
#[inline]
fn has_variant_at<C: NormalizeContext>(context: &C, glyphs: &[hb_glyph_info_t], i: usize) -> bool
    requires in_range { i + 1 < length glyphs.now }
    ensures { result ≡ has_variant_at (C.context context.now) glyphs.now i }
{
    let selector = &glyphs[i + 1];
    is_mark(selector)
        && is_selector(selector)
        && !is_selector_behind(glyphs, i)
        && context
            .get_variation_glyph(glyphs[i].glyph_id, selector.glyph_id)
            .is_some()
}

// Whether the glyph at `i` is a selector that follows a glyph.
#[inline]
fn is_selector_behind(glyphs: &[hb_glyph_info_t], i: usize) -> bool
    requires in_range { i < length glyphs.now }
    ensures { result ≡ is_selector_behind glyphs.now i }
{
    i > 0 && is_mark(&glyphs[i]) && is_selector(&glyphs[i])
}

// How much of the room is left behind a cluster that is kept, if there is enough.
pub(super) fn room_behind_forms<C: NormalizeContext>(
    context: &C,
    cluster: &[hb_glyph_info_t],
    room: usize,
) -> Option<usize>
    ensures left { let text = forms_written (C.context context.now) cluster.now in
        IfSome result (λ left. left + length text ≡ room) }
    ensures none { let text = forms_written (C.context context.now) cluster.now in
        result ≡ None → room < length text }
{
    let mut left = room;
    let mut start = 0;
    while start < cluster.len() {
        let end = start + form_len(rest_from(cluster, start));
        let len = len_of_form(context, &cluster[start..end]);
        if left < len {
            return None;
        }
        left -= len;
        start = end;
    }
    Some(left)
}

// Adds a cluster that is kept.
pub(super) fn write_forms<C: NormalizeContext>(
    context: &C,
    cluster: &[hb_glyph_info_t],
    to: &mut Vec<hb_glyph_info_t>,
)
    requires room { let text = forms_written (C.context context.now) cluster.now in
        length to.old.items + length text ≤ vec_capacity to.old }
    ensures added { let text = forms_written (C.context context.now) cluster.now in
        to.new.items ≡ to.old.items ++ text }
    ensures capacity { vec_capacity to.old ≤ vec_capacity to.new }
{
    let mut start = 0;
    while start < cluster.len() {
        let end = start + form_len(rest_from(cluster, start));
        write_form(context, &cluster[start..end], to);
        start = end;
    }
}

// How many glyphs stand in front that are a character and the selectors behind it.
#[inline]
fn form_len(glyphs: &[hb_glyph_info_t]) -> usize
    requires { 0 < length glyphs.now }
    ensures len { result ≡ 1 + prefix_len is_selector_glyph (drop 1 glyphs.now) }
    ensures within { result ≤ length glyphs.now }
{
    1 + count_selectors(&glyphs[1..])
}

// How many selectors begin the list.
#[inline]
fn count_selectors(glyphs: &[hb_glyph_info_t]) -> usize
    ensures count { result ≡ prefix_len is_selector_glyph glyphs.now }
    ensures few { result ≤ length glyphs.now }
{
    glyphs.iter().take_while(|glyph| is_selector(glyph)).count()
}

// How many glyphs a character and its selectors become.
#[inline]
fn len_of_form<C: NormalizeContext>(context: &C, form: &[hb_glyph_info_t]) -> usize
    ensures { result ≡ length (form_written (C.context context.now) form.now) }
{
    let [glyph, selector, ..] = form else {
        return form.len();
    };
    match context.get_variation_glyph(glyph.glyph_id, selector.glyph_id) {
        Some(_) => form.len() - 1,
        None => form.len(),
    }
}

// Adds what a character and its selectors become.
#[inline]
fn write_form<C: NormalizeContext>(
    context: &C,
    form: &[hb_glyph_info_t],
    to: &mut Vec<hb_glyph_info_t>,
)
    requires room { let text = form_written (C.context context.now) form.now in
        length to.old.items + length text ≤ vec_capacity to.old }
    ensures added { let text = form_written (C.context context.now) form.now in
        to.new.items ≡ to.old.items ++ text }
    ensures capacity { vec_capacity to.old ≤ vec_capacity to.new }
{
    let [glyph, selector, more @ ..] = form else {
        write_kept(context, form, to);
        return;
    };
    match context.get_variation_glyph(glyph.glyph_id, selector.glyph_id) {
        Some(variant) => {
            push_within(
                to,
                hb_glyph_info_t {
                    glyph_props: GlyphProps(variant.0),
                    ..*glyph
                },
            );
        }
        None => {
            push_within(to, with_number(context, *glyph));
            push_within(
                to,
                with_number(context, selecting_nothing(context, *selector)),
            );
        }
    }
    write_kept(context, more, to);
}

// Adds glyphs that stay.
#[inline]
fn write_kept<C: NormalizeContext>(
    context: &C,
    glyphs: &[hb_glyph_info_t],
    to: &mut Vec<hb_glyph_info_t>,
)
    requires room { length to.old.items + length glyphs.now ≤ vec_capacity to.old }
    ensures added { let kept = with_number (C.context context.now) in
        to.new.items ≡ to.old.items ++ map kept glyphs.now }
    ensures capacity { vec_capacity to.old ≤ vec_capacity to.new }
{
    for glyph in glyphs {
        push_within(to, with_number(context, *glyph));
    }
}

// A glyph with the number of its character's glyph, if the font has one.
#[inline]
pub(super) fn with_number<C: NormalizeContext>(
    context: &C,
    glyph: hb_glyph_info_t,
) -> hb_glyph_info_t
    ensures { result ≡ with_number (C.context context.now) glyph }
{
    match context.get_nominal_glyph(glyph.glyph_id) {
        Some(own) => hb_glyph_info_t {
            glyph_props: GlyphProps(own.0),
            ..glyph
        },
        None => glyph,
    }
}

// A selector that selects nothing.
#[inline]
fn selecting_nothing<C: NormalizeContext>(context: &C, glyph: hb_glyph_info_t) -> hb_glyph_info_t
    ensures { result ≡ selecting_nothing (C.context context.now) glyph }
{
    let mut unicode_props = glyph.unicode_props;
    unicode_props.set_general_category(hb_unicode_general_category_t::Cf);
    unicode_props.set_high_byte(SELECTOR);
    if context.draws_selectors() {
        unicode_props.set_ignorable(false);
    }
    hb_glyph_info_t {
        unicode_props,
        ..glyph
    }
}

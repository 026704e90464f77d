//! The first round: characters come apart, as far as the font has the parts, and get their glyphs.
ghost use Rattle.std.specs.Prelude.{◌≡◌, ◌<◌, ◌≤◌, ◌+◌, ◌++◌, ◌∷◌, [], length, map, drop, vec_capacity, if◌then◌else◌, ◌==◌, ◌||◌, ◌&&◌, false, None, IfSome, IfOk, IfErr, IsOk, OnOk, OnErr, true};
ghost use Rattle.std.specs.List.{flat_map, list_all, prefix_len};
ghost use Rattle.shapers_buffer.specs.Refusals.{RefusesLength};
ghost use Rattle.shapers_buffer.specs.declared.buffer.refusal.ShaperError.TheVariants.{TooLong};
ghost use Rattle.shapers_normal.specs.Decomposition.{apart_in, as_part, becomes, cluster_becomes, cluster_stays, first_round, is_whole, mark_clusters, stays_alone, stays_together, text_decomposed, drawn_space, image, is_short_alone, is_short_with_marks, is_space_separator, glyph_number, with_own_glyph, space_kind, apart_way, without_glyph};
ghost use Rattle.shapers_normal.specs.Context.{has_glyph};
ghost use Rattle.shapers_normal.specs.DecompositionWalk.{or_base_alone, stays_unselected, then_come_off};
ghost use Rattle.shapers_normal.specs.declared.ot_shape_normalize.decomposing.Way.TheVariants.{Short, Whole};
ghost use Rattle.shapers_normal.specs.Sorting.{is_mark_glyph};

use super::context::NormalizeContext;
use super::properties::set_character;
use super::sorting::is_mark;
use super::variants::{
    has_selector, is_kept, is_selector, join_variants, room_behind_forms, with_number, write_forms,
};
use arrayvec::ArrayVec;
use shapers_base::buffer::{
    BufferClusterLevel, GlyphChange, GlyphProps, GlyphRewriting, ShaperError, hb_buffer_t,
    hb_glyph_info_t, hb_unicode_general_category_t,
};
use shapers_base::font::GlyphId;
use shapers_base::plan::NormalizationMode;

/// How many steps a character comes apart in at most: Unicode's longest canonical decomposition
/// takes three.
pub const MAX_STEPS: usize = 8;

// A base, and what came off in so many steps.
const MAX_PARTS: usize = 9;

// How the characters of a cluster come apart: in as few steps as the font has a base for, if it
// lacks the character, or in as many.
#[derive(Clone, Copy)]
enum Way {
    Short,
    Whole,
}

type Parts = ArrayVec<u32, MAX_PARTS>;

/// Takes the characters of a text apart, as far as the font has the parts, and writes the number of
/// each character's glyph to `glyph_props`. A character alone that the font has stays, unless the
/// shaper wants letters and marks apart; one with marks comes apart, unless the shaper wants no
/// normalization. Parts keep the cluster of what they came from. A cluster with a variation
/// selector stays; the font's glyph for a character and a selector stands for both. Refuses by the
/// number of glyphs, and then nothing has changed. A text of which nothing comes apart takes no
/// memory.
#[tactic(auto, using(crate::proofs::Viewed::first_round_length, crate::proofs::WholeTexts::whole_round, crate::proofs::WholeTexts::whole_length, crate::proofs::StayingTexts::staying_round, crate::proofs::StayingTexts::staying_length))]
pub fn decompose<C: NormalizeContext>(
    context: &C,
    buffer: &mut hb_buffer_t,
) -> Result<(), ShaperError>
    requires { buffer.old.positions ≡ [] }
    ensures ok { let context = C.context context.now in
        let text = first_round context buffer.old.level buffer.old.glyphs in
        OnOk result (buffer.new ≡ record buffer.old { glyphs = text }) }
    ensures length { let context = C.context context.now in
        let text = first_round context buffer.old.level buffer.old.glyphs in
        RefusesLength buffer.old.max_len (length text) result }
    ensures memory { is_whole (C.context context.now) buffer.old.glyphs ≡ true → IsOk result }
    ensures in_place { let context = C.context context.now in
        stays_together context buffer.old.glyphs ≡ true → IsOk result }
    ensures err { OnErr result (buffer.new ≡ buffer.old) }
{
    // so that a return without a rewrite keeps the promise on lengths, too
    prove!(buffer.len() <= buffer.max_len());
    if is_whole(context, buffer.glyphs()) {
        // (a context that panics leaves the empty buffer, and no text with some of its numbers)
        buffer.change_outside(&Numbering { context });
        return Ok(());
    }
    if stays_together(context, buffer.glyphs()) {
        buffer.change_outside(&Mapping { context });
        return Ok(());
    }
    let len = measure(context, buffer.glyphs(), buffer.max_len())?;
    let level = buffer.cluster_level();
    buffer.rewrite(len, &Decomposing { context, level })
}

// Whether a text gets its glyphs and nothing else: no glyph is a mark, the font has each character,
// and the shaper leaves letters whole.
#[inline]
fn is_whole<C: NormalizeContext>(context: &C, glyphs: &[hb_glyph_info_t]) -> bool
    ensures { result ≡ is_whole (C.context context.now) glyphs.now }
{
    is_short_alone(context.normalization_preference()) && all_stay_alone(context, glyphs)
}

// Whether each of these glyphs is no mark, and the font has its character.
#[inline]
fn all_stay_alone<C: NormalizeContext>(context: &C, glyphs: &[hb_glyph_info_t]) -> bool
    ensures { result ≡ list_all (stays_alone (C.context context.now)) glyphs.now }
{
    glyphs.iter().all(|glyph| stays_alone(context, glyph))
}

// Whether a glyph is no mark, and the font has its character.
#[inline]
fn stays_alone<C: NormalizeContext>(context: &C, glyph: &hb_glyph_info_t) -> bool
    ensures { result ≡ stays_alone (C.context context.now) glyph.now }
{
    !is_mark(glyph) && context.has_glyph(glyph.glyph_id)
}

// Gives each character its glyph.
#[derive(Drop)]
struct Numbering<'a, C: NormalizeContext> {
    context: &'a C,
}

impl<'a, C: NormalizeContext> GlyphChange for Numbering<'a, C> {
    ghost use Rattle.shapers_normal.specs.Variants.{with_number};

    ghost changed = { λ n g. with_number (C.context n.context.now) g };

    #[inline]
    fn change(&self, glyph: &mut hb_glyph_info_t) {
        *glyph = with_number(self.context, *glyph);
    }
}

// Whether nothing comes apart: no glyph is a selector, and each character stays. Most shapers want all
// characters one way, whatever their clusters.
#[inline]
fn stays_together<C: NormalizeContext>(context: &C, glyphs: &[hb_glyph_info_t]) -> bool
    ensures { result ≡ stays_together (C.context context.now) glyphs.now }
{
    match context.normalization_preference() {
        NormalizationMode::NONE => all_stay(context, Way::Short, glyphs),
        NormalizationMode::AUTO => !has_selector(glyphs) && each_cluster_stays(context, glyphs),
        NormalizationMode::CD => all_stay(context, Way::Whole, glyphs),
    }
}

// Whether each cluster's characters stay.
fn each_cluster_stays<C: NormalizeContext>(context: &C, glyphs: &[hb_glyph_info_t]) -> bool
    ensures { result ≡ list_all (cluster_stays (C.context context.now)) (mark_clusters glyphs.now) }
{
    let mut start = 0;
    while start < glyphs.len() {
        let end = start + cluster_len(rest_from(glyphs, start));
        if !cluster_stays(context, &glyphs[start..end]) {
            return false;
        }
        start = end;
    }
    true
}

// Whether each character of a cluster stays.
#[inline]
fn cluster_stays<C: NormalizeContext>(context: &C, cluster: &[hb_glyph_info_t]) -> bool
    ensures { result ≡ cluster_stays (C.context context.now) cluster.now }
{
    let way = way_of(context, cluster);
    cluster
        .iter()
        .all(|glyph| stays(context, way, glyph.glyph_id))
}

// Whether each of these characters is no selector and stays, one way or the other.
#[inline]
fn all_stay<C: NormalizeContext>(context: &C, way: Way, glyphs: &[hb_glyph_info_t]) -> bool
    ensures { let context = C.context context.now in
        result ≡ list_all (stays_unselected context way) glyphs.now }
{
    glyphs
        .iter()
        .all(|glyph| stays_unselected(context, way, glyph))
}

// Whether a glyph is no selector, and its character stays, one way or the other.
#[inline]
fn stays_unselected<C: NormalizeContext>(context: &C, way: Way, glyph: &hb_glyph_info_t) -> bool
    ensures { result ≡ stays_unselected (C.context context.now) way glyph.now }
{
    !is_selector(glyph) && stays(context, way, glyph.glyph_id)
}

// Whether a character stays, one way or the other: most do, and then no list is made of its parts.
#[inline]
fn stays<C: NormalizeContext>(context: &C, way: Way, c: u32) -> bool
    ensures { result ≡ (length (image (C.context context.now) way c) == 0) }
{
    match way {
        Way::Short => context.has_glyph(c) || come_apart(context, true, c, MAX_STEPS).is_empty(),
        Way::Whole => {
            context.decompose(c).is_none() || come_apart(context, false, c, MAX_STEPS).is_empty()
        }
    }
}

// Gives each character that stays its glyph.
#[derive(Drop)]
struct Mapping<'a, C: NormalizeContext> {
    context: &'a C,
}

impl<'a, C: NormalizeContext> GlyphChange for Mapping<'a, C> {
    ghost use Rattle.shapers_normal.specs.Decomposition.{with_own_glyph};

    ghost changed = { λ s g. with_own_glyph (C.context s.context.now) g };

    #[inline]
    fn change(&self, glyph: &mut hb_glyph_info_t) {
        map_in_place(self.context, glyph);
    }
}

// Gives a character that stays its glyph. (The rest of it isn't moved.)
#[inline]
fn map_in_place<C: NormalizeContext>(context: &C, glyph: &mut hb_glyph_info_t)
    ensures { glyph.new ≡ with_own_glyph (C.context context.now) glyph.old }
{
    match context.get_nominal_glyph(glyph.glyph_id) {
        Some(own) => glyph.glyph_props = GlyphProps(own.0),
        None => *glyph = without_glyph(context, *glyph),
    }
}

// Takes a text apart.
#[derive(Drop)]
struct Decomposing<'a, C: NormalizeContext> {
    context: &'a C,
    level: BufferClusterLevel,
}

impl<'a, C: NormalizeContext> GlyphRewriting for Decomposing<'a, C> {
    ghost use Rattle.std.specs.Prelude.{⊤};
    ghost use Rattle.shapers_normal.specs.Decomposition.{first_round};

    ghost can_rewrite = { λ r gs. ⊤ };

    ghost rewrites = { λ r gs. first_round (C.context r.context.now) r.level gs };

    #[inline]
    fn rewrite(&self, glyphs: &mut [hb_glyph_info_t], to: &mut Vec<hb_glyph_info_t>) {
        join_variants(self.context, self.level, glyphs);
        write_text(self.context, glyphs, to);
    }
}

// How long the text will be. Refuses where that passes the limit, and for nothing else.
fn measure<C: NormalizeContext>(
    context: &C,
    glyphs: &[hb_glyph_info_t],
    limit: usize,
) -> Result<usize, ShaperError>
    ensures length { let text = text_decomposed (C.context context.now) glyphs.now in
        RefusesLength limit (length text) result }
    ensures exact { let text = text_decomposed (C.context context.now) glyphs.now in
        IfOk result (λ len. len ≡ length text) }
    ensures refusal { IfErr result (λ e. e ≡ TooLong) }
{
    let mut room = limit;
    let mut start = 0;
    while start < glyphs.len() {
        let end = start + cluster_len(rest_from(glyphs, start));
        match room_behind(context, &glyphs[start..end], room) {
            Some(left) => room = left,
            None => return Err(ShaperError::TooLong),
        }
        start = end;
    }
    Ok(limit - room)
}

// How much of the room is left behind what a cluster becomes, if there is enough.
#[inline]
fn room_behind<C: NormalizeContext>(
    context: &C,
    cluster: &[hb_glyph_info_t],
    room: usize,
) -> Option<usize>
    ensures left { let text = cluster_becomes (C.context context.now) cluster.now in
        IfSome result (λ left. left + length text ≡ room) }
    ensures none { let text = cluster_becomes (C.context context.now) cluster.now in
        result ≡ None → room < length text }
{
    if is_kept(cluster) {
        return room_behind_forms(context, cluster, room);
    }
    room_behind_parts(context, way_of(context, cluster), cluster, room)
}

// How much of the room is left behind what the glyphs become, if there is enough.
#[inline]
fn room_behind_parts<C: NormalizeContext>(
    context: &C,
    way: Way,
    glyphs: &[hb_glyph_info_t],
    room: usize,
) -> Option<usize>
    ensures left { let text = flat_map (becomes (C.context context.now) way) glyphs.now in
        IfSome result (λ left. left + length text ≡ room) }
    ensures none { let text = flat_map (becomes (C.context context.now) way) glyphs.now in
        result ≡ None → room < length text }
{
    let mut left = room;
    for glyph in glyphs {
        let len = len_of(context, way, glyph);
        if left < len {
            return None;
        }
        left -= len;
    }
    Some(left)
}

// How many glyphs a glyph becomes.
#[inline]
fn len_of<C: NormalizeContext>(context: &C, way: Way, glyph: &hb_glyph_info_t) -> usize
    ensures { result ≡ length (becomes (C.context context.now) way glyph.now) }
{
    image(context, way, glyph.glyph_id).len().max(1)
}

// Adds what the text becomes.
fn write_text<C: NormalizeContext>(
    context: &C,
    glyphs: &[hb_glyph_info_t],
    to: &mut Vec<hb_glyph_info_t>,
)
    requires room { let text = text_decomposed (C.context context.now) glyphs.now in
        length to.old.items + length text ≤ vec_capacity to.old }
    ensures added { let text = text_decomposed (C.context context.now) glyphs.now in
        to.new.items ≡ to.old.items ++ text }
    ensures capacity { vec_capacity to.old ≤ vec_capacity to.new }
{
    let mut start = 0;
    while start < glyphs.len() {
        let end = start + cluster_len(rest_from(glyphs, start));
        write_cluster(context, &glyphs[start..end], to);
        start = end;
    }
}

// Adds what a cluster becomes.
#[inline]
fn write_cluster<C: NormalizeContext>(
    context: &C,
    cluster: &[hb_glyph_info_t],
    to: &mut Vec<hb_glyph_info_t>,
)
    requires room { let text = cluster_becomes (C.context context.now) cluster.now in
        length to.old.items + length text ≤ vec_capacity to.old }
    ensures added { let text = cluster_becomes (C.context context.now) cluster.now in
        to.new.items ≡ to.old.items ++ text }
    ensures capacity { vec_capacity to.old ≤ vec_capacity to.new }
{
    if is_kept(cluster) {
        write_forms(context, cluster, to);
    } else {
        write_each(context, way_of(context, cluster), cluster, to);
    }
}

// Adds what each of these glyphs becomes.
#[inline]
fn write_each<C: NormalizeContext>(
    context: &C,
    way: Way,
    glyphs: &[hb_glyph_info_t],
    to: &mut Vec<hb_glyph_info_t>,
)
    requires room { let text = flat_map (becomes (C.context context.now) way) glyphs.now in
        length to.old.items + length text ≤ vec_capacity to.old }
    ensures added { let text = flat_map (becomes (C.context context.now) way) glyphs.now in
        to.new.items ≡ to.old.items ++ text }
    ensures capacity { vec_capacity to.old ≤ vec_capacity to.new }
{
    for glyph in glyphs {
        write(context, way, *glyph, to);
    }
}

// Adds what a glyph becomes.
#[inline]
fn write<C: NormalizeContext>(
    context: &C,
    way: Way,
    glyph: hb_glyph_info_t,
    to: &mut Vec<hb_glyph_info_t>,
)
    requires room { let text = becomes (C.context context.now) way glyph in
        length to.old.items + length text ≤ vec_capacity to.old }
    ensures added { let text = becomes (C.context context.now) way glyph in
        to.new.items ≡ to.old.items ++ text }
    ensures capacity { vec_capacity to.old ≤ vec_capacity to.new }
{
    let parts = image(context, way, glyph.glyph_id);
    if parts.is_empty() {
        push_within(to, mapped(context, glyph));
    } else {
        write_parts(context, glyph, parts.as_slice(), to);
    }
}

// Adds a glyph once for each of these characters, as that character.
#[inline]
fn write_parts<C: NormalizeContext>(
    context: &C,
    glyph: hb_glyph_info_t,
    parts: &[u32],
    to: &mut Vec<hb_glyph_info_t>,
)
    requires room { length to.old.items + length parts.now ≤ vec_capacity to.old }
    ensures added { let part = as_part (C.context context.now) glyph in
        to.new.items ≡ to.old.items ++ map part parts.now }
    ensures capacity { vec_capacity to.old ≤ vec_capacity to.new }
{
    for c in parts {
        let mut part = glyph;
        set_character(context, &mut part, *c, number_of(context, *c));
        push_within(to, part);
    }
}

// Adds a glyph to a list that has room for it.
#[inline]
pub(super) fn push_within(list: &mut Vec<hb_glyph_info_t>, glyph: hb_glyph_info_t)
    requires { length list.old.items < vec_capacity list.old }
    ensures added { list.new.items ≡ list.old.items ++ glyph ∷ [] }
    ensures capacity { vec_capacity list.old ≤ vec_capacity list.new }
{
    list.push(glyph).unwrap();
}

// The text from a place on.
#[inline]
pub(super) fn rest_from(glyphs: &[hb_glyph_info_t], place: usize) -> &[hb_glyph_info_t]
    requires { place ≤ length glyphs.now }
    ensures { result.now ≡ drop place glyphs.now }
{
    &glyphs[place..]
}

// How long the cluster is that begins the text: a glyph and the marks behind it.
#[inline]
fn cluster_len(glyphs: &[hb_glyph_info_t]) -> usize
    requires { 0 < length glyphs.now }
    ensures len { result ≡ 1 + prefix_len is_mark_glyph (drop 1 glyphs.now) }
    ensures within { result ≤ length glyphs.now }
{
    1 + count_marks(&glyphs[1..])
}

// How many marks begin the list.
#[inline]
fn count_marks(glyphs: &[hb_glyph_info_t]) -> usize
    ensures count { result ≡ prefix_len is_mark_glyph glyphs.now }
    ensures few { result ≤ length glyphs.now }
{
    glyphs.iter().take_while(|glyph| is_mark(glyph)).count()
}

// How the characters of a cluster come apart.
#[inline]
fn way_of<C: NormalizeContext>(context: &C, cluster: &[hb_glyph_info_t]) -> Way
    ensures { result ≡ apart_way (C.context context.now) cluster.now }
{
    if cluster.len() == 1 {
        way_alone(context.normalization_preference())
    } else {
        way_with_marks(context.normalization_preference())
    }
}

// How a character comes apart that no mark follows.
#[inline]
fn way_alone(mode: NormalizationMode) -> Way
    ensures { result ≡ (if is_short_alone mode then Short else Whole) }
{
    if is_short_alone(mode) {
        Way::Short
    } else {
        Way::Whole
    }
}

// Whether a shaper leaves a character whole that no mark follows.
#[inline]
pub(super) fn is_short_alone(mode: NormalizationMode) -> bool
    ensures { result ≡ is_short_alone mode }
{
    match mode {
        NormalizationMode::NONE | NormalizationMode::AUTO => true,
        NormalizationMode::CD => false,
    }
}

// How a character and its marks come apart.
#[inline]
fn way_with_marks(mode: NormalizationMode) -> Way
    ensures { result ≡ (if is_short_with_marks mode then Short else Whole) }
{
    match mode {
        NormalizationMode::NONE => Way::Short,
        NormalizationMode::AUTO | NormalizationMode::CD => Way::Whole,
    }
}

// What a character becomes, none where it stays.
#[inline]
fn image<C: NormalizeContext>(context: &C, way: Way, c: u32) -> Parts
    ensures { result.items ≡ image (C.context context.now) way c }
{
    match way {
        Way::Short => {
            if context.has_glyph(c) {
                ArrayVec::new()
            } else {
                come_apart(context, true, c, MAX_STEPS)
            }
        }
        Way::Whole => come_apart_if(context, c),
    }
}

// What a character comes apart into in as many steps as it may. Most characters don't: the question
// is put before the call.
#[inline]
fn come_apart_if<C: NormalizeContext>(context: &C, c: u32) -> Parts
    ensures { result.items ≡ apart_in (C.context context.now) false 8 c }
{
    if context.decompose(c).is_none() {
        return ArrayVec::new();
    }
    come_apart(context, false, c, MAX_STEPS)
}

// What a character comes apart into in so many steps, none where the font lacks each base. The font
// must have what comes off, and the base that is left may come apart further: the short way only if
// the font lacks it.
fn come_apart<C: NormalizeContext>(context: &C, short: bool, c: u32, steps: usize) -> Parts
    requires few { steps ≤ 8 }
    ensures parts { result.items ≡ apart_in (C.context context.now) short steps c }
    ensures few { length result.items ≤ steps + 1 }
{
    if steps == 0 {
        return ArrayVec::new();
    }
    let Some((base, off)) = context.decompose(c) else {
        return ArrayVec::new();
    };
    if !comes_off(context, off) {
        return ArrayVec::new();
    }
    let has_base = context.has_glyph(base);
    let further = if is_enough(short, has_base) {
        ArrayVec::new()
    } else {
        come_apart(context, short, base, steps - 1)
    };
    then_come_off(or_base(further, has_base, base), off)
}

// Whether the font lets a part come off: it has it, or there is none.
#[inline]
fn comes_off<C: NormalizeContext>(context: &C, off: u32) -> bool
    ensures { result ≡ (off == 0 || has_glyph (C.context context.now) off) }
{
    off == 0 || context.has_glyph(off)
}

// Whether a base needs to come no further apart.
#[inline]
fn is_enough(short: bool, has_base: bool) -> bool
    ensures { result ≡ (short && has_base) }
{
    short && has_base
}

// An image, or else the base alone, if the font has it.
#[inline]
fn or_base(image: Parts, has_base: bool, base: u32) -> Parts
    ensures base { result.items ≡ or_base_alone has_base base image.items }
    ensures few { length result.items ≤ length image.items + 1 }
    ensures as_many { 0 < length image.items → length result.items ≤ length image.items }
{
    let mut image = image;
    if image.is_empty() && has_base {
        image.push(base);
    }
    image
}

// An image, if there is one, and what came off behind it.
#[inline]
fn then_come_off(image: Parts, off: u32) -> Parts
    requires { length image.items < 9 }
    ensures off { result.items ≡ then_come_off off image.items }
    ensures few { length result.items ≤ length image.items + 1 }
{
    let mut image = image;
    if !image.is_empty() && off != 0 {
        image.push(off);
    }
    image
}

// The number of a character's glyph, 0 where the font has none.
#[inline]
fn number_of<C: NormalizeContext>(context: &C, c: u32) -> u16
    ensures { result ≡ glyph_number (C.context context.now) c }
{
    match context.get_nominal_glyph(c) {
        Some(glyph) => glyph.0,
        None => 0,
    }
}

// A character that stays, with its glyph.
#[inline]
fn mapped<C: NormalizeContext>(context: &C, glyph: hb_glyph_info_t) -> hb_glyph_info_t
    ensures { result ≡ with_own_glyph (C.context context.now) glyph }
{
    match context.get_nominal_glyph(glyph.glyph_id) {
        Some(own) => hb_glyph_info_t {
            glyph_props: GlyphProps(own.0),
            ..glyph
        },
        None => without_glyph(context, glyph),
    }
}

// A character that the font lacks and that stays: a space as another one, the hyphen that doesn't
// break as the one that does, and else the missing glyph. (Of no other character but spaces there
// is another one that only breaks differently.)
#[cold]
fn without_glyph<C: NormalizeContext>(context: &C, glyph: hb_glyph_info_t) -> hb_glyph_info_t
    ensures { result ≡ without_glyph (C.context context.now) glyph }
{
    if let Some((kind, space)) = drawn_space(context, &glyph) {
        let mut unicode_props = glyph.unicode_props;
        unicode_props.set_high_byte(kind);
        return hb_glyph_info_t {
            glyph_props: GlyphProps(space.0),
            unicode_props,
            ..glyph
        };
    }
    let number = if glyph.glyph_id == 0x2011 {
        number_of(context, 0x2010)
    } else {
        0
    };
    hb_glyph_info_t {
        glyph_props: GlyphProps(number),
        ..glyph
    }
}

// The width that a space stands for, and the glyph that is drawn for it.
fn drawn_space<C: NormalizeContext>(context: &C, glyph: &hb_glyph_info_t) -> Option<(u8, GlyphId)>
    ensures { result ≡ drawn_space (C.context context.now) glyph.now }
{
    if !is_space_separator(glyph.unicode_props.general_category()) {
        return None;
    }
    let kind = space_kind(glyph.glyph_id)?;
    let drawn = match context.get_nominal_glyph(0x20) {
        Some(space) => space,
        None => context.invisible_glyph()?,
    };
    Some((kind, drawn))
}

// Whether a category is that of spaces.
fn is_space_separator(category: hb_unicode_general_category_t) -> bool
    ensures { result ≡ is_space_separator category }
{
    matches!(category, hb_unicode_general_category_t::Zs)
}

// The width that a space stands for, by HarfBuzz's number.
fn space_kind(c: u32) -> Option<u8>
    ensures { result ≡ space_kind c }
{
    SPACES
        .iter()
        .find(|space| space.0 == c)
        .map(|space| space.1)
}

/// The spaces that stand for another width of space: 1 to 6 and 16 a part of an em, 17 four
/// eighteenths of it, 18 a common space, 19 a digit, 20 a full stop, 21 a narrow space.
const SPACES: [(u32, u8); 16] = [
    (0x0020, 18),
    (0x00A0, 18),
    (0x2000, 2),
    (0x2001, 1),
    (0x2002, 2),
    (0x2003, 1),
    (0x2004, 3),
    (0x2005, 4),
    (0x2006, 6),
    (0x2007, 19),
    (0x2008, 20),
    (0x2009, 5),
    (0x200A, 16),
    (0x202F, 21),
    (0x205F, 17),
    (0x3000, 1),
];

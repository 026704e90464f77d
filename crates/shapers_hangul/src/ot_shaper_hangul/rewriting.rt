//! The text rewritten, item after item.
ghost use Rattle.std.specs.Prelude.{◌≡◌, ◌+◌, ◌-◌, ◌<◌, ◌≤◌, ◌++◌, ◌∷◌, [], true, false, drop, length, take, vec_capacity, Ok, OnOk, OnErr, IfOk, IfErr, IsOk};
ghost use Rattle.shapers_buffer.specs.Glyph.{characters};
ghost use Rattle.shapers_buffer.specs.GlyphFlags.{unsafe_all};
ghost use Rattle.shapers_clusters.specs.CarriedGroups.{AreCarried, with_groups};
ghost use Rattle.shapers_hangul.specs.HangulLaws.{AllKept};
ghost use Rattle.shapers_hangul.specs.RewritingWalk.{KeptBefore, changes_in, rewritten_items, Consecutive, change_output, changed_from, cluster_before, flooding_len, stays_at_sight};
ghost use Rattle.shapers_buffer.specs.Refusals.{RefusesLength};
ghost use Rattle.shapers_buffer.specs.declared.buffer.refusal.ShaperError.TheVariants.{TooLong};
ghost use Rattle.shapers_hangul.specs.Hangul.{first_item, item_len, items_at, items_flagged, glyph_copies, outputs, Fit, all_joined, item_joined, rewritten, allows_circles, is_kept, whole_items, rewritten_by};

use super::item::{Item, first_item, stays_alone};
use arrayvec::ArrayVec;
use bitflags::Flags;
use shapers_base::buffer::{
    BufferClusterLevel, BufferFlags, GlyphRewriting, ShaperError, hb_buffer_t, hb_glyph_info_t,
    unsafe_to_break_in,
};
use shapers_base::font::hb_font_t;
use shapers_base::plan::BreakFlags;
use shapers_clusters::carried_groups::CarriedGroups;
use shapers_clusters::floods::floods_again;
use std::alloc::{AllocError, Global};

// The item at a place of the text.
#[inline]
fn item_at<F: hb_font_t>(font: &F, circles: bool, glyphs: &[hb_glyph_info_t], place: usize) -> Item
    requires { place < length glyphs.now }
    ensures item { let us = characters (drop place glyphs.now) in
        result ≡ first_item (F.font font.now) circles us }
    ensures within { place + item_len result ≤ length glyphs.now }
    ensures in_rest { item_len result ≤ length (drop place glyphs.now) }
{
    first_item(font, circles, rest_from(glyphs, place))
}

// The text from a place on.
#[inline]
fn rest_from(glyphs: &[hb_glyph_info_t], place: usize) -> &[hb_glyph_info_t]
    requires { place ≤ length glyphs.now }
    ensures { result.now ≡ drop place glyphs.now }
{
    &glyphs[place..]
}

// How far a look at each character tells that the text stays as it is.
#[inline]
fn kept_len<F: hb_font_t>(font: &F, circles: bool, glyphs: &[hb_glyph_info_t]) -> usize
    ensures kept { KeptBefore (F.font font.now) circles glyphs.now result }
    ensures stops { let us = characters (drop result glyphs.now) in
        result < length glyphs.now → stays_at_sight (F.font font.now) circles us ≡ false }
{
    let mut place = 0;
    while place < glyphs.len() && stays_alone(font, circles, rest_from(glyphs, place)) {
        place += 1;
    }
    place
}

// So many items take no memory.
const FEW: usize = 8;

// The items that change a text, each with the place of its first character, as long as memory was
// found: `few`, and once they are more all of them in `many`.
#[derive(Drop)]
struct Cut {
    few: ArrayVec<(usize, Item), FEW>,
    many: Vec<(usize, Item)>,
    is_whole: bool,
}

impl Cut {
    // None so far.
    #[inline]
    fn new(alloc: Global) -> Self
        ensures none { changes_in result ≡ [] }
        ensures whole { result.is_whole ≡ true }
    {
        Cut {
            few: ArrayVec::new(),
            many: Vec::new(alloc),
            is_whole: true,
        }
    }

    // The items.
    #[inline]
    fn items(&self) -> &[(usize, Item)]
        ensures { result.now ≡ changes_in self.now }
    {
        if self.many.is_empty() {
            self.few.as_slice()
        } else {
            self.many.as_slice()
        }
    }

    // One more, unless it stays as it is, of a text of so many characters.
    #[inline]
    fn add(&mut self, place: usize, item: Item, len: usize)
        ensures kept { is_kept item ≡ true → self.new ≡ self.old }
        ensures whole { self.new.is_whole ≡ true → self.old.is_whole ≡ true }
        ensures added { let one = rewritten_items ((place, item) ∷ []) in
            self.new.is_whole ≡ true → changes_in self.new ≡ changes_in self.old ++ one }
    {
        if item.is_kept() {
            return;
        }
        if self.many.is_empty() {
            if !self.few.is_full() {
                self.few.push((place, item));
                return;
            }
            if self.list_few(len).is_err() {
                self.is_whole = false;
                return;
            }
        }
        if self.many.push((place, item)).is_err() {
            self.is_whole = false;
        }
    }

    // Lists the few items, with room for half the characters: most items take two or more.
    #[inline(never)]
    fn list_few(&mut self, len: usize) -> Result<(), AllocError>
        ensures listed { let all = self.old.many.items ++ self.old.few.items in
            OnOk result (self.new.many.items ≡ all) }
        ensures few { self.new.few ≡ self.old.few }
        ensures whole { self.new.is_whole ≡ self.old.is_whole }
    {
        self.many.reserve_exact(FEW + len / 2)?;
        self.many.extend_from_slice(self.few.as_slice())
    }
}

// The length of the result, where the text stays up to the place `kept`, and the items that change
// it from there on. Refuses where the result would be longer than `limit`, and for nothing else.
#[inline]
fn measure<F: hb_font_t>(
    font: &F,
    circles: bool,
    glyphs: &[hb_glyph_info_t],
    kept: usize,
    limit: usize,
    cut: &mut Cut,
) -> Result<usize, ShaperError>
    requires none { changes_in cut.old ≡ [] }
    requires fits { kept ≤ limit }
    requires within { kept ≤ length glyphs.now }
    ensures length { let cut = items_at (F.font font.now) circles (characters glyphs.now) kept in
        RefusesLength limit (kept + length (outputs glyph_copies cut glyphs.now)) result }
    ensures items { let rest = items_at (F.font font.now) circles (characters glyphs.now) kept in
        IfOk result (λ len. cut.new.is_whole ≡ true → changes_in cut.new ≡ rewritten_items rest) }
    ensures kept { let rest = items_at (F.font font.now) circles (characters glyphs.now) kept in
        IfOk result (λ len. rewritten_items rest ≡ [] → cut.new.is_whole ≡ cut.old.is_whole) }
    ensures exact { let cut = items_at (F.font font.now) circles (characters glyphs.now) kept in
        IfOk result (λ len. len ≡ kept + length (outputs glyph_copies cut glyphs.now)) }
    ensures refusal { IfErr result (λ e. e ≡ TooLong) }
{
    let mut room = limit - kept;
    let mut place = kept;
    while place < glyphs.len() {
        if stays_alone(font, circles, rest_from(glyphs, place)) {
            if room == 0 {
                return Err(ShaperError::TooLong);
            }
            room -= 1;
            place += 1;
            continue;
        }
        let item = item_at(font, circles, glyphs, place);
        if room < item.output_len() {
            return Err(ShaperError::TooLong);
        }
        room -= item.output_len();
        cut.add(place, item, glyphs.len());
        place += item.len();
    }
    Ok(limit - room)
}

// Flags each item, its tone with it.
#[inline]
fn flag_items(cut: &[(usize, Item)], glyphs: &mut [hb_glyph_info_t])
    requires { Fit (length glyphs.old) cut.now }
    ensures { glyphs.new ≡ unsafe_all (whole_items cut.now) glyphs.old }
{
    for entry in cut {
        unsafe_to_break_in(glyphs, entry.0, entry.0 + entry.1.len());
    }
}

// Flags what the choice adds.
#[inline]
fn flag_breaks(breaks: BreakFlags, cut: &[(usize, Item)], glyphs: &mut [hb_glyph_info_t])
    requires { Fit (length glyphs.old) cut.now }
    ensures { glyphs.new ≡ items_flagged breaks cut.now glyphs.old }
{
    match breaks {
        BreakFlags::AsCode => {}
        BreakFlags::Sound => flag_items(cut, glyphs),
    }
}

// Flags and merges what the items flag and merge, one after another.
#[inline]
fn join_items(
    cut: &[(usize, Item)],
    level: BufferClusterLevel,
    glyphs: &mut [hb_glyph_info_t],
    alloc: Global,
)
    requires { Fit (length glyphs.old) cut.now }
    ensures { glyphs.new ≡ all_joined level cut.now glyphs.old }
{
    if floods_again(glyphs) {
        let done = join_to_flood(cut, level, glyphs);
        join_carrying(&cut[done..], level, glyphs, alloc);
    } else {
        join_by_items(cut, level, glyphs);
    }
}

// Flags and merges what each item flags and merges, in a text that merges don't flood again and
// again.
#[inline]
fn join_by_items(cut: &[(usize, Item)], level: BufferClusterLevel, glyphs: &mut [hb_glyph_info_t])
    requires { Fit (length glyphs.old) cut.now }
    ensures { glyphs.new ≡ all_joined level cut.now glyphs.old }
{
    for entry in cut {
        entry.1.join(level, glyphs, entry.0);
    }
}

// Does so up to the first item that floods what stands before it, that one included. Returns how many
// items these are.
#[inline]
fn join_to_flood(
    cut: &[(usize, Item)],
    level: BufferClusterLevel,
    glyphs: &mut [hb_glyph_info_t],
) -> usize
    requires { Fit (length glyphs.old) cut.now }
    ensures stops { result ≡ flooding_len level cut.now glyphs.old }
    ensures within { result ≤ length cut.now }
    ensures left { all_joined level (drop result cut.now) glyphs.new
        ≡ all_joined level cut.now glyphs.old }
    ensures same_length { length glyphs.new ≡ length glyphs.old }
{
    for (i, entry) in cut.iter().enumerate() {
        let cluster = cluster_before(glyphs, entry.0);
        entry.1.join(level, glyphs, entry.0);
        if cluster_before(glyphs, entry.0) != cluster {
            return i + 1;
        }
    }
    cut.len()
}

// The cluster of the glyph before a place, or 0 where there is none.
#[inline]
fn cluster_before(glyphs: &[hb_glyph_info_t], place: usize) -> u32
    requires { place ≤ length glyphs.now }
    ensures { result ≡ cluster_before place glyphs.now }
{
    if place == 0 {
        0
    } else {
        glyphs[place - 1].cluster
    }
}

// Flags and merges what each item flags and merges, in any text: what merges flood before their items
// is carried along, and written once.
#[inline(never)]
fn join_carrying(
    cut: &[(usize, Item)],
    level: BufferClusterLevel,
    glyphs: &mut [hb_glyph_info_t],
    alloc: Global,
)
    requires { Fit (length glyphs.old) cut.now }
    ensures { glyphs.new ≡ all_joined level cut.now glyphs.old }
{
    let mut groups = CarriedGroups::new(alloc);
    for entry in cut {
        join_behind(entry.1, level, &mut groups, glyphs, entry.0);
    }
    groups.write(glyphs);
}

// Flags and merges what the item at a place flags and merges, while one glyph stands for each group
// that it could flood.
#[inline]
fn join_behind(
    item: Item,
    level: BufferClusterLevel,
    groups: &mut CarriedGroups,
    glyphs: &mut [hb_glyph_info_t],
    place: usize,
)
    requires item { place + item_len item ≤ length glyphs.old }
    requires torn { place + item.unsafe_len ≤ length glyphs.old }
    requires fits { AreCarried groups.old glyphs.old }
    ensures joined { with_groups groups.new glyphs.new
        ≡ item_joined level place item (with_groups groups.old glyphs.old) }
    ensures fits { AreCarried groups.new glyphs.new }
    ensures same_length { length glyphs.new ≡ length glyphs.old }
{
    let count = groups.guard(glyphs, place, place + item.len());
    item.join(level, glyphs, place);
    groups.take_back(glyphs, count);
}

// Adds the text from one place to another.
#[inline]
fn write_stretch(
    glyphs: &[hb_glyph_info_t],
    place: usize,
    end: usize,
    list: &mut Vec<hb_glyph_info_t>,
)
    requires in_order { place ≤ end }
    requires within { end ≤ length glyphs.now }
    requires room { length list.old.items + (end - place) ≤ vec_capacity list.old }
    ensures added { let stretch = take (end - place) (drop place glyphs.now) in
        list.new.items ≡ list.old.items ++ stretch }
    ensures grown { length list.new.items ≡ length list.old.items + (end - place) }
    ensures capacity { vec_capacity list.old ≤ vec_capacity list.new }
{
    if place != end {
        list.extend_from_slice(&glyphs[place..end]).unwrap();
    }
}

// Adds the text from a place on up to an item, and what the item becomes.
#[inline]
fn write_change(
    entry: &(usize, Item),
    glyphs: &[hb_glyph_info_t],
    place: usize,
    list: &mut Vec<hb_glyph_info_t>,
)
    requires in_order { place ≤ entry.now.0 }
    requires within { entry.now.0 + item_len entry.now.1 ≤ length glyphs.now }
    requires room { let output = change_output place entry.now glyphs.now in
        length list.old.items + length output ≤ vec_capacity list.old }
    ensures added { let output = change_output place entry.now glyphs.now in
        list.new.items ≡ list.old.items ++ output }
    ensures capacity { vec_capacity list.old ≤ vec_capacity list.new }
{
    write_stretch(glyphs, place, entry.0, list);
    entry.1.write(rest_from(glyphs, entry.0), list);
}

// Adds the text, in which these items become what they become.
#[inline]
fn write_changes(cut: &[(usize, Item)], glyphs: &[hb_glyph_info_t], list: &mut Vec<hb_glyph_info_t>)
    requires in_turn { Consecutive (length glyphs.now) 0 cut.now }
    requires room { let text = changed_from 0 cut.now glyphs.now in
        length list.old.items + length text ≤ vec_capacity list.old }
    ensures added { let text = changed_from 0 cut.now glyphs.now in
        list.new.items ≡ list.old.items ++ text }
    ensures capacity { vec_capacity list.old ≤ vec_capacity list.new }
{
    let mut place = 0;
    for entry in cut {
        write_change(entry, glyphs, place, list);
        place = entry.0 + entry.1.len();
    }
    list.extend_from_slice(rest_from(glyphs, place)).unwrap();
}

// What rewrites a text: the items that change it.
#[derive(Drop)]
struct Rewriting<'a> {
    breaks: BreakFlags,
    cut: &'a [(usize, Item)],
    level: BufferClusterLevel,
    alloc: Global,
}

impl<'a> GlyphRewriting for Rewriting<'a> {
    ghost use Rattle.std.specs.Prelude.{length};
    ghost use Rattle.shapers_hangul.specs.Hangul.{Fit, all_joined, items_flagged};
    ghost use Rattle.shapers_hangul.specs.RewritingWalk.{Consecutive, changed_from};

    ghost can_rewrite = { λ r gs. Fit (length gs) r.cut.now × Consecutive (length gs) 0 r.cut.now };

    ghost rewrites = { λ r gs. let joined = all_joined r.level r.cut.now gs in
        changed_from 0 r.cut.now (items_flagged r.breaks r.cut.now joined) };

    // What is merged and flagged, on the old places, and then what the items become. (A merge would
    // take flags of falling clusters away.)
    #[inline]
    fn rewrite(&self, glyphs: &mut [hb_glyph_info_t], to: &mut Vec<hb_glyph_info_t>) {
        join_items(self.cut, self.level, glyphs, self.alloc);
        flag_breaks(self.breaks, self.cut, glyphs);
        write_changes(self.cut, glyphs, to);
    }
}

// Whether the caller lets circles be inserted.
#[inline]
fn wants_circles(buffer: &hb_buffer_t) -> bool
    ensures { result ≡ allows_circles buffer.now }
{
    !buffer
        .flags()
        .contains(BufferFlags::DO_NOT_INSERT_DOTTED_CIRCLE)
}

/// Rewrites the text, unless every character stays as it is, and returns whether it did.
#[inline]
pub(super) fn rewrite_changes<F: hb_font_t>(
    breaks: BreakFlags,
    font: &F,
    buffer: &mut hb_buffer_t,
) -> Result<bool, ShaperError>
    requires { buffer.old.positions ≡ [] }
    ensures ok { OnOk result (buffer.new ≡ rewritten_by breaks (F.font font.now) buffer.old) }
    ensures kept { AllKept (F.font font.now) buffer.old → result ≡ Ok false }
    ensures changes { result ≡ Ok false → AllKept (F.font font.now) buffer.old }
    ensures unchanged { result ≡ Ok false → buffer.new ≡ buffer.old }
    ensures length { let text = (rewritten (F.font font.now) buffer.old).glyphs in
        RefusesLength buffer.old.max_len (length text) result }
    ensures err { OnErr result (buffer.new ≡ buffer.old) }
{
    let circles = wants_circles(buffer);
    let (level, alloc) = (buffer.cluster_level(), buffer.alloc());
    let glyphs = buffer.glyphs();
    let kept = kept_len(font, circles, glyphs);
    if kept == buffer.len() {
        return Ok(false);
    }
    let mut cut = Cut::new(alloc);
    let len = measure(font, circles, glyphs, kept, buffer.max_len(), &mut cut)?;
    if !cut.is_whole {
        return Err(ShaperError::Memory);
    }
    if cut.items().is_empty() {
        return Ok(false);
    }
    let rewriting = Rewriting {
        breaks,
        cut: cut.items(),
        level,
        alloc,
    };
    buffer.rewrite(len, &rewriting)?;
    Ok(true)
}

// Rewrites the text.
#[inline]
pub(super) fn rewrite<F: hb_font_t>(
    breaks: BreakFlags,
    font: &F,
    buffer: &mut hb_buffer_t,
) -> Result<(), ShaperError>
    requires { buffer.old.positions ≡ [] }
    ensures ok { OnOk result (buffer.new ≡ rewritten_by breaks (F.font font.now) buffer.old) }
    ensures length { let text = (rewritten (F.font font.now) buffer.old).glyphs in
        RefusesLength buffer.old.max_len (length text) result }
    ensures err { OnErr result (buffer.new ≡ buffer.old) }
    ensures kept { AllKept (F.font font.now) buffer.old → IsOk result }
{
    rewrite_changes(breaks, font, buffer)?;
    Ok(())
}

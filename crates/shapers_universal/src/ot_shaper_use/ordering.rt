//! The order of a syllable: the places of its glyphs are listed in their new order, what moves
//! merges with what it passes, and then the syllable is written once.
ghost use Rattle.std.specs.Prelude.{◌≡◌, ◌==◌, IfSome, false, ◌&&◌, ◌||◌, ◌+◌, ◌-◌, ◌<◌, ◌≤◌, ◌^◌, true, length, filter, reverse};
ghost use Rattle.std.specs.List.{list_any, prefix_len, range_with_len};
ghost use Rattle.shapers_buffer.specs.Lists.{first_last};
ghost use Rattle.shapers_buffer.specs.Clusters.{merge, merge_all, stretch_of, with_stretch};
ghost use Rattle.shapers_buffer.specs.ListingWalk.{with_listed};
ghost use Rattle.shapers_buffer.specs.Places.{pick};
ghost use Rattle.shapers_syllabic.specs.Reordering.{SyllableReordered};
ghost use Rattle.shapers_universal.specs.Universal.{goes_front, goes_front_at, is_universal_halant, reph_passes, is_reordered_in_universal, post_base, leading_reph_len, universal_order, universal_steps};
ghost use Rattle.shapers_universal.specs.UniversalWalk.{MergesFirst, first_piece_len, fronts_from, has_universal_reph, last_place_first, piece_places, syllable_places_in_order, start_from, stays_at};

use super::category;
use shapers_base::buffer::{ClusterRange, Placement, ShaperError, hb_buffer_t, hb_glyph_info_t};
use shapers_syllabic::ot_shaper_syllabic::use_syllable::{
    BROKEN_CLUSTER, SAKOT_TERMINATED_CLUSTER, STANDARD_CLUSTER, VIRAMA_TERMINATED_CLUSTER,
};
use shapers_syllabic::ot_shaper_syllabic::{MayChange, Reorder, ReorderBySteps};

/// The order of a syllable in the universal shaper: a reph moves behind what it passes, and in each
/// piece up to a halant the vowels and modifiers before the base come to the front. (OpenType, the
/// Universal Shaping Engine.)
#[derive(Clone, Copy, Debug)]
pub struct UniversalOrder;

impl MayChange for UniversalOrder {
    ghost use Rattle.shapers_universal.specs.UniversalWalk.{may_reorder};

    ghost changes = { λ _. may_reorder };

    #[inline]
    fn may_change(&self, glyph: &hb_glyph_info_t) -> bool {
        glyph.category == category::R || goes_front(glyph)
    }
}

impl Reorder for UniversalOrder {
    ghost use Rattle.std.specs.Prelude.{false};
    ghost use Rattle.shapers_universal.specs.Universal.{universal_order, universal_steps};
    ghost use Rattle.shapers_universal.specs.Proved.Reordered.{universal_stays};
    ghost use Rattle.shapers_universal.specs.Proved.UniversalView.{universal_laws};
    ghost use Rattle.shapers_syllabic.specs.Reordering.{SyllableReordered};
    ghost use Rattle.shapers_syllabic.proofs.LinkedSyllables.{ordered_by_steps};
    ghost use Rattle.shapers_syllabic.proofs.ReorderingLaws.{numbers_kept};

    ghost meaning = { λ _ _. universal_order };

    ghost takes = { λ _ _. Unit {0} };

    ghost may_refuse = { λ _. false };

    ghost relation = { λ _. SyllableReordered universal_order universal_steps };

    #[inline]
    fn reorder(
        &self,
        buffer: &mut hb_buffer_t,
        start: usize,
        end: usize,
    ) -> Result<(), ShaperError> {
        if is_reordered(&buffer.glyphs()[start..end]) {
            if has_reph(&buffer.glyphs()[start..end]) {
                reorder_syllable(buffer, start, end);
            } else {
                reorder_fronts(buffer, start, end);
            }
        }
        Ok(())
    }

    ghost permutes = { λ _ _. numbers_kept universal_order universal_steps universal_laws };

    ghost orders = { λ _. ordered_by_steps universal_order universal_steps };

    ghost stays = { λ _. universal_stays };
}

impl ReorderBySteps for UniversalOrder {
    ghost use Rattle.shapers_universal.specs.Universal.{universal_steps};
    ghost use Rattle.shapers_universal.specs.Proved.UniversalView.{universal_laws};

    ghost steps = { λ _ _. universal_steps };

    ghost laws = { λ _ _. universal_laws };

    ghost leads = { λ _ _ _ _ _ done. done };

    ghost suffices = { λ _ _ _ _ _ done. done };
}

// Reorders the syllable from `start` to `end`, in which no reph stands in front.
#[inline]
fn reorder_fronts(buffer: &mut hb_buffer_t, start: usize, end: usize)
    requires in_order { start ≤ end }
    requires in_range { end ≤ length buffer.old.glyphs }
    requires kind { is_reordered_in_universal (stretch_of start end buffer.old.glyphs) ≡ true }
    requires no_reph { has_universal_reph (stretch_of start end buffer.old.glyphs) ≡ false }
    ensures { SyllableReordered universal_order universal_steps start end buffer.old buffer.new }
{
    if let Some((front, behind)) = first_front(buffer.glyphs(), start, end) {
        if some_go_front(&buffer.glyphs()[behind..end]) {
            reorder_syllable(buffer, start, end);
        } else {
            move_to_front(buffer, start, end, front, behind);
        }
    }
}

// The first glyph from `start` to `end` that goes to the front: where its piece starts, and the
// place behind it.
#[inline]
fn first_front(glyphs: &[hb_glyph_info_t], start: usize, end: usize) -> Option<(usize, usize)>
    requires in_order { start ≤ end }
    requires in_range { end ≤ length glyphs.now }
    ensures first { MergesFirst start end glyphs.now result }
    ensures inside { IfSome result (λ p. start ≤ p.0 × p.0 < p.1 × p.1 ≤ end) }
{
    for i in start..end {
        if goes_front(&glyphs[i]) {
            return Some((piece_start(glyphs, start, i), i + 1));
        }
    }
    None
}

// Where the piece starts in which place `index` of a syllable from `start` on stands.
#[inline]
fn piece_start(glyphs: &[hb_glyph_info_t], start: usize, index: usize) -> usize
    requires in_order { start ≤ index }
    requires in_range { index ≤ length glyphs.now }
    ensures start { result ≡ start_from start start (stretch_of start index glyphs.now) }
    ensures from { start ≤ result }
    ensures before { result ≤ index }
{
    for end in (start + 1..index + 1).rev() {
        if is_halant(&glyphs[end - 1]) {
            return end;
        }
    }
    start
}

// Merges the glyphs from `front` to `behind`, of the syllable from `start` to `end`, and moves the
// last of them to their front.
#[inline]
fn move_to_front(buffer: &mut hb_buffer_t, start: usize, end: usize, front: usize, behind: usize)
    requires from { start ≤ front }
    requires some { front < behind }
    requires to { behind ≤ end }
    requires in_range { end ≤ length buffer.old.glyphs }
    ensures { let merged = merge buffer.old.level front behind buffer.old.glyphs in
        let moved = pick (last_place_first front behind) merged in
        buffer.new ≡ record buffer.old {
          glyphs = with_stretch front behind (λ _. moved) merged;
          places = buffer.new.places;
        } }
{
    buffer.merge_clusters(front, behind);
    let to_front = Placement::Forward {
        to: front,
        from: behind - 1,
        count: 1,
    };
    buffer.apply(start, end, to_front);
}

// Whether some glyph goes to the front of its piece.
#[inline]
fn some_go_front(glyphs: &[hb_glyph_info_t]) -> bool
    ensures { result ≡ list_any goes_front glyphs.now }
{
    glyphs.iter().any(goes_front)
}

// Whether a reph stands in front: a character of that category, or what the lookups of rphf made.
#[inline]
fn has_reph(syllable: &[hb_glyph_info_t]) -> bool
    ensures { result ≡ has_universal_reph syllable.now }
{
    match syllable.first() {
        None => false,
        Some(glyph) => glyph.category == category::R,
    }
}

// Reorders the syllable from `start` to `end`.
#[inline]
fn reorder_syllable(buffer: &mut hb_buffer_t, start: usize, end: usize)
    requires in_order { start ≤ end }
    requires in_range { end ≤ length buffer.old.glyphs }
    requires kind { is_reordered_in_universal (stretch_of start end buffer.old.glyphs) ≡ true }
    ensures { SyllableReordered universal_order universal_steps start end buffer.old buffer.new }
{
    let behind = start + leading_reph_len(&buffer.glyphs()[start..end]);
    list_order(buffer, start, behind, end);
    buffer.merge_clusters(start, behind);
    merge_fronts(buffer, start, behind, end);
    buffer.apply(start, end, Placement::Listed);
}

// Merges each glyph from `behind` to `end` that goes to the front with all of its piece before it,
// where the first piece starts at `start`.
#[inline]
fn merge_fronts(buffer: &mut hb_buffer_t, start: usize, behind: usize, end: usize)
    requires in_order { start ≤ behind }
    requires inside { behind ≤ end }
    requires in_range { end ≤ length buffer.old.glyphs }
    ensures { let fronts = fronts_from start behind (stretch_of behind end buffer.old.glyphs) in
        buffer.new ≡ record buffer.old {
          glyphs = merge_all buffer.old.level fronts buffer.old.glyphs;
        } }
{
    // where the piece starts, and what has merged but isn't written
    let mut front = start;
    let mut pending = ClusterRange::NONE;
    for i in behind..end {
        if goes_front(&buffer.glyphs()[i]) {
            pending = buffer.merge_range(pending, front, i + 1);
        } else if is_halant(&buffer.glyphs()[i]) {
            front = i + 1;
        }
    }
    buffer.write_range(pending);
}

// Lists the order of the syllable from `start` to `end`, of which the reph and what it passes end
// at `behind`.
#[inline]
fn list_order(buffer: &mut hb_buffer_t, start: usize, behind: usize, end: usize)
    requires in_order { start < end }
    requires in_range { end ≤ length buffer.old.glyphs }
    requires reph { behind ≡ start + leading_reph_len (stretch_of start end buffer.old.glyphs) }
    requires inside { behind ≤ end }
    ensures { let order = syllable_places_in_order start behind end buffer.old.glyphs in
        buffer.new ≡ record buffer.old { places = with_listed start order buffer.old.places } }
{
    let next = behind + piece_len(&buffer.glyphs()[behind..end]);
    list_piece(buffer, start, behind, next);
    list_pieces(buffer, next, end);
}

// Lists the order of the pieces from `start` to `end`, where a piece ends with a halant: what
// stands before a halant that is still seen is drawn apart, and a vowel stands before its own
// consonants.
#[inline]
fn list_pieces(buffer: &mut hb_buffer_t, start: usize, end: usize)
    requires in_order { start ≤ end }
    requires in_range { end ≤ length buffer.old.glyphs }
    ensures { let order = syllable_places_in_order start start end buffer.old.glyphs in
        buffer.new ≡ record buffer.old { places = with_listed start order buffer.old.places } }
{
    let mut front = start;
    while front < end {
        let behind = front + piece_len(&buffer.glyphs()[front..end]);
        list_piece(buffer, front, front, behind);
        front = behind;
    }
}

// Lists the order of the piece from `start` to `end`: what goes to the front, last first; the reph
// and what it passes, which end at `behind`, with the reph last; and the rest.
#[inline]
fn list_piece(buffer: &mut hb_buffer_t, start: usize, behind: usize, end: usize)
    requires in_order { start ≤ behind }
    requires inside { behind ≤ end }
    requires in_range { end ≤ length buffer.old.glyphs }
    ensures { let order = piece_places start behind end buffer.old.glyphs in
        buffer.new ≡ record buffer.old { places = with_listed start order buffer.old.places } }
{
    let at = list_fronts(buffer, start, behind, end);
    let at = list_reph(buffer, start, behind, at);
    list_rest(buffer, behind, end, at);
}

// Lists what goes to the front of those from `behind` to `end`, last first, from place `start` on.
// Returns the place behind them.
#[inline]
fn list_fronts(buffer: &mut hb_buffer_t, start: usize, behind: usize, end: usize) -> usize
    requires in_order { start ≤ behind }
    requires inside { behind ≤ end }
    requires in_range { end ≤ length buffer.old.glyphs }
    ensures listed { let places = range_with_len behind (end - behind) in
        let fronts = reverse (filter (goes_front_at buffer.old.glyphs) places) in
        buffer.new ≡ record buffer.old { places = with_listed start fronts buffer.old.places } }
    ensures behind { let places = range_with_len behind (end - behind) in
        let fronts = reverse (filter (goes_front_at buffer.old.glyphs) places) in
        result ≡ start + length fronts }
{
    let mut at = start;
    for i in (behind..end).rev() {
        if goes_front(&buffer.glyphs()[i]) {
            buffer.set_place(at, i);
            at += 1;
        }
    }
    at
}

// Lists the places from `start` to `behind` from place `at` on, the first of them last. Returns the
// place behind them.
#[inline]
fn list_reph(buffer: &mut hb_buffer_t, start: usize, behind: usize, at: usize) -> usize
    requires in_order { start ≤ behind }
    requires in_range { at + (behind - start) ≤ length buffer.old.glyphs }
    requires fits { at + (behind - start) < 2 ^ 64 }
    ensures listed { let stretch = first_last (range_with_len start (behind - start)) in
        buffer.new ≡ record buffer.old { places = with_listed at stretch buffer.old.places } }
    ensures behind { result ≡ at + (behind - start) }
{
    if start == behind {
        return at;
    }
    let mut at = at;
    for i in start + 1..behind {
        buffer.set_place(at, i);
        at += 1;
    }
    buffer.set_place(at, start);
    at + 1
}

// Lists what doesn't go to the front of those from `start` to `end`, from place `at` on.
#[inline]
fn list_rest(buffer: &mut hb_buffer_t, start: usize, end: usize, at: usize)
    requires in_order { start ≤ end }
    requires in_range { end ≤ length buffer.old.glyphs }
    requires room { let places = range_with_len start (end - start) in
        let rest = filter (stays_at buffer.old.glyphs) places in
        at + length rest ≤ end }
    ensures { let places = range_with_len start (end - start) in
        let rest = filter (stays_at buffer.old.glyphs) places in
        buffer.new ≡ record buffer.old { places = with_listed at rest buffer.old.places } }
{
    let mut at = at;
    for i in start..end {
        if !goes_front(&buffer.glyphs()[i]) {
            buffer.set_place(at, i);
            at += 1;
        }
    }
}

// Whether syllables of this kind are reordered.
#[inline]
fn is_reordered(syllable: &[hb_glyph_info_t]) -> bool
    ensures { result ≡ is_reordered_in_universal syllable.now }
{
    match syllable.first() {
        None => false,
        Some(glyph) => {
            let kind = glyph.syllable % 16;
            kind == VIRAMA_TERMINATED_CLUSTER
                || kind == SAKOT_TERMINATED_CLUSTER
                || kind == STANDARD_CLUSTER
                || kind == BROKEN_CLUSTER
        }
    }
}

// How many glyphs the reph in front and what it passes are, 0 where no reph stands in front.
#[inline]
fn leading_reph_len(syllable: &[hb_glyph_info_t]) -> usize
    ensures len { result ≡ leading_reph_len syllable.now }
    ensures within { result ≤ length syllable.now }
{
    match syllable.split_first() {
        Some((first, others)) if first.category == category::R => 1 + passed_len(others),
        _ => 0,
    }
}

// How many glyphs in front a reph passes.
#[inline]
fn passed_len(glyphs: &[hb_glyph_info_t]) -> usize
    ensures len { result ≡ prefix_len reph_passes glyphs.now }
    ensures within { result ≤ length glyphs.now }
{
    glyphs.iter().take_while(|glyph| is_passed(glyph)).count()
}

// Whether a reph passes this glyph: it is no halant and doesn't stand after the base. A halant that
// is left belongs to a consonant that the font draws in full, and the reph is drawn over that one.
#[inline]
fn is_passed(glyph: &hb_glyph_info_t) -> bool
    ensures { result ≡ reph_passes glyph.now }
{
    !(is_post_base(glyph.category) || is_halant(glyph))
}

// Whether glyphs of this category stand after the base.
#[inline]
fn is_post_base(category: u8) -> bool
    ensures { result ≡ list_any (λ c. c == category) post_base }
{
    matches!(
        category,
        category::FAbv
            | category::FBlw
            | category::FPst
            | category::FMAbv
            | category::FMBlw
            | category::FMPst
            | category::MAbv
            | category::MBlw
            | category::MPst
            | category::MPre
            | category::VAbv
            | category::VBlw
            | category::VPst
            | category::VPre
            | category::VMAbv
            | category::VMBlw
            | category::VMPst
            | category::VMPre
    )
}

// Whether a glyph is a halant, and no ligature: one that the font ligated with its consonant
// separates nothing.
#[inline]
fn is_halant(glyph: &hb_glyph_info_t) -> bool
    ensures { result ≡ is_universal_halant glyph.now }
{
    let category = glyph.category;
    (category == category::H || category == category::HVM || category == category::IS)
        && !glyph.glyph_props.is_ligated()
}

// How long the first piece is: up to the first halant, or all.
#[inline]
fn piece_len(glyphs: &[hb_glyph_info_t]) -> usize
    ensures len { result ≡ first_piece_len is_universal_halant glyphs.now }
    ensures within { result ≤ length glyphs.now }
{
    for (i, glyph) in glyphs.iter().enumerate() {
        if is_halant(glyph) {
            return i + 1;
        }
    }
    glyphs.len()
}

// Whether a glyph goes to the front of its piece. Of what a lookup put in for one glyph only the
// first does: the other parts of a split vowel stand above, below or behind.
#[inline]
fn goes_front(glyph: &hb_glyph_info_t) -> bool
    ensures { result ≡ goes_front glyph.now }
{
    (glyph.category == category::VPre || glyph.category == category::VMPre)
        && glyph.lig_props.component() == 0
}

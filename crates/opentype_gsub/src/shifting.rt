//! Rules whose lookups are being applied, and their places behind lookups that add or take glyphs.
ghost use Rattle.std.specs.Prelude.{◌≡◌, ◌≤◌, ◌++◌, drop, length, map, take, slice_index, IfSome, IfNone};
ghost use Rattle.opentype_layout.specs.Rules.{found};
ghost use Rattle.opentype_gsub.specs.Came.{begun_frame, frame_of};
ghost use Rattle.opentype_gsub.specs.Machine.{climbing, place_moved, frame_shifted, places_shifted};

use opentype_layout::places::Places;
use opentype_layout::rules::Matched;

/// How many places a rule has at most.
const MOST_PLACES: usize = 64;

/// A rule that fits, whose lookups are applied one after another.
#[derive(Debug, Default, Drop)]
pub struct Rule<'a> {
    // the records of its lookups, how many they are, and which is next
    pub(crate) records: &'a [u8],
    pub(crate) count: u16,
    pub(crate) next: u16,
    // the places of its input, and the one behind them
    pub(crate) places: Places,
    pub(crate) end: usize,
    // of the lookup that is applied now, the number of its place, and how long the text was
    pub(crate) sequence: usize,
    pub(crate) before: usize,
}

// A place, as far as what came in and went before it moves it.
#[inline]
fn move_place(place: usize, added: usize, removed: usize) -> usize
    ensures { result ≡ place_moved added removed place }
{
    place.saturating_add(added).saturating_sub(removed)
}

// Puts places behind others, as many as there is room for.
fn push_all(new: &mut Places, places: &[usize])
    ensures { new.new.items ≡ take 64 (new.old.items ++ places.now) }
{
    if new.is_full() {
        return;
    }
    for k in 0..places.len() {
        if new.is_full() {
            return;
        }
        new.push(places[k]);
    }
}

// The same, each place moved.
fn push_moved(new: &mut Places, places: &[usize], added: usize, removed: usize)
    ensures { new.new.items ≡ take 64 (new.old.items ++ map (place_moved added removed) places.now) }
{
    if new.is_full() {
        return;
    }
    for k in 0..places.len() {
        if new.is_full() {
            return;
        }
        new.push(move_place(places[k], added, removed));
    }
}

// The same for the places right behind one.
fn climb(new: &mut Places, from: usize, count: usize)
    ensures { new.new.items ≡ take 64 (new.old.items ++ climbing count from) }
{
    if new.is_full() {
        return;
    }
    let mut from = from;
    for _ in 0..count {
        if new.is_full() {
            return;
        }
        from = from.saturating_add(1);
        new.push(from);
    }
}

#[inline]
fn place_of(places: &[usize], sequence: usize) -> usize
    ensures { result ≡ slice_index places.now sequence }
{
    if sequence < places.len() {
        places[sequence]
    } else {
        0
    }
}

#[inline]
fn front_of(places: &[usize], count: usize) -> &[usize]
    ensures { result.now ≡ take count places.now }
{
    if count < places.len() {
        &places[..count]
    } else {
        places
    }
}

#[inline]
fn back_of(places: &[usize], count: usize) -> &[usize]
    ensures { result.now ≡ drop count places.now }
{
    if count < places.len() {
        &places[count..]
    } else {
        &[]
    }
}

// The places behind a lookup that added or took away so many glyphs.
#[tactic(auto, unfolding(crate::specs::Machine::places_shifted))]
fn shift_places(places: &[usize], sequence: usize, added: usize, removed: usize) -> Places
    ensures { result.items ≡ places_shifted sequence added removed places.now }
{
    let mut new = Places::new();
    let first = sequence.saturating_add(1);
    push_all(&mut new, front_of(places, first));
    climb(&mut new, place_of(places, sequence), added);
    let behind = back_of(places, first.saturating_add(removed));
    push_moved(&mut new, behind, added, removed);
    new
}

// A rule's places behind a lookup, if they change: most lookups leave as many glyphs as there were.
#[inline]
fn places_moved(places: &[usize], sequence: usize, added: usize, removed: usize) -> Option<Places>
    requires { length places.now ≤ 64 }
    ensures some { IfSome result (λ new.
        new.items ≡ places_shifted sequence added removed places.now) }
    ensures none { IfNone result (places.now ≡ places_shifted sequence added removed places.now) }
{
    if added == 0 && removed == 0 {
        return None;
    }
    Some(shift_places(places, sequence, added, removed))
}

impl<'a> Rule<'a> {
    /// A rule that fits a text of so many glyphs, before its first lookup is applied.
    pub(crate) fn begin(matched: Matched<'a>, len: usize) -> Self
        ensures { frame_of result ≡ begun_frame len (found matched.entry) }
    {
        Rule {
            records: matched.records,
            count: matched.count,
            next: 0,
            places: matched.places,
            end: matched.end,
            sequence: 0,
            before: len,
        }
    }

    /// What an applied lookup added or took away moves the places behind it. Where there are too
    /// many then, the rule has no further lookup.
    #[tactic(auto, unfolding(crate::specs::Machine::frame_shifted))]
    pub(crate) fn shift_behind(&mut self, len: usize)
        ensures { frame_of self.new ≡ frame_shifted len (frame_of self.old) }
    {
        let place = place_of(self.places.as_slice(), self.sequence);
        let added = len.saturating_sub(self.before);
        let removed = self
            .before
            .saturating_sub(len)
            .min(self.end.saturating_sub(place));
        self.end = move_place(self.end, added, removed);
        if self.places.len().saturating_add(added) > MOST_PLACES {
            self.next = self.count;
            return;
        }
        let moved = places_moved(self.places.as_slice(), self.sequence, added, removed);
        if let Some(places) = moved {
            self.places = places;
        }
    }
}

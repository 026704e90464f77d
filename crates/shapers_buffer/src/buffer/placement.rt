//! Placements: a reordering says for each place of a syllable the place whose glyph comes there, and
//! then the syllable is written once. Most syllables stay, or one stretch of theirs comes forward;
//! any other order is listed. The room for the list grows with the buffer, so that a reordering
//! takes no memory; what was never listed is never written.
ghost use Rattle.std.specs.Prelude.{◌≡◌, ◌+◌, ◌-◌, ◌<◌, ◌≤◌, [], ◌++◌, All, IsOkUnless, OnOk, drop, length, take, vec_capacity};
ghost use Rattle.std.specs.List.{slice_rotate_right};
ghost use Rattle.shapers_buffer.specs.Clusters.{stretch_of, with_stretch};
ghost use Rattle.shapers_buffer.specs.Places.{ListsEachOnce, PlacesEachOnce, pick, place_at, placed, placed_by, with_place, without_last_zeros};
ghost use Rattle.shapers_buffer.specs.declared.buffer.refusal.ShaperError.TheVariants.{Memory};

use super::glyph::hb_glyph_info_t;
use super::group_room::GroupRoom;
use super::hb_buffer_t;
use super::refusal::ShaperError;

/// The old places of the glyphs of one syllable, in the forms that text has.
#[derive(Clone, Copy, Debug, PartialEq, Eq)]
pub enum Placement {
    /// Each glyph stays in its place.
    Stays,
    /// A stretch comes forward, and what it passes goes back behind it. So a glyph goes back where
    /// those behind it come forward.
    Forward {
        /// The place to which the stretch comes.
        to: usize,
        /// The place of its first glyph.
        from: usize,
        /// How many glyphs it has.
        count: usize,
    },
    /// Each place gets the glyph of the place that [`hb_buffer_t::set_place`] listed for it.
    Listed,
}

impl hb_buffer_t {
    /// The place whose glyph is listed to come to `index`.
    #[inline]
    pub fn place(&self, index: usize) -> usize
        requires { index < length self.now.glyphs }
        ensures { result ≡ place_at self.now.places index }
    {
        self.places.get(index).copied().unwrap_or(0)
    }

    /// Lists that the glyph at `place` is to come to `index`. Panics if `index` is beyond the
    /// buffer.
    #[inline]
    pub fn set_place(&mut self, index: usize, place: usize)
        requires { index < length self.old.glyphs }
        ensures { self.new ≡ record self.old { places = with_place index place self.old.places } }
    {
        // the slice panics before room is taken for a place beyond the buffer
        make_places(&mut self.places, self.info[..index + 1].len());
        self.places[index] = place;
    }

    /// Empties the list, so that each place reads 0. It takes no memory.
    #[inline]
    pub fn clear_places(&mut self)
        ensures { self.new ≡ record self.old { places = [] } }
    {
        self.places.clear();
    }

    /// Gives each place from `start` to `end` the glyph of the place that the placement says for it;
    /// it says each of these places once. Positions stay. It takes no memory.
    #[inline(always)]
    pub fn apply(&mut self, start: usize, end: usize, placement: Placement)
        requires in_order { start ≤ end }
        requires in_range { end ≤ length self.old.glyphs }
        requires permutes { PlacesEachOnce placement start end self.old.places }
        ensures { let moved = placed_by placement start end self.old.places self.old.glyphs in
            self.new ≡ record self.old { glyphs = moved } }
    {
        match placement {
            Placement::Stays => {}
            Placement::Forward { to, from, count } => self.bring_forward(to, from, count),
            Placement::Listed => self.apply_list(start, end),
        }
    }

    // Brings the `count` glyphs from place `from` on to the place `to`.
    #[inline]
    fn bring_forward(&mut self, to: usize, from: usize, count: usize)
        requires in_order { to ≤ from }
        requires in_range { from + count ≤ length self.old.glyphs }
        ensures { self.new ≡ record self.old {
          glyphs = with_stretch to (from + count) (λ gs. slice_rotate_right gs count)
              self.old.glyphs;
        } }
    {
        bring_forward_in(&mut self.info, to, from, count);
    }

    // Gives each place from `start` to `end` the glyph of the place listed for it. A call of its own:
    // most syllables stay, and what calls `apply` isn't made longer by this.
    #[inline(never)]
    fn apply_list(&mut self, start: usize, end: usize)
        requires in_order { start ≤ end }
        requires in_range { end ≤ length self.old.glyphs }
        requires permutes { ListsEachOnce start end self.old.places }
        ensures { let moved = placed start end self.old.places self.old.glyphs in
            self.new ≡ record self.old { glyphs = moved } }
    {
        make_places(&mut self.places, self.info[..end].len());
        make_spare(&mut self.spare, end - start);
        reorder(&mut self.info, &self.places, &mut self.spare, start, end);
    }
}

// The same in a list of glyphs.
#[inline]
fn bring_forward_in(glyphs: &mut [hb_glyph_info_t], to: usize, from: usize, count: usize)
    requires in_order { to ≤ from }
    requires in_range { from + count ≤ length glyphs.old }
    ensures { glyphs.new
        ≡ with_stretch to (from + count) (λ gs. slice_rotate_right gs count) glyphs.old }
{
    bring_to_front(&mut glyphs[to..from + count], count);
}

// How many glyphs are moved one by one past others. Stretches are short, so neighbours are swapped:
// a rotation calls functions that copy memory, even for one glyph.
const FEW: usize = 2;

// Brings the last `count` glyphs before the others.
#[inline]
fn bring_to_front(glyphs: &mut [hb_glyph_info_t], count: usize)
    requires { count ≤ length glyphs.old }
    ensures { glyphs.new ≡ slice_rotate_right glyphs.old count }
{
    let passed = glyphs.len() - count;
    if passed == 1 {
        first_to_end(glyphs);
    } else if count <= FEW {
        bring_last(glyphs, count);
    } else if passed <= FEW {
        bring_first(glyphs, passed);
    } else {
        glyphs.rotate_right(count);
    }
}

// Brings the last `count` glyphs before the others, one after another.
#[inline]
fn bring_last(glyphs: &mut [hb_glyph_info_t], count: usize)
    requires { count ≤ length glyphs.old }
    ensures { glyphs.new ≡ slice_rotate_right glyphs.old count }
{
    for _ in 0..count {
        last_to_front(glyphs);
    }
}

// Brings the first `count` glyphs behind the others, one after another.
#[inline]
fn bring_first(glyphs: &mut [hb_glyph_info_t], count: usize)
    requires { count ≤ length glyphs.old }
    ensures { glyphs.new ≡ drop count glyphs.old ++ take count glyphs.old }
{
    for _ in 0..count {
        first_to_end(glyphs);
    }
}

// Moves the first glyph behind the others.
#[inline]
fn first_to_end(glyphs: &mut [hb_glyph_info_t])
    ensures { glyphs.new ≡ drop 1 glyphs.old ++ take 1 glyphs.old }
{
    for i in 1..glyphs.len() {
        glyphs.swap(i - 1, i);
    }
}

// Moves the last glyph before the others.
#[inline]
fn last_to_front(glyphs: &mut [hb_glyph_info_t])
    ensures { glyphs.new ≡ slice_rotate_right glyphs.old 1 }
{
    for i in (1..glyphs.len()).rev() {
        glyphs.swap(i - 1, i);
    }
}

// Gives each place from `start` to `end` the glyph of the place listed for it.
#[inline]
fn reorder(
    glyphs: &mut [hb_glyph_info_t],
    places: &[usize],
    spare: &mut [hb_glyph_info_t],
    start: usize,
    end: usize,
)
    requires in_order { start ≤ end }
    requires in_range { end ≤ length glyphs.old }
    requires listed { end ≤ length places.now }
    requires room { end - start ≤ length spare.old }
    requires within { All (λ p. p < length glyphs.old) (stretch_of start end places.now) }
    ensures { let moved = pick (stretch_of start end places.now) glyphs.old in
        glyphs.new ≡ with_stretch start end (λ _. moved) glyphs.old }
{
    let spare = &mut spare[..end - start];
    gather(glyphs, &places[start..end], spare);
    glyphs[start..end].copy_from_slice(spare);
}

// Writes the glyphs of these places, in the order of the places.
#[inline]
fn gather(glyphs: &[hb_glyph_info_t], places: &[usize], to: &mut [hb_glyph_info_t])
    requires as_many { length to.old ≡ length places.now }
    requires within { All (λ p. p < length glyphs.now) places.now }
    ensures { to.new ≡ pick places.now glyphs.now }
{
    for (i, place) in places.iter().enumerate() {
        to[i] = glyphs[*place];
    }
}

// How many places are made at once.
const MADE_AT_ONCE: usize = 64;

// Makes the first `len` places of the room that is there, and some more. What is made reads 0, as
// it did.
#[inline]
fn make_places(places: &mut Vec<usize>, len: usize)
    requires room { len ≤ vec_capacity places.old }
    ensures places { without_last_zeros places.new.items ≡ without_last_zeros places.old.items }
    ensures opened { len ≤ length places.new.items }
    ensures capacity { vec_capacity places.old ≤ vec_capacity places.new }
{
    if places.len() < len {
        let ahead = len.max(places.capacity().min(len.saturating_add(MADE_AT_ONCE)));
        places.resize(ahead, 0).unwrap();
    }
}

// Makes the first `len` glyphs of the room that is there.
#[inline]
pub(super) fn make_spare(spare: &mut Vec<hb_glyph_info_t>, len: usize)
    requires room { len ≤ vec_capacity spare.old }
    ensures opened { len ≤ length spare.new.items }
    ensures capacity { vec_capacity spare.old ≤ vec_capacity spare.new }
{
    if spare.len() < len {
        spare.resize(len, hb_glyph_info_t::DEFAULT).unwrap();
    }
}

// Makes room for `len` places, glyphs and groups, and writes nothing there. The places come last:
// where they have room, so have the groups.
#[inline]
pub(super) fn make_room(
    places: &mut Vec<usize>,
    spare: &mut Vec<hb_glyph_info_t>,
    room: &mut GroupRoom,
    len: usize,
) -> Result<(), ShaperError>
    ensures places { places.new.items ≡ places.old.items }
    ensures spare { spare.new.items ≡ spare.old.items }
    ensures more_places { vec_capacity places.old ≤ vec_capacity places.new }
    ensures more_spare { vec_capacity spare.old ≤ vec_capacity spare.new }
    ensures places_room { OnOk result (len ≤ vec_capacity places.new) }
    ensures spare_room { OnOk result (len ≤ vec_capacity spare.new) }
    ensures refusal { IsOkUnless result Memory }
{
    if places.capacity() < len {
        room.enlarge(len)?;
        enlarge(places, len)?;
    }
    if spare.capacity() < len {
        enlarge(spare, len)?;
    }
    Ok(())
}

// Makes room for `len` items. An empty list takes new room, since making the old one larger copies
// all of it.
#[inline]
pub(super) fn enlarge<T: Copy>(list: &mut Vec<T>, len: usize) -> Result<(), ShaperError>
    requires less { vec_capacity list.old < len }
    ensures items { list.new.items ≡ list.old.items }
    ensures more { vec_capacity list.old ≤ vec_capacity list.new }
    ensures room { OnOk result (len ≤ vec_capacity list.new) }
    ensures refusal { IsOkUnless result Memory }
{
    if list.is_empty() {
        let mut larger = Vec::new(*list.allocator());
        larger.reserve(len.max(list.capacity().saturating_mul(2)))?;
        *list = larger;
    } else {
        list.reserve(len - list.len())?;
    }
    Ok(())
}

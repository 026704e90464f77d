//! A text that lookups edit, as one list with a gap.
ghost use Rattle.std.specs.Prelude.{◌≡◌, ◌<◌, ◌≤◌, ◌+◌, ◌-◌, ◌^◌, ◌++◌, ◌∷◌, length, take, drop, OnErr, OnOk, IfOk, IfSome, IfNone, nat_lt, if◌then◌else◌, slice_set};
ghost use Rattle.std.specs.List.{remove};
ghost use Rattle.opentype_layout.specs.Gapped.{IsGap, gapped};
ghost use Rattle.opentype_layout.specs.Text.{glyph_at};
ghost use Rattle.shapers_buffer.specs.Buffer.{flags_concat, has_flag};
ghost use Rattle.shapers_buffer.specs.Clusters.{merge};
ghost use Rattle.shapers_buffer.specs.GlyphFlags.{unsafe_inside, unsafe_to_concat_in};

use shapers_buffer::buffer::{
    BufferClusterLevel, BufferFlags, ShaperError, hb_glyph_info_t, merge_clusters_across,
    unsafe_to_break_in, unsafe_to_concat_in,
};
use std::marker::Model;

/// A text in two parts, one behind the other.
#[derive(Debug, Drop)]
pub struct GlyphView<'a> {
    before: &'a [hb_glyph_info_t],
    behind: &'a [hb_glyph_info_t],
}

impl<'a> Model for GlyphView<'a> {
    ghost use Rattle.std.specs.Prelude.{◌++◌};
    ghost use Rattle.shapers_buffer.specs.Glyphs.{Glyphs};

    ghost Value = { Glyphs };

    ghost view = { λ it. it.before.now ++ it.behind.now };
}

impl<'a> GlyphView<'a> {
    /// A text in one part.
    #[inline]
    pub fn of(glyphs: &'a [hb_glyph_info_t]) -> Self
        ensures { result ≡ glyphs.now }
    {
        GlyphView {
            before: glyphs,
            behind: &[],
        }
    }

    /// How many glyphs it has.
    #[inline]
    pub fn len(&self) -> usize
        ensures { result ≡ length self.now }
    {
        self.before.len() + self.behind.len()
    }

    /// The glyph at a place.
    ///
    /// # Panics
    ///
    /// Where there is none.
    #[inline]
    pub fn at(&self, i: usize) -> &'a hb_glyph_info_t
        requires { i < length self.now }
        ensures glyph { result.now ≡ glyph_at self.now i }
        ensures next { i + 1 < 2 ^ 64 }
    {
        if i < self.before.len() {
            &self.before[i]
        } else {
            &self.behind[i - self.before.len()]
        }
    }

    /// The glyph at a place, if there is one. (A walk to the end asks this, which costs it less than
    /// the length.)
    #[inline]
    pub fn get(&self, i: usize) -> Option<&'a hb_glyph_info_t>
        ensures glyph { IfSome result (λ it. it.now ≡ glyph_at self.now i) }
        ensures within { IfSome result (λ it. i < length self.now) }
        ensures next { IfSome result (λ it. i + 1 < 2 ^ 64) }
        ensures end { IfNone result (length self.now ≤ i) }
    {
        if i < self.before.len() {
            return Some(&self.before[i]);
        }
        let place = i - self.before.len();
        if place < self.behind.len() {
            Some(&self.behind[place])
        } else {
            None
        }
    }

    /// The place after one of its places. (It is counted from the end, so that the length tells that
    /// there is such a number; what is compiled adds 1.)
    #[inline]
    pub fn after(&self, i: usize) -> usize
        requires { i < length self.now }
        ensures { result ≡ i + 1 }
    {
        let left = self.len() - i;
        self.len() - left + 1
    }

    /// The first part, and the one behind it.
    #[inline]
    pub fn parts(&self) -> (&'a [hb_glyph_info_t], &'a [hb_glyph_info_t])
        ensures { result.0.now ++ result.1.now ≡ self.now }
    {
        (self.before, self.behind)
    }
}

// Moves the gap of a list to before the glyph at a place, or to the end. Returns where it ends then.
fn move_gap(glyphs: &mut [hb_glyph_info_t], before: usize, behind: usize, at: usize) -> usize
    requires gap { IsGap before behind (length glyphs.old) }
    requires place { at ≤ length (gapped before behind glyphs.old) }
    ensures text { gapped at result glyphs.new ≡ gapped before behind glyphs.old }
    ensures gap { IsGap at result (length glyphs.new) }
    ensures len { length glyphs.new ≡ length glyphs.old }
{
    let gap = behind - before;
    let end = at + gap;
    if gap == 0 {
        return end;
    }
    if at < before {
        glyphs.copy_within(at..before, end);
    } else {
        glyphs.copy_within(behind..end, before);
    }
    end
}

// Where a list with a gap has the glyph at a place.
#[inline]
fn index(before: usize, behind: usize, at: usize) -> usize
    requires order { before ≤ behind }
    requires fits { at + (behind - before) < 2 ^ 64 }
    ensures { result ≡ (if nat_lt at before then at else at + (behind - before)) }
{
    if at < before {
        at
    } else {
        at + (behind - before)
    }
}

// The glyph at a place of a list with a gap.
#[inline]
fn glyph_in(glyphs: &[hb_glyph_info_t], before: usize, behind: usize, at: usize) -> &hb_glyph_info_t
    requires gap { IsGap before behind (length glyphs.now) }
    requires here { at < length (gapped before behind glyphs.now) }
    ensures { result.now ≡ glyph_at (gapped before behind glyphs.now) at }
{
    &glyphs[index(before, behind, at)]
}

// Puts a glyph in the place of another in a list with a gap.
#[inline]
fn set_in(
    glyphs: &mut [hb_glyph_info_t],
    before: usize,
    behind: usize,
    at: usize,
    glyph: hb_glyph_info_t,
)
    requires gap { IsGap before behind (length glyphs.old) }
    requires here { at < length (gapped before behind glyphs.old) }
    ensures text { gapped before behind glyphs.new
        ≡ slice_set (gapped before behind glyphs.old) at glyph }
    ensures len { length glyphs.new ≡ length glyphs.old }
{
    glyphs[index(before, behind, at)] = glyph;
}

// Merges the clusters of the first glyphs behind the gap.
fn merge_behind(
    level: BufferClusterLevel,
    glyphs: &mut [hb_glyph_info_t],
    before: usize,
    behind: usize,
    count: usize,
)
    requires gap { IsGap before behind (length glyphs.old) }
    requires within { behind + count ≤ length glyphs.old }
    ensures text { gapped before behind glyphs.new
        ≡ merge level before (before + count) (gapped before behind glyphs.old) }
    ensures len { length glyphs.new ≡ length glyphs.old }
{
    let (front, rest) = glyphs.split_at_mut(behind);
    merge_clusters_across(level, &mut front[..before], rest, count);
}

// No break inside so many glyphs from a place on, to which the gap moves. Returns where it ends then.
#[inline]
fn flag_breaks(
    glyphs: &mut [hb_glyph_info_t],
    before: usize,
    behind: usize,
    start: usize,
    count: usize,
) -> usize
    requires gap { IsGap before behind (length glyphs.old) }
    requires within { start + count ≤ length (gapped before behind glyphs.old) }
    ensures text { gapped start result glyphs.new
        ≡ unsafe_inside start (start + count) (gapped before behind glyphs.old) }
    ensures gap { IsGap start result (length glyphs.new) }
    ensures len { length glyphs.new ≡ length glyphs.old }
{
    let end = move_gap(glyphs, before, behind, start);
    unsafe_to_break_in(glyphs, end, end + count);
    end
}

// No concatenation in so many glyphs from a place on, where the flags want that. The gap moves to that
// place; returned is where it ends then.
#[inline]
fn flag_joins(
    flags: BufferFlags,
    glyphs: &mut [hb_glyph_info_t],
    before: usize,
    behind: usize,
    start: usize,
    count: usize,
) -> usize
    requires gap { IsGap before behind (length glyphs.old) }
    requires within { start + count ≤ length (gapped before behind glyphs.old) }
    ensures text { gapped start result glyphs.new ≡ unsafe_to_concat_in
        (has_flag flags_concat flags) start (start + count) (gapped before behind glyphs.old) }
    ensures gap { IsGap start result (length glyphs.new) }
    ensures len { length glyphs.new ≡ length glyphs.old }
{
    let end = move_gap(glyphs, before, behind, start);
    unsafe_to_concat_in(flags, glyphs, end, end + count);
    end
}

// Where a gap begins and ends.
#[derive(Clone, Copy)]
struct GapAt {
    before: usize,
    behind: usize,
}

// A gap, and if there is none a new one at the end, as large as the text, so that inserting one glyph
// after another is linear.
fn widen(
    glyphs: &mut Vec<hb_glyph_info_t>,
    before: usize,
    behind: usize,
) -> Result<GapAt, ShaperError>
    requires gap { IsGap before behind (length glyphs.old.items) }
    ensures ok { IfOk result (λ gap. (gap.before < gap.behind)
        × (IsGap gap.before gap.behind (length glyphs.new.items)
        × (gapped gap.before gap.behind glyphs.new.items ≡ gapped before behind glyphs.old.items))) }
    ensures err { OnErr result (glyphs.new.items ≡ glyphs.old.items) }
{
    if before < behind {
        return Ok(GapAt { before, behind });
    }
    let len = glyphs.len();
    let more = len.max(1);
    if more > usize::MAX - len {
        return Err(ShaperError::Memory);
    }
    glyphs
        .resize(len + more, hb_glyph_info_t::DEFAULT)
        .map_err(|_| ShaperError::Memory)?;
    Ok(GapAt {
        before: len,
        behind: len + more,
    })
}

/// A text that lookups edit. Its list has a gap where the last edit was, so that edits one after
/// another don't move the rest of the text each time.
#[derive(Debug, Drop)]
pub struct GlyphText {
    glyphs: Vec<hb_glyph_info_t>,
    // where the gap begins, and where it ends
    before: usize,
    behind: usize,
}

impl Model for GlyphText {
    ghost use Rattle.std.specs.Prelude.{length};
    ghost use Rattle.opentype_layout.specs.Gapped.{IsGap, gapped};
    ghost use Rattle.shapers_buffer.specs.Glyphs.{Glyphs};

    ghost Value = { Glyphs };

    ghost view = { λ it. gapped it.before it.behind it.glyphs.items };

    ghost invariant = { λ it. IsGap it.before it.behind (length it.glyphs.items) };
}

impl GlyphText {
    /// A text of these glyphs. It takes no memory.
    #[inline]
    pub fn new(glyphs: Vec<hb_glyph_info_t>) -> Self
        ensures { result ≡ glyphs.items }
    {
        let len = glyphs.len();
        GlyphText {
            glyphs,
            before: len,
            behind: len,
        }
    }

    /// Its glyphs, without the gap. It takes no memory.
    #[inline]
    pub fn into_list(self) -> Vec<hb_glyph_info_t>
        ensures { result.items ≡ self }
    {
        let len = self.len();
        let GlyphText {
            glyphs,
            before,
            behind,
        } = self;
        // (most lookups leave no gap)
        if before == glyphs.len() {
            return glyphs;
        }
        let mut glyphs = glyphs;
        move_gap(&mut glyphs, before, behind, len);
        glyphs.truncate(len);
        glyphs
    }

    /// How many glyphs it has.
    #[inline]
    pub fn len(&self) -> usize
        ensures { result ≡ length self.now }
    {
        self.before + (self.glyphs.len() - self.behind)
    }

    /// The text as it is, to be read.
    #[inline]
    pub fn view(&self) -> GlyphView<'_>
        ensures { result ≡ self.now }
    {
        GlyphView {
            before: &self.glyphs[..self.before],
            behind: &self.glyphs[self.behind..],
        }
    }

    /// The glyph at a place.
    ///
    /// # Panics
    ///
    /// Where there is none.
    #[inline]
    pub fn at(&self, i: usize) -> &hb_glyph_info_t
        requires { i < length self.now }
        ensures glyph { result.now ≡ glyph_at self.now i }
        ensures next { i + 1 < 2 ^ 64 }
    {
        glyph_in(&self.glyphs, self.before, self.behind, i)
    }

    /// Puts a glyph in the place of another.
    ///
    /// # Panics
    ///
    /// Where there is none.
    #[inline]
    pub fn set(&mut self, i: usize, glyph: hb_glyph_info_t)
        requires { i < length self.old }
        ensures text { self.new ≡ slice_set self.old i glyph }
        ensures next { i + 1 < 2 ^ 64 }
    {
        set_in(&mut self.glyphs, self.before, self.behind, i, glyph);
    }

    /// Takes a glyph out.
    ///
    /// # Panics
    ///
    /// Where there is none.
    #[inline]
    pub fn remove(&mut self, i: usize)
        requires { i < length self.old }
        ensures { self.new ≡ remove self.old i }
    {
        self.behind = move_gap(&mut self.glyphs, self.before, self.behind, i) + 1;
        self.before = i;
    }

    /// Puts a glyph in before the one at a place, or at the end.
    ///
    /// # Errors
    ///
    /// `Memory`; nothing has changed then.
    ///
    /// # Panics
    ///
    /// Where the place is behind the end.
    pub fn insert(&mut self, i: usize, glyph: hb_glyph_info_t) -> Result<(), ShaperError>
        requires { i ≤ length self.old }
        ensures ok { OnOk result (self.new ≡ take i self.old ++ (glyph ∷ drop i self.old)) }
        ensures err { OnErr result (self.new ≡ self.old) }
    {
        let GapAt { before, behind } = widen(&mut self.glyphs, self.before, self.behind)?;
        self.behind = move_gap(&mut self.glyphs, before, behind, i);
        self.glyphs[i] = glyph;
        self.before = i + 1;
        Ok(())
    }

    /// The merge rule over the stretch from `start` to `end`.
    ///
    /// # Panics
    ///
    /// Where `start` is above `end`, or `end` above the length.
    #[inline]
    pub fn merge_clusters(&mut self, level: BufferClusterLevel, start: usize, end: usize)
        requires in_order { start ≤ end }
        requires in_range { end ≤ length self.old }
        ensures { self.new ≡ merge level start end self.old }
    {
        let behind = move_gap(&mut self.glyphs, self.before, self.behind, start);
        merge_behind(level, &mut self.glyphs, start, behind, end - start);
        self.before = start;
        self.behind = behind;
    }

    /// No break inside the stretch from `start` to `end`.
    ///
    /// # Panics
    ///
    /// Where `start` is above `end`, or `end` above the length.
    #[inline]
    pub fn unsafe_to_break(&mut self, start: usize, end: usize)
        requires in_order { start ≤ end }
        requires in_range { end ≤ length self.old }
        ensures { self.new ≡ unsafe_inside start end self.old }
    {
        let count = end - start;
        self.behind = flag_breaks(&mut self.glyphs, self.before, self.behind, start, count);
        self.before = start;
    }

    /// No concatenation in the stretch from `start` to `end`, where the flags want that.
    ///
    /// # Panics
    ///
    /// Where `start` is above `end`, or `end` above the length.
    #[inline]
    pub fn unsafe_to_concat(&mut self, flags: BufferFlags, start: usize, end: usize)
        requires in_order { start ≤ end }
        requires in_range { end ≤ length self.old }
        ensures { self.new ≡ unsafe_to_concat_in (has_flag flags_concat flags) start end self.old }
    {
        let (before, behind) = (self.before, self.behind);
        self.behind = flag_joins(flags, &mut self.glyphs, before, behind, start, end - start);
        self.before = start;
    }
}

//! Dotted circles: the base of a broken syllable.
ghost use Rattle.std.specs.Prelude.{◌≡◌, ◌==◌, ◌<◌, ◌≤◌, ◌+◌, ◌-◌, [], ◌++◌, IfOk, IsOk, MatchOption, OnErr, OnOk, is_some, length, take, drop};
ghost use Rattle.std.specs.List.{prefix_len, suffix_len};
ghost use Rattle.shapers_buffer.specs.Clusters.{stretch_of};
ghost use Rattle.shapers_base.specs.Font.{dotted_circle};
ghost use Rattle.shapers_syllabic.specs.CircleLaws.{CirclesErased};
ghost use Rattle.shapers_syllabic.specs.Circles.{circle_in, circled, circles_for, count_of_kind, rephas_len, with_circle, with_circles};
ghost use Rattle.shapers_syllabic.specs.Reordering.{script_circles};
ghost use Rattle.shapers_syllabic.specs.FirstBroken.{IsFirstBroken, IsLastBroken, IsCircled, is_of_other_kind};
ghost use Rattle.shapers_buffer.specs.Refusals.{RefusesLength};
ghost use Rattle.shapers_buffer.specs.Syllables.{first_syllable_len, has_byte};

use bitflags::Flags;
use shapers_base::buffer::{
    BufferFlags, ShaperError, first_syllable_len, hb_buffer_t, hb_glyph_info_t,
};
use shapers_base::font::hb_font_t;

// The character of the dotted circle.
const DOTTED_CIRCLE: u32 = 0x25CC;

/// The dotted circles of a shaper: in syllables of the broken kind, with a category and a position,
/// behind the leading glyphs of the repha category where there is one.
#[derive(Clone, Copy, Debug, PartialEq, Eq)]
pub struct ScriptCircles {
    /// The kind of the syllables that get one.
    pub broken_kind: u8,
    /// The category of the circle.
    pub category: u8,
    /// The category of glyphs that stay in front of it.
    pub repha: Option<u8>,
    /// The circle's position, in its auxiliary byte, or none for 0.
    pub position: Option<u8>,
}

/// What circles look like, and where they stand.
#[derive(Clone, Copy, Debug)]
pub struct DottedCircles {
    /// The kind of the syllables that get one.
    pub broken_kind: u8,
    /// The circle, but for cluster, mask and syllable.
    pub circle: hb_glyph_info_t,
    /// The category of glyphs that stay in front of it.
    pub repha: Option<u8>,
}

// Where a syllable stands: its first place, and the one behind it.
#[derive(Clone, Copy)]
struct Places {
    start: usize,
    end: usize,
}

/// Gives each broken syllable a dotted circle, behind its leading glyphs of the repha category
/// where one is given, else in front. Returns false, with nothing changed, where no syllable is
/// broken, the caller forbids circles or the font has none. Without its circles the text is what it
/// was. Refuses with `TooLong` where the text would be longer than `max_len`, and with `Memory`;
/// where no circle is put in it takes none.
///
/// # Errors
///
/// `TooLong` where the buffer would be longer than `max_len`, `Memory` where memory is refused;
/// nothing has changed then.
pub fn insert_dotted_circles<F: hb_font_t>(
    face: &F,
    buffer: &mut hb_buffer_t,
    broken_syllable_type: u8,
    dottedcircle_category: u8,
    repha_category: Option<u8>,
    dottedcircle_position: Option<u8>,
) -> Result<bool, ShaperError>
    requires { buffer.old.positions ≡ [] }
    ensures answer { let circles = circles_for ((F.font face.now).nominal dotted_circle)
        broken_syllable_type dottedcircle_category
        repha_category dottedcircle_position buffer.old in
        IfOk result (λ answer. answer ≡ is_some circles) }
    ensures ok { let circles = circles_for ((F.font face.now).nominal dotted_circle)
        broken_syllable_type dottedcircle_category
        repha_category dottedcircle_position buffer.old in
        OnOk result (buffer.new ≡
        record buffer.old { glyphs = circled circles buffer.old.glyphs }) }
    ensures erased { let circles = circles_for ((F.font face.now).nominal dotted_circle)
        broken_syllable_type dottedcircle_category
        repha_category dottedcircle_position buffer.old in
        OnOk result (CirclesErased circles buffer.old.glyphs buffer.new.glyphs) }
    ensures length { let circles = circles_for ((F.font face.now).nominal dotted_circle)
        broken_syllable_type dottedcircle_category
        repha_category dottedcircle_position buffer.old in
        RefusesLength buffer.old.max_len (length (circled circles buffer.old.glyphs)) result }
    ensures err { OnErr result (buffer.new ≡ buffer.old) }
    ensures without_memory { let circles = circles_for ((F.font face.now).nominal dotted_circle)
        broken_syllable_type dottedcircle_category
        repha_category dottedcircle_position buffer.old in
        circled circles buffer.old.glyphs ≡ buffer.old.glyphs → IsOk result }
{
    let script = ScriptCircles {
        broken_kind: broken_syllable_type,
        category: dottedcircle_category,
        repha: repha_category,
        position: dottedcircle_position,
    };
    script.insert(face, buffer)
}

impl ScriptCircles {
    /// Gives each broken syllable its dotted circle. Returns false, with nothing changed, where no
    /// syllable is broken, the caller forbids circles or the font has none. Refuses with `TooLong`
    /// where the text would be longer than `max_len`, and with `Memory`, but not where no circle
    /// opens; a refusal changes nothing.
    pub fn insert<F: hb_font_t>(
        &self,
        face: &F,
        buffer: &mut hb_buffer_t,
    ) -> Result<bool, ShaperError>
        requires { buffer.old.positions ≡ [] }
        ensures answer { let circles = script_circles self.now (F.font face.now) buffer.old in
            IfOk result (λ answer. answer ≡ is_some circles) }
        ensures ok { let circles = script_circles self.now (F.font face.now) buffer.old in
            OnOk result (buffer.new ≡
            record buffer.old { glyphs = circled circles buffer.old.glyphs }) }
        ensures erased { let circles = script_circles self.now (F.font face.now) buffer.old in
            OnOk result (CirclesErased circles buffer.old.glyphs buffer.new.glyphs) }
        ensures length { let circles = script_circles self.now (F.font face.now) buffer.old in
            RefusesLength buffer.old.max_len (length (circled circles buffer.old.glyphs)) result }
        ensures err { OnErr result (buffer.new ≡ buffer.old) }
        ensures without_memory { let circles =
            script_circles self.now (F.font face.now) buffer.old in
            circled circles buffer.old.glyphs ≡ buffer.old.glyphs → IsOk result }
    {
        // so that a return with nothing changed keeps the promise on lengths, too
        prove!(buffer.len() <= buffer.max_len());
        match self.circles_for(face, buffer) {
            None => Ok(false),
            Some(circles) => {
                circles.insert(buffer)?;
                Ok(true)
            }
        }
    }

    // The circles that a buffer gets.
    fn circles_for<F: hb_font_t>(&self, face: &F, buffer: &hb_buffer_t) -> Option<DottedCircles>
        ensures { result ≡ script_circles self.now (F.font face.now) buffer.now }
    {
        let forbidden = buffer
            .flags()
            .contains(BufferFlags::DO_NOT_INSERT_DOTTED_CIRCLE);
        if forbidden || !buffer.has_broken_syllable() {
            return None;
        }
        match face.get_nominal_glyph(DOTTED_CIRCLE) {
            None => None,
            Some(glyph) => {
                let circle = hb_glyph_info_t {
                    glyph_id: u32::from(glyph.0),
                    category: self.category,
                    auxiliary: self.position.unwrap_or(0),
                    ..hb_glyph_info_t::DEFAULT
                };
                Some(DottedCircles {
                    broken_kind: self.broken_kind,
                    circle,
                    repha: self.repha,
                })
            }
        }
    }
}

impl DottedCircles {
    // Puts the circles into the text.
    #[inline]
    fn insert(&self, buffer: &mut hb_buffer_t) -> Result<(), ShaperError>
        requires { buffer.old.positions ≡ [] }
        ensures ok { OnOk result (buffer.new ≡
            record buffer.old { glyphs = with_circles self.now buffer.old.glyphs }) }
        ensures length { let wanted = length (with_circles self.now buffer.old.glyphs) in
            RefusesLength buffer.old.max_len wanted result }
        ensures err { OnErr result (buffer.new ≡ buffer.old) }
        ensures free { with_circles self.now buffer.old.glyphs ≡ buffer.old.glyphs → IsOk result }
    {
        let len = buffer.len();
        let count = self.count(buffer.glyphs());
        if count == 0 {
            return Ok(());
        }
        buffer.grow(count)?;
        buffer.with_glyphs_mut(|glyphs| self.insert_all(glyphs, len));
        Ok(())
    }

    // How many circles the text gets.
    #[inline]
    fn count(&self, text: &[hb_glyph_info_t]) -> usize
        ensures { result ≡ count_of_kind self.now.broken_kind text.now }
    {
        let mut count = 0;
        let mut rest = text;
        while let Some(broken) = self.first_broken(rest) {
            count += 1;
            rest = &rest[broken.end..];
        }
        count
    }

    // Puts a circle into each broken syllable of the text, of `len` glyphs, behind which stands
    // room for as many circles. The text is written from behind, so that nothing is written over
    // before it is read.
    #[inline]
    fn insert_all(&self, glyphs: &mut [hb_glyph_info_t], len: usize)
        requires within { len ≤ length glyphs.old }
        requires room { let count = count_of_kind self.now.broken_kind (take len glyphs.old) in
            length glyphs.old ≡ len + count }
        ensures { glyphs.new ≡ with_circles self.now (take len glyphs.old) }
    {
        let mut read = len;
        let mut left = glyphs.len() - len;
        while left > 0 {
            read = self.insert_last(glyphs, read, left);
            left -= 1;
        }
    }

    // Puts a circle into the last broken syllable of the first `read` glyphs, which move up, from
    // it on, by as many places as they have broken syllables. Returns where it starts.
    #[inline]
    fn insert_last(&self, glyphs: &mut [hb_glyph_info_t], read: usize, left: usize) -> usize
        requires some { 0 < left }
        requires in_range { read + left ≤ length glyphs.old }
        requires room { left ≡ count_of_kind self.now.broken_kind (take read glyphs.old) }
        ensures { IsCircled self.now read left result glyphs.old glyphs.new }
    {
        let broken = self.last_broken(&glyphs[..read]);
        move_up(glyphs, broken.end, read, left);
        self.insert_circle(glyphs, broken, left);
        broken.start
    }

    // Where the last broken syllable of a text stands.
    #[inline]
    fn last_broken(&self, text: &[hb_glyph_info_t]) -> Places
        requires { 0 < count_of_kind self.now.broken_kind text.now }
        ensures { IsLastBroken self.now text.now result.start result.end }
    {
        let end = text.len() - unbroken_end(text, self.broken_kind);
        let byte = text[end - 1].syllable;
        let start = end - syllable_end(&text[..end], byte);
        Places { start, end }
    }

    // Moves a syllable up by `left` places, and puts its circle into it, which takes one of them.
    #[inline]
    fn insert_circle(&self, glyphs: &mut [hb_glyph_info_t], broken: Places, left: usize)
        requires some { 0 < left }
        requires in_order { broken.start < broken.end }
        requires in_range { broken.end + left ≤ length glyphs.old }
        ensures front { take broken.start glyphs.new ≡ take broken.start glyphs.old }
        ensures behind { let syllable = stretch_of broken.start broken.end glyphs.old in
            drop (broken.start + left - 1) glyphs.new
            ≡ with_circle self.now syllable ++ drop (broken.end + left) glyphs.old }
        ensures same_length { length glyphs.new ≡ length glyphs.old }
    {
        let syllable = &glyphs[broken.start..broken.end];
        let circle = circle_in(syllable, self.circle);
        let place = broken.start + self.rephas_len(syllable);
        move_up(glyphs, place, broken.end, left);
        glyphs[place + left - 1] = circle;
        move_up(glyphs, broken.start, place, left - 1);
    }

    // Where the first broken syllable of a text stands.
    #[inline]
    fn first_broken(&self, text: &[hb_glyph_info_t]) -> Option<Places>
        ensures { let no_one = count_of_kind self.now.broken_kind text.now ≡ 0 in
            MatchOption result no_one (λ p. IsFirstBroken self.now text.now p.start p.end) }
    {
        let start = unbroken_len(text, self.broken_kind);
        if start == text.len() {
            return None;
        }
        let end = start + first_syllable_len(&text[start..]);
        Some(Places { start, end })
    }

    // How many glyphs of a syllable stand in front of its circle.
    #[inline]
    fn rephas_len(&self, syllable: &[hb_glyph_info_t]) -> usize
        ensures len { result ≡ rephas_len self.now.repha syllable.now }
        ensures within { result ≤ length syllable.now }
    {
        match self.repha {
            None => 0,
            Some(repha) => category_len(syllable, repha),
        }
    }
}

// Copies the glyphs from `from` to `to` to as many places `by` further up.
#[inline]
fn move_up(glyphs: &mut [hb_glyph_info_t], from: usize, to: usize, by: usize)
    requires in_order { from ≤ to }
    requires in_range { to + by ≤ length glyphs.old }
    ensures front { take (from + by) glyphs.new ≡ take (from + by) glyphs.old }
    ensures behind { let moved = stretch_of from to glyphs.old in
        drop (from + by) glyphs.new ≡ moved ++ drop (to + by) glyphs.old }
    ensures same_length { length glyphs.new ≡ length glyphs.old }
{
    glyphs.copy_within(from..to, from + by);
}

// How many glyphs at the end are in a syllable of another kind.
#[inline]
fn unbroken_end(glyphs: &[hb_glyph_info_t], kind: u8) -> usize
    ensures len { result ≡ suffix_len (is_of_other_kind kind) glyphs.now }
    ensures within { result ≤ length glyphs.now }
{
    for i in (0..glyphs.len()).rev() {
        if glyphs[i].syllable % 16 == kind {
            return glyphs.len() - 1 - i;
        }
    }
    glyphs.len()
}

// How many glyphs at the end have this byte of a syllable.
#[inline]
fn syllable_end(glyphs: &[hb_glyph_info_t], byte: u8) -> usize
    ensures len { result ≡ suffix_len (has_byte byte) glyphs.now }
    ensures within { result ≤ length glyphs.now }
{
    glyphs
        .iter()
        .rev()
        .take_while(|glyph| glyph.syllable == byte)
        .count()
}

// How many glyphs at the front have this category.
#[inline]
fn category_len(glyphs: &[hb_glyph_info_t], category: u8) -> usize
    ensures len { result ≡ prefix_len (λ glyph. glyph.category == category) glyphs.now }
    ensures within { result ≤ length glyphs.now }
{
    glyphs
        .iter()
        .take_while(|glyph| glyph.category == category)
        .count()
}

// How many glyphs at the front are in a syllable of another kind.
#[inline]
fn unbroken_len(glyphs: &[hb_glyph_info_t], kind: u8) -> usize
    ensures len { result ≡ prefix_len (is_of_other_kind kind) glyphs.now }
    ensures within { result ≤ length glyphs.now }
{
    for (i, glyph) in glyphs.iter().enumerate() {
        if glyph.syllable % 16 == kind {
            return i;
        }
    }
    glyphs.len()
}

// The circle of a syllable, which takes cluster, mask and syllable byte from the first glyph.
#[inline]
fn circle_in(syllable: &[hb_glyph_info_t], circle: hb_glyph_info_t) -> hb_glyph_info_t
    requires { 0 < length syllable.now }
    ensures { result ≡ circle_in syllable.now circle }
{
    let first = syllable[0];
    hb_glyph_info_t {
        cluster: first.cluster,
        mask: first.mask,
        syllable: first.syllable,
        ..circle
    }
}

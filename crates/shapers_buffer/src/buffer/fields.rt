//! Readers and setters of the buffer's fields.
ghost use Rattle.std.specs.Prelude.{◌≡◌, ◌==◌, ◌||◌, ◌<◌, ◌≤◌, length, max, take, slice_index_or, slice_set, if◌then◌else◌};
ghost use Rattle.shapers_buffer.specs.Buffer.{can_be_positions};

use super::{
    BufferClusterLevel, BufferFlags, Direction, GlyphPosition, LookupRecord, Script, context,
    hb_buffer_t,
};

impl hb_buffer_t {
    /// Where the glyph at `index` is drawn; `index` is below the number of positions.
    ///
    /// # Panics
    ///
    /// Where there is no position at `index`.
    #[inline]
    pub fn position(&self, index: usize) -> GlyphPosition
        requires { index < length self.now.positions }
        ensures { result ≡ slice_index_or self.now.positions index result }
    {
        self.pos[index]
    }

    /// Sets where the glyph at `index` is drawn; `index` is below the number of positions.
    ///
    /// # Panics
    ///
    /// Where there is no position at `index`.
    #[inline]
    pub fn set_position(&mut self, index: usize, position: GlyphPosition)
        requires { index < length self.old.positions }
        ensures { self.new ≡
            record self.old { positions = slice_set self.old.positions index position } }
    {
        self.pos[index] = position;
    }

    /// Where the glyphs are drawn: none, or one per glyph.
    #[inline]
    pub fn positions(&self) -> &[GlyphPosition]
        ensures { result.now ≡ self.now.positions }
    {
        self.pos.as_slice()
    }

    /// How many positions there are: none, or one per glyph.
    #[inline]
    pub fn positions_len(&self) -> usize
        ensures length { result ≡ length self.now.positions }
        ensures paired { 0 < result → result ≡ length self.now.glyphs }
    {
        self.pos.len()
    }

    /// Takes positions, none or one per glyph, and returns true; for any other number of them it
    /// returns false and nothing changes.
    #[inline]
    #[must_use]
    pub fn set_positions(&mut self, positions: Vec<GlyphPosition>) -> bool
        ensures answer { result ≡ can_be_positions positions.items self.old }
        ensures changed { let taken = record self.old { positions = positions.items } in
            self.new ≡ (if result then taken else self.old) }
    {
        let fits = positions.is_empty() || positions.len() == self.info.len();
        if fits {
            self.pos = positions;
        }
        fits
    }

    /// The direction of the text.
    #[inline]
    pub fn direction(&self) -> Direction
        ensures { result ≡ self.now.direction }
    {
        self.direction
    }

    /// Sets the direction of the text.
    #[inline]
    pub fn set_direction(&mut self, direction: Direction)
        ensures { self.new ≡ record self.old { direction = direction } }
    {
        self.direction = direction;
    }

    /// The script of the text, where it is known.
    #[inline]
    pub fn script(&self) -> Option<Script>
        ensures { result ≡ self.now.script }
    {
        self.script
    }

    /// Sets the script of the text.
    #[inline]
    pub fn set_script(&mut self, script: Option<Script>)
        ensures { self.new ≡ record self.old { script = script } }
    {
        self.script = script;
    }

    /// How clusters merge.
    #[inline]
    pub fn cluster_level(&self) -> BufferClusterLevel
        ensures { result ≡ self.now.level }
    {
        self.cluster_level
    }

    /// Sets how clusters merge from now on.
    #[inline]
    pub fn set_cluster_level(&mut self, cluster_level: BufferClusterLevel)
        ensures { self.new ≡ record self.old { level = cluster_level } }
    {
        self.cluster_level = cluster_level;
    }

    /// What the caller wants of the shapers.
    #[inline]
    pub fn flags(&self) -> BufferFlags
        ensures { result ≡ self.now.flags }
    {
        self.flags
    }

    /// Sets what the caller wants of the shapers.
    #[inline]
    pub fn set_flags(&mut self, flags: BufferFlags)
        ensures { self.new ≡ record self.old { flags = flags } }
    {
        self.flags = flags;
    }

    /// The text before the buffer's, nearest character first: at most five.
    #[inline]
    pub fn pre_context(&self) -> &[char]
        ensures chars { result.now ≡ self.now.before }
        ensures at_most_five { length self.now.before ≤ 5 }
    {
        self.pre_context.as_slice()
    }

    /// Keeps the five nearest of these characters, which are nearest first, as the text before.
    #[inline]
    pub fn set_pre_context(&mut self, chars: &[char])
        ensures { self.new ≡ record self.old { before = take 5 chars.now } }
    {
        self.pre_context = context(chars);
    }

    /// The text after the buffer's, nearest character first: at most five.
    #[inline]
    pub fn post_context(&self) -> &[char]
        ensures chars { result.now ≡ self.now.after }
        ensures at_most_five { length self.now.after ≤ 5 }
    {
        self.post_context.as_slice()
    }

    /// Keeps the five nearest of these characters, which are nearest first, as the text after.
    #[inline]
    pub fn set_post_context(&mut self, chars: &[char])
        ensures { self.new ≡ record self.old { after = take 5 chars.now } }
    {
        self.post_context = context(chars);
    }

    /// Whether some span was of the broken kind.
    #[inline]
    pub fn has_broken_syllable(&self) -> bool
        ensures { result ≡ self.now.broken }
    {
        self.has_broken_syllable
    }

    /// Sets the mark that some span was of the broken kind.
    #[inline]
    pub fn set_has_broken_syllable(&mut self, has_broken_syllable: bool)
        ensures { self.new ≡ record self.old { broken = has_broken_syllable } }
    {
        self.has_broken_syllable = has_broken_syllable;
    }

    /// Whether some glyph is a piece of a stretched mark.
    #[inline]
    pub fn has_stch(&self) -> bool
        ensures { result ≡ self.now.stch }
    {
        self.has_stch
    }

    /// Sets the mark that some glyph is a piece of a stretched mark.
    #[inline]
    pub fn set_has_stch(&mut self, has_stch: bool)
        ensures { self.new ≡ record self.old { stch = has_stch } }
    {
        self.has_stch = has_stch;
    }

    /// What the lookups left for those behind them.
    #[inline]
    pub fn lookup_record(&self) -> LookupRecord
        ensures { result ≡ self.now.lookups }
    {
        self.lookup_record
    }

    /// Sets what the lookups left: a text begins with [`LookupRecord::for_text`].
    #[inline]
    pub fn set_lookup_record(&mut self, lookup_record: LookupRecord)
        ensures { self.new ≡ record self.old { lookups = lookup_record } }
    {
        self.lookup_record = lookup_record;
    }

    /// The greatest length that the buffer may have.
    #[inline]
    pub fn max_len(&self) -> usize
        ensures limit { result ≡ self.now.max_len }
        ensures fits { length self.now.glyphs ≤ result }
    {
        self.max_len
    }

    /// Sets the greatest length that the buffer may have; a limit below its length counts as its
    /// length, so that the text doesn't grow.
    #[inline]
    pub fn set_max_len(&mut self, max_len: usize)
        ensures { self.new ≡
            record self.old { max_len = max max_len (length self.old.glyphs) } }
    {
        self.max_len = max_len.max(self.info.len());
    }
}

//! The forms of syllables by their places in sequences.
ghost use Rattle.std.specs.Prelude.{◌≡◌, ◌%◌, ◌<◌, ◌≤◌, ◌&&◌, length, map, drop, false, None};
ghost use Rattle.shapers_buffer.specs.Clusters.{stretch_of, with_stretch};
ghost use Rattle.shapers_buffer.specs.GlyphFlags.{unsafe_all};
ghost use Rattle.shapers_buffer.specs.Syllables.{syllables};
ghost use Rattle.shapers_clusters.specs.FlagLaw.{OnlyFlagsAdded};
ghost use Rattle.shapers_universal.specs.UniversalSyllables.{all_forms, form_mask, form_masks, formed, forms_flagged, in_forms, is_torn, may_join, mask_between, torn_pair, torn_pairs, with_form_masks, with_instead};

use shapers_base::buffer::{
    first_syllable_len, hb_buffer_t, hb_glyph_info_t, hb_tag_t, unsafe_to_break_in,
};
use shapers_base::map::hb_ot_map_t;
use shapers_base::plan::BreakFlags;
use shapers_syllabic::ot_shaper_syllabic::use_syllable::{HIEROGLYPH_CLUSTER, NON_CLUSTER};

// The masks of the four forms.
#[derive(Clone, Copy)]
pub(super) struct FormMasks {
    isol: u32,
    init: u32,
    medi: u32,
    fina: u32,
}

// Gives each syllable the mask of its form: in each unbroken sequence of syllables that join, a
// lone one is isolated, the first initial, the last final, the others medial.
#[inline]
pub(super) fn set_forms(map: &hb_ot_map_t, buffer: &mut hb_buffer_t)
    ensures forms { let masks = form_masks map.now in
        buffer.new ≡ record buffer.old { glyphs = with_form_masks masks buffer.old.glyphs } }
    ensures flags { OnlyFlagsAdded buffer.old.glyphs buffer.new.glyphs }
{
    let masks = FormMasks::of(map);
    if masks.all() != 0 {
        buffer.with_glyphs_mut(|glyphs| masks.set_in(glyphs));
    }
}

// Flags what the choice adds, in a text whose syllables have their forms: with Sound any two
// neighbours of a sequence between which a break would change a mask.
#[inline]
pub(super) fn flag_forms(breaks: BreakFlags, map: &hb_ot_map_t, buffer: &mut hb_buffer_t)
    ensures { let flagged = forms_flagged None breaks map.now buffer.old.glyphs in
        buffer.new ≡ record buffer.old { glyphs = flagged } }
{
    match breaks {
        BreakFlags::AsCode => {}
        BreakFlags::Sound => {
            let masks = FormMasks::of(map);
            buffer.with_glyphs_mut(|glyphs| masks.flag_pairs(glyphs));
        }
    }
}

impl FormMasks {
    // The masks in a map.
    #[inline]
    fn of(map: &hb_ot_map_t) -> Self
        ensures masks { result ≡ form_masks map.now }
        ensures off_flags { all_forms result % 8 ≡ 0 }
    {
        FormMasks {
            isol: form_mask(map, hb_tag_t(*b"isol")),
            init: form_mask(map, hb_tag_t(*b"init")),
            medi: form_mask(map, hb_tag_t(*b"medi")),
            fina: form_mask(map, hb_tag_t(*b"fina")),
        }
    }

    // The bits of all forms.
    #[inline]
    fn all(self) -> u32
        ensures bits { result ≡ all_forms self }
        ensures fits { all_forms self ≤ 0xFFFFFFFF }
    {
        (self.isol | self.init) | (self.medi | self.fina)
    }

    // The mask in a sequence, by whether a syllable of it stands before and whether one stands
    // behind.
    #[inline]
    fn between(self, before: bool, behind: bool) -> u32
        ensures { result ≡ mask_between self before behind }
    {
        match (before, behind) {
            (false, false) => self.isol,
            (false, true) => self.init,
            (true, true) => self.medi,
            (true, false) => self.fina,
        }
    }

    // Gives each syllable the mask of its form.
    #[inline]
    fn set_in(self, glyphs: &mut [hb_glyph_info_t])
        ensures { glyphs.new ≡ in_forms self false (syllables glyphs.old) }
    {
        let mut start = 0;
        let mut before = false;
        while start < glyphs.len() {
            let end = start + first_syllable_len(&glyphs[start..]);
            let joins = may_join(&glyphs[start..end]);
            self.set_at(glyphs, start, end, before);
            before = joins;
            start = end;
        }
    }

    // Gives the syllable from `start` to `end` the mask of its form.
    #[inline]
    fn set_at(self, glyphs: &mut [hb_glyph_info_t], start: usize, end: usize, before: bool)
        requires in_order { start ≤ end }
        requires in_range { end ≤ length glyphs.old }
        ensures { let behind = may_join (drop end glyphs.old) in
            glyphs.new ≡ with_stretch start end (formed self before behind) glyphs.old }
    {
        let behind = may_join(&glyphs[end..]);
        self.set(&mut glyphs[start..end], before, behind);
    }

    // Whether a break between two syllables of a sequence would change the mask of one, by whether
    // one of it stands before them and whether one stands behind.
    #[inline]
    fn is_torn(self, before: bool, behind: bool) -> bool
        ensures { result ≡ is_torn self before behind }
    {
        self.between(before, true) != self.between(before, false)
            || self.between(true, behind) != self.between(false, behind)
    }

    // Whether a break between a syllable and the one that opens the rest would do so.
    #[inline]
    fn tears(
        self,
        syllable: &[hb_glyph_info_t],
        rest: &[hb_glyph_info_t],
        before: bool,
        behind: bool,
    ) -> bool
        ensures { let torn = is_torn self before behind in
            result ≡ (may_join syllable.now && (may_join rest.now && torn)) }
    {
        may_join(syllable) && may_join(rest) && self.is_torn(before, behind)
    }

    // Flags the syllable from `start` to `end` and the next one, where a break between them would
    // do so.
    #[inline]
    fn flag_pair(self, glyphs: &mut [hb_glyph_info_t], start: usize, end: usize, before: bool)
        requires in_order { start ≤ end }
        requires in_range { end ≤ length glyphs.old }
        ensures { let behind = syllables (drop end glyphs.old) in
            let stretches = torn_pair self before start (stretch_of start end glyphs.old) behind in
            glyphs.new ≡ unsafe_all stretches glyphs.old }
    {
        if end == glyphs.len() {
            return;
        }
        let next = end + first_syllable_len(&glyphs[end..]);
        let behind = may_join(&glyphs[next..]);
        if self.tears(&glyphs[start..end], &glyphs[end..], before, behind) {
            unsafe_to_break_in(glyphs, start, next);
        }
    }

    // Flags each such pair.
    #[inline]
    fn flag_pairs(self, glyphs: &mut [hb_glyph_info_t])
        ensures { let stretches = torn_pairs self false 0 (syllables glyphs.old) in
            glyphs.new ≡ unsafe_all stretches glyphs.old }
    {
        let mut start = 0;
        let mut before = false;
        while start < glyphs.len() {
            let end = start + first_syllable_len(&glyphs[start..]);
            let joins = may_join(&glyphs[start..end]);
            self.flag_pair(glyphs, start, end, before);
            before = joins;
            start = end;
        }
    }

    // Gives a syllable the mask of its form.
    #[inline]
    fn set(self, syllable: &mut [hb_glyph_info_t], before: bool, behind: bool)
        ensures { syllable.new ≡ formed self before behind syllable.old }
    {
        if may_join(syllable) {
            replace_forms(syllable, self.all(), self.between(before, behind));
        }
    }
}

// The mask of the feature of a form, 0 where it holds for the whole text.
#[inline]
fn form_mask(map: &hb_ot_map_t, tag: hb_tag_t) -> u32
    ensures mask { result ≡ form_mask map.now tag.0 }
    ensures off_flags { result % 8 ≡ 0 }
{
    let mask = map.get_1_mask(tag);
    if mask == map.get_global_mask() {
        return 0;
    }
    mask
}

// Whether the syllable that begins the text stands in sequences: hieroglyphs and what is no cluster
// have no forms by their place.
#[inline]
fn may_join(glyphs: &[hb_glyph_info_t]) -> bool
    ensures { result ≡ may_join glyphs.now }
{
    match glyphs.first() {
        None => false,
        Some(glyph) => {
            let kind = glyph.syllable % 16;
            kind != HIEROGLYPH_CLUSTER && kind != NON_CLUSTER
        }
    }
}

// Gives all these glyphs a mask in place of the bits of all forms.
#[inline]
fn replace_forms(glyphs: &mut [hb_glyph_info_t], all: u32, mask: u32)
    ensures { glyphs.new ≡ map (with_instead all mask) glyphs.old }
{
    for glyph in glyphs.iter_mut() {
        glyph.mask = glyph.mask & !all | mask;
    }
}

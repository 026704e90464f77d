//! The shapers behind one enum, one method per hook. Where a shaper lacks a hook, its method
//! returns `None` and changes nothing.
ghost use Rattle.std.specs.Prelude.{◌≡◌, ◌≤◌, [], length, IfOk, IsOk, false, is_some, IsOkUnless, OnOk, OnErr};
ghost use Rattle.std.specs.Option.{IfSome};
ghost use Rattle.shapers_buffer.specs.declared.buffer.refusal.ShaperError.TheVariants.{Memory};
ghost use Rattle.shapers_arabic.specs.Requests.{rclt};
ghost use Rattle.shapers_clusters.specs.FlagLaw.{OnlyFlagsAdded};
ghost use Rattle.rustybuzz_shapers.specs.Hooks.{GlyphsFit, MasksOffFlags, MasksSet, MarksFit, MarksKeep, MarksReordered, PlanFits, PostprocessFits, PostprocessKeeps, Postprocessed, Preprocessed, PreprocessKeeps, compose_answer, data_created, decompose_answer, preprocess_answer, RefusesPostprocess, RefusesPreprocess};
ghost use Rattle.rustybuzz_shapers.specs.Records.{asked, collected, normalizes, overridden, places_marks, wants_gpos_script, zeroes_marks};
ghost use Rattle.rustybuzz_shapers.specs.Standing.{has_hook};
ghost use Rattle.rustybuzz_shapers.specs.declared.shaper.Hook.TheVariants.{CollectFeatures, OverrideFeatures, CreateData, PreprocessText, PostprocessGlyphs, Compose, Decompose, SetupMasks, ReorderMarks};

use shapers_base::buffer::{ShaperError, hb_buffer_t, hb_tag_t};
use shapers_base::font::{Tables, hb_font_t};
use shapers_base::plan::{hb_ot_shape_plan_t, hb_ot_shape_planner_t};

pub mod checked;
mod conditions;
mod laws;
mod pauses;
mod syllables;

pub use conditions::{has_positions, kinds_fit, lacks_positions, pause_fits};
pub use laws::{
    again_law, apart_law, breaks_law, cuts_at_borders_law, headline, lengths_law, monotone_law,
    stretches_cover_law, syllables_regrouped_law, text_cuts_law,
};
pub use pauses::{pause_may_change, run_pause};
use shapers_arabic::ot_shaper_arabic;
pub use shapers_base::plan::{NormalizationMode, Pause, PlanData, Preprocess, ZeroWidthMarks};
use shapers_hangul::ot_shaper_hangul;
use shapers_indic::ot_shaper_indic;
use shapers_khmer::ot_shaper_khmer;
use shapers_myanmar::ot_shaper_myanmar;
use shapers_stretch::ot_shaper_arabic_stretch;
use shapers_text::{ot_shaper_hebrew, ot_shaper_thai};
use shapers_universal::ot_shaper_use;
pub use syllables::{setup_syllables_found, setup_syllables_written};

/// A script shaper. Where it lacks a hook, a dash here, the method returns `None` and changes
/// nothing; `has_hook` is this table. What runs between two stages of lookups is a [`Pause`].
///
/// | hook | Arabic | Hangul | Hebrew | Indic | Khmer | Myanmar | Zawgyi | Thai | universal |
/// |---|---|---|---|---|---|---|---|---|---|
/// | [`collect_features`](Self::collect_features) | yes | yes | - | yes | yes | yes | - | - | yes |
/// | [`override_features`](Self::override_features) | - | yes | - | yes | yes | - | - | - | - |
/// | [`create_data`](Self::create_data) | yes | yes | - | yes | yes | - | - | - | yes |
/// | [`preprocess_text`](Self::preprocess_text) | - | yes | - | yes | - | - | - | yes | yes |
/// | [`decompose`](Self::decompose) | - | - | - | yes | yes | - | - | - | - |
/// | [`compose`](Self::compose) | - | - | yes | yes | yes | - | - | - | yes |
/// | [`reorder_marks`](Self::reorder_marks) | yes | - | yes | - | - | - | - | - | - |
/// | [`setup_masks`](Self::setup_masks) | yes | yes | - | yes | yes | yes | - | - | yes |
/// | [`postprocess_glyphs`](Self::postprocess_glyphs) | yes | - | - | - | - | - | - | - | - |
#[derive(Clone, Copy, Debug, PartialEq, Eq)]
pub enum hb_ot_shaper_t {
    /// Arabic, Syriac and the scripts that join like them.
    Arabic,
    /// Korean.
    Hangul,
    /// Hebrew.
    Hebrew,
    /// The scripts of India that OpenType has specifications of their own for.
    Indic,
    /// Khmer.
    Khmer,
    /// Myanmar.
    Myanmar,
    /// Myanmar in the encoding of Zawgyi, which needs no shaping.
    MyanmarZawgyi,
    /// Thai and Lao.
    Thai,
    /// The scripts that the Universal Shaping Engine is for.
    Universal,
}

/// A hook of a shaper, by its method.
#[derive(Clone, Copy, Debug, PartialEq, Eq)]
pub enum Hook {
    /// `collect_features`.
    CollectFeatures,
    /// `override_features`.
    OverrideFeatures,
    /// `create_data`.
    CreateData,
    /// `preprocess_text`.
    PreprocessText,
    /// `postprocess_glyphs`.
    PostprocessGlyphs,
    /// `compose`.
    Compose,
    /// `decompose`.
    Decompose,
    /// `setup_masks`.
    SetupMasks,
    /// `reorder_marks`.
    ReorderMarks,
}

/// The shaper of Arabic and the scripts that join like it.
pub const ARABIC_SHAPER: hb_ot_shaper_t = hb_ot_shaper_t::Arabic;

/// The shaper of Korean.
pub const HANGUL_SHAPER: hb_ot_shaper_t = hb_ot_shaper_t::Hangul;

/// The shaper of Hebrew.
pub const HEBREW_SHAPER: hb_ot_shaper_t = hb_ot_shaper_t::Hebrew;

/// The shaper of the Indic scripts.
pub const INDIC_SHAPER: hb_ot_shaper_t = hb_ot_shaper_t::Indic;

/// The shaper of Khmer.
pub const KHMER_SHAPER: hb_ot_shaper_t = hb_ot_shaper_t::Khmer;

/// The shaper of Myanmar.
pub const MYANMAR_SHAPER: hb_ot_shaper_t = hb_ot_shaper_t::Myanmar;

/// The shaper of Myanmar in the encoding of Zawgyi.
pub const MYANMAR_ZAWGYI_SHAPER: hb_ot_shaper_t = hb_ot_shaper_t::MyanmarZawgyi;

/// The shaper of Thai and Lao.
pub const THAI_SHAPER: hb_ot_shaper_t = hb_ot_shaper_t::Thai;

/// The universal shaper.
pub const UNIVERSAL_SHAPER: hb_ot_shaper_t = hb_ot_shaper_t::Universal;

impl hb_ot_shaper_t {
    ghost use Rattle.std.specs.Prelude.{◌+◌, ◌*◌, ◌-◌, ◌^◌, min};
    ghost use Rattle.rustybuzz_shapers.specs.Lengths.{PausesHaveRoom, PreprocessingHasRoom, growth};
    ghost use Rattle.rustybuzz_shapers.specs.Stretched.{glyphs_added};

    /// For how many glyphs a text of so many needs room, whatever preprocessing or a pause of the shaper
    /// makes of it: with this `max_len` neither refuses with `TooLong`. At most the greatest number.
    #[inline]
    pub const fn length_bound(self, len: usize) -> usize
        ensures bound { result ≡ min (len * growth self) (2 ^ 64 - 1) }
        ensures preprocessing { PreprocessingHasRoom }
        ensures pauses { PausesHaveRoom }
    {
        len.saturating_mul(self.growth())
    }

    // How many times as long a text gets at most.
    const fn growth(self) -> usize
        ensures { result ≡ growth self }
    {
        match self {
            Self::Hangul => 3,
            Self::Indic | Self::Khmer | Self::Myanmar | Self::Thai | Self::Universal => 2,
            Self::Arabic | Self::Hebrew | Self::MyanmarZawgyi => 1,
        }
    }

    /// Whether the shaper has a hook. Where it lacks one, the hook's method returns None and
    /// changes nothing.
    pub const fn has_hook(self, hook: Hook) -> bool
        ensures { result ≡ has_hook self hook }
    {
        match hook {
            Hook::CollectFeatures => {
                !matches!(self, Self::Hebrew | Self::MyanmarZawgyi | Self::Thai)
            }
            Hook::OverrideFeatures => matches!(self, Self::Hangul | Self::Indic | Self::Khmer),
            Hook::CreateData => matches!(
                self,
                Self::Arabic | Self::Hangul | Self::Indic | Self::Khmer | Self::Universal
            ),
            Hook::PreprocessText => {
                matches!(
                    self,
                    Self::Hangul | Self::Indic | Self::Thai | Self::Universal
                )
            }
            Hook::PostprocessGlyphs => matches!(self, Self::Arabic),
            Hook::Compose => {
                matches!(
                    self,
                    Self::Hebrew | Self::Indic | Self::Khmer | Self::Universal
                )
            }
            Hook::Decompose => matches!(self, Self::Indic | Self::Khmer),
            Hook::SetupMasks => { !matches!(self, Self::Hebrew | Self::MyanmarZawgyi | Self::Thai) }
            Hook::ReorderMarks => matches!(self, Self::Arabic | Self::Hebrew),
        }
    }

    /// How the text is normalized before the font's mapping.
    #[inline]
    pub const fn normalization_preference(self) -> NormalizationMode
        ensures { result ≡ normalizes self }
    {
        match self {
            Self::Hangul | Self::MyanmarZawgyi => NormalizationMode::NONE,
            Self::Arabic | Self::Hebrew | Self::Thai => NormalizationMode::AUTO,
            Self::Indic | Self::Khmer | Self::Myanmar | Self::Universal => NormalizationMode::CD,
        }
    }

    /// The script that GPOS has to have chosen, so that the shaper trusts it to place marks.
    #[inline]
    pub const fn gpos_tag(self) -> Option<hb_tag_t>
        ensures { result ≡ wants_gpos_script self }
    {
        match self {
            Self::Hebrew => Some(hb_tag_t(*b"hebr")),
            _ => None,
        }
    }

    /// When the advances of marks become zero.
    #[inline]
    pub const fn zero_width_marks(self) -> ZeroWidthMarks
        ensures { result ≡ zeroes_marks self }
    {
        match self {
            Self::Hangul | Self::Indic | Self::Khmer | Self::MyanmarZawgyi => ZeroWidthMarks::NONE,
            Self::Myanmar | Self::Universal => ZeroWidthMarks::GDEF_EARLY,
            Self::Arabic | Self::Hebrew | Self::Thai => ZeroWidthMarks::GDEF_LATE,
        }
    }

    /// Whether marks are placed by their classes where the font doesn't place them.
    #[inline]
    pub const fn fallback_position(self) -> bool
        ensures { result ≡ places_marks self }
    {
        matches!(self, Self::Arabic | Self::Hebrew)
    }

    /// Requests the features of the shaper's scripts: all of the list, or nothing where memory is
    /// refused. Arabic's list depends on the planner's script and on the font.
    ///
    /// # Errors
    ///
    /// `Memory`; the planner is as it was then.
    pub fn collect_features<F: hb_font_t>(
        self,
        face: &F,
        planner: &mut hb_ot_shape_planner_t,
    ) -> Result<Option<()>, ShaperError>
        ensures answer { let there = has_hook self CollectFeatures in
            IfOk result (λ answer. is_some answer ≡ there) }
        ensures ok { let has_rclt = (F.font face.now).offers rclt in
            let list = collected self planner.old.script has_rclt in
            OnOk result (planner.new ≡ asked list planner.old) }
        ensures refusal { IsOkUnless result Memory }
        ensures err { OnErr result (planner.new ≡ planner.old) }
        ensures absent { has_hook self CollectFeatures ≡ false → IsOk result }
    {
        match self {
            Self::Arabic => ot_shaper_arabic::collect_features(face, planner)?,
            Self::Hangul => ot_shaper_hangul::collect_features(planner)?,
            Self::Indic => ot_shaper_indic::collect_features(planner)?,
            Self::Khmer => ot_shaper_khmer::collect_features(planner)?,
            Self::Myanmar => ot_shaper_myanmar::collect_features(planner)?,
            Self::Universal => ot_shaper_use::collect_features(planner)?,
            Self::Hebrew | Self::MyanmarZawgyi | Self::Thai => return Ok(None),
        }
        Ok(Some(()))
    }

    /// Requests what comes after the features of all shapers: all of it, or nothing where memory is
    /// refused.
    ///
    /// # Errors
    ///
    /// `Memory`; the planner is as it was then.
    pub fn override_features(
        self,
        planner: &mut hb_ot_shape_planner_t,
    ) -> Result<Option<()>, ShaperError>
        ensures answer { let there = has_hook self OverrideFeatures in
            IfOk result (λ answer. is_some answer ≡ there) }
        ensures ok { OnOk result (planner.new ≡ asked (overridden self) planner.old) }
        ensures refusal { IsOkUnless result Memory }
        ensures err { OnErr result (planner.new ≡ planner.old) }
        ensures absent { has_hook self OverrideFeatures ≡ false → IsOk result }
    {
        match self {
            Self::Hangul => ot_shaper_hangul::override_features(planner)?,
            Self::Indic => ot_shaper_indic::override_features(planner)?,
            Self::Khmer => ot_shaper_khmer::override_features(planner)?,
            _ => return Ok(None),
        }
        Ok(Some(()))
    }

    /// What the shaper keeps in the plan. No mask in it touches a glyph flag bit.
    pub fn create_data(self, plan: &hb_ot_shape_plan_t) -> Option<PlanData>
        ensures data { result ≡ data_created self plan.now }
        ensures answer { is_some result ≡ has_hook self CreateData }
        ensures off_flags { IfSome result MasksOffFlags }
    {
        match self {
            Self::Arabic => Some(ot_shaper_arabic::create_data(plan)),
            Self::Hangul => Some(ot_shaper_hangul::create_data(plan)),
            Self::Indic => Some(ot_shaper_indic::create_data(plan)),
            Self::Khmer => Some(ot_shaper_khmer::create_data(plan)),
            Self::Universal => Some(ot_shaper_use::create_data(plan)),
            Self::Hebrew | Self::Myanmar | Self::MyanmarZawgyi | Self::Thai => None,
        }
    }

    /// Rewrites a text before its characters become glyphs. Thai puts each SARA AM in two, and
    /// then, where GSUB doesn't have the script Thai, gives marks and bases their private use
    /// forms. Hangul composes jamo, or takes syllables apart, as the font has them, and puts tones
    /// before their syllables. Both refuse as a growth does. For Indic and the universal shaper the
    /// caller runs the vowel constraints.
    ///
    /// # Errors
    ///
    /// `TooLong` where the buffer would be longer than `max_len`, `Memory` where memory is
    /// refused; nothing has changed then.
    #[inline]
    pub fn preprocess_text<F: hb_font_t>(
        self,
        plan: &hb_ot_shape_plan_t,
        face: &F,
        buffer: &mut hb_buffer_t,
    ) -> Result<Option<Preprocess>, ShaperError>
        requires without_positions { buffer.old.positions ≡ [] }
        ensures answer { IfOk result (λ answer. answer ≡ preprocess_answer self) }
        ensures there { is_some (preprocess_answer self) ≡ has_hook self PreprocessText }
        ensures ok { let font = F.font face.now in
            OnOk result (Preprocessed self plan.now font buffer.old buffer.new) }
        ensures laws { let font = F.font face.now in
            OnOk result (PreprocessKeeps self plan.now font buffer.old buffer.new) }
        ensures refusal { RefusesPreprocess self (F.font face.now) buffer.old result }
        ensures err { OnErr result (buffer.new ≡ buffer.old) }
    {
        match self {
            Self::Thai => {
                ot_shaper_thai::preprocess_text(plan, face, buffer)?;
                Ok(Some(Preprocess::Done))
            }
            Self::Hangul => {
                ot_shaper_hangul::preprocess_text(plan, face, buffer)?;
                Ok(Some(Preprocess::Done))
            }
            Self::Indic | Self::Universal => Ok(Some(Preprocess::CallerRunsVowelConstraints)),
            Self::Arabic | Self::Hebrew | Self::Khmer | Self::Myanmar | Self::MyanmarZawgyi => {
                Ok(None)
            }
        }
    }

    /// Rewrites the glyphs after positioning: for Arabic, marks stretch over the words before them,
    /// as wide as these or wider by less than one unit per added copy, where their tiles fit.
    ///
    /// # Errors
    ///
    /// `StretchOverflow` where a number or an offset doesn't fit 32 bits; `TooLong` and
    /// `Memory`. Nothing has changed then.
    #[inline]
    pub fn postprocess_glyphs<F: hb_font_t>(
        self,
        plan: &hb_ot_shape_plan_t,
        face: &F,
        buffer: &mut hb_buffer_t,
    ) -> Result<Option<()>, ShaperError>
        requires with_positions { length buffer.old.positions ≡ length buffer.old.glyphs }
        requires fits { PostprocessFits self plan.now buffer.old.glyphs }
        ensures answer { let there = has_hook self PostprocessGlyphs in
            IfOk result (λ answer. is_some answer ≡ there) }
        ensures ok { let font = F.font face.now in
            OnOk result (Postprocessed self plan.now font buffer.old buffer.new) }
        ensures laws { let font = F.font face.now in
            OnOk result (PostprocessKeeps self plan.now font buffer.old buffer.new) }
        ensures longer { let added = glyphs_added self (F.font face.now) buffer.old in
            OnOk result (length buffer.new.glyphs ≡ length buffer.old.glyphs + added) }
        ensures refusal { RefusesPostprocess self plan.now (F.font face.now) buffer.old result }
        ensures err { OnErr result (buffer.new ≡ buffer.old) }
    {
        match self {
            Self::Arabic => {
                ot_shaper_arabic_stretch::postprocess_glyphs(plan, face, buffer)?;
                Ok(Some(()))
            }
            Self::Hangul
            | Self::Hebrew
            | Self::Indic
            | Self::Khmer
            | Self::Myanmar
            | Self::MyanmarZawgyi
            | Self::Thai
            | Self::Universal => Ok(None),
        }
    }

    /// The character that two characters compose to for this shaper, or `Some(None)` where they stay
    /// apart: for Hebrew also, where GPOS places no marks, the form of a letter and a point; for
    /// Indic, Khmer and the universal shaper none behind a mark, and for Indic also YA with its
    /// nukta. `None` leaves it to Unicode's tables.
    #[inline]
    pub fn compose<T: Tables>(
        self,
        plan: &hb_ot_shape_plan_t,
        tables: &T,
        a: char,
        b: char,
    ) -> Option<Option<char>>
        ensures pair { result ≡ compose_answer self plan.now (T.tables tables.now) a b }
        ensures answer { is_some result ≡ has_hook self Compose }
    {
        match self {
            Self::Hebrew => Some(ot_shaper_hebrew::compose(plan, tables, a, b)),
            Self::Indic => Some(ot_shaper_indic::compose(tables, a, b)),
            Self::Khmer => Some(ot_shaper_khmer::compose(tables, a, b)),
            Self::Universal => Some(ot_shaper_use::compose(tables, a, b)),
            Self::Arabic | Self::Hangul | Self::Myanmar | Self::MyanmarZawgyi | Self::Thai => {
                None
            }
        }
    }

    /// The two characters that a character decomposes to for this shaper, or `Some(None)` where it
    /// stays whole: for Indic not of letters that fonts know whole, for Khmer also of split vowels.
    /// `None` leaves it to Unicode's tables.
    #[inline]
    pub fn decompose<T: Tables>(
        self,
        _plan: &hb_ot_shape_plan_t,
        tables: &T,
        ab: char,
    ) -> Option<Option<(char, char)>>
        ensures parts { result ≡ decompose_answer self (T.tables tables.now) ab }
        ensures answer { is_some result ≡ has_hook self Decompose }
    {
        match self {
            Self::Indic => Some(ot_shaper_indic::decompose(tables, ab)),
            Self::Khmer => Some(ot_shaper_khmer::decompose(tables, ab)),
            Self::Arabic
            | Self::Hangul
            | Self::Hebrew
            | Self::Myanmar
            | Self::MyanmarZawgyi
            | Self::Thai
            | Self::Universal => None,
        }
    }

    /// Sets the masks of the glyphs: for Arabic, the form that each letter takes between its
    /// neighbours, and the form's mask; for Hangul those of marked jamo; for Indic, Khmer and
    /// Myanmar categories alone, for the universal shaper these and, where letters join, Arabic's
    /// forms. It can't refuse and takes no memory.
    #[inline]
    #[must_use]
    pub fn setup_masks<F: hb_font_t, T: Tables>(
        self,
        plan: &hb_ot_shape_plan_t,
        _face: &F,
        tables: &T,
        buffer: &mut hb_buffer_t,
    ) -> Option<()>
        requires without_positions { buffer.old.positions ≡ [] }
        requires data { PlanFits self plan.now }
        requires glyphs { GlyphsFit self plan.now buffer.old.glyphs }
        ensures answer { is_some result ≡ has_hook self SetupMasks }
        ensures masks { MasksSet self plan.now (T.tables tables.now) buffer.old buffer.new }
        ensures flags { OnlyFlagsAdded buffer.old.glyphs buffer.new.glyphs }
    {
        match self {
            Self::Arabic => ot_shaper_arabic::setup_masks(plan, tables, buffer),
            Self::Hangul => ot_shaper_hangul::setup_masks(plan, buffer),
            Self::Indic => ot_shaper_indic::setup_masks(tables, buffer),
            Self::Khmer => ot_shaper_khmer::setup_masks(tables, buffer),
            Self::Myanmar => ot_shaper_myanmar::setup_masks(tables, buffer),
            Self::Universal => ot_shaper_use::setup_masks(plan, tables, buffer),
            Self::Hebrew | Self::MyanmarZawgyi | Self::Thai => return None,
        }
        Some(())
    }

    /// Reorders the marks from `start` to `end`: for Hebrew, at the first three neighbours of its
    /// classes, the last two merge and change places; for Arabic, over at most 32 places, marks
    /// that modify a letter come to the front. It can't refuse and takes no memory.
    #[inline]
    #[must_use]
    pub fn reorder_marks(
        self,
        plan: &hb_ot_shape_plan_t,
        buffer: &mut hb_buffer_t,
        start: usize,
        end: usize,
    ) -> Option<()>
        requires without_positions { buffer.old.positions ≡ [] }
        requires in_order { start ≤ end }
        requires in_range { end ≤ length buffer.old.glyphs }
        requires few { MarksFit self start end }
        ensures answer { is_some result ≡ has_hook self ReorderMarks }
        ensures marks { MarksReordered self start end buffer.old buffer.new }
        ensures laws { MarksKeep self start end buffer.old buffer.new }
    {
        match self {
            Self::Arabic => ot_shaper_arabic::reorder_marks(plan, buffer, start, end),
            Self::Hebrew => ot_shaper_hebrew::reorder_marks(plan, buffer, start, end),
            Self::Hangul
            | Self::Indic
            | Self::Khmer
            | Self::Myanmar
            | Self::MyanmarZawgyi
            | Self::Thai
            | Self::Universal => return None,
        }
        Some(())
    }
}

//! Normalization of a text for a shaper.
ghost use Rattle.std.specs.Prelude.{◌≡◌, [], length, IsOk, OnOk, OnErr, true};
ghost use Rattle.shapers_buffer.specs.Refusals.{RefusesLength};
ghost use Rattle.shapers_normal.specs.Decomposition.{first_round, is_whole, stays_together};
ghost use Rattle.shapers_normal.specs.Normalization.{normalized};
ghost use Rattle.shapers_pipeline.specs.ByShaper.{shaper_context};

mod context;
mod hooks;
mod tables;

use context::ShaperContext;
use rustybuzz_shapers::shaper::hb_ot_shaper_t;
use shapers_base::buffer::{ShaperError, hb_buffer_t};
use shapers_base::font::GlyphId;
use shapers_base::plan::hb_ot_shape_plan_t;
use shapers_normal::ot_shape_normalize::{Rounds, normalize};
pub use tables::{NormalizeFont, NormalizeTables};

/// The caller's settings.
#[derive(Clone, Copy, Debug, PartialEq, Eq, Default)]
pub struct NormalizeSettings {
    /// When marks are ordered and composed.
    pub rounds: Rounds,
    /// The glyph for what isn't drawn, which stands for spaces that the font lacks if it has no
    /// common space.
    pub invisible_glyph: Option<GlyphId>,
    /// Whether the caller has a glyph for selectors that select nothing: they aren't ignorable
    /// then.
    pub draws_selectors: bool,
}

/// Normalizes a text without positions, whose glyphs are characters with their properties, for a
/// shaper with its plan, a font and Unicode's tables: by the shaper's own `decompose`, `compose`
/// and `reorder_marks`, and where it lacks one by the tables. `glyph_props` is then the number
/// of each character's glyph. None stands for the shaper of a script that needs none.
///
/// # Errors
///
/// `TooLong` where the text taken apart is longer than the buffer may be, and `Memory`; nothing
/// has changed then. A text of which nothing comes apart takes no memory. (HarfBuzz's normalizer;
/// Unicode Standard Annex 15.)
pub fn ot_shape_normalize<F: NormalizeFont, T: NormalizeTables>(
    shaper: Option<hb_ot_shaper_t>,
    plan: &hb_ot_shape_plan_t,
    font: &F,
    tables: &T,
    settings: &NormalizeSettings,
    buffer: &mut hb_buffer_t,
) -> Result<(), ShaperError>
    requires { buffer.old.positions ≡ [] }
    ensures ok { let context = shaper_context shaper plan.now
        (F.font font.now) (F.variants font.now) (T.tables tables.now) (T.texts tables.now)
        settings.now.invisible_glyph settings.now.draws_selectors in
        let text =
        normalized context settings.now.rounds buffer.old.level buffer.old.glyphs in
        OnOk result (buffer.new ≡ record buffer.old { glyphs = text }) }
    ensures length { let context = shaper_context shaper plan.now
        (F.font font.now) (F.variants font.now) (T.tables tables.now) (T.texts tables.now)
        settings.now.invisible_glyph settings.now.draws_selectors in
        RefusesLength buffer.old.max_len
        (length (first_round context buffer.old.level buffer.old.glyphs)) result }
    ensures memory { let context = shaper_context shaper plan.now
        (F.font font.now) (F.variants font.now) (T.tables tables.now) (T.texts tables.now)
        settings.now.invisible_glyph settings.now.draws_selectors in
        is_whole context buffer.old.glyphs ≡ true → IsOk result }
    ensures in_place { let context = shaper_context shaper plan.now
        (F.font font.now) (F.variants font.now) (T.tables tables.now) (T.texts tables.now)
        settings.now.invisible_glyph settings.now.draws_selectors in
        stays_together context buffer.old.glyphs ≡ true → IsOk result }
    ensures err { OnErr result (buffer.new ≡ buffer.old) }
{
    let context = ShaperContext {
        shaper,
        plan,
        font,
        tables,
        invisible_glyph: settings.invisible_glyph,
        draws_selectors: settings.draws_selectors,
    };
    normalize(&context, settings.rounds, buffer)
}

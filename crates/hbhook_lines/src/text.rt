//! A text before the font's lookups: what preparing it reads beside what the hooks read, and the
//! call.
ghost use Rattle.std.specs.Prelude.{◌≡◌, IfErr, OnOk};
ghost use Rattle.hbhook_lines.specs.Text.{preparation_by_lines};
ghost use Rattle.shapers_buffer.specs.Buffer.{Buffer};
ghost use Rattle.shapers_buffer.specs.Settings.{character_of};
ghost use Rattle.shapers_pipeline.specs.Planned.{as_planned, put_back};
ghost use Rattle.shapers_pipeline.specs.Prepared.{text_prepared};
ghost use Rattle.shapers_pipeline.specs.Refusals.{IsStopped};

use hbhook_commands::{LineFont, LineTables};
use rustybuzz_shapers::buffer::{hb_buffer_t, hb_tag_t, hb_unicode_general_category_t};
use rustybuzz_shapers::font::{GlyphId, Tables, hb_font_t};
use rustybuzz_shapers::plan::{Category, Position, hb_arabic_joining_type_t};
use rustybuzz_shapers::shaper::checked::CallError;
use shapers_normal::ot_shape_normalize::Rounds;
use shapers_pipeline::{NormalizeFont, NormalizeSettings, NormalizeTables, TextPlan, prepare_text};
use shapers_prepare::ot_shape_prepare::UnicodeProperties;
use shapers_unicode::{UnicodeTables, is_default_ignorable, modified_combining_class};

/// Does all that comes before the font's lookups, in a font without forms for selectors, and by
/// what Unicode says of characters where the tables of the lines say nothing.
pub(crate) fn prepare(
    plan: &TextPlan,
    font: &LineFont,
    tables: &LineTables,
    buffer: &mut hb_buffer_t,
) -> Result<(), CallError>
    ensures ok { let font = ⟦<LineFont as hb_font_t>⟧.font font.now in
        let tables = ⟦<LineTables as Tables>⟧.tables tables.now in
        let p = preparation_by_lines plan.now font tables in
        let text = as_planned plan.now.plan.now.script plan.now.direction buffer.old in
        OnOk result (buffer.new ≡ put_back buffer.old (text_prepared p text)) }
    ensures err { let font = ⟦<LineFont as hb_font_t>⟧.font font.now in
        let tables = ⟦<LineTables as Tables>⟧.tables tables.now in
        let p = preparation_by_lines plan.now font tables in
        let text = as_planned plan.now.plan.now.script plan.now.direction buffer.old in
        IfErr result (λ e. (left : Buffer) × (IsStopped p text left e
        × (buffer.new ≡ put_back buffer.old left))) }
{
    let settings = NormalizeSettings {
        rounds: Rounds::AsCode,
        invisible_glyph: None,
        draws_selectors: false,
    };
    let (font, tables) = (TextFont { font }, TextTables { tables });
    prepare_text(plan, &settings, &font, &tables, buffer)
}

// A font of which no line gives forms that selectors select.
#[derive(Drop)]
struct TextFont<'a> {
    font: &'a LineFont,
}

impl<'a> hb_font_t for TextFont<'a> {
    ghost font = { λ it. ⟦<LineFont as hb_font_t>⟧.font it.font.now };

    fn get_nominal_glyph(&self, c: u32) -> Option<GlyphId> {
        self.font.get_nominal_glyph(c)
    }

    fn glyph_h_advance(&self, glyph: GlyphId) -> i32 {
        self.font.glyph_h_advance(glyph)
    }

    fn would_apply(&self, lookup: u16, glyphs: &[GlyphId], zero_context: bool) -> bool {
        self.font.would_apply(lookup, glyphs, zero_context)
    }

    fn has_feature(&self, tag: hb_tag_t) -> bool {
        self.font.has_feature(tag)
    }
}

impl<'a> NormalizeFont for TextFont<'a> {
    ghost use Rattle.hbhook_lines.specs.Text.{no_variants};

    ghost variants = { λ _. no_variants };

    fn get_variation_glyph(&self, _c: u32, _selector: u32) -> Option<GlyphId> {
        None
    }
}

// The tables of the lines, over what Unicode has beside.
#[derive(Drop)]
struct TextTables<'a> {
    tables: &'a LineTables,
}

impl<'a> Tables for TextTables<'a> {
    ghost tables = { λ it. ⟦<LineTables as Tables>⟧.tables it.tables.now };

    fn joining_type(&self, c: char) -> hb_arabic_joining_type_t {
        self.tables.joining_type(c)
    }

    fn general_category(&self, c: char) -> hb_unicode_general_category_t {
        self.tables.general_category(c)
    }

    fn indic_categories(&self, c: u32) -> (Category, Position) {
        self.tables.indic_categories(c)
    }

    fn use_category(&self, c: u32) -> Category {
        self.tables.use_category(c)
    }

    fn compose(&self, a: char, b: char) -> Option<char> {
        self.tables.compose(a, b)
    }

    fn decompose(&self, ab: char) -> Option<(char, char)> {
        self.tables.decompose(ab)
    }
}

impl<'a> NormalizeTables for TextTables<'a> {
    ghost use Rattle.hbhook_lines.specs.Text.{texts_by_unicode};

    ghost texts = { λ _. texts_by_unicode };

    fn modified_combining_class(&self, c: char) -> u8 {
        modified_combining_class(c)
    }

    fn is_default_ignorable(&self, c: char) -> bool {
        is_default_ignorable(c)
    }
}

impl<'a> UnicodeProperties for TextTables<'a> {
    ghost use Rattle.hbhook_lines.specs.Text.{properties_over};

    ghost properties = { λ it. properties_over (⟦<LineTables as Tables>⟧.tables it.tables.now) };

    fn general_category(&self, c: u32) -> hb_unicode_general_category_t {
        self.tables.general_category(character(c))
    }

    fn modified_combining_class(&self, c: u32) -> u8 {
        modified_combining_class(character(c))
    }

    fn is_default_ignorable(&self, c: u32) -> bool {
        is_default_ignorable(character(c))
    }

    fn is_extended_pictographic(&self, c: u32) -> bool {
        UnicodeTables.is_extended_pictographic(c)
    }

    fn mirrored(&self, c: u32) -> Option<u32> {
        UnicodeTables.mirrored(c)
    }

    fn vertical_form(&self, c: u32) -> Option<u32> {
        UnicodeTables.vertical_form(c)
    }
}

// The character of this number, or U+FFFD where it is none.
fn character(number: u32) -> char
    ensures { result ≡ character_of number }
{
    char::from_u32(number).unwrap_or(char::REPLACEMENT_CHARACTER)
}

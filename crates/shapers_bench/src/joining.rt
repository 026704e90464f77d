//! Joining, with tables of a few letters.
ghost use Rattle.std.specs.Prelude.{◌≡◌, ◌<◌, IfOk};
ghost use Rattle.rustybuzz_shapers.specs.JoinedText.{AreCharacters};

use rustybuzz_shapers::buffer::{
    ShaperError, UnicodeProps, hb_buffer_t, hb_glyph_info_t, hb_unicode_general_category_t,
};
use rustybuzz_shapers::font::Tables;
use rustybuzz_shapers::ot_shaper_arabic::{LookUps, arabic_shape_plan_t, setup_masks_counted};
use rustybuzz_shapers::plan::{
    BreakFlags, Category, Position, StretchStart, hb_arabic_joining_type_t,
};
use std::alloc::Global;
use std::marker::Brand;
use std::sync::ledger::{Blank, Ledger};
use std::test::Fail;

// Tables of a few letters.
#[derive(Drop)]
struct Letters;

impl Tables for Letters {
    ghost use Rattle.std.specs.Prelude.{None};
    ghost use Rattle.rustybuzz_shapers.specs.hb_unicode_general_category_t.TheVariants.{Lo};
    ghost use Rattle.shapers_bench.specs.Letters.{letter_type};

    ghost tables = { λ _. record {
      joining = λ c. letter_type c;
      general = λ _. Lo;
      indic = λ _. (0, 14);
      universal = λ _. 0;
      composed = λ _ _. None;
      decomposed = λ _. None;
    } };

    fn joining_type(&self, c: char) -> hb_arabic_joining_type_t {
        match c {
            'd' => hb_arabic_joining_type_t::D,
            'r' => hb_arabic_joining_type_t::R,
            't' | '\u{180B}' => hb_arabic_joining_type_t::T,
            _ => hb_arabic_joining_type_t::U,
        }
    }

    fn general_category(&self, _c: char) -> hb_unicode_general_category_t {
        hb_unicode_general_category_t::Lo
    }

    fn indic_categories(&self, _c: u32) -> (Category, Position) {
        (0, 14)
    }

    fn use_category(&self, _c: u32) -> Category {
        0
    }

    fn compose(&self, _a: char, _b: char) -> Option<char> {
        None
    }

    fn decompose(&self, _ab: char) -> Option<(char, char)> {
        None
    }
}

// The masks of the forms, as the rows name them: init 10, fina 20 (hexadecimal).
const PLAN: arabic_shape_plan_t = arabic_shape_plan_t {
    mask_array: [0, 0x20, 0, 0, 0, 0, 0x10, 0],
    has_stch: false,
    stretch_start: StretchStart::AsCode,
    break_flags: BreakFlags::AsCode,
};

// A buffer of three characters, in clusters 0, 1 and 2.
fn text(alloc: Global, chars: [char; 3]) -> Result<hb_buffer_t, ShaperError>
    ensures { IfOk result (λ b. AreCharacters b.glyphs) }
{
    let mut buffer = hb_buffer_t::new(alloc, 10);
    let [a, b, c] = chars;
    buffer.push(glyph(a, 0))?;
    buffer.push(glyph(b, 1))?;
    buffer.push(glyph(c, 2))?;
    Ok(buffer)
}

// A glyph of a character, in this cluster.
fn glyph(c: char, cluster: u32) -> hb_glyph_info_t
    ensures { result.glyph_id ≡ c }
{
    hb_glyph_info_t {
        glyph_id: u32::from(c),
        cluster,
        unicode_props: UnicodeProps::new(hb_unicode_general_category_t::Lo, 0),
        ..hb_glyph_info_t::DEFAULT
    }
}

#[test]
fn counts_look_ups_without_bytes(rt: HostRuntime) -> Result<(), Fail> {
    let mut buffer = text(rt.alloc(), ['d', 't', 'r'])?;
    count::<Brand>(&mut buffer, Blank::new(1));
    assert_eq!(rt; size_of::<LookUps<Brand>>(), 0);
    Ok(())
}

// Joins the buffer with a count, which starts at none.
fn count<L: Ledger>(buffer: &mut hb_buffer_t, blank: Blank)
    requires name { blank.name ≡ L.name }
    requires parts { blank.parts ≡ L.parts }
    requires some { 0 < blank.parts }
    requires characters { AreCharacters buffer.old.glyphs }
{
    let mut count = LookUps::<L>::new(blank);
    setup_masks_counted(&PLAN, None, buffer, &Letters, &mut count);
}

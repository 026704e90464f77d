//! Vowels that look like another one together, by script.
// Written by unicode/generate.
ghost use Rattle.std.specs.Prelude.{◌≡◌};
ghost use Rattle.shapers_prepare.specs.VowelRows.{devanagari_pairs, bengali_pairs, gurmukhi_pairs, gujarati_pairs, oriya_pairs, tamil_pairs, telugu_pairs, kannada_pairs, malayalam_pairs, sinhala_pairs, brahmi_pairs, khojki_pairs, khudawadi_pairs, tirhuta_pairs, modi_pairs, takri_pairs};
ghost use Rattle.shapers_prepare.specs.Vowels.{is_among_pairs};

#[rattlefmt::skip]
#[tactic(auto, unfolding(crate::specs::VowelRows::devanagari_pairs))]
pub(super) fn is_devanagari_pair(a: u32, b: u32) -> bool
    ensures { result ≡ is_among_pairs devanagari_pairs a b }
{
    match a {
        0x0905 => matches!(b, 0x093A | 0x093B | 0x093E | 0x0945 | 0x0946 | 0x0949 | 0x094A | 0x094B | 0x094C | 0x094F | 0x0956 | 0x0957),
        0x0906 => matches!(b, 0x093A | 0x0945 | 0x0946 | 0x0947 | 0x0948),
        0x0909 => b == 0x0941,
        0x090F => matches!(b, 0x0945..=0x0947),
        _ => false,
    }
}

#[rattlefmt::skip]
#[tactic(auto, unfolding(crate::specs::VowelRows::bengali_pairs))]
pub(super) fn is_bengali_pair(a: u32, b: u32) -> bool
    ensures { result ≡ is_among_pairs bengali_pairs a b }
{
    match a {
        0x0985 => b == 0x09BE,
        0x098B => b == 0x09C3,
        0x098C => b == 0x09E2,
        _ => false,
    }
}

#[rattlefmt::skip]
#[tactic(auto, unfolding(crate::specs::VowelRows::gurmukhi_pairs))]
pub(super) fn is_gurmukhi_pair(a: u32, b: u32) -> bool
    ensures { result ≡ is_among_pairs gurmukhi_pairs a b }
{
    match a {
        0x0A05 => matches!(b, 0x0A3E | 0x0A48 | 0x0A4C),
        0x0A72 => matches!(b, 0x0A3F | 0x0A40 | 0x0A47),
        0x0A73 => matches!(b, 0x0A41 | 0x0A42 | 0x0A4B),
        _ => false,
    }
}

#[rattlefmt::skip]
#[tactic(auto, unfolding(crate::specs::VowelRows::gujarati_pairs))]
pub(super) fn is_gujarati_pair(a: u32, b: u32) -> bool
    ensures { result ≡ is_among_pairs gujarati_pairs a b }
{
    match a {
        0x0A85 => matches!(b, 0x0ABE | 0x0AC5 | 0x0AC7 | 0x0AC8 | 0x0AC9 | 0x0ACB | 0x0ACC),
        0x0AC5 => b == 0x0ABE,
        _ => false,
    }
}

#[rattlefmt::skip]
#[tactic(auto, unfolding(crate::specs::VowelRows::oriya_pairs))]
pub(super) fn is_oriya_pair(a: u32, b: u32) -> bool
    ensures { result ≡ is_among_pairs oriya_pairs a b }
{
    match a {
        0x0B05 => b == 0x0B3E,
        0x0B0F => b == 0x0B57,
        0x0B13 => b == 0x0B57,
        _ => false,
    }
}

#[rattlefmt::skip]
#[tactic(auto, unfolding(crate::specs::VowelRows::tamil_pairs))]
pub(super) fn is_tamil_pair(a: u32, b: u32) -> bool
    ensures { result ≡ is_among_pairs tamil_pairs a b }
{
    match a {
        0x0B85 => b == 0x0BC2,
        _ => false,
    }
}

#[rattlefmt::skip]
#[tactic(auto, unfolding(crate::specs::VowelRows::telugu_pairs))]
pub(super) fn is_telugu_pair(a: u32, b: u32) -> bool
    ensures { result ≡ is_among_pairs telugu_pairs a b }
{
    match a {
        0x0C12 => matches!(b, 0x0C4C | 0x0C55),
        0x0C3F => b == 0x0C55,
        0x0C46 => b == 0x0C55,
        0x0C4A => b == 0x0C55,
        _ => false,
    }
}

#[rattlefmt::skip]
#[tactic(auto, unfolding(crate::specs::VowelRows::kannada_pairs))]
pub(super) fn is_kannada_pair(a: u32, b: u32) -> bool
    ensures { result ≡ is_among_pairs kannada_pairs a b }
{
    match a {
        0x0C89 => b == 0x0CBE,
        0x0C8B => b == 0x0CBE,
        0x0C92 => b == 0x0CCC,
        _ => false,
    }
}

#[rattlefmt::skip]
#[tactic(auto, unfolding(crate::specs::VowelRows::malayalam_pairs))]
pub(super) fn is_malayalam_pair(a: u32, b: u32) -> bool
    ensures { result ≡ is_among_pairs malayalam_pairs a b }
{
    match a {
        0x0D07 => b == 0x0D57,
        0x0D09 => b == 0x0D57,
        0x0D0E => b == 0x0D46,
        0x0D12 => matches!(b, 0x0D3E | 0x0D57),
        _ => false,
    }
}

#[rattlefmt::skip]
#[tactic(auto, unfolding(crate::specs::VowelRows::sinhala_pairs))]
pub(super) fn is_sinhala_pair(a: u32, b: u32) -> bool
    ensures { result ≡ is_among_pairs sinhala_pairs a b }
{
    match a {
        0x0D85 => matches!(b, 0x0DCF..=0x0DD1),
        0x0D8B => b == 0x0DDF,
        0x0D8D => b == 0x0DD8,
        0x0D8F => b == 0x0DDF,
        0x0D91 => matches!(b, 0x0DCA | 0x0DD9 | 0x0DDA | 0x0DDC | 0x0DDD | 0x0DDE),
        0x0D94 => b == 0x0DDF,
        _ => false,
    }
}

#[rattlefmt::skip]
#[tactic(auto, unfolding(crate::specs::VowelRows::brahmi_pairs))]
pub(super) fn is_brahmi_pair(a: u32, b: u32) -> bool
    ensures { result ≡ is_among_pairs brahmi_pairs a b }
{
    match a {
        0x11005 => b == 0x11038,
        0x1100B => b == 0x1103E,
        0x1100F => b == 0x11042,
        _ => false,
    }
}

#[rattlefmt::skip]
#[tactic(auto, unfolding(crate::specs::VowelRows::khojki_pairs))]
pub(super) fn is_khojki_pair(a: u32, b: u32) -> bool
    ensures { result ≡ is_among_pairs khojki_pairs a b }
{
    match a {
        0x11200 => matches!(b, 0x1122C | 0x11231 | 0x11233),
        0x11206 => b == 0x1122C,
        0x1122C => matches!(b, 0x11230 | 0x11231),
        0x11240 => b == 0x1122E,
        _ => false,
    }
}

#[rattlefmt::skip]
#[tactic(auto, unfolding(crate::specs::VowelRows::khudawadi_pairs))]
pub(super) fn is_khudawadi_pair(a: u32, b: u32) -> bool
    ensures { result ≡ is_among_pairs khudawadi_pairs a b }
{
    match a {
        0x112B0 => matches!(b, 0x112E0 | 0x112E5 | 0x112E6 | 0x112E7 | 0x112E8),
        _ => false,
    }
}

#[rattlefmt::skip]
#[tactic(auto, unfolding(crate::specs::VowelRows::tirhuta_pairs))]
pub(super) fn is_tirhuta_pair(a: u32, b: u32) -> bool
    ensures { result ≡ is_among_pairs tirhuta_pairs a b }
{
    match a {
        0x11481 => b == 0x114B0,
        0x1148B => b == 0x114BA,
        0x1148D => b == 0x114BA,
        0x114AA => matches!(b, 0x114B5 | 0x114B6),
        _ => false,
    }
}

#[rattlefmt::skip]
#[tactic(auto, unfolding(crate::specs::VowelRows::modi_pairs))]
pub(super) fn is_modi_pair(a: u32, b: u32) -> bool
    ensures { result ≡ is_among_pairs modi_pairs a b }
{
    match a {
        0x11600 => matches!(b, 0x11639 | 0x1163A),
        0x11601 => matches!(b, 0x11639 | 0x1163A),
        _ => false,
    }
}

#[rattlefmt::skip]
#[tactic(auto, unfolding(crate::specs::VowelRows::takri_pairs))]
pub(super) fn is_takri_pair(a: u32, b: u32) -> bool
    ensures { result ≡ is_among_pairs takri_pairs a b }
{
    match a {
        0x11680 => matches!(b, 0x116AD | 0x116B4 | 0x116B5),
        0x11686 => b == 0x116B2,
        _ => false,
    }
}

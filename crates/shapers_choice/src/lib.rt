//! Which shaper a text takes: by its script and direction, and by the script that was found in the
//! font (HarfBuzz's choice).
#![tactic(auto)]

ghost use Rattle.std.specs.Prelude.{◌≡◌, if◌then◌else◌};
ghost use Rattle.shapers_choice.specs.Choice.{arabic_for, indic_for, indic_scripts, is_among, is_default, is_newest, is_tag, myanmar_for, own_for, shaper_for, syriac_for, universal_for, universal_scripts};

use rustybuzz_shapers::shaper::hb_ot_shaper_t;
use shapers_buffer::buffer::{Direction, Script, hb_tag_t};

// The scripts that have a specification of their own among OpenType's of India.
const INDIC_SCRIPTS: [Script; 9] = [
    Script(*b"Beng"),
    Script(*b"Deva"),
    Script(*b"Gujr"),
    Script(*b"Guru"),
    Script(*b"Knda"),
    Script(*b"Mlym"),
    Script(*b"Orya"),
    Script(*b"Taml"),
    Script(*b"Telu"),
];

// The scripts of the universal shaping engine.
const UNIVERSAL_SCRIPTS: [Script; 88] = [
    Script(*b"Adlm"),
    Script(*b"Ahom"),
    Script(*b"Bali"),
    Script(*b"Batk"),
    Script(*b"Berf"),
    Script(*b"Bhks"),
    Script(*b"Brah"),
    Script(*b"Bugi"),
    Script(*b"Buhd"),
    Script(*b"Cakm"),
    Script(*b"Cham"),
    Script(*b"Chrs"),
    Script(*b"Cpmn"),
    Script(*b"Diak"),
    Script(*b"Dogr"),
    Script(*b"Dupl"),
    Script(*b"Egyp"),
    Script(*b"Elym"),
    Script(*b"Gara"),
    Script(*b"Gong"),
    Script(*b"Gonm"),
    Script(*b"Gran"),
    Script(*b"Gukh"),
    Script(*b"Hano"),
    Script(*b"Hmng"),
    Script(*b"Hmnp"),
    Script(*b"Java"),
    Script(*b"Kali"),
    Script(*b"Kawi"),
    Script(*b"Khar"),
    Script(*b"Khoj"),
    Script(*b"Kits"),
    Script(*b"Krai"),
    Script(*b"Kthi"),
    Script(*b"Lana"),
    Script(*b"Lepc"),
    Script(*b"Limb"),
    Script(*b"Mahj"),
    Script(*b"Maka"),
    Script(*b"Mand"),
    Script(*b"Mani"),
    Script(*b"Marc"),
    Script(*b"Medf"),
    Script(*b"Modi"),
    Script(*b"Mong"),
    Script(*b"Mtei"),
    Script(*b"Mult"),
    Script(*b"Nagm"),
    Script(*b"Nand"),
    Script(*b"Newa"),
    Script(*b"Nkoo"),
    Script(*b"Onao"),
    Script(*b"Ougr"),
    Script(*b"Phag"),
    Script(*b"Phlp"),
    Script(*b"Plrd"),
    Script(*b"Rjng"),
    Script(*b"Rohg"),
    Script(*b"Saur"),
    Script(*b"Shrd"),
    Script(*b"Sidd"),
    Script(*b"Sidt"),
    Script(*b"Sind"),
    Script(*b"Sinh"),
    Script(*b"Sogd"),
    Script(*b"Sogo"),
    Script(*b"Soyo"),
    Script(*b"Sund"),
    Script(*b"Sunu"),
    Script(*b"Sylo"),
    Script(*b"Tagb"),
    Script(*b"Takr"),
    Script(*b"Tale"),
    Script(*b"Tavt"),
    Script(*b"Tayo"),
    Script(*b"Tfng"),
    Script(*b"Tglg"),
    Script(*b"Tibt"),
    Script(*b"Tirh"),
    Script(*b"Tnsa"),
    Script(*b"Todr"),
    Script(*b"Tols"),
    Script(*b"Toto"),
    Script(*b"Tutg"),
    Script(*b"Vith"),
    Script(*b"Wcho"),
    Script(*b"Yezi"),
    Script(*b"Zanb"),
];

/// The shaper for a text: by its script, its direction, and the script by which its features were found
/// in the font's GSUB, if any was. None stands for a text that no shaper has hooks for: other scripts,
/// Arabic and Syriac in vertical text, and fonts that offer no script of its own (the tags DFLT and
/// latn; for Myanmar also mymr, of the time before its specification; for Syriac DFLT alone). Arabic,
/// Thai, Lao, Hangul, Hebrew and Khmer have theirs whatever the font offers. Indic scripts found by a
/// tag that ends in 3 take the universal shaper.
#[tactic(auto, unfolding(crate::specs::Choice::shaper_for))]
pub fn shaper_for_script(
    script: Script,
    direction: Direction,
    chosen: Option<hb_tag_t>,
) -> Option<hb_ot_shaper_t>
    ensures { result ≡ shaper_for script direction chosen }
{
    if script == Script(*b"Arab") {
        return arabic_for(direction);
    }
    if script == Script(*b"Syrc") {
        return syriac_for(direction, chosen);
    }
    if script == Script(*b"Mymr") {
        return myanmar_for(chosen);
    }
    if is_indic(script) {
        return indic_for(chosen);
    }
    own_or_universal(script, chosen)
}

fn is_indic(script: Script) -> bool
    ensures { result ≡ is_among indic_scripts script }
{
    INDIC_SCRIPTS.contains(&script)
}

fn is_universal(script: Script) -> bool
    ensures { result ≡ is_among universal_scripts script }
{
    UNIVERSAL_SCRIPTS.contains(&script)
}

// Whether the font's script was found by this tag.
fn is_found_by(tag: hb_tag_t, chosen: Option<hb_tag_t>) -> bool
    ensures { result ≡ is_tag tag.0 chosen }
{
    chosen == Some(tag)
}

// Whether the font offers nothing for the script: what was found is its default script, or Latin's.
fn is_default(chosen: Option<hb_tag_t>) -> bool
    ensures { result ≡ is_default chosen }
{
    is_found_by(hb_tag_t(*b"DFLT"), chosen) || is_found_by(hb_tag_t(*b"latn"), chosen)
}

// Whether it is the third version of an Indic script's tag.
fn is_newest(chosen: Option<hb_tag_t>) -> bool
    ensures { result ≡ is_newest chosen }
{
    match chosen {
        Some(tag) => tag.0[3] == b'3',
        None => false,
    }
}

// Arabic joins in horizontal text alone.
fn arabic_for(direction: Direction) -> Option<hb_ot_shaper_t>
    ensures { result ≡ arabic_for direction }
{
    match direction {
        Direction::LeftToRight | Direction::RightToLeft => Some(hb_ot_shaper_t::Arabic),
        _ => None,
    }
}

fn syriac_for(direction: Direction, chosen: Option<hb_tag_t>) -> Option<hb_ot_shaper_t>
    ensures { result ≡ syriac_for direction chosen }
{
    if is_found_by(hb_tag_t(*b"DFLT"), chosen) {
        return None;
    }
    arabic_for(direction)
}

fn myanmar_for(chosen: Option<hb_tag_t>) -> Option<hb_ot_shaper_t>
    ensures { result ≡ myanmar_for chosen }
{
    if is_default(chosen) || is_found_by(hb_tag_t(*b"mymr"), chosen) {
        return None;
    }
    Some(hb_ot_shaper_t::Myanmar)
}

fn indic_for(chosen: Option<hb_tag_t>) -> Option<hb_ot_shaper_t>
    ensures { result ≡ indic_for chosen }
{
    if is_default(chosen) {
        return None;
    }
    if is_newest(chosen) {
        return Some(hb_ot_shaper_t::Universal);
    }
    Some(hb_ot_shaper_t::Indic)
}

// The scripts of the universal shaper, and those with a shaper of their own, which are asked for first
// since they are few.
fn own_or_universal(script: Script, chosen: Option<hb_tag_t>) -> Option<hb_ot_shaper_t>
    ensures { result ≡ (if is_among universal_scripts script then universal_for chosen
        else own_for script) }
{
    if let Some(shaper) = own_for(script) {
        return Some(shaper);
    }
    if is_universal(script) {
        return universal_for(chosen);
    }
    None
}

fn universal_for(chosen: Option<hb_tag_t>) -> Option<hb_ot_shaper_t>
    ensures { result ≡ universal_for chosen }
{
    if is_default(chosen) {
        return None;
    }
    Some(hb_ot_shaper_t::Universal)
}

// The scripts that take their shaper whatever the font offers.
fn own_for(script: Script) -> Option<hb_ot_shaper_t>
    ensures { result ≡ own_for script }
{
    if script == Script(*b"Thai") || script == Script(*b"Laoo") {
        return Some(hb_ot_shaper_t::Thai);
    }
    if script == Script(*b"Hang") {
        return Some(hb_ot_shaper_t::Hangul);
    }
    if script == Script(*b"Hebr") {
        return Some(hb_ot_shaper_t::Hebrew);
    }
    if script == Script(*b"Khmr") {
        return Some(hb_ot_shaper_t::Khmer);
    }
    if script == Script(*b"Qaag") {
        return Some(hb_ot_shaper_t::MyanmarZawgyi);
    }
    None
}

//! Scripts, language systems and features of GSUB or GPOS, over the bytes of the table. Tags are
//! the numbers of their four letters.
ghost use Rattle.std.specs.Prelude.{◌≡◌, ◌≤◌, ◌+◌, ◌++◌, length, min, slice_index};
ghost use Rattle.opentype_layout.specs.Features.{any_feature_in, chosen_as, chosen_script_in, condition_holds, feature_in, feature_or, feature_table_in, feature_tag_in, features_in, first_language_in, first_script_in, language_in, lookup_count_in, new_tag_in, nth_any, nth_failing, nth_feature, nth_holding, nth_language, nth_lookup_in, nth_script, nth_substitute, old_tag_in, plain_feature_in, required_in, script_in, script_table_in, script_tags_in, scripts_in, set_holds, substitute_in, substitutions_in, system_in, system_of, tag_list, tagged_in, third_tag_in, variation_in, variations_in};
ghost use Rattle.opentype_face.specs.Firsts.{first_from};
ghost use Rattle.opentype_face.specs.Bytes.{u16_in, u32_in};

use arrayvec::ArrayVec;
use opentype_face::bytes::{table_at, u16_at, u32_at};
use opentype_face::ranges::Ranges;

/// How many records of feature variations are read at most, which is more than any font has.
const MOST_VARIATIONS: u32 = 512;

/// How many conditions of a record are read at most; fonts have one for an axis.
const MOST_CONDITIONS: u16 = 256;

/// How many substitutions of a record are read at most.
const MOST_SUBSTITUTIONS: u16 = 1024;

/// The script that is chosen for a text.
#[derive(Clone, Copy, Debug)]
pub struct Chosen {
    /// Its number in the table.
    pub script: u32,
    /// Its tag.
    pub tag: u32,
    /// Whether it is the text's own script, and no default.
    pub is_found: bool,
}

// An offset of four bytes.
#[inline]
fn offset32(bytes: &[u8], at: usize) -> usize
    ensures { result ≡ u32_in bytes.now at }
{
    u32_at(bytes, at) as usize
}

// The number of the record with a tag.
fn tagged(bytes: &[u8], first: u32, count: u16, tag: u32) -> Option<u32>
    ensures { result ≡ tagged_in bytes.now first count tag }
{
    let records = Ranges {
        bytes,
        first,
        last: first,
        size: 6,
        count: u32::from(count),
    };
    records.find_long(tag)
}

fn scripts(table: &[u8]) -> &[u8]
    ensures { result.now ≡ scripts_in table.now }
{
    table_at(table, usize::from(u16_at(table, 4)))
}

// The script of a tag.
fn choose(table: &[u8], tag: u32, is_found: bool) -> Option<Chosen>
    ensures { result ≡ chosen_as is_found tag (script_in table.now tag) }
{
    let list = scripts(table);
    let script = tagged(list, 2, u16_at(list, 0), tag)?;
    Some(Chosen {
        script,
        tag,
        is_found,
    })
}

#[inline]
fn tag_at(tags: &[u32], i: usize) -> u32
    ensures { result ≡ slice_index tags.now i }
{
    if i < tags.len() { tags[i] } else { 0 }
}

#[tactic(auto, unfolding(crate::specs::Features::nth_script))]
fn choose_by(table: &[u8], tags: &[u32], is_found: bool, i: usize) -> Option<Chosen>
    ensures { result ≡ nth_script table.now tags.now is_found i }
{
    choose(table, tag_at(tags, i), is_found)
}

// The first of these tags that the table has a script for.
#[tactic(auto, unfolding(crate::specs::Features::first_script_in))]
fn first_script(table: &[u8], tags: &[u32], is_found: bool) -> Option<Chosen>
    ensures { result ≡ first_script_in table.now tags.now is_found }
{
    for i in 0..tags.len() {
        let chosen = choose_by(table, tags, is_found, i);
        if chosen.is_some() {
            return chosen;
        }
    }
    None
}

/// The script of a table for a text by its tags, and where it has none of them by `DFLT`, `dflt` or
/// `latn`.
#[tactic(auto, unfolding(crate::specs::Features::chosen_script_in))]
pub fn choose_script(table: &[u8], tags: &[u32]) -> Option<Chosen>
    ensures { result ≡ chosen_script_in table.now tags.now }
{
    let chosen = first_script(table, tags, true);
    if chosen.is_some() {
        return chosen;
    }
    first_script(table, &[0x4446_4C54, 0x6466_6C74, 0x6C61_746E], false)
}

/// A script's table, by its number.
pub fn script_table(table: &[u8], i: u32) -> &[u8]
    ensures { result.now ≡ script_table_in table.now i }
{
    let list = scripts(table);
    table_at(list, usize::from(u16_at(list, 6 + i as usize * 6)))
}

#[tactic(auto, unfolding(crate::specs::Features::new_tag_in))]
fn new_tag(script: u32) -> u32
    ensures { result ≡ new_tag_in script }
{
    match script {
        0x4265_6E67 => 0x626E_6732,
        0x4465_7661 => 0x6465_7632,
        0x4775_6A72 => 0x676A_7232,
        0x4775_7275 => 0x6775_7232,
        0x4B6E_6461 => 0x6B6E_6432,
        0x4D6C_796D => 0x6D6C_6D32,
        0x4F72_7961 => 0x6F72_7932,
        0x5461_6D6C => 0x746D_6C32,
        0x5465_6C75 => 0x7465_6C32,
        0x4D79_6D72 => 0x6D79_6D32,
        _ => 0,
    }
}

#[tactic(auto, unfolding(crate::specs::Features::old_tag_in))]
fn old_tag(script: u32) -> u32
    ensures { result ≡ old_tag_in script }
{
    match script {
        0 => 0,
        0x5A6D_7468 => 0x6D61_7468,
        0x4869_7261 => 0x6B61_6E61,
        0x4C61_6F6F => 0x6C61_6F20,
        0x5969_6969 => 0x7969_2020,
        0x4E6B_6F6F => 0x6E6B_6F20,
        0x5661_6969 => 0x7661_6920,
        _ => script | 0x2000_0000,
    }
}

#[tactic(auto, unfolding(crate::specs::Features::third_tag_in))]
fn third_tag(new: u32) -> u32
    ensures { result ≡ third_tag_in new }
{
    if new == 0 {
        return 0;
    }
    if new == 0x6D79_6D32 { 0 } else { new | 0x33 }
}

// Puts a tag behind others; 0 is none.
fn push_tag(tags: &mut ArrayVec<u32, 3>, tag: u32)
    requires { length tags.old.items ≤ 2 }
    ensures value { tags.new.items ≡ tags.old.items ++ tag_list tag }
    ensures few { length tags.new.items ≤ length tags.old.items + 1 }
{
    if tag == 0 {
        return;
    }
    tags.push(tag);
}

/// The tags of a script by its ISO 15924 code, the newest first: for `Deva` these are `dev3`,
/// `dev2` and `deva`.
#[tactic(auto, unfolding(crate::specs::Features::script_tags_in))]
pub fn script_tags(script: u32) -> ArrayVec<u32, 3>
    ensures { result.items ≡ script_tags_in script }
{
    let mut tags = ArrayVec::new();
    let new = new_tag(script);
    push_tag(&mut tags, third_tag(new));
    push_tag(&mut tags, new);
    push_tag(&mut tags, old_tag(script));
    tags
}

fn find_language(script: &[u8], tag: u32) -> Option<u32>
    ensures { result ≡ language_in script.now tag }
{
    tagged(script, 4, u16_at(script, 2), tag)
}

// The first of these tags that a script has a language system for.
#[tactic(auto, unfolding(crate::specs::Features::nth_language, crate::specs::Features::first_language_in))]
fn first_language(script: &[u8], tags: &[u32]) -> Option<u32>
    ensures { result ≡ first_language_in script.now tags.now }
{
    for i in 0..tags.len() {
        let found = find_language(script, tag_at(tags, i));
        if found.is_some() {
            return found;
        }
    }
    None
}

fn system_at(script: &[u8], number: Option<u32>) -> &[u8]
    ensures { result.now ≡ system_of script.now number }
{
    match number {
        Some(i) => table_at(script, usize::from(u16_at(script, 8 + i as usize * 6))),
        None => table_at(script, usize::from(u16_at(script, 0))),
    }
}

/// The language system of the first of these tags that a script has, or of `dflt`, or else its
/// default one.
#[tactic(auto, unfolding(crate::specs::Features::system_in))]
pub fn language_system<'a>(script: &'a [u8], tags: &[u32]) -> &'a [u8]
    ensures { result.now ≡ system_in script.now tags.now }
{
    let found = first_language(script, tags);
    if found.is_some() {
        return system_at(script, found);
    }
    system_at(script, find_language(script, 0x6466_6C74))
}

fn features(table: &[u8]) -> &[u8]
    ensures { result.now ≡ features_in table.now }
{
    table_at(table, usize::from(u16_at(table, 6)))
}

fn feature_count(table: &[u8]) -> u16
    ensures { result ≡ u16_in (features_in table.now) 0 }
{
    u16_at(features(table), 0)
}

/// The tag of a feature, by its number; 0 where there is none.
#[tactic(auto, unfolding(crate::specs::Features::feature_tag_in))]
pub fn feature_tag(table: &[u8], index: u16) -> u32
    ensures { result ≡ feature_tag_in table.now index }
{
    let list = features(table);
    if index >= u16_at(list, 0) {
        return 0;
    }
    u32_at(list, 2 + usize::from(index) * 6)
}

/// The number of the feature that a language system requires.
#[tactic(auto, unfolding(crate::specs::Features::required_in))]
pub fn required_feature(system: &[u8]) -> Option<u16>
    ensures { result ≡ required_in system.now }
{
    if system.len() == 0 {
        return None;
    }
    let index = u16_at(system, 2);
    if index == 0xFFFF { None } else { Some(index) }
}

#[tactic(auto, unfolding(crate::specs::Features::nth_feature))]
fn feature_if_tagged(table: &[u8], system: &[u8], tag: u32, i: u16) -> Option<u16>
    ensures { result ≡ nth_feature table.now system.now tag i }
{
    let index = u16_at(system, 6 + usize::from(i) * 2);
    if feature_tag(table, index) == tag {
        Some(index)
    } else {
        None
    }
}

/// The number of a language system's feature by its tag.
#[tactic(auto, unfolding(crate::specs::Features::feature_in))]
pub fn find_feature(table: &[u8], system: &[u8], tag: u32) -> Option<u16>
    ensures { result ≡ feature_in table.now system.now tag }
{
    for i in 0..u16_at(system, 4) {
        let found = feature_if_tagged(table, system, tag, i);
        if found.is_some() {
            return found;
        }
    }
    None
}

#[tactic(auto, unfolding(crate::specs::Features::nth_any))]
fn any_if_tagged(table: &[u8], tag: u32, i: u16) -> Option<u16>
    ensures { result ≡ nth_any table.now tag i }
{
    if feature_tag(table, i) == tag {
        Some(i)
    } else {
        None
    }
}

/// The number of a feature by its tag, in any script of the table.
#[tactic(auto, unfolding(crate::specs::Features::any_feature_in))]
pub fn find_any_feature(table: &[u8], tag: u32) -> Option<u16>
    ensures { result ≡ any_feature_in table.now tag }
{
    for i in 0..feature_count(table) {
        let found = any_if_tagged(table, tag, i);
        if found.is_some() {
            return found;
        }
    }
    None
}

// Whether a condition holds where all coordinates are 0.
#[tactic(auto, unfolding(crate::specs::Features::condition_holds))]
fn holds(condition: &[u8]) -> bool
    ensures { result ≡ condition_holds condition.now }
{
    match u16_at(condition, 0) {
        1 => {
            let (from, to) = (u16_at(condition, 4), u16_at(condition, 6));
            (from == 0 || from >= 0x8000) && to < 0x8000
        }
        2 => {
            let value = u16_at(condition, 2);
            value != 0 && value < 0x8000
        }
        _ => false,
    }
}

#[tactic(auto, unfolding(crate::specs::Features::nth_failing))]
fn failing(set: &[u8], i: u16) -> Option<u16>
    ensures { result ≡ nth_failing set.now i }
{
    if holds(table_at(set, offset32(set, 2 + usize::from(i) * 4))) {
        None
    } else {
        Some(i)
    }
}

fn first_failing(set: &[u8]) -> Option<u16>
    ensures { result ≡ first_from (min (u16_in set.now 0) 256) (nth_failing set.now) 0 }
{
    for i in 0..u16_at(set, 0).min(MOST_CONDITIONS) {
        let found = failing(set, i);
        if found.is_some() {
            return found;
        }
    }
    None
}

// Whether all conditions of a set hold. At most 256 are read.
#[tactic(auto, unfolding(crate::specs::Features::set_holds))]
fn all_hold(set: &[u8]) -> bool
    ensures { result ≡ set_holds set.now }
{
    first_failing(set).is_none()
}

#[tactic(auto, unfolding(crate::specs::Features::variations_in))]
fn variations(table: &[u8]) -> &[u8]
    ensures { result.now ≡ variations_in table.now }
{
    if u32_at(table, 0) < 0x0001_0001 {
        return &[];
    }
    table_at(table, offset32(table, 10))
}

#[tactic(auto, unfolding(crate::specs::Features::nth_holding))]
fn holding(variations: &[u8], i: u32) -> Option<u32>
    ensures { result ≡ nth_holding variations.now i }
{
    if all_hold(table_at(variations, offset32(variations, 8 + i as usize * 8))) {
        Some(i)
    } else {
        None
    }
}

// The first variation whose conditions hold, of 512 at most.
#[tactic(auto, unfolding(crate::specs::Features::variation_in))]
fn find_variation(variations: &[u8]) -> Option<u32>
    ensures { result ≡ variation_in variations.now }
{
    for i in 0..u32_at(variations, 4).min(MOST_VARIATIONS) {
        let found = holding(variations, i);
        if found.is_some() {
            return found;
        }
    }
    None
}

/// What stands for features at the default instance of a variable font: a table for `feature_by`.
/// At most 131,072 conditions are tested.
#[tactic(auto, unfolding(crate::specs::Features::substitutions_in))]
pub fn substitutions(table: &[u8]) -> &[u8]
    ensures { result.now ≡ substitutions_in table.now }
{
    let variations = variations(table);
    match find_variation(variations) {
        Some(i) => table_at(variations, offset32(variations, 12 + i as usize * 8)),
        None => &[],
    }
}

#[tactic(auto, unfolding(crate::specs::Features::nth_substitute))]
fn substitute_if(substitutions: &[u8], index: u16, i: u16) -> Option<u16>
    ensures { result ≡ nth_substitute substitutions.now index i }
{
    if u16_at(substitutions, 6 + usize::from(i) * 6) == index {
        Some(i)
    } else {
        None
    }
}

// The number of what stands for a feature, among 1024 at most.
#[tactic(auto, unfolding(crate::specs::Features::substitute_in))]
fn find_substitute(substitutions: &[u8], index: u16) -> Option<u16>
    ensures { result ≡ substitute_in substitutions.now index }
{
    for i in 0..u16_at(substitutions, 4).min(MOST_SUBSTITUTIONS) {
        let found = substitute_if(substitutions, index, i);
        if found.is_some() {
            return found;
        }
    }
    None
}

fn plain_feature(table: &[u8], index: u16) -> &[u8]
    ensures { result.now ≡ plain_feature_in table.now index }
{
    let list = features(table);
    if index >= u16_at(list, 0) {
        return &[];
    }
    table_at(list, usize::from(u16_at(list, 6 + usize::from(index) * 6)))
}

/// A feature's table by its number, or what stands for it among these substitutions.
pub fn feature_by<'a>(table: &'a [u8], substitutions: &'a [u8], index: u16) -> &'a [u8]
    ensures { result.now ≡ feature_or table.now index substitutions.now
        (substitute_in substitutions.now index) }
{
    match find_substitute(substitutions, index) {
        Some(i) => {
            let at = offset32(substitutions, 8 + usize::from(i) * 6);
            table_at(substitutions, at)
        }
        None => plain_feature(table, index),
    }
}

/// A feature's table by its number, at the default instance of a variable font.
#[tactic(auto, unfolding(crate::specs::Features::feature_table_in))]
pub fn feature_table(table: &[u8], index: u16) -> &[u8]
    ensures { result.now ≡ feature_table_in table.now index }
{
    feature_by(table, substitutions(table), index)
}

/// How many lookups a feature has, by its table.
#[inline]
pub fn lookup_count(feature: &[u8]) -> u16
    ensures { result ≡ lookup_count_in feature.now }
{
    u16_at(feature, 2)
}

/// The number of one of a feature's lookups.
#[inline]
pub fn nth_lookup(feature: &[u8], i: u16) -> u16
    ensures { result ≡ nth_lookup_in feature.now i }
{
    u16_at(feature, 4 + usize::from(i) * 2)
}

//! What the glyphs beside a place say of the rules that may fit there.
ghost use Rattle.std.specs.Prelude.{◌≡◌, ◌≤◌, ◌==◌, ◌%◌, ℕ, Bool, List, true, false, length, None, Some, IfNone, IfSome, is_some};
ghost use Rattle.opentype_face.specs.Glyphs.{coverage_in};
ghost use Rattle.opentype_layout.specs.Keys.{IsBarred, bars, begins_with};
ghost use Rattle.opentype_layout.specs.Pattern.{next_in, previous_in};
ghost use Rattle.opentype_layout.specs.RuleHeads.{head_in};
ghost use Rattle.opentype_layout.specs.Rules.{Kind, chained_in, rule_in, test_in, unchained_in};
ghost use Rattle.opentype_layout.specs.Sight.{seen_as};

use crate::class_refs::ClassRef;
use crate::glyph_text::GlyphView;
use crate::rule_heads::RuleHead;
use crate::sight::{Sight, ignores_glyph, number};
use opentype_face::bytes::u16_at;
use opentype_face::glyph_sets::coverage;
use shapers_buffer::buffer::hb_glyph_info_t;

/// What a list of a rule's numbers must begin with, so that the rule may fit.
#[derive(Clone, Copy, Debug)]
pub enum Key {
    /// With any number.
    Any,
    /// With this one.
    Number(u16),
    /// With none: no rule that has such a list fits.
    Nothing,
}

impl Key {
    /// Whether no rule fits whose list begins with a number.
    #[inline]
    #[tactic(auto, unfolding(crate::specs::Keys::bars))]
    pub fn bars(&self, first: u16) -> bool
        ensures { result ≡ bars self.now (λ n. first == n) }
    {
        match *self {
            Key::Any => false,
            Key::Number(number) => first != number,
            Key::Nothing => true,
        }
    }

    /// Whether no rule fits whose list begins with a set of glyphs.
    #[inline]
    #[tactic(auto, unfolding(crate::specs::Keys::bars))]
    pub(crate) fn bars_set(&self, set: &[u8]) -> bool
        ensures { result ≡ bars self.now (λ n. is_some (coverage_in set.now n)) }
    {
        match *self {
            Key::Any => false,
            Key::Number(glyph) => coverage(set, glyph).is_none(),
            Key::Nothing => true,
        }
    }

    /// The key of a glyph for the numbers of a format: glyphs in format 1, classes of a table in
    /// format 2.
    #[inline]
    pub(crate) fn by(&self, format: u16, of: &ClassRef<'_>) -> Key
        ensures { (numbers : List ℕ) → bars result (begins_with numbers) ≡ true →
            bars self.now (test_in format numbers of.now.bytes.now 0) ≡ true }
    {
        match *self {
            Key::Number(glyph) => match format {
                1 => Key::Number(glyph),
                2 => Key::Number(of.class(glyph)),
                _ => Key::Any,
            },
            Key::Any => Key::Any,
            Key::Nothing => Key::Nothing,
        }
    }
}

// What a pattern must look for to find a glyph; `None` where a search passes over it.
#[inline]
#[tactic(auto, unfolding(crate::specs::Keys::bars, crate::specs::Sight::seen_as))]
fn key_of(gdef: &[u8], sight: &Sight, glyph: &hb_glyph_info_t) -> Option<Key>
    ensures passed { IfNone result ((fits : Bool) →
        seen_as gdef.now sight.now fits glyph.now ≡ None) }
    ensures barred { IfSome result (λ key. (test : ℕ → Bool) → bars key test ≡ true →
        seen_as gdef.now sight.now (test (glyph.now.glyph_id % 65536)) glyph.now ≡ Some false) }
{
    if ignores_glyph(gdef, sight.flag, sight.set, glyph) {
        return None;
    }
    if sight.may_pass(glyph) {
        return Some(Key::Any);
    }
    let is_inside = sight.syllable == 0 || sight.syllable == glyph.syllable;
    if glyph.mask & sight.mask != 0 && is_inside {
        Some(Key::Number(number(glyph)))
    } else {
        Some(Key::Nothing)
    }
}

// What a pattern must look for to find its next glyph from a place on, where a search has passed over
// the glyphs before it. (Apart from the first glyph, so that the loop costs nothing where there is no
// such glyph.)
#[inline(never)]
fn key_further(gdef: &[u8], sight: &Sight, glyphs: &GlyphView<'_>, from: usize) -> Key
    ensures { (test : ℕ → ℕ → Bool) (k : ℕ) → bars result (test k) ≡ true →
        next_in gdef.now sight.now test glyphs.now k from ≡ None }
{
    let mut i = from;
    while let Some(glyph) = glyphs.get(i) {
        let key = key_of(gdef, sight, glyph);
        if let Some(key) = key {
            return key;
        }
        i += 1;
    }
    Key::Nothing
}

/// What a pattern must look for to find its next glyph from a place on.
pub fn key_behind(gdef: &[u8], sight: &Sight, glyphs: &GlyphView<'_>, from: usize) -> Key
    ensures { (test : ℕ → ℕ → Bool) (k : ℕ) → bars result (test k) ≡ true →
        next_in gdef.now sight.now test glyphs.now k from ≡ None }
{
    let Some(glyph) = glyphs.get(from) else {
        return Key::Nothing;
    };
    let key = key_of(gdef, sight, glyph);
    if let Some(key) = key {
        return key;
    }
    key_further(gdef, sight, glyphs, from + 1)
}

// What a pattern must look for to find the nearest glyph before a place, where a search has passed
// over so many nearer ones.
#[inline(never)]
fn key_further_before(
    gdef: &[u8],
    sight: &Sight,
    glyphs: &GlyphView<'_>,
    at: usize,
    from: usize,
) -> Key
    requires { at ≤ length glyphs.now }
    ensures { (test : ℕ → ℕ → Bool) (k : ℕ) → bars result (test k) ≡ true →
        previous_in gdef.now sight.now test glyphs.now at k from ≡ None }
{
    for i in from..at {
        let key = key_of(gdef, sight, glyphs.at(at - 1 - i));
        if let Some(key) = key {
            return key;
        }
    }
    Key::Nothing
}

/// What a pattern must look for to find the nearest glyph before a place.
pub(crate) fn key_before(gdef: &[u8], sight: &Sight, glyphs: &GlyphView<'_>, at: usize) -> Key
    requires { at ≤ length glyphs.now }
    ensures { (test : ℕ → ℕ → Bool) (k : ℕ) → bars result (test k) ≡ true →
        previous_in gdef.now sight.now test glyphs.now at k 0 ≡ None }
{
    if at == 0 {
        return Key::Nothing;
    }
    let key = key_of(gdef, sight, glyphs.at(at - 1));
    if let Some(key) = key {
        return key;
    }
    key_further_before(gdef, sight, glyphs, at, 1)
}

/// What the lists of a rule must begin with, so that it may fit a place.
#[derive(Clone, Copy, Debug)]
pub(crate) struct Keys {
    /// The glyphs before the place.
    pub before: Key,
    /// The input behind the place.
    pub input: Key,
    /// The glyphs behind an input of one glyph.
    pub behind: Key,
}

impl Keys {
    /// Whether they bar a rule of format 1 or 2, by its head.
    #[inline]
    pub(crate) fn bar(&self, head: &RuleHead) -> bool
        ensures { result ≡ true → (kind : Kind) (bytes : List ℕ) → (kind.format == 3) ≡ false →
            head.now ≡ head_in kind.chained bytes → IsBarred kind self.now (rule_in kind bytes) }
    {
        if head.before_count > 0 && self.before.bars(head.before) {
            return true;
        }
        if head.input_count != 1 {
            return head.input_count > 1 && self.input.bars(head.input);
        }
        head.behind_count > 0 && self.behind.bars(head.behind)
    }

    /// Whether they bar a rule of a chained context, of format 1 or 2.
    #[inline]
    #[tactic(auto, unfolding(crate::specs::Rules::chained_in))]
    pub(crate) fn bar_chained(&self, bytes: &[u8]) -> bool
        ensures { result ≡ true → (kind : Kind) → (kind.format == 3) ≡ false →
            IsBarred kind self.now (chained_in kind bytes.now) }
    {
        let before_count = u16_at(bytes, 0);
        if before_count > 0 && self.before.bars(u16_at(bytes, 2)) {
            return true;
        }
        let input_at = 2 + usize::from(before_count) * 2;
        let input_count = u16_at(bytes, input_at);
        if input_count != 1 {
            return input_count > 1 && self.input.bars(u16_at(bytes, input_at + 2));
        }
        u16_at(bytes, input_at + 2) > 0 && self.behind.bars(u16_at(bytes, input_at + 4))
    }

    /// Whether they bar a rule of a context, of format 1 or 2.
    #[inline]
    #[tactic(auto, unfolding(crate::specs::Rules::unchained_in))]
    pub(crate) fn bar_unchained(&self, bytes: &[u8]) -> bool
        ensures { result ≡ true → (kind : Kind) → (kind.format == 3) ≡ false →
            IsBarred kind self.now (unchained_in kind bytes.now) }
    {
        u16_at(bytes, 0) > 1 && self.input.bars(u16_at(bytes, 4))
    }
}

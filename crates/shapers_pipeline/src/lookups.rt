//! The lookups of a font, stage by stage, with what the shaper does behind each stage.
ghost use Rattle.std.specs.Prelude.{ℕ, ◌≡◌, ◌≢◌, ◌≤◌, ◌*◌, [], length, Err, IfErr, OnErr, OnOk};
ghost use Rattle.shapers_buffer.specs.declared.buffer.refusal.ShaperError.TheVariants.{TooLong};
ghost use Rattle.shapers_pipeline.specs.Lengths.{looked_up_bound};
ghost use Rattle.shapers_pipeline.specs.Lookups.{MayRefuse, StoppedIn, looked_up, text_noted};

use shapers_base::buffer::{
    GlyphChange, GlyphProps, LigProps, LookupRecord, ShaperError, hb_buffer_t, hb_glyph_info_t,
};
use shapers_plan::ot_map::StageLookup;
use shapers_position::ot_shape_position::GlyphClasses;

/// The lookups of a font's GSUB and GPOS. Each is a function of the text: the same text becomes the
/// same.
pub trait Lookups: GlyphClasses {
    ghost use Rattle.shapers_buffer.specs.Buffer.{Buffer};
    ghost use Rattle.shapers_buffer.specs.declared.buffer.glyph.hb_glyph_info_t.{hb_glyph_info_t};
    ghost use Rattle.shapers_buffer.specs.declared.buffer.glyph_props.GlyphProps.{GlyphProps};
    ghost use Rattle.shapers_pipeline.specs.Lookups.{LookupGrows, LookupKeeps, LookupRefusals, PositionKeeps};
    ghost use Rattle.shapers_plan.specs.declared.ot_map.lookups.StageLookup.{StageLookup};

    /// What is kept of a glyph.
    ghost noted: { Self → hb_glyph_info_t → GlyphProps };

    /// What a lookup of GSUB makes of a text.
    ghost substituted: { Self → StageLookup → Buffer → Buffer };

    /// How many times as long it makes a text at most.
    ghost growth_of: { Self → StageLookup → ℕ };

    /// With what it may refuse a text.
    ghost substituting_refuses: { Self → StageLookup → Buffer → LookupRefusals };

    /// What one of GPOS makes of it, and what attachments do behind the last one.
    ghost positioned: { Self → StageLookup → Buffer → Buffer };

    ghost finished: { Self → Buffer → Buffer };

    /// With what one of GPOS may refuse a text.
    ghost positioning_refuses: { Self → StageLookup → Buffer → LookupRefusals };

    /// What the lookups keep in `glyph_props`, as the glyph's class of `GDEF`, before the first of
    /// them: it is called once for each glyph, of which no bit is set there yet.
    fn glyph_props(&self, glyph: &hb_glyph_info_t) -> GlyphProps
        ensures { result ≡ noted self.now glyph.now };

    /// How many times as long a lookup of GSUB makes a text at most: 1 where none gets longer, and the
    /// greatest number where no bound is known.
    fn growth(&self, lookup: &StageLookup) -> usize
        ensures { result ≡ growth_of self.now lookup.now };

    /// Applies a lookup of GSUB to a text of glyphs without positions. It reads and writes glyphs and
    /// the record of the text's lookups alone. Each cluster that it leaves is one that the text had, and at the levels that merge clusters that
    /// rise along the text, or fall, still do.
    ///
    /// # Errors
    ///
    /// `TooLong` or `Memory`; nothing has changed then. `TooLong` doesn't come where the buffer has
    /// room for the text's growth.
    fn substitute(&self, lookup: &StageLookup, buffer: &mut hb_buffer_t) -> Result<(), ShaperError>
        requires { buffer.old.positions ≡ [] }
        ensures ok { OnOk result (buffer.new ≡ substituted self.now lookup.now buffer.old) }
        ensures room { let times = growth_of self.now lookup.now in
            length buffer.old.glyphs * times ≤ buffer.old.max_len → result ≢ Err TooLong }
        ensures refusal { let may = substituting_refuses self.now lookup.now buffer.old in
            IfErr result (λ e. MayRefuse may e) }
        ensures err { OnErr result (buffer.new ≡ buffer.old) };

    /// Applies lookups of GSUB, those of a stage, one after another. By default each is applied by
    /// `substitute`. Write it where it can be known at once that some of the lookups leave the text
    /// as it is, and pass over these.
    ///
    /// # Errors
    ///
    /// That of the first lookup that refuses; the text is what the lookups before that one made of
    /// it. `TooLong` doesn't come where the buffer has room for the growth of all lookups.
    #[inline]
    fn substitute_all(
        &self,
        list: &[StageLookup],
        buffer: &mut hb_buffer_t,
    ) -> Result<(), ShaperError>
        requires { buffer.old.positions ≡ [] }
        ensures ok { let f = substituted self.now in
            OnOk result (buffer.new ≡ looked_up f list.now buffer.old) }
        ensures room { let growth = growth_of self.now in
            looked_up_bound growth list.now (length buffer.old.glyphs) ≤ buffer.old.max_len →
            result ≢ Err TooLong }
        ensures err { let f = substituted self.now in
            let refusals = substituting_refuses self.now in
            IfErr result (λ e. StoppedIn f refusals list.now buffer.old buffer.new e) }
    {
        for lookup in list {
            self.substitute(lookup, buffer)?;
        }
        Ok(())
    }

    /// Applies a lookup of GPOS to a text of glyphs with positions. It writes these and glyph
    /// flags alone.
    ///
    /// # Errors
    ///
    /// `TooLong` or `Memory`; nothing has changed then.
    fn position(&self, lookup: &StageLookup, buffer: &mut hb_buffer_t) -> Result<(), ShaperError>
        requires { length buffer.old.positions ≡ length buffer.old.glyphs }
        ensures ok { OnOk result (buffer.new ≡ positioned self.now lookup.now buffer.old) }
        ensures refusal { let may = positioning_refuses self.now lookup.now buffer.old in
            IfErr result (λ e. MayRefuse may e) }
        ensures err { OnErr result (buffer.new ≡ buffer.old) };

    /// Applies lookups of GPOS, one after another. By default each is applied by `position`. Write
    /// it where it can be known at once that some of the lookups leave the text as it is, and pass
    /// over these.
    ///
    /// # Errors
    ///
    /// That of the first lookup that refuses; the text is what the lookups before that one made of
    /// it.
    #[inline]
    fn position_all(
        &self,
        list: &[StageLookup],
        buffer: &mut hb_buffer_t,
    ) -> Result<(), ShaperError>
        requires { length buffer.old.positions ≡ length buffer.old.glyphs }
        ensures ok { let f = positioned self.now in
            OnOk result (buffer.new ≡ looked_up f list.now buffer.old) }
        ensures err { let f = positioned self.now in
            let refusals = positioning_refuses self.now in
            IfErr result (λ e. StoppedIn f refusals list.now buffer.old buffer.new e) }
    {
        for lookup in list {
            self.position(lookup, buffer)?;
        }
        Ok(())
    }

    /// Moves the glyphs that lookups attached to others, behind the last lookup of GPOS. It writes
    /// what a lookup of GPOS writes.
    fn finish_positions(&self, buffer: &mut hb_buffer_t)
        requires { length buffer.old.positions ≡ length buffer.old.glyphs }
        ensures { buffer.new ≡ finished self.now buffer.old };

    // What they keep of a text.
    ghost substituting_keeps: { (it : Self) (lookup : StageLookup) (b : Buffer) → b.positions ≡ [] →
        LookupKeeps b (substituted it lookup b) };

    ghost substituting_grows: { (it : Self) (lookup : StageLookup) (b : Buffer) → b.positions ≡ [] →
        LookupGrows (growth_of it lookup) b (substituted it lookup b) };

    ghost positioning_keeps: { (it : Self) (lookup : StageLookup) (b : Buffer) →
        length b.positions ≡ length b.glyphs → PositionKeeps b (positioned it lookup b) };

    ghost finishing_keeps: { (it : Self) (b : Buffer) → length b.positions ≡ length b.glyphs →
        PositionKeeps b (finished it b) };
}

// Notes of each glyph what the lookups keep there; none is of a ligature yet, and the record of the
// text's lookups begins.
pub(crate) fn note_glyphs<L: Lookups>(lookups: &L, buffer: &mut hb_buffer_t)
    ensures { buffer.new ≡ text_noted (L.noted lookups.now) buffer.old }
{
    // (lookups that panic leave the empty buffer, and no text with some of its glyphs noted)
    buffer.change_outside(&Noting { lookups });
    buffer.set_lookup_record(LookupRecord::for_text(buffer.len()));
}

// The note beside one glyph.
#[derive(Drop)]
struct Noting<'a, L: Lookups> {
    lookups: &'a L,
}

impl<'a, L: Lookups> GlyphChange for Noting<'a, L> {
    ghost use Rattle.shapers_pipeline.specs.Lookups.{with_note};

    ghost changed = { λ noting g. with_note (L.noted noting.lookups.now) g };

    #[inline]
    fn change(&self, glyph: &mut hb_glyph_info_t) {
        glyph.glyph_props = self.lookups.glyph_props(glyph);
        glyph.lig_props = LigProps::NONE;
    }
}

// Applies the lookups of a stage, and tells how long the text gets.
#[inline]
#[tactic(auto, using(crate::proofs::StageLengths::nothing_looked_up, crate::proofs::StageLengths::nothing_grown))]
pub(crate) fn apply_lookups<L: Lookups>(
    lookups: &L,
    list: &[StageLookup],
    buffer: &mut hb_buffer_t,
) -> Result<(), ShaperError>
    requires { buffer.old.positions ≡ [] }
    ensures ok { let f = L.substituted lookups.now in
        OnOk result (buffer.new ≡ looked_up f list.now buffer.old) }
    ensures err { let f = L.substituted lookups.now in
        let refusals = L.substituting_refuses lookups.now in
        IfErr result (λ e. StoppedIn f refusals list.now buffer.old buffer.new e) }
    ensures length { let growth = L.growth_of lookups.now in
        OnOk result (length buffer.new.glyphs
        ≤ looked_up_bound growth list.now (length buffer.old.glyphs)) }
    ensures room { let growth = L.growth_of lookups.now in
        looked_up_bound growth list.now (length buffer.old.glyphs) ≤ buffer.old.max_len →
        result ≢ Err TooLong }
    ensures positions { OnOk result (buffer.new.positions ≡ []) }
    ensures limit { buffer.new.max_len ≡ buffer.old.max_len }
{
    // (so that a stage without lookups costs no call)
    if list.is_empty() {
        return Ok(());
    }
    lookups.substitute_all(list, buffer)
}

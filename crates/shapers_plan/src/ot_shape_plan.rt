//! The plan of a text: its shaper, the font's lookups in stages, and the masks of its features.
ghost use Rattle.std.specs.Prelude.{◌≡◌, IfOk, IsOkUnless};
ghost use Rattle.shapers_arabic.specs.Requests.{rclt};
ghost use Rattle.shapers_buffer.specs.declared.buffer.refusal.ShaperError.TheVariants.{Memory};
ghost use Rattle.shapers_plan.specs.Planning.{default_choices, text_plan};

use crate::ot_map::{CompiledMap, FontFeatures, Stage, StageLookup};
use collecting::{collect, text_shaper};
use making::{hooks_plan, takes_gpos, user_ranges};
use rustybuzz_shapers::shaper::hb_ot_shaper_t;
use shapers_base::buffer::{Direction, Script, ShaperError};
use shapers_base::font::hb_font_t;
use shapers_base::map::TableIndex;
use shapers_base::plan::hb_ot_shape_plan_t;
use std::alloc::Global;
use std::marker::Model;

mod choices;
mod collecting;
mod making;
mod user;

pub use choices::ShapeChoices;
pub use making::driver_masks;
pub use user::{UserFeature, UserRange};

/// The masks of features that the driver itself turns on; 0 where the font lacks one.
#[derive(Clone, Copy, Debug, PartialEq, Eq)]
pub struct DriverMasks {
    /// Fractions.
    pub frac: u32,
    /// Numerators.
    pub numr: u32,
    /// Denominators.
    pub dnom: u32,
    /// Mirrored forms for text from right to left.
    pub rtlm: u32,
    /// Forms for vertical text.
    pub vert: u32,
}

/// What is decided for the texts of one script, direction and font before one is seen.
#[derive(Debug, Drop)]
pub struct EnginePlan {
    shaper: Option<hb_ot_shaper_t>,
    plan: hb_ot_shape_plan_t,
    direction: Direction,
    substitutions: Vec<Stage>,
    lookups: Vec<StageLookup>,
    applies_gpos: bool,
    positioning: Vec<StageLookup>,
    masks: DriverMasks,
    ranges: Vec<UserRange>,
}

impl Model for EnginePlan {
    ghost use Rattle.std.specs.Prelude.{IsTrue};
    ghost use Rattle.shapers_plan.specs.Ranges.{stages_fit};
    ghost use Rattle.shapers_plan.specs.EnginePlan.{PlanView};

    ghost Value = { PlanView };

    ghost view = { λ p. record {
      shaper = p.shaper;
      plan = p.plan;
      direction = p.direction;
      stages = p.substitutions.items;
      lookups = p.lookups.items;
      applies_gpos = p.applies_gpos;
      positioning = p.positioning.items;
      masks = p.masks;
      ranges = p.ranges.items;
    } };

    ghost invariant = { λ p. IsTrue (stages_fit p.substitutions.items p.lookups.items) };
}

impl EnginePlan {
    /// The plan of a text of this script and direction in a font, with the user's features. The
    /// shaper follows from the script by which the font's features were found (HarfBuzz's planner).
    ///
    /// # Errors
    ///
    /// `Memory`.
    pub fn new<F: hb_font_t, L: FontFeatures>(
        alloc: Global,
        script: Option<Script>,
        direction: Direction,
        face: &F,
        features: &L,
        users: &[UserFeature],
    ) -> Result<Self, ShaperError>
        ensures ok { let has_rclt = (F.font face.now).offers rclt in
            let tables = L.tables features.now in
            let plan = text_plan tables has_rclt script direction users.now default_choices in
            IfOk result (λ it. it ≡ plan) }
        ensures refusal { IsOkUnless result Memory }
    {
        let choices = ShapeChoices::default();
        Self::with_choices(alloc, script, direction, face, features, users, choices)
    }

    /// The same, with the caller's choices in place of the default ones.
    ///
    /// # Errors
    ///
    /// `Memory`.
    pub fn with_choices<F: hb_font_t, L: FontFeatures>(
        alloc: Global,
        script: Option<Script>,
        direction: Direction,
        face: &F,
        features: &L,
        users: &[UserFeature],
        choices: ShapeChoices,
    ) -> Result<Self, ShaperError>
        ensures ok { let has_rclt = (F.font face.now).offers rclt in
            let tables = L.tables features.now in
            let plan = text_plan tables has_rclt script direction users.now choices in
            IfOk result (λ it. it ≡ plan) }
        ensures refusal { IsOkUnless result Memory }
    {
        let shaper = text_shaper(script, direction, features.chosen_script(TableIndex::GSUB));
        let planner = collect(alloc, shaper, script, direction, face, users)?;
        let compiled = CompiledMap::new(alloc, features, planner.requests())?;
        let ranges = user_ranges(alloc, compiled.features.as_slice(), users)?;
        let masks = driver_masks(&compiled.map);
        Ok(EnginePlan {
            shaper,
            plan: hooks_plan(shaper, script, choices, compiled.map),
            direction,
            substitutions: compiled.stages,
            lookups: compiled.lookups,
            applies_gpos: takes_gpos(shaper, features),
            positioning: compiled.positioning,
            masks,
            ranges,
        })
    }

    /// The shaper, or none for a text that no shaper has hooks for.
    #[inline]
    pub fn shaper(&self) -> Option<hb_ot_shaper_t>
        ensures { result ≡ self.now.shaper }
    {
        self.shaper
    }

    /// The plan that the shaper's hooks read.
    #[inline]
    pub fn plan(&self) -> &hb_ot_shape_plan_t
        ensures { result.now ≡ self.now.plan }
    {
        &self.plan
    }

    /// The direction of the text.
    #[inline]
    pub fn direction(&self) -> Direction
        ensures { result ≡ self.now.direction }
    {
        self.direction
    }

    /// The stages of GSUB, in order.
    #[inline]
    pub fn stages(&self) -> &[Stage]
        ensures { result.now ≡ self.now.stages }
    {
        self.substitutions.as_slice()
    }

    /// The lookups of GSUB, stage by stage.
    #[inline]
    pub fn lookups(&self) -> &[StageLookup]
        ensures { result.now ≡ self.now.lookups }
    {
        self.lookups.as_slice()
    }

    /// Whether GPOS is applied: the font has it, and the shaper takes the script chosen there.
    #[inline]
    pub fn applies_gpos(&self) -> bool
        ensures { result ≡ self.now.applies_gpos }
    {
        self.applies_gpos
    }

    /// The lookups of GPOS.
    #[inline]
    pub fn positioning(&self) -> &[StageLookup]
        ensures { result.now ≡ self.now.positioning }
    {
        self.positioning.as_slice()
    }

    /// The masks of the features that the driver turns on.
    #[inline]
    pub fn masks(&self) -> DriverMasks
        ensures { result ≡ self.now.masks }
    {
        self.masks
    }

    /// What the user's features do to clusters' masks, in order.
    #[inline]
    pub fn ranges(&self) -> &[UserRange]
        ensures { result.now ≡ self.now.ranges }
    {
        self.ranges.as_slice()
    }
}

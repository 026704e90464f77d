ghost use Rattle.std.specs.Prelude.{◌≡◌, ◌∷◌, [], OnOk, OnErr, IsOkUnless, None, bit_or};
ghost use Rattle.shapers_buffer.specs.declared.buffer.refusal.ShaperError.TheVariants.{Memory};
ghost use Rattle.shapers_base.specs.declared.map.TheConstants.{F_GLOBAL};
ghost use Rattle.shapers_base.specs.Planner.{with_requests};

use crate::buffer::{Script, ShaperError, hb_tag_t};
use crate::font::hb_font_t;
use crate::map::F_GLOBAL;
use crate::plan::pause::Pause;
use std::alloc::Global;
use std::marker::Model;

/// A request of a shaper to the map.
#[derive(Clone, Copy, Debug, PartialEq, Eq)]
pub enum Request {
    /// A feature, with flags and a value; 0 turns it off.
    Feature(hb_tag_t, u32, u32),
    /// A pause between two stages, with a function or without.
    Pause(Option<Pause>),
}

impl Default for Request {
    ghost use Rattle.std.specs.Prelude.{◌≡◌};
    ghost use Rattle.shapers_base.specs.Planner.{bare_pause};

    ghost is_default = { λ r. r ≡ bare_pause };

    /// A pause without a function.
    #[inline]
    fn default() -> Self {
        Request::Pause(None)
    }
}

/// Collects what a shaper requests of the map for one script.
#[derive(Debug, Drop)]
pub struct hb_ot_shape_planner_t {
    script: Option<Script>,
    requests: Vec<Request>,
}

impl Model for hb_ot_shape_planner_t {
    ghost use Rattle.shapers_base.specs.Planner.{Planner};

    ghost Value = { Planner };

    ghost view = { λ p. record { script = p.script; requests = p.requests.items } };
}

impl hb_ot_shape_planner_t {
    /// A planner without requests. It takes no memory.
    #[inline]
    pub fn new(alloc: Global, script: Option<Script>) -> Self
        ensures { result ≡ record { script = script; requests = [] } }
    {
        hb_ot_shape_planner_t {
            script,
            requests: Vec::new(alloc),
        }
    }

    /// The script of the text, where it is known.
    #[inline]
    pub fn script(&self) -> Option<Script>
        ensures { result ≡ self.now.script }
    {
        self.script
    }

    /// The requests so far, in order.
    #[inline]
    pub fn requests(&self) -> &[Request]
        ensures { result.now ≡ self.now.requests }
    {
        self.requests.as_slice()
    }

    /// Whether the font has a feature by this tag.
    #[inline]
    pub fn has_feature<F: hb_font_t>(&self, face: &F, tag: hb_tag_t) -> bool
        ensures { result ≡ (F.font face.now).offers tag }
    {
        face.has_feature(tag)
    }

    /// Requests a feature.
    ///
    /// # Errors
    ///
    /// `Memory`; the planner is as it was then.
    #[inline]
    pub fn add_feature(&mut self, tag: hb_tag_t, flags: u32, value: u32) -> Result<(), ShaperError>
        ensures ok { let list = Request.Feature tag flags value ∷ [] in
            OnOk result (self.new ≡ with_requests list self.old) }
        ensures refusal { IsOkUnless result Memory }
        ensures err { OnErr result (self.new ≡ self.old) }
    {
        self.add_requests(&[Request::Feature(tag, flags, value)])
    }

    /// Requests a feature that holds for the whole text.
    ///
    /// # Errors
    ///
    /// `Memory`; the planner is as it was then.
    #[inline]
    pub fn enable_feature(
        &mut self,
        tag: hb_tag_t,
        flags: u32,
        value: u32,
    ) -> Result<(), ShaperError>
        ensures ok { let list = Request.Feature tag (bit_or flags F_GLOBAL) value ∷ [] in
            OnOk result (self.new ≡ with_requests list self.old) }
        ensures refusal { IsOkUnless result Memory }
        ensures err { OnErr result (self.new ≡ self.old) }
    {
        self.add_feature(tag, flags | F_GLOBAL, value)
    }

    /// Requests that a feature be off.
    ///
    /// # Errors
    ///
    /// `Memory`; the planner is as it was then.
    #[inline]
    pub fn disable_feature(&mut self, tag: hb_tag_t) -> Result<(), ShaperError>
        ensures ok { let list = Request.Feature tag F_GLOBAL 0 ∷ [] in
            OnOk result (self.new ≡ with_requests list self.old) }
        ensures refusal { IsOkUnless result Memory }
        ensures err { OnErr result (self.new ≡ self.old) }
    {
        self.add_feature(tag, F_GLOBAL, 0)
    }

    /// Requests a pause between two stages.
    ///
    /// # Errors
    ///
    /// `Memory`; the planner is as it was then.
    #[inline]
    pub fn add_gsub_pause(&mut self, pause: Option<Pause>) -> Result<(), ShaperError>
        ensures ok { OnOk result (self.new ≡ with_requests (Request.Pause pause ∷ []) self.old) }
        ensures refusal { IsOkUnless result Memory }
        ensures err { OnErr result (self.new ≡ self.old) }
    {
        self.add_requests(&[Request::Pause(pause)])
    }

    /// Requests a whole list: all of it, or nothing where memory is refused.
    ///
    /// # Errors
    ///
    /// `Memory`; the planner is as it was then.
    #[inline]
    pub fn add_requests(&mut self, requests: &[Request]) -> Result<(), ShaperError>
        ensures ok { OnOk result (self.new ≡ with_requests requests.now self.old) }
        ensures refusal { IsOkUnless result Memory }
        ensures err { OnErr result (self.new ≡ self.old) }
    {
        self.requests.extend_from_slice(requests)?;
        Ok(())
    }
}

//! Requests for features, joined by tag.
ghost use Rattle.std.specs.Prelude.{◌≡◌, IfOk, IsOkUnless};
ghost use Rattle.shapers_buffer.specs.declared.buffer.refusal.ShaperError.TheVariants.{Memory};
ghost use Rattle.shapers_plan.specs.Requests.{info_of, joined_by_tag};

use super::ordered::{Last, Numbered, put_in_order};
use shapers_base::buffer::{ShaperError, hb_tag_t};
use shapers_base::map::{F_GLOBAL, F_HAS_FALLBACK};
use shapers_base::plan::Request;
use std::alloc::Global;

/// A feature as it is requested.
#[derive(Clone, Copy, Debug, PartialEq, Eq)]
pub(super) struct FeatureInfo {
    /// The feature's tag.
    pub(super) tag: hb_tag_t,
    /// The flags of the first request.
    pub(super) flags: u32,
    /// Whether the values hold for the whole text.
    pub(super) is_global: bool,
    /// Whether something stands in where the font lacks the feature.
    pub(super) has_fallback: bool,
    /// The greatest value; 0 turns the feature off.
    pub(super) max_value: u32,
    /// The value where nothing else is set.
    pub(super) default_value: u32,
    /// How many pauses stand before it.
    pub(super) stage: usize,
}

impl FeatureInfo {
    #[inline]
    fn new(tag: hb_tag_t, flags: u32, value: u32, stage: usize) -> Self
        ensures { result ≡ info_of stage tag flags value }
    {
        let is_global = flags & F_GLOBAL != 0;
        FeatureInfo {
            tag,
            flags,
            is_global,
            has_fallback: flags & F_HAS_FALLBACK != 0,
            max_value: value,
            default_value: if is_global { value } else { 0 },
            stage,
        }
    }
}

impl Numbered for FeatureInfo {
    ghost use Rattle.shapers_plan.specs.Requests.{joined_infos, tag_number};

    ghost number = { tag_number };

    ghost joined = { joined_infos };

    #[inline]
    fn number(&self) -> u32 {
        u32::from_be_bytes(self.tag.0)
    }

    #[inline]
    fn joined(self, later: Self) -> Self {
        FeatureInfo {
            tag: self.tag,
            flags: self.flags,
            is_global: later.is_global,
            has_fallback: self.has_fallback || later.has_fallback,
            max_value: if later.is_global {
                later.max_value
            } else {
                self.max_value.max(later.max_value)
            },
            default_value: if later.is_global {
                later.default_value
            } else {
                self.default_value
            },
            stage: self.stage.min(later.stage),
        }
    }
}

/// The features that are requested, one for each tag, in the order of the tags.
///
/// # Errors
///
/// `Memory`.
pub(super) fn joined_by_tag(
    alloc: Global,
    requests: &[Request],
) -> Result<Vec<FeatureInfo>, ShaperError>
    ensures ok { IfOk result (λ infos. infos.items ≡ joined_by_tag requests.now) }
    ensures refusal { IsOkUnless result Memory }
{
    let mut infos = Vec::with_capacity(alloc, requests.len())?;
    let mut last = Last::NONE;
    let mut stage = 0;
    for request in requests {
        match *request {
            Request::Feature(tag, flags, value) => {
                let info = FeatureInfo::new(tag, flags, value, stage);
                put_in_order(&mut infos, &mut last, info)?;
            }
            Request::Pause(_) => stage += 1,
        }
    }
    Ok(infos)
}

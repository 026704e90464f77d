//! The script and direction of a text: its plan's during a call, and then its own again.
ghost use Rattle.std.specs.Prelude.{◌≡◌};
ghost use Rattle.shapers_pipeline.specs.Planned.{as_planned, put_back};

use shapers_base::buffer::{Direction, Script, hb_buffer_t};
use shapers_plan::ot_shape_plan::EnginePlan;

// Sets the script and direction of a text.
#[inline]
pub(crate) fn set_script_and_direction(
    script: Option<Script>,
    direction: Direction,
    buffer: &mut hb_buffer_t,
)
    ensures { buffer.new ≡ as_planned script direction buffer.old }
{
    buffer.set_script(script);
    buffer.set_direction(direction);
}

// Sets those of a plan.
#[inline]
pub(crate) fn set_to_plan(plan: &EnginePlan, buffer: &mut hb_buffer_t)
    ensures { buffer.new ≡ as_planned plan.now.plan.script plan.now.direction buffer.old }
{
    set_script_and_direction(plan.plan().script, plan.direction(), buffer);
}

// Sets those that the text had before the call.
#[inline]
pub(crate) fn put_back(kept: &hb_buffer_t, buffer: &mut hb_buffer_t)
    ensures { buffer.new ≡ put_back kept.now buffer.old }
{
    set_script_and_direction(kept.script(), kept.direction(), buffer);
}

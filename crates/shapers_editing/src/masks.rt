//! Setting masks a second time.
ghost use Rattle.shapers_editing.specs.MasksAgain.{MasksSetOnce};

use rustybuzz_shapers::shaper::again_law;

/// What each shaper leaves when masks are set stays when they are set again at once.
pub fn masks_again_law()
    ensures { MasksSetOnce }
{
    again_law();
}

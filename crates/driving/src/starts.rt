// The buffer that a run begins with.
ghost use Rattle.std.specs.Prelude.{◌≡◌};
ghost use Rattle.driving.specs.Starts.{started};

use lists::{Buffer, state};
use records::{InputPlace, Limits};

// A plain run of n glyphs with so many allocated, at a level. Not shared with bench `whole`, which has wants too and no contract: bench links without `io`.
#[tactic(auto, unfolding(crate::specs::Starts::started, lists::specs::inner::States::fresh_buffer, records::specs::Counters::fresh_limits))]
pub fn start(n: usize, allocated: usize, level: u32) -> Buffer
    ensures { result ≡ started n allocated level }
{
    let fresh = state::fresh_buffer(level, 0);
    Buffer {
        len: InputPlace(n),
        limits: Limits {
            allocated,
            ..fresh.limits
        },
        ..fresh
    }
}

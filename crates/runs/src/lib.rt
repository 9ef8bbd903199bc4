// A run: in how many usable cycles running something has been so, the present one the last.
#![tactic(auto)]

ghost use Rattle.std.specs.Prelude.{◌≡◌};
ghost use Rattle.runs.specs.Run.{run_next};

// The run as a usable cycle leaves it. It stops at 1,001, which is above every datum that a run is compared with: so a datum that
// is changed later finds it long enough.
#[tactic(auto, unfolding(crate::specs::Run::run_next))]
pub fn next(before: u32, again: bool) -> u32
    ensures { result ≡ run_next again before }
{
    if again { before.min(1000) + 1 } else { 0 }
}

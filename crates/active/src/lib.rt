// Cause 13: F's end brings STOP B only where SBH, SG, SE or cams are active.
#![tactic(auto)]

ghost use Rattle.std.specs.Prelude.{◌≡◌};
ghost use Rattle.active.specs.Active.{active, fault_stops};

use fault::Fault;
use machine_data::{Values, functions};
use selection::Selection;

// Whether one of SBH, SG, SE and cams is active, by the selection that is effective in this cycle.
#[tactic(auto, unfolding(crate::specs::Active::active))]
pub fn active(values: &Values, effective: Selection) -> bool
    ensures { result ≡ active values.now effective }
{
    effective.is_effective()
        || machine_data::function(values, functions::SE)
        || machine_data::function(values, functions::CAMS)
}

// Cause 13.
#[tactic(auto, unfolding(crate::specs::Active::fault_stops))]
pub fn fault_stops(values: &Values, effective: Selection, fault: Fault) -> bool
    ensures { result ≡ fault_stops values.now effective fault }
{
    fault.expired() && active(values, effective)
}

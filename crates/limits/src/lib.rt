// Causes 2, 3 and 5 to 9: whether each stands, and the ranks that data give.
#![tactic(auto)]

ghost use Rattle.std.specs.Prelude.{◌≡◌, ltb, nat_abs, ◌-ℤ◌};
ghost use Rattle.machine_data.specs.Data.{number_of};
ghost use Rattle.limits.specs.Limits.{standstill_left, over_speed, sg_rank, external, hold_left};

use inputs::{External, Reading};
use machine_data::{Values, functions, numbers};
use rank::Rank;
use selection::{Choice, Selection};
use speed::{Sg, Step};
use stop::Stop;

// Whether an axis at rest has left its reference: by more than the standstill tolerance.
fn left(values: &Values, reading: Reading, reference: i32) -> bool
    ensures { result ≡ ltb (number_of values.now 2) (nat_abs (reading.position -ℤ reference)) }
{
    machine_data::number(values, numbers::STANDSTILL_TOLERANCE)
        < u64::from(distance::distance(reading.position, reference))
}

// Cause 2.
#[tactic(auto, unfolding(crate::specs::Limits::standstill_left))]
pub fn standstill_left(values: &Values, choice: Choice, reading: Reading) -> bool
    ensures { result ≡ standstill_left values.now choice reading.position }
{
    choice.effective == Selection::Sbh && left(values, reading, choice.reference)
}

// Cause 3.
pub fn over_speed(values: &Values, effective: Selection, step: Step) -> bool
    ensures { result ≡ over_speed values.now effective step }
{
    match effective {
        Selection::Sg(number, over) => speed::too_fast(values, step, Sg { number, over }),
        Selection::Nothing | Selection::Sbh => false,
    }
}

// The rank of cause 3.
pub fn sg_rank(values: &Values, effective: Selection) -> Rank
    ensures { result ≡ sg_rank values.now effective }
{
    match effective {
        Selection::Sg(n, _) => Rank::from(machine_data::sg_stop(values, n)),
        Selection::Nothing | Selection::Sbh => Rank::None,
    }
}

// Causes 5 to 8.
#[tactic(auto, unfolding(crate::specs::Limits::external))]
pub fn external(values: &Values, reading: Reading, stop: External) -> bool
    ensures { result ≡ external values.now reading.inputs stop }
{
    machine_data::function(values, functions::EXTERNAL_STOPS)
        && !inputs::external_off(reading.inputs, stop)
}

// Cause 9.
pub fn hold_left(values: &Values, stop: Stop, reading: Reading) -> bool
    ensures { result ≡ hold_left values.now stop reading.position }
{
    matches!(stop, Stop::Held(_, reference) if left(values, reading, reference))
}

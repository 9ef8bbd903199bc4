// SE: cause 4, and its rank.
#![tactic(auto)]

ghost use Rattle.std.specs.Prelude.{◌≡◌, ◌<◌};
ghost use Rattle.ranges.specs.Table.{data_count};
ghost use Rattle.end_positions.specs.EndPositions.{beyond, outside, se_rank};

use inputs::Reading;
use machine_data::{Values, functions, numbers};
use rank::Rank;

// Whether a position lies outside the SE whose minus is datum k.
fn beyond(values: &Values, reading: Reading, k: usize) -> bool
    requires { k < data_count }
    ensures { result ≡ beyond values.now reading.position k }
{
    reading.position < machine_data::datum(values, k)
        || machine_data::datum(values, k + 1) < reading.position
}

// Cause 4.
#[tactic(auto, unfolding(crate::specs::EndPositions::outside))]
pub fn outside(values: &Values, reading: Reading) -> bool
    ensures { result ≡ outside values.now reading }
{
    // A call for each SE, with the number of its minus: so the range of each end is a constant.
    machine_data::function(values, functions::SE)
        && if inputs::se2_chosen(reading.inputs) {
            beyond(values, reading, numbers::SE2_MINUS)
        } else {
            beyond(values, reading, numbers::SE1_MINUS)
        }
}

// The rank of cause 4.
pub fn se_rank(values: &Values) -> Rank
    ensures { result ≡ se_rank values.now }
{
    Rank::from(machine_data::number(values, numbers::SE_STOP))
}

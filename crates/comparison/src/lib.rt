// The crosswise comparison of the channels, causes 10 and 11: what differs. Cause 12 stands in report; F, which they set, in fault.
#![tactic(auto)]

ghost use Rattle.std.specs.Prelude.{◌≡◌};
ghost use Rattle.comparison.specs.Comparison.{position_differs, run_of, inputs_differ};

use inputs::Reading;
use machine_data::{Values, numbers};
use report::Report;

// Cause 10.
#[tactic(auto, unfolding(crate::specs::Comparison::position_differs))]
pub fn position_differs(values: &Values, reading: Reading, report: Report) -> bool
    ensures { result ≡ position_differs values.now reading report }
{
    machine_data::number(values, numbers::ALLOWED_DIFFERENCE)
        < u64::from(distance::distance(reading.position, report.position))
}

// For how many usable cycles running the input words differ.
#[tactic(auto, unfolding(crate::specs::Comparison::run_of))]
pub fn run(before: u32, reading: Reading, report: Report) -> u32
    ensures { result ≡ run_of before reading report }
{
    runs::next(before, reading.inputs != report.inputs)
}

// Cause 11.
#[tactic(auto, unfolding(crate::specs::Comparison::inputs_differ))]
pub fn inputs_differ(values: &Values, run: u32) -> bool
    ensures { result ≡ inputs_differ values.now run }
{
    machine_data::cycles(values, numbers::ALLOWED_INPUT_DIFFERENCE) < run
}

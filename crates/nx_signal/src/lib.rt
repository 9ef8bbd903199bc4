// The signal n<nx: its value, steadied by a hysteresis and a filter.
#![tactic(auto)]

ghost use Rattle.std.specs.Prelude.{◌≡◌};
ghost use Rattle.nx_signal.specs.Signal.{released, signal_below, signal_above, signal_next};

use machine_data::{Values, numbers};
use speed::Step;

// The value, and for how many usable cycles running the speed has been below nx.
#[derive(Clone, Copy)]
pub struct Signal {
    pub run: u32,
    pub on: bool,
}

// Whether the speed is nx plus hysteresis or more.
#[tactic(auto, using(machine_data::proofs::Bounds::number_most), unfolding(crate::specs::Signal::released))]
fn released(values: &Values, step: Step) -> bool
    ensures { result ≡ released values.now step }
{
    let speed = machine_data::number(values, numbers::NX)
        + machine_data::number(values, numbers::NX_HYSTERESIS);
    !speed::slower_than(values, step, speed as u32)
}

impl Signal {
    // Below nx: the run goes on, and the value is set behind the filter, else kept.
    fn below(self, values: &Values) -> Signal
        ensures { result ≡ signal_below values.now self }
    {
        let run = runs::next(self.run, true);
        Signal {
            run,
            on: self.on || machine_data::cycles(values, numbers::NX_FILTER) < run,
        }
    }

    // At nx or above it: the run is over, and the value is kept below the hysteresis. One that is 0 stays so, whatever the speed.
    fn above(self, values: &Values, step: Step) -> Signal
        ensures { result ≡ signal_above values.now step self }
    {
        Signal {
            run: 0,
            on: self.on && !released(values, step),
        }
    }

    // The signal after a usable cycle.
    #[tactic(auto, using(crate::proofs::Cases::below_is, crate::proofs::Cases::above_is))]
    pub fn next(self, values: &Values, step: Step) -> Signal
        ensures { result ≡ signal_next values.now step self }
    {
        if speed::slower(values, step, numbers::NX) {
            self.below(values)
        } else {
            self.above(values, step)
        }
    }
}

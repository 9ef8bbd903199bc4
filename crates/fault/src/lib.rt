// F with its time to B, which the crosswise comparison sets. Cause 13, which it brings, stands in active.
#![tactic(auto)]

ghost use Rattle.std.specs.Prelude.{◌≡◌};
ghost use Rattle.fault.specs.Fault.{fault_next, expired, cleared_fault};

use machine_data::{Values, numbers};

// F, and the cycles left of its time. A flag and a count, not an Option of the count: C's words may hold cycles left with F off.
#[derive(Clone, Copy)]
pub struct Fault {
    pub on: bool,
    pub left: u32,
}

impl Fault {
    // F after causes 10 to 12 of a usable cycle: new, its count is datum 34, else one less.
    #[tactic(auto, unfolding(crate::specs::Fault::fault_next))]
    pub fn next(self, values: &Values, differs: bool) -> Fault
        ensures { result ≡ fault_next values.now differs self }
    {
        if self.on {
            Fault {
                on: true,
                left: self.left.saturating_sub(1),
            }
        } else if differs {
            Fault {
                on: true,
                left: machine_data::cycles(values, numbers::TIME_F),
            }
        } else {
            Fault { on: false, left: 0 }
        }
    }

    // F off in a cycle that clears.
    pub fn cleared(self, clears: bool) -> Fault
        ensures { result ≡ cleared_fault clears self }
    {
        if clears {
            Fault { on: false, left: 0 }
        } else {
            self
        }
    }

    // F is on, and its time is over.
    #[tactic(auto, unfolding(crate::specs::Fault::expired))]
    pub fn expired(self) -> bool
        ensures { result ≡ expired self }
    {
        self.on && self.left == 0
    }
}

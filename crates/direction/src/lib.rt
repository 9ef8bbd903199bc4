// Safe direction: the run and the watch of one direction, once for both, with a sign.
#![tactic(auto)]

ghost use Rattle.std.specs.Prelude.{◌≡◌};
ghost use Rattle.direction.specs.Direction.{ahead, furthest, beyond_by, no_direction, watch_next, direction_next};

use inputs::Reading;
use machine_data::{Values, numbers};

// The travel that is allowed.
#[derive(Clone, Copy)]
pub enum Sign {
    Positive,
    Negative,
}

// In how many usable cycles running the direction's bit has been 0, and its watch: none, or its extreme, the position furthest in
// the allowed direction since it began. The watch is a state of its own: it goes on where the run is no longer above the delay,
// should the delay have been changed.
#[derive(Clone, Copy)]
pub struct Direction {
    pub run: u32,
    pub watch: Option<i32>,
}

// How far position a lies from b in the allowed direction: all that the sign decides.
fn ahead(sign: Sign, a: i32, b: i32) -> i64
    ensures { result ≡ ahead sign a b }
{
    match sign {
        Sign::Positive => distance::step(a, b),
        Sign::Negative => distance::step(b, a),
    }
}

// The extreme with this cycle's position taken in.
#[tactic(auto, unfolding(crate::specs::Direction::furthest))]
fn furthest(sign: Sign, extreme: i32, reading: Reading) -> i32
    ensures { result ≡ furthest sign extreme reading.position }
{
    if 0 < ahead(sign, reading.position, extreme) {
        reading.position
    } else {
        extreme
    }
}

impl Direction {
    // Without run and watch.
    pub fn none() -> Direction
        ensures { result ≡ no_direction }
    {
        Direction {
            run: 0,
            watch: None,
        }
    }

    // The watch as a usable cycle with the bit 0 leaves it, by the run with this cycle counted.
    fn watch_next(self, values: &Values, sign: Sign, run: u32, reading: Reading) -> Option<i32>
        ensures { result ≡ watch_next values.now sign run reading.position self.watch }
    {
        match self.watch {
            Some(extreme) => Some(furthest(sign, extreme, reading)),
            None if machine_data::cycles(values, numbers::DIRECTION_DELAY) < run => {
                Some(reading.position)
            }
            None => None,
        }
    }

    // A direction after a usable cycle in which its bit is 1, `free`, or 0.
    #[tactic(auto, unfolding(crate::specs::Direction::direction_next))]
    pub fn next(self, values: &Values, sign: Sign, free: bool, reading: Reading) -> Direction
        ensures { result ≡ direction_next values.now sign free reading.position self }
    {
        if free {
            return Direction::none();
        }
        let run = runs::next(self.run, true);
        Direction {
            run,
            watch: self.watch_next(values, sign, run, reading),
        }
    }

    // Whether the position lies more than the tolerance behind the extreme of the watch.
    #[tactic(auto, using(machine_data::proofs::Bounds::number_most))]
    pub fn beyond(self, values: &Values, sign: Sign, reading: Reading) -> bool
        ensures { result ≡ beyond_by values.now sign reading.position self.watch }
    {
        match self.watch {
            Some(extreme) => {
                // A cast, since an i64 has no From<u64>: the tolerance is far below 2^63.
                (machine_data::number(values, numbers::DIRECTION_TOLERANCE) as i64)
                    < ahead(sign, extreme, reading.position)
            }
            None => false,
        }
    }
}

// Safe direction: both directions, the two signs of one, and cause 14.
#![tactic(auto)]

ghost use Rattle.std.specs.Prelude.{◌≡◌};
ghost use Rattle.machine_data.specs.Data.{function_of};
ghost use Rattle.directions.specs.Directions.{no_directions, directions_next, overstepped, watched_of, direction_rank};

use direction::{Direction, Sign};
use inputs::Reading;
use machine_data::{Values, functions, numbers};
use rank::Rank;

// Only positive travel, and only negative travel.
#[derive(Clone, Copy)]
pub struct Directions {
    pub positive: Direction,
    pub negative: Direction,
}

// The directions as a usable cycle leaves them, and whether one is overstepped: cause 14.
#[derive(Clone, Copy)]
pub struct Watched {
    pub directions: Directions,
    pub overstepped: bool,
}

impl Directions {
    // Without run and watch in either direction.
    pub fn none() -> Directions
        ensures { result ≡ no_directions }
    {
        Directions {
            positive: Direction::none(),
            negative: Direction::none(),
        }
    }

    // Both directions after a usable cycle with the function on.
    #[tactic(auto, unfolding(crate::specs::Directions::directions_next))]
    pub fn next(self, values: &Values, reading: Reading) -> Directions
        ensures { result ≡ directions_next values.now reading self }
    {
        let positive_free = inputs::positive_only_off(reading.inputs);
        let negative_free = inputs::negative_only_off(reading.inputs);
        Directions {
            positive: self
                .positive
                .next(values, Sign::Positive, positive_free, reading),
            negative: self
                .negative
                .next(values, Sign::Negative, negative_free, reading),
        }
    }

    // Cause 14, by the watches as this cycle leaves them.
    #[tactic(auto, unfolding(crate::specs::Directions::overstepped))]
    pub fn overstepped(self, values: &Values, reading: Reading) -> bool
        ensures { result ≡ overstepped values.now reading.position self }
    {
        self.positive.beyond(values, Sign::Positive, reading)
            || self.negative.beyond(values, Sign::Negative, reading)
    }

    // Both directions after a usable cycle, and cause 14. With the function off they are left as they are: then none has a run or
    // a watch, since none had one to begin with.
    #[tactic(auto, unfolding(crate::specs::Directions::watched_of))]
    pub fn watched(self, values: &Values, reading: Reading) -> Watched
        ensures { result ≡ watched_of values.now reading self }
    {
        if on(values) {
            let directions = self.next(values, reading);
            Watched {
                directions,
                overstepped: directions.overstepped(values, reading),
            }
        } else {
            Watched {
                directions: self,
                overstepped: false,
            }
        }
    }
}

// Whether safe direction is on.
pub fn on(values: &Values) -> bool
    ensures { result ≡ function_of values.now 5 }
{
    machine_data::function(values, functions::DIRECTION)
}

// The rank of cause 14.
pub fn rank(values: &Values) -> Rank
    ensures { result ≡ direction_rank values.now }
{
    Rank::from(machine_data::number(values, numbers::DIRECTION_STOP))
}

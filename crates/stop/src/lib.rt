// The stop state of a channel.
#![tactic(auto)]

ghost use Rattle.std.specs.Prelude.{◌≡◌};
ghost use Rattle.speed.specs.Speed.{slower};
ghost use Rattle.stop.specs.Stop.{rank_of, counted_of, held_at, braked_at, at_count, settled_of, stop_next};

use inputs::Reading;
use machine_data::{Values, numbers};
use rank::Rank;
use speed::Step;

#[derive(Clone, Copy)]
pub enum Stop {
    // Rank 0.
    Free,
    // Entered, with the cycles left.
    Braking(Rank, u32),
    // Held, with the reference position.
    Held(Rank, i32),
    // Rank 5: pulses cancelled.
    Cancelled,
}

impl Stop {
    pub fn rank(self) -> Rank
        ensures { result ≡ rank_of self }
    {
        match self {
            Stop::Free => Rank::None,
            Stop::Braking(r, _) | Stop::Held(r, _) => r,
            Stop::Cancelled => Rank::A,
        }
    }

    // C, D and E are held at count 0.
    fn held_at(r: Rank, n: u32, reading: Reading) -> Stop
        ensures { result ≡ held_at reading.position r n }
    {
        if n == 0 {
            Stop::Held(r, reading.position)
        } else {
            Stop::Braking(r, n)
        }
    }

    // B becomes A at count 0, or where the axis is slower than the shutdown speed, which nothing else asks for.
    fn braked_at(values: &Values, step: Step, n: u32) -> Stop
        ensures { result ≡ braked_at (slower values.now step 33) n }
    {
        if n == 0 || speed::slower(values, step, numbers::SHUTDOWN_SPEED) {
            Stop::Cancelled
        } else {
            Stop::Braking(Rank::B, n)
        }
    }

    // A stop of rank r with n cycles left.
    fn at_count(values: &Values, step: Step, reading: Reading, r: Rank, n: u32) -> Stop
        ensures { result ≡ at_count (slower values.now step 33) reading.position r n }
    {
        match r {
            Rank::None => Stop::Free,
            Rank::E | Rank::D | Rank::C => Stop::held_at(r, n, reading),
            Rank::B => Stop::braked_at(values, step, n),
            Rank::A => Stop::Cancelled,
        }
    }

    // No cause is entered: the count falls by one.
    fn fallen(self, values: &Values, step: Step, reading: Reading) -> Stop
        ensures { result ≡ settled_of (slower values.now step 33) reading.position (counted_of self) }
    {
        match self {
            Stop::Braking(r, n) => { Stop::at_count(values, step, reading, r, n.saturating_sub(1)) }
            Stop::Free | Stop::Held(_, _) | Stop::Cancelled => self,
        }
    }

    // Step 5 of a cycle with such a step of the axis.
    #[tactic(auto, unfolding(crate::specs::Stop::stop_next))]
    pub fn next(
        self,
        values: &Values,
        clears: bool,
        strongest: Rank,
        step: Step,
        reading: Reading,
    ) -> Stop
        ensures { result ≡ stop_next values.now clears strongest (slower values.now step 33) reading.position self }
    {
        if clears {
            return Stop::Free;
        }
        if self.rank() < strongest {
            Stop::at_count(values, step, reading, strongest, strongest.time(values))
        } else {
            self.fallen(values, step, reading)
        }
    }
}

// What a channel keeps from cycle to cycle, and what it is given in one.
#![tactic(auto)]

ghost use Rattle.std.specs.Prelude.{◌≡◌};
ghost use Rattle.state.specs.State.{fresh_state};

use directions::Directions;
use fault::Fault;
use inputs::Reading;
use nx_signal::Signal;
use report::Report;
use selection::{Choice, Selection};
use stop::Stop;

// What an unusable cycle leaves alone.
#[derive(Clone, Copy)]
pub struct Kept {
    // the cam signals as bits, in data order. A whole word: behind a single byte the choice would be kept in pieces
    pub cams: u32,
    pub choice: Choice,
    // usable cycles running in which the input words differ
    pub differing: u32,
    pub fault: Fault,
    // n<nx, worked out while its function is off too
    pub nx: Signal,
    // safe direction
    pub directions: Directions,
}

// What a cycle changes. The previous position stands last: behind it a choice, which a cycle reads as one word, would be
// read from memory that was just written in pieces.
#[derive(Clone, Copy)]
pub struct State {
    // the number of the datum that this cycle reports
    pub k: u8,
    pub kept: Kept,
    pub stop: Stop,
    pub previous: Option<i32>,
}

// What a channel is given in a cycle.
#[derive(Clone, Copy)]
pub struct Given {
    pub reading: Reading,
    pub acknowledged: bool,
    pub report: Report,
}

impl State {
    pub fn fresh() -> State
        ensures { result ≡ fresh_state }
    {
        State {
            k: 0,
            kept: Kept {
                cams: 0,
                choice: Choice {
                    chosen: false,
                    effective: Selection::Nothing,
                    reference: 0,
                    left: 0,
                },
                differing: 0,
                fault: Fault { on: false, left: 0 },
                nx: Signal { run: 0, on: false },
                directions: Directions::none(),
            },
            stop: Stop::Free,
            previous: None,
        }
    }
}

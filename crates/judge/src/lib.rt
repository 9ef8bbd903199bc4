// Steps 2 to 4 of a usable cycle: what moved, what is effective, and the table of causes.
#![tactic(auto)]

ghost use Rattle.std.specs.Prelude.{◌≡◌};
ghost use Rattle.machine_data.specs.Data.{list_of};
ghost use Rattle.judge.specs.Causes.{step_of, any_differs, table, begun_of, findings_by, findings_of};

use causes::{Cause, Rows};
use directions::{Directions, Watched};
use fault::Fault;
use inputs::{External, Reading};
use machine_data::{Lent, Values};
use nx_signal::Signal;
use rank::Rank;
use selection::Choice;
use speed::Step;
use state::{Given, State};
use stop::Stop;

// What steps 2 to 4 come to: the step, what this cycle leaves of n<nx, the choice, the directions, the run and F, and the causes.
// n<nx stands here, though it is of step 6, so that the step's products, which the causes need too, are worked out once.
#[derive(Clone, Copy)]
pub struct Findings {
    pub step: Step,
    pub nx: Signal,
    pub choice: Choice,
    pub directions: Directions,
    pub differing: u32,
    pub fault: Fault,
    pub rows: Rows,
}

// What steps 2 and 3 come to, with n<nx and the run of differing inputs.
#[derive(Clone, Copy)]
pub struct Begun {
    pub step: Step,
    pub nx: Signal,
    pub choice: Choice,
    pub differing: u32,
}

// In what a channel and the report differ: causes 10, 11 and 12.
#[derive(Clone, Copy)]
pub struct Differences {
    pub position: bool,
    pub inputs: bool,
    pub datum: bool,
}

impl Differences {
    fn any(self) -> bool
        ensures { result ≡ any_differs self }
    {
        self.position || self.inputs || self.datum
    }
}

// Step 2: |d|, with the ratio that this cycle's inputs pick.
fn step_of(values: &Values, previous: Option<i32>, reading: Reading) -> Step
    ensures { result ≡ step_of values.now previous reading }
{
    Step {
        moved: distance::moved_to(previous, reading.position),
        ratio: inputs::ratio_in(values, reading.inputs),
    }
}

// The table of causes. A new cause is a row here and in the definition.
fn rows(
    values: &Values,
    stop: Stop,
    reading: Reading,
    choice: Choice,
    step: Step,
    differs: Differences,
    stops: bool,
    overstepped: bool,
) -> Rows
    ensures { result ≡ table values.now stop reading choice step differs stops overstepped }
{
    let effective = choice.effective;
    [
        Cause {
            code: 2,
            stands: limits::standstill_left(values, choice, reading),
            rank: Rank::B,
        },
        Cause {
            code: 3,
            stands: limits::over_speed(values, effective, step),
            rank: limits::sg_rank(values, effective),
        },
        Cause {
            code: 4,
            stands: end_positions::outside(values, reading),
            rank: end_positions::se_rank(values),
        },
        Cause {
            code: 5,
            stands: limits::external(values, reading, External::A),
            rank: Rank::A,
        },
        Cause {
            code: 6,
            stands: limits::external(values, reading, External::C),
            rank: Rank::C,
        },
        Cause {
            code: 7,
            stands: limits::external(values, reading, External::D),
            rank: Rank::D,
        },
        Cause {
            code: 8,
            stands: limits::external(values, reading, External::E),
            rank: Rank::E,
        },
        Cause {
            code: 9,
            stands: limits::hold_left(values, stop, reading),
            rank: Rank::B,
        },
        Cause {
            code: 10,
            stands: differs.position,
            rank: Rank::None,
        },
        Cause {
            code: 11,
            stands: differs.inputs,
            rank: Rank::None,
        },
        Cause {
            code: 12,
            stands: differs.datum,
            rank: Rank::None,
        },
        Cause {
            code: 13,
            stands: stops,
            rank: Rank::B,
        },
        Cause {
            code: 14,
            stands: overstepped,
            rank: directions::rank(values),
        },
    ]
}

// Steps 2 and 3, n<nx, and the run of differing inputs: what needs none of the causes.
pub fn begin(values: &Values, state: State, given: Given) -> Begun
    ensures { result ≡ begun_of values.now state given }
{
    let reading = given.reading;
    let kept = state.kept;
    let step = step_of(values, state.previous, reading);
    let selected = selection::selected(values, reading.inputs);
    Begun {
        step,
        nx: kept.nx.next(values, step),
        choice: kept.choice.next(values, selected, reading),
        differing: comparison::run(kept.differing, reading, given.report),
    }
}

// Step 4, by what was begun and by the directions' watches.
pub fn finish(list: Lent, state: State, given: Given, begun: Begun, watched: Watched) -> Findings
    ensures { result ≡ findings_by (list_of list.entry) state given begun watched }
{
    let values = list.values;
    let reading = given.reading;
    let report = given.report;
    let choice = begun.choice;
    let differs = Differences {
        position: comparison::position_differs(values, reading, report),
        inputs: comparison::inputs_differ(values, begun.differing),
        datum: report::datum_differs(list, state.k, report),
    };
    let fault = state.kept.fault.next(values, differs.any());
    let rows = rows(
        values,
        state.stop,
        reading,
        choice,
        begun.step,
        differs,
        active::fault_stops(values, choice.effective, fault),
        watched.overstepped,
    );
    Findings {
        step: begun.step,
        nx: begun.nx,
        choice,
        directions: watched.directions,
        differing: begun.differing,
        fault,
        rows,
    }
}

pub fn judge(list: Lent, state: State, given: Given) -> Findings
    ensures { result ≡ findings_of (list_of list.entry) state given }
{
    let begun = begin(list.values, state, given);
    let watched = state.kept.directions.watched(list.values, given.reading);
    finish(list, state, given, begun, watched)
}

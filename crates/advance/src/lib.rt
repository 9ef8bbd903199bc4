// Steps 5 and 6 of a usable cycle, and what an unusable one leaves: the state after a cycle and its word, from what judge finds in
// steps 2 to 4.
#![tactic(auto)]

ghost use Rattle.std.specs.Prelude.{◌≡◌};
ghost use Rattle.machine_data.specs.Data.{list_of};
ghost use Rattle.advance.specs.After.{clears_by, next_by, unusable_next, shown_word, advanced_by, advanced_unusable};

use causes::Summary;
use judge::Findings;
use machine_data::{Lent, Values};
use state::{Given, Kept, State};
use stop::Stop;

// What a cycle gives without its causes: the state after it, and its word.
#[derive(Clone, Copy)]
pub struct Advanced {
    pub state: State,
    pub word: u32,
}

fn clears(given: Given, summary: Summary) -> bool
    ensures { result ≡ clears_by given summary }
{
    given.acknowledged && !summary.fresh
}

// Steps 5 and 6 of a usable cycle.
fn usable(list: Lent, state: State, given: Given, findings: Findings, summary: Summary) -> State
    ensures { result ≡ next_by (list_of list.entry) state given findings summary }
{
    let values = list.values;
    let reading = given.reading;
    let clears = clears(given, summary);
    let stop = state
        .stop
        .next(values, clears, summary.strongest, findings.step, reading);
    State {
        k: report::next_k(list.count, state.k),
        kept: Kept {
            cams: cams::next(values, reading, state.kept.cams),
            choice: findings.choice,
            differing: findings.differing,
            fault: findings.fault.cleared(clears),
            nx: findings.nx,
            directions: findings.directions,
        },
        stop,
        previous: Some(reading.position),
    }
}

// Step 1, where the inputs are unusable.
fn unusable(count: usize, state: State) -> State
    ensures { result ≡ unusable_next count state }
{
    State {
        k: report::next_k(count, state.k),
        kept: state.kept,
        stop: Stop::Cancelled,
        previous: None,
    }
}

// The channel word of a state, and of n<nx as the cycle shows it.
fn word(values: &Values, state: State, nx: bool) -> u32
    ensures { result ≡ shown_word values.now state nx }
{
    let kept = state.kept;
    channel_word::channel_word(
        values,
        kept.choice.effective,
        state.stop,
        kept.fault.on,
        kept.cams,
        nx,
    )
}

// A cycle by what steps 2 to 4 found, and what step 5 asks of its causes.
pub fn found(
    list: Lent,
    state: State,
    given: Given,
    findings: Findings,
    summary: Summary,
) -> Advanced
    ensures { result ≡ advanced_by (list_of list.entry) state given findings summary }
{
    let after = usable(list, state, given, findings, summary);
    Advanced {
        state: after,
        word: word(list.values, after, after.kept.nx.on),
    }
}

// A cycle that cannot be used.
pub fn skipped(list: Lent, state: State) -> Advanced
    ensures { result ≡ advanced_unusable (list_of list.entry) state }
{
    let after = unusable(list.count, state);
    Advanced {
        state: after,
        word: word(list.values, after, false),
    }
}

// What a commit of another list makes of a channel's state.
#![tactic(auto)]

ghost use Rattle.std.specs.Prelude.{◌≡◌, min};
ghost use Rattle.machine_data.specs.Data.{list_of};
ghost use Rattle.commit.specs.Commit.{cut_k, cut_delay, cut_choice, cut_fault, cut_stop, ended_directions, committed};

use directions::Directions;
use fault::Fault;
use machine_data::{Lent, Values, numbers};
use selection::Choice;
use state::{Kept, State};
use stop::Stop;

// The lesser: a count is cut, never raised.
fn cut(left: u32, most: u32) -> u32
    ensures { result ≡ min left most }
{
    left.min(most)
}

// The number of the datum that is reported next, in a list of so many.
fn cut_k(count: usize, k: u8) -> u8
    ensures { result ≡ cut_k count k }
{
    if (k as usize) < count { k } else { 0 }
}

// The count of a lowering. One that is under way stays so: cut to 1 it ends in the next usable cycle, as one cut to 0 would, and no
// further commit can set it anew.
fn cut_delay(values: &Values, left: u32) -> u32
    ensures { result ≡ cut_delay values.now left }
{
    if left == 0 {
        return 0;
    }
    let delay = machine_data::cycles(values, numbers::DELAY);
    if delay == 0 { 1 } else { cut(left, delay) }
}

fn cut_choice(values: &Values, choice: Choice) -> Choice
    ensures { result ≡ cut_choice values.now choice }
{
    Choice {
        left: cut_delay(values, choice.left),
        ..choice
    }
}

fn cut_fault(values: &Values, fault: Fault) -> Fault
    ensures { result ≡ cut_fault values.now fault }
{
    Fault {
        left: cut(fault.left, machine_data::cycles(values, numbers::TIME_F)),
        ..fault
    }
}

fn cut_stop(values: &Values, stop: Stop) -> Stop
    ensures { result ≡ cut_stop values.now stop }
{
    match stop {
        Stop::Braking(rank, left) => Stop::Braking(rank, cut(left, rank.time(values))),
        Stop::Free | Stop::Held(_, _) | Stop::Cancelled => stop,
    }
}

// Without safe direction no run and no watch stands.
fn ended_directions(values: &Values, directions: Directions) -> Directions
    ensures { result ≡ ended_directions values.now directions }
{
    if directions::on(values) {
        directions
    } else {
        Directions::none()
    }
}

// The state behind the commit of a list.
pub fn committed(list: Lent, state: State) -> State
    ensures { result ≡ committed (list_of list.entry) state }
{
    let kept = state.kept;
    State {
        k: cut_k(list.count, state.k),
        kept: Kept {
            choice: cut_choice(list.values, kept.choice),
            fault: cut_fault(list.values, kept.fault),
            directions: ended_directions(list.values, kept.directions),
            ..kept
        },
        stop: cut_stop(list.values, state.stop),
        ..state
    }
}

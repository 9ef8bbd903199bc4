// One cycle of a channel: whether it can be used, and then steps 2 to 6 by judge and advance.
#![tactic(auto)]

ghost use Rattle.std.specs.Prelude.{◌≡◌};
ghost use Rattle.machine_data.specs.Data.{list_of};
ghost use Rattle.channel.specs.Cycle.{no_list, with_list, fresh_channel, behind, after_cycles};
ghost use Rattle.channel.specs.Outcome.{advanced, cycled, outcome_of};

use advance::Advanced;
use causes::Summary;
use codes::{CODES, Causes};
use machine_data::{Lent, MachineData};
use ranges::DATA;
use state::{Given, State};

// A channel: the list in force, its state, and the pending list, which was asked about and may be committed. One of
// no data is none, and no Option of a list: so C's image of a channel has it, and axis_monitor takes any.
#[derive(Clone, Copy)]
pub struct Channel {
    pub list: MachineData,
    pub state: State,
    pub pending: MachineData,
}

// What a cycle gives: the channel after it, its word and its causes.
#[derive(Clone, Copy)]
pub struct Outcome {
    pub channel: Channel,
    pub word: u32,
    pub causes: Causes,
}

// A cycle of a state beside its data, without its causes: what a log needs.
pub fn advance(list: Lent, state: State, given: Given) -> Advanced
    ensures { result ≡ advanced (list_of list.entry) state given }
{
    if usable_inputs::usable(list, given.reading) {
        let findings = judge::judge(list, state, given);
        let summary = Summary::of(findings.rows);
        advance::found(list, state, given, findings, summary)
    } else {
        advance::skipped(list, state)
    }
}

// None pending.
fn no_list() -> MachineData
    ensures { result ≡ no_list }
{
    MachineData {
        values: [0i32; DATA],
        count: 0,
    }
}

// A fresh channel with the data of a list.
pub fn fresh(list: MachineData) -> Channel
    ensures { result ≡ fresh_channel list }
{
    with_list(list, State::fresh())
}

// What is pending behind so many cycles: each drops it.
fn behind(pending: MachineData, cycles: usize) -> MachineData
    ensures { result ≡ behind cycles pending }
{
    if cycles == 0 { pending } else { no_list() }
}

// A channel with another list and a state, with none pending.
pub fn with_list(list: MachineData, state: State) -> Channel
    ensures { result ≡ with_list list state }
{
    Channel {
        list,
        state,
        pending: no_list(),
    }
}

// A channel behind so many cycles that leave this state: the one place where a cycle's state goes into a channel, and where what
// is pending is dropped.
pub fn after_cycles(channel: Channel, state: State, cycles: usize) -> Channel
    ensures { result ≡ after_cycles cycles channel state }
{
    Channel {
        state,
        pending: behind(channel.pending, cycles),
        ..channel
    }
}

// A cycle of a state beside its data, with no copy of them, and its causes.
fn cycle_on(list: Lent, state: State, given: Given) -> (Advanced, Causes)
    ensures { result ≡ cycled (list_of list.entry) state given }
{
    if usable_inputs::usable(list, given.reading) {
        let findings = judge::judge(list, state, given);
        let mut codes = [0u8; CODES];
        let listed = codes::list_causes(findings.rows, &mut codes);
        let advanced = advance::found(list, state, given, findings, listed.summary);
        let count = listed.count;
        (advanced, Causes { codes, count })
    } else {
        (advance::skipped(list, state), Causes::unusable())
    }
}

// A cycle of a channel.
pub fn cycle(channel: Channel, given: Given) -> Outcome
    ensures { result ≡ outcome_of channel given }
{
    let (advanced, causes) = cycle_on(channel.list.lend(), channel.state, given);
    Outcome {
        channel: after_cycles(channel, advanced.state, 1),
        word: advanced.word,
        causes,
    }
}

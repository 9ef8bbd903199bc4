// A list for a running channel: asked about, then committed.
#![tactic(auto)]

ghost use Rattle.std.specs.Prelude.{◌≡◌};
ghost use Rattle.machine_data.specs.Data.{list_of};
ghost use Rattle.pending.specs.Pending.{only_fresh, fresh_rows, told_of, taking, asked_of, commit_of};

use causes::{Cause, Rows};
use channel::Channel;
use codes::{CODES, Causes};
use inputs::Reading;
use machine_data::{Lent, MachineData};
use refusal::Refusal;
use report::Report;
use state::{Given, State};

// What an ask answers: how many words the list has and the causes told, or the refusal; and the channel that it leaves.
#[derive(Clone, Copy)]
pub struct Asked {
    pub answer: Result<(usize, Causes), Refusal>,
    pub channel: Channel,
}

// What a commit answers, and the channel that it leaves.
#[derive(Clone, Copy)]
pub struct CommitRun {
    pub answer: Result<(), Refusal>,
    pub channel: Channel,
}

// A cause that stands if it is fresh.
fn only_fresh(row: Cause) -> Cause
    ensures { result ≡ only_fresh row }
{
    Cause {
        stands: row.fresh(),
        ..row
    }
}

// The table with its fresh causes alone.
fn fresh_rows(rows: Rows) -> Rows
    ensures { result ≡ fresh_rows rows }
{
    let mut fresh = rows;
    for row in &mut fresh {
        *row = only_fresh(*row);
    }
    fresh
}

// What an ask tells of a list, beside the state of the channel that is asked: the fresh causes of the cycle straight behind its
// commit.
pub fn told(list: Lent, state: State, reading: Reading, report: Report) -> Causes
    ensures { result ≡ told_of (list_of list.entry) state reading report }
{
    let after = commit::committed(list, state);
    let given = Given {
        reading,
        acknowledged: false,
        report,
    };
    if usable_inputs::usable(list, reading) {
        let findings = judge::judge(list, after, given);
        let mut codes = [0u8; CODES];
        let listed = codes::list_causes(fresh_rows(findings.rows), &mut codes);
        let count = listed.count;
        Causes { codes, count }
    } else {
        Causes::unusable()
    }
}

// A list asked about: it is pending if it is accepted, and else none is.
pub fn ask(channel: Channel, words: &[u32], reading: Reading, report: Report) -> Asked
    ensures { result ≡ asked_of channel words.now reading report }
{
    let read = list::read_list(words);
    let answer = match read.answer {
        Ok(used) => {
            let causes = told(read.list.lend(), channel.state, reading, report);
            Ok((used, causes))
        }
        Err(why) => Err(why),
    };
    Asked {
        answer,
        channel: Channel {
            pending: read.list,
            ..channel
        },
    }
}

// The pending list taken.
pub fn commit(channel: Channel) -> CommitRun
    ensures { result ≡ commit_of channel }
{
    let list = channel.pending;
    if list.count == 0 {
        return CommitRun {
            answer: Err(Refusal::NothingPending),
            channel,
        };
    }
    let after = commit::committed(list.lend(), channel.state);
    CommitRun {
        answer: Ok(()),
        channel: channel::with_list(list, after),
    }
}

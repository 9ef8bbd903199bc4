// A list for a running channel, asked about and committed, as a library for a board's program in another language, to which
// axis_lists_c exports it, over the arrays of axis_monitor and one for the data of the pending list. In one with the cycle, the
// code of a cycle would stand apart from both of its callers.
#![tactic(auto)]

ghost use Rattle.std.specs.Prelude.{◌≡◌};
ghost use Rattle.crossing_reports.specs.Reports.{report_from};
ghost use Rattle.axis_lists.specs.Left.{left_by_ask, ask_into, left_by_commit, commit_into};

use codes::Codes;
use crossing_reports::ReportWords;
use image::Image;
use machine_data::{Lent, Values};
use refusal::Refusal;

// A list asked about: 0, the words used and the fresh causes of a cycle straight behind its commit, and it is pending; or the
// refusal's number and place, and none is pending.
pub fn monitor_ask(
    words: &[u32],
    state: &mut Image,
    asked: &mut Values,
    position: i32,
    inputs: u32,
    report: &ReportWords,
    causes: &mut Codes,
    at: &mut usize,
) -> u32
    ensures { left_by_ask result state.new asked.new causes.new at.new ≡ ask_into words.now state.old asked.old causes.old (record { position = position; inputs = inputs }) (report_from report.now) }
{
    let given = crossing_reports::given_from(position, inputs, 0, report);
    let before = image::state_from(state);
    let read = list::read_list(words);
    let list = read.list;
    image_writing::put_pending(list.count, state);
    match read.answer {
        Ok(used) => {
            let told = pending::told(list.lend(), before, given.reading, given.report);
            let codes = told.codes;
            *causes = codes;
            let values = list.values;
            *asked = values;
            *at = used;
            0
        }
        Err(why) => {
            *at = why.place();
            why.number()
        }
    }
}

// The pending list taken: 0 and how many data it has; or 8 and place 0 where none is pending, with all as it was.
pub fn monitor_commit(values: &mut Values, state: &mut Image, asked: &Values, at: &mut usize) -> u32
    ensures { left_by_commit asked.now result values.new state.new at.new ≡ commit_into asked.now values.old state.old }
{
    let count = image::pending_after(0, state);
    if count == 0 {
        let why = Refusal::NothingPending;
        *at = why.place();
        return why.number();
    }
    let before = image::state_from(state);
    let list = Lent {
        values: asked,
        count,
    };
    let after = commit::committed(list, before);
    *state = image_writing::words_of(count, after, 0);
    *values = *asked;
    *at = count;
    0
}

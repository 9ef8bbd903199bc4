// The monitor as a library for a board's program in another language, to which axis_monitor_c exports it. The caller owns all
// memory: a channel is its data and its state as two arrays, and a third for the data of a pending list, which only axis_lists is
// lent; every content of them stands for some channel. Logs and kits are a library of their own: in one with them, the code of a
// cycle would stand apart from both of its callers, and a log would run at less than half the speed.
#![tactic(auto)]

ghost use Rattle.std.specs.Prelude.{◌≡◌};
ghost use Rattle.device.specs.Device.{device_of};
ghost use Rattle.crossing_reports.specs.Reports.{given_from};
ghost use Rattle.axis_monitor.specs.Crossing.{interface_number};
ghost use Rattle.directions.specs.Directions.{watched_of};
ghost use Rattle.image_writing.specs.Written.{directions_as};
ghost use Rattle.axis_monitor.specs.Left.{left_by_list, list_into, left_by_report, reported_by, reporting, left_by_way, guarding, usable_leaves, unusable_leaves, left_by_cycle, cycle_on};
ghost use Rattle.machine_data.specs.Data.{list_of};

use codes::Codes;
use crossing_reports::ReportWords;
use directions::Watched;
use image::Image;
use inputs::Reading;
use machine_data::{Lent, Values};
use state::{Given, State};

// The number of this interface: it rises where a function, an array or the meaning of a word changes.
pub fn monitor_interface() -> u32
    ensures { result ≡ interface_number }
{
    7
}

// A list read into a fresh channel: 0 and the words used, or the refusal's number and place, with the arrays as they were.
pub fn monitor_read_list(
    words: &[u32],
    values: &mut Values,
    state: &mut Image,
    at: &mut usize,
) -> u32
    ensures { left_by_list result values.new state.new at.new ≡ list_into words.now values.old state.old }
{
    let read = list::read_list(words);
    let list = read.list;
    match read.answer {
        Ok(used) => {
            let read_values = list.values;
            *values = read_values;
            *state = image_writing::words_of(list.count, State::fresh(), 0);
            *at = used;
            0
        }
        Err(why) => {
            *at = why.place();
            why.number()
        }
    }
}

// What the channel reports of a cycle to the other channel.
pub fn monitor_report(
    values: &Values,
    state: &Image,
    position: i32,
    inputs: u32,
    report: &mut ReportWords,
)
    ensures { left_by_report report.new ≡ reporting (reported_by values.now state.now position inputs) }
{
    let count = image::count_of(state);
    let list = Lent { values, count };
    let k = image::k_of(state);
    let reading = Reading { position, inputs };
    *report = crossing_reports::report_words(report::report_of(list, k, reading));
}

// The ways of a cycle are functions of their own. Each then writes what it leaves by itself: the parts that only one of them
// changes would else be chosen one by one behind them. And the compiler can put the reckoning of the cams to the end of theirs,
// beside the word that shows them, and takes all eight at once.

// The directions of a usable cycle. Where the function is on, they go into the caller's memory at once: with a list
// without it, their words are then not written, and in the machine code not read.
fn guard(values: &Values, before: State, reading: Reading, state: &mut Image) -> Watched
    ensures value { result ≡ watched_of values.now reading before.kept.directions }
    ensures state_after { directions_as state.new ≡ guarding values.now reading before.kept.directions state.old }
{
    let directions = before.kept.directions;
    if directions::on(values) {
        let after = directions.next(values, reading);
        image_writing::put_directions(after, state);
        Watched {
            directions: after,
            overstepped: after.overstepped(values, reading),
        }
    } else {
        Watched {
            directions,
            overstepped: false,
        }
    }
}

// A usable cycle.
fn usable_cycle(
    list: Lent,
    before: State,
    given: Given,
    state: &mut Image,
    causes: &mut Codes,
) -> u32
    ensures { left_by_way result state.new causes.new ≡ usable_leaves (list_of list.entry) before given state.old }
{
    let watched = guard(list.values, before, given.reading, state);
    let begun = judge::begin(list.values, before, given);
    let findings = judge::finish(list, before, given, begun, watched);
    let listed = codes::list_causes(findings.rows, causes);
    let advanced = advance::found(list, before, given, findings, listed.summary);
    image_writing::put_front(list.count, advanced.state, state);
    advanced.word
}

// One with unusable inputs.
fn unusable_cycle(list: Lent, before: State, state: &mut Image, causes: &mut Codes) -> u32
    ensures { left_by_way result state.new causes.new ≡ unusable_leaves (list_of list.entry) before state.old }
{
    let idle = advance::skipped(list, before);
    codes::list_unusable(causes);
    image_writing::put_front(list.count, idle.state, state);
    idle.word
}

// A cycle: the channel word, with the state after it and the codes that stand.
pub fn monitor_cycle(
    values: &Values,
    state: &mut Image,
    position: i32,
    inputs: u32,
    acknowledged: u32,
    report: &ReportWords,
    causes: &mut Codes,
) -> u32
    ensures { left_by_cycle values.now result state.new causes.new ≡ cycle_on values.now state.old (given_from position inputs acknowledged report.now) }
{
    let given = crossing_reports::given_from(position, inputs, acknowledged, report);
    let count = image::count_of(state);
    let list = Lent { values, count };
    let before = image::state_from(state);
    if usable_inputs::usable(list, given.reading) {
        usable_cycle(list, before, given, state, causes)
    } else {
        unusable_cycle(list, before, state, causes)
    }
}

// The device word of two channel words.
pub fn monitor_device_word(a: u32, b: u32) -> u32
    ensures { result ≡ device_of a b }
{
    device::device_word(a, b)
}

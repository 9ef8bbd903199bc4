// The functions of axis_lists under their C names, as include/axis_monitor.h declares them.
#![tactic(auto)]

ghost use Rattle.std.specs.Prelude.{◌≡◌};
ghost use Rattle.crossing_reports.specs.Reports.{report_from};
ghost use Rattle.axis_lists.specs.Left.{left_by_ask, ask_into, left_by_commit, commit_into};

use codes::Codes;
use crossing_reports::ReportWords;
use image::Image;
use machine_data::Values;

// A list asked about: 0, the words used and the fresh causes of a cycle straight behind its commit, and it is pending; or the
// refusal's number and place, and none is pending.
#[unsafe(no_mangle)]
pub extern "C" fn monitor_ask(
    words: &[u32],
    state: &mut Image,
    asked: &mut Values,
    position: i32,
    inputs: u32,
    report: &ReportWords,
    causes: &mut Codes,
    at: &mut usize,
) -> u32
    ensures { left_by_ask result state.new asked.new causes.new at.new ≡ ask_into words.now state.old asked.old causes.old (record { position = position; inputs = inputs }) (report_from report.now) }
{
    axis_lists::monitor_ask(words, state, asked, position, inputs, report, causes, at)
}

// The pending list taken: 0 and how many data it has; or 8 and place 0 where none is pending, with all as it was.
#[unsafe(no_mangle)]
pub extern "C" fn monitor_commit(
    values: &mut Values,
    state: &mut Image,
    asked: &Values,
    at: &mut usize,
) -> u32
    ensures { left_by_commit asked.now result values.new state.new at.new ≡ commit_into asked.now values.old state.old }
{
    axis_lists::monitor_commit(values, state, asked, at)
}

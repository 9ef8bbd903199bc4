// The functions of axis_monitor under their C names, as include/axis_monitor.h declares them.
#![tactic(auto)]

ghost use Rattle.std.specs.Prelude.{◌≡◌};
ghost use Rattle.device.specs.Device.{device_of};
ghost use Rattle.crossing_reports.specs.Reports.{given_from};
ghost use Rattle.axis_monitor.specs.Crossing.{interface_number};
ghost use Rattle.axis_monitor.specs.Left.{left_by_list, list_into, left_by_report, reported_by, reporting, left_by_cycle, cycle_on};

use codes::Codes;
use crossing_reports::ReportWords;
use image::Image;
use machine_data::Values;

// The number of this interface: it rises where a function, an array or the meaning of a word changes.
#[unsafe(no_mangle)]
pub extern "C" fn monitor_interface() -> u32
    ensures { result ≡ interface_number }
{
    axis_monitor::monitor_interface()
}

// A list read into a fresh channel: 0 and the words used, or the refusal's number and place, with the arrays as they were.
#[unsafe(no_mangle)]
pub extern "C" fn monitor_read_list(
    words: &[u32],
    values: &mut Values,
    state: &mut Image,
    at: &mut usize,
) -> u32
    ensures { left_by_list result values.new state.new at.new ≡ list_into words.now values.old state.old }
{
    axis_monitor::monitor_read_list(words, values, state, at)
}

// What the channel reports of a cycle to the other channel.
#[unsafe(no_mangle)]
pub extern "C" fn monitor_report(
    values: &Values,
    state: &Image,
    position: i32,
    inputs: u32,
    report: &mut ReportWords,
)
    ensures { left_by_report report.new ≡ reporting (reported_by values.now state.now position inputs) }
{
    axis_monitor::monitor_report(values, state, position, inputs, report)
}

// A cycle: the channel word, with the state after it and the codes that stand.
#[unsafe(no_mangle)]
pub extern "C" fn monitor_cycle(
    values: &Values,
    state: &mut Image,
    position: i32,
    inputs: u32,
    acknowledged: u32,
    report: &ReportWords,
    causes: &mut Codes,
) -> u32
    ensures { left_by_cycle values.now result state.new causes.new ≡ cycle_on values.now state.old (given_from position inputs acknowledged report.now) }
{
    axis_monitor::monitor_cycle(
        values,
        state,
        position,
        inputs,
        acknowledged,
        report,
        causes,
    )
}

// The device word of two channel words.
#[unsafe(no_mangle)]
pub extern "C" fn monitor_device_word(a: u32, b: u32) -> u32
    ensures { result ≡ device_of a b }
{
    axis_monitor::monitor_device_word(a, b)
}

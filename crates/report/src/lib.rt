// Reports: the datum that a channel reports in a cycle, what it reports, and cause 12.
#![tactic(auto)]

ghost use Rattle.std.specs.Prelude.{◌≡◌};
ghost use Rattle.machine_data.specs.Data.{list_of};
ghost use Rattle.report.specs.Report.{next_k, report_of, datum_differs};

use inputs::Reading;
use machine_data::Lent;
use ranges::DATA;

// The other channel's position, input word, datum k and head: how many data its list has.
#[derive(Clone, Copy)]
pub struct Report {
    pub position: i32,
    pub inputs: u32,
    pub datum: i32,
    pub head: usize,
}

// The number of the datum after k, in a list of so many.
pub fn next_k(count: usize, k: u8) -> u8
    ensures { result ≡ next_k count k }
{
    let next = usize::from(k) + 1;
    if next < DATA && next < count {
        next as u8
    } else {
        0
    }
}

// What a channel with a list reports of a cycle, with its k from before it.
pub fn report_of(list: Lent, k: u8, reading: Reading) -> Report
    ensures { result ≡ report_of (list_of list.entry) k reading }
{
    Report {
        position: reading.position,
        inputs: reading.inputs,
        datum: machine_data::entry(list.values, usize::from(k)),
        head: list.count,
    }
}

// Cause 12.
#[tactic(auto, unfolding(crate::specs::Report::datum_differs))]
pub fn datum_differs(list: Lent, k: u8, report: Report) -> bool
    ensures { result ≡ datum_differs (list_of list.entry) k report }
{
    list.count != report.head || machine_data::entry(list.values, usize::from(k)) != report.datum
}

// How a report, and what a channel is given in a cycle, cross to a program in another language and back.
#![tactic(auto)]

ghost use Rattle.std.specs.Prelude.{◌≡◌};
ghost use Rattle.crossing_reports.specs.Reports.{report_words, ComesBack, given_from};

use inputs::Reading;
use report::Report;
use state::Given;

// How many words a report has.
pub const REPORT: usize = 4;

// The words of a report, an array and no struct: C lends them so.
pub type ReportWords = [u32; REPORT];

// The words of a report; from them the same report is read. A head of 2^32 or more, which no list has, is told modulo 2^32.
pub fn report_words(report: Report) -> ReportWords
    ensures value { result ≡ report_words report }
    ensures comes_back { ComesBack report result }
{
    [
        crossing::unsigned(report.position),
        report.inputs,
        crossing::unsigned(report.datum),
        (report.head % 4294967296) as u32,
    ]
}

// What a channel is given in a cycle.
pub fn given_from(position: i32, inputs: u32, acknowledged: u32, report: &ReportWords) -> Given
    ensures { result ≡ given_from position inputs acknowledged report.now }
{
    Given {
        reading: Reading { position, inputs },
        acknowledged: crossing::yes(acknowledged),
        report: Report {
            position: crossing::signed(report[0]),
            inputs: report[1],
            datum: crossing::signed(report[2]),
            head: crossing::wide(report[3]),
        },
    }
}

// The machine data of a channel: the data of a list by number and name, and a datum read within its range.
#![tactic(auto)]

pub mod functions;
pub mod numbers;

ghost use Rattle.std.specs.Prelude.{◌≡◌, ◌<◌, ◌≤◌, ◌+◌, ◌%◌, pos};
ghost use Rattle.ranges.specs.Table.{data_count, low_of, high_of};
ghost use Rattle.machine_data.specs.Data.{datum_of, size, number_of, ratio_of, entry_of, function_of, list_of};

use ranges::DATA;

// The data by their numbers, as they are lent.
pub type Values = [i32; DATA];

// The data of an accepted list, and how many it has; the places behind them are 0. A count of 0 where there is no list.
// An array with its count and no shorter slice: a datum that the list lacks is read as the 0 behind it.
#[derive(Clone, Copy)]
pub struct MachineData {
    pub values: Values,
    pub count: usize,
}

// A list that is lent: its data where they stand, with no copy of them, and how many it has.
#[derive(Clone, Copy)]
pub struct Lent<'a> {
    pub values: &'a Values,
    pub count: usize,
}

impl MachineData {
    pub fn lend(&self) -> Lent<'_>
        ensures { list_of result ≡ self.now }
    {
        Lent {
            values: &self.values,
            count: self.count,
        }
    }
}

// A gear stage's ratio of load to step.
#[derive(Clone, Copy)]
pub struct Ratio {
    pub numerator: u16,
    pub denominator: u16,
}

// Datum k between the ends of its range: what lies outside, as in no accepted list, reads as the nearer end. So does the 0 that
// stands for a datum that the list lacks.
fn read(values: &Values, k: usize, least: i32, most: i32) -> i32
    requires k_lt_data_count { k < data_count }
    requires least_value { least ≡ low_of k }
    requires most_value { most ≡ high_of k }
    ensures { result ≡ datum_of values.now k }
{
    values[k].clamp(least, most)
}

// A number, 0 below 0: every datum but the positions is at least 0.
fn size(z: i32) -> u64
    ensures { result ≡ size z }
{
    z.max(0) as u64
}

// Datum k, read within its range.
#[tactic(auto, unfolding(crate::specs::Data::datum_of))]
pub fn datum(values: &Values, k: usize) -> i32
    ensures { result ≡ datum_of values.now k }
{
    if DATA <= k {
        return 0;
    }
    let range = ranges::range_of(k);
    read(values, k, range.low, range.high)
}

// Datum k as a number.
#[tactic(auto, unfolding(crate::specs::Data::number_of))]
pub fn number(values: &Values, k: usize) -> u64
    ensures { result ≡ number_of values.now k }
{
    size(datum(values, k))
}

// Datum k as a count of cycles, in a type that keeps a channel's state small.
#[tactic(auto, using(crate::proofs::Bounds::number_most))]
pub fn cycles(values: &Values, k: usize) -> u32
    ensures { result ≡ number_of values.now k }
{
    number(values, k) as u32
}

// Datum n, as a number, of a run of so many data that all lie from 1 to the same end.
fn number_in(values: &Values, first: usize, many: u8, most: i32, n: u8) -> u64
    requires some { 0 < many }
    requires within { first + many ≤ data_count }
    requires least_value { pos 1 ≡ low_of (first + n % many) }
    requires most_value { most ≡ high_of (first + n % many) }
    ensures { result ≡ number_of values.now (first + n % many) }
{
    size(read(values, first + (n % many) as usize, 1, most))
}

// The limit of SG n + 1.
pub fn sg_limit(values: &Values, n: u8) -> u64
    ensures { result ≡ number_of values.now (3 + n % 4) }
{
    number_in(values, numbers::SG_LIMIT, 4, 1000000, n)
}

// The stop of SG n + 1, by its rank's number.
pub fn sg_stop(values: &Values, n: u8) -> u64
    ensures { result ≡ number_of values.now (7 + n % 4) }
{
    number_in(values, numbers::SG_STOP, 4, 5, n)
}

// The percent of override n.
pub fn percent(values: &Values, n: u8) -> u64
    ensures { result ≡ number_of values.now (35 + n % 16) }
{
    number_in(values, numbers::OVERRIDE, 16, 100, n)
}

// The ratio of gear g.
#[tactic(auto, using(crate::proofs::Bounds::ratio_most), unfolding(crate::specs::Data::ratio_of))]
pub fn gear_ratio(values: &Values, g: u8) -> Ratio
    ensures { result ≡ ratio_of values.now g }
{
    Ratio {
        numerator: number_in(values, numbers::NUMERATOR, 8, 1000, g) as u16,
        denominator: number_in(values, numbers::DENOMINATOR, 8, 1000, g) as u16,
    }
}

// The edge of cam n, in data order, as it stands: an edge is only compared with, so a cycle need not look at eight ranges.
pub fn cam_edge(values: &Values, n: usize) -> i32
    ensures { result ≡ entry_of values.now (16 + n % 8) }
{
    values[numbers::CAM + n % 8]
}

// Datum k as it stands, for a report and its comparison.
pub fn entry(values: &Values, k: usize) -> i32
    ensures { result ≡ entry_of values.now k }
{
    if k < DATA { values[k] } else { 0 }
}

// Whether function n is on.
#[tactic(auto, using(crate::proofs::Bounds::number_most), unfolding(crate::specs::Data::function_of))]
pub fn function(values: &Values, n: u32) -> bool
    ensures { result ≡ function_of values.now n }
{
    bits::bit(number(values, numbers::FUNCTIONS) as u32, n)
}

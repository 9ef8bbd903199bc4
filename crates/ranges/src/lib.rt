// The table of ranges: between which ends each of the machine data lies.
#![tactic(auto)]

pub mod heads;

ghost use Rattle.std.specs.Prelude.{◌≡◌, ◌≤◌, ◌&&◌};
ghost use Rattle.std.specs.Int.Signed.{le_z};
ghost use Rattle.ranges.specs.Table.{data_count, range_of, in_range, most_functions, allowed};

// How many data the longest list has.
pub const DATA: usize = 72;

// The range of a datum, by its ends.
#[derive(Clone, Copy)]
pub struct Range {
    pub low: i32,
    pub high: i32,
}

impl Range {
    fn holds(self, z: i32) -> bool
        ensures { result ≡ le_z self.low z && le_z z self.high }
    {
        self.low <= z && z <= self.high
    }
}

// The rows of the data that requests added; 0 to 0 past the last.
fn range_from_51(k: usize) -> Range
    requires { 51 ≤ k }
    ensures { result ≡ range_of k }
{
    let (low, high) = match k {
        51..=66 => (1, 1_000),
        67 => (0, 1_000_000),
        68 => (0, 1_000),
        69 => (0, 100_000),
        70 => (0, 1_000),
        71 => (1, 5),
        _ => (0, 0),
    };
    Range { low, high }
}

// The range of datum k, a row of the table a line; 0 to 0 past the last.
pub fn range_of(k: usize) -> Range
    ensures { result ≡ range_of k }
{
    let (low, high) = match k {
        0 => (1, 25),
        1 => (0, 63),
        2 => (0, 100_000),
        3..=6 => (1, 1_000_000),
        7..=10 => (1, 5),
        11..=14 => (-100_000_000, 100_000_000),
        15 => (1, 3),
        16..=23 => (-100_000_000, 100_000_000),
        24 => (0, 100_000),
        25 => (0, 1_000_000),
        26 => (0, 100_000),
        27..=32 => (0, 1_000),
        33 => (0, 1_000_000),
        34 => (0, 1_000),
        35..=50 => (1, 100),
        _ => return range_from_51(k),
    };
    Range { low, high }
}

// Whether z may be datum k of the longest list. There is none past the last.
#[tactic(auto, unfolding(crate::specs::Table::in_range))]
fn in_range(k: usize, z: i32) -> bool
    ensures { result ≡ in_range k z }
{
    k < DATA && range_of(k).holds(z)
}

// The most that datum 1 may be in a list of so many data: a function is not turned on without its data.
fn most_functions(head: usize) -> i32
    ensures { result ≡ most_functions head }
{
    if heads::DIRECTION <= head { 63 } else { 31 }
}

// Whether z may be datum k of a list whose head says so many data.
#[tactic(auto, unfolding(crate::specs::Table::allowed))]
pub fn allowed(head: usize, k: usize, z: i32) -> bool
    ensures { result ≡ allowed head k z }
{
    in_range(k, z) && (k != 1 || z <= most_functions(head))
}

// Step 6 of a cycle: the cam signals. A cam takes the same way whatever the position is: its two comparisons are 0 or 1, and its
// signal is reckoned from them and the bit that is kept.
#![tactic(auto)]

ghost use Rattle.std.specs.Prelude.{◌≡◌, ◌*◌, ◌%◌, ◌^◌, pos, ◌+ℤ◌};
ghost use Rattle.std.specs.Int.Signed.{lt_z};
ghost use Rattle.bits.specs.Bits.{bit_of, flag};
ghost use Rattle.cams.specs.Cams.{signal_of, cams_next};
ghost use Rattle.cams.specs.Lowest.{from_lowest};

use inputs::Reading;
use machine_data::{Values, numbers};

// A number of 32 bits counted from the lowest of them.
fn from_lowest(z: i32) -> u32
    ensures { result ≡ from_lowest z }
{
    z.abs_diff(i32::MIN)
}

// 1 where the position is above the edge and its tolerance. The tolerance is taken off the position and not put on each edge:
// the edges are then compared with one number, in 32 bits and side by side. Where it would go past the lowest number that one
// is 0: no edge counts less, so none is overstepped, as it should be.
fn above(edge: i32, tolerance: u32, position: i32) -> u32
    ensures { result ≡ flag (lt_z (edge +ℤ pos tolerance) position) }
{
    let at = from_lowest(position);
    let enough = (tolerance <= at) as u32;
    let reach = (at - tolerance * enough) * enough;
    (from_lowest(edge) < reach) as u32
}

// The signal of a cam as a bit of a word, at place n: below the edge the bit that was kept is dropped; above edge and tolerance
// what the bit lacks is added.
fn signal(edge: i32, tolerance: u32, position: i32, before: u32, n: u32) -> u32
    ensures { result ≡ 2 ^ (n % 8) * flag (signal_of edge (pos tolerance) position (bit_of before (n % 8))) }
{
    let place = n % 8;
    let bit = 1u32 << place;
    let kept = (before >> place) % 2 * bit;
    let over = above(edge, tolerance, position);
    let under = (position < edge) as u32;
    let held = (1 - under) * kept;
    held + over * (bit - held)
}

// The eight signals as the bits of a number, the first lowest.
pub fn next(values: &Values, reading: Reading, before: u32) -> u32
    ensures { result ≡ cams_next values.now reading.position before }
{
    let tolerance = machine_data::number(values, numbers::CAM_TOLERANCE) as u32;
    let mut signals = 0u32;
    for n in 0..8 {
        let edge = machine_data::cam_edge(values, n as usize);
        signals += signal(edge, tolerance, reading.position, before, n);
    }
    signals
}

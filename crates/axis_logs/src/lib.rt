// Recorded logs and kits as a library for a test desk's program in another language, to which axis_logs_c exports them, over the
// arrays of axis_monitor.
#![tactic(auto)]

ghost use Rattle.std.specs.Prelude.{◌≡◌, ◌≤◌, length};
ghost use Rattle.numerals.specs.Written.{written};
ghost use Rattle.kit_run.specs.KitRun.{kit_ran};
ghost use Rattle.listing.specs.Listing.{listed, cycles_of, told_of};
ghost use Rattle.axis_logs.specs.Left.{left_by_log, log_over};

use image::Image;
use machine_data::{Lent, Values};

// A log over two channels, whatever data their pending lists have: 0 and the number of cycles, or the refusal's number and place,
// with the states and the output as they were.
pub fn monitor_run_log(
    values_a: &Values,
    state_a: &mut Image,
    values_b: &Values,
    state_b: &mut Image,
    words: &[u32],
    out: &mut [u32],
    at: &mut usize,
) -> u32
    ensures { left_by_log values_a.now values_b.now result state_a.new state_b.new out.new at.new ≡ log_over values_a.now state_a.old values_b.now state_b.old words.now out.old }
{
    let na = image::count_of(state_a);
    let nb = image::count_of(state_b);
    let a = image::state_from(state_a);
    let b = image::state_from(state_b);
    let da = Lent {
        values: values_a,
        count: na,
    };
    let db = Lent {
        values: values_b,
        count: nb,
    };
    let ran = logs::run_on(da, a, db, b, words, out);
    match ran.answer {
        Ok(cycles) => {
            let a_pending = image::pending_after(cycles, state_a);
            *state_a = image_writing::words_of(na, ran.a, a_pending);
            let b_pending = image::pending_after(cycles, state_b);
            *state_b = image_writing::words_of(nb, ran.b, b_pending);
            *at = cycles;
            0
        }
        Err(why) => {
            *at = why.place();
            why.number()
        }
    }
}

// The bench's text for a kit: its length; where the buffer has room the text stands at its front.
pub fn monitor_list_kit(kit: &[u8], out: &mut [u8]) -> usize
    ensures value { result ≡ length (listed kit.now) }
    ensures out_after { out.new ≡ written 0 (listed kit.now) out.old }
    ensures upper_bound { result ≤ 74880 }
{
    listing::list_kit(kit, out)
}

// A kit's words run over two fresh channels: the number of cycles, with their words at the output's front. In `told` 0, or
// where the kit is refused the refusal's number, its place, and the letter of the part.
pub fn monitor_run_kit(words: &[u32], out: &mut [u32], told: &mut [u64; 3]) -> usize
    ensures value { result ≡ cycles_of (kit_ran words.now out.old).answer }
    ensures out_after { out.new ≡ (kit_ran words.now out.old).out }
    ensures told_after { told.new ≡ told_of (kit_ran words.now out.old).answer }
{
    listing::run_kit(words, out, told)
}

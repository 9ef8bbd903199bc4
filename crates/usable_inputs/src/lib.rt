// Whether what a channel is given in a cycle can be used.
#![tactic(auto)]

ghost use Rattle.std.specs.Prelude.{◌≡◌, eqb};
ghost use Rattle.machine_data.specs.Data.{has_ratios, function_of, list_of};
ghost use Rattle.inputs.specs.Layout.{gear_number, direction_bits};
ghost use Rattle.usable_inputs.specs.Usable.{spare_of, free, bits_usable, usable_of, direction_mask};

use inputs::Reading;
use machine_data::{Lent, Values, functions};
use ranges::heads;

// Whether the bits of an input word that no safe input has are 0, one group after the other: they come to one test.
fn spare_off(w: u32) -> bool
    ensures { result ≡ eqb (spare_of w) 0 }
{
    w / 4 % 2 == 0
        && w / 32 % 8 == 0
        && w / 2048 % 2 == 0
        && w / 32768 % 8 == 0
        && w / 4194304 % 64 == 0
}

// Whether the gear's bits may stand as they do in a list of so many data.
fn gear_usable(count: usize, w: u32) -> bool
    ensures { result ≡ free (has_ratios count) (gear_number w) }
{
    heads::GEARS <= count || inputs::gear_number(w) == 0
}

// The bits of safe direction, where they must be 0: without the function.
fn direction_mask(values: &Values) -> u32
    ensures { result ≡ direction_mask (function_of values.now 5) }
{
    if machine_data::function(values, functions::DIRECTION) {
        0
    } else {
        24576
    }
}

// Whether the bits of safe direction may stand as they do. The mask is the same in all cycles of a log: there it is worked out once.
#[tactic(auto, using(crate::proofs::Masks::masked))]
fn direction_usable(values: &Values, w: u32) -> bool
    ensures { result ≡ free (function_of values.now 5) (direction_bits w) }
{
    w & direction_mask(values) == 0
}

// Whether all bits of an input word that a list gives no meaning are 0.
#[tactic(auto, unfolding(crate::specs::Usable::bits_usable))]
fn bits_usable(list: Lent, w: u32) -> bool
    ensures { result ≡ bits_usable (list_of list.entry) w }
{
    spare_off(w) && direction_usable(list.values, w) && gear_usable(list.count, w)
}

// Whether a channel with a list can use a reading.
#[tactic(auto, unfolding(crate::specs::Usable::usable_of))]
pub fn usable(list: Lent, reading: Reading) -> bool
    ensures { result ≡ usable_of (list_of list.entry) reading }
{
    reading.position.unsigned_abs() <= 100000000 && bits_usable(list, reading.inputs)
}

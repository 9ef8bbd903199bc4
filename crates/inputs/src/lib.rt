// The input word by its fields.
#![tactic(auto)]

ghost use Rattle.std.specs.Prelude.{◌≡◌};
ghost use Rattle.inputs.specs.Layout.{sbh_sg_off, sbh_off, sg_number, gear_number, ratio_in, se2_chosen, positive_only_off, negative_only_off, external_off, override_number};

use machine_data::{Ratio, Values};

// A channel's own position and input word.
#[derive(Clone, Copy)]
pub struct Reading {
    pub position: i32,
    pub inputs: u32,
}

// The external stops, by the rank of each.
#[derive(Clone, Copy)]
pub enum External {
    A,
    C,
    D,
    E,
}

// Each input by a name of its own: an enum of them would have the same names, and a match beside it.
pub fn sbh_sg_off(w: u32) -> bool
    ensures { result ≡ sbh_sg_off w }
{
    bits::bit(w, 0)
}

pub fn sbh_off(w: u32) -> bool
    ensures { result ≡ sbh_off w }
{
    bits::bit(w, 1)
}

// The SG's number less one.
#[tactic(auto, unfolding(bits::specs::Bits::field_of))]
pub fn sg_number(w: u32) -> u8
    ensures { result ≡ sg_number w }
{
    (w / 8 % 4) as u8
}

// The gear, from 0.
#[tactic(auto, unfolding(bits::specs::Bits::field_of))]
pub fn gear_number(w: u32) -> u8
    ensures { result ≡ gear_number w }
{
    (w / 256 % 8) as u8
}

// The ratio of the gear that an input word picks.
pub fn ratio_in(values: &Values, w: u32) -> Ratio
    ensures { result ≡ ratio_in values.now w }
{
    machine_data::gear_ratio(values, gear_number(w))
}

pub fn se2_chosen(w: u32) -> bool
    ensures { result ≡ se2_chosen w }
{
    bits::bit(w, 12)
}

// Whether travel is not bound to the positive direction.
pub fn positive_only_off(w: u32) -> bool
    ensures { result ≡ positive_only_off w }
{
    bits::bit(w, 13)
}

// Whether travel is not bound to the negative direction.
pub fn negative_only_off(w: u32) -> bool
    ensures { result ≡ negative_only_off w }
{
    bits::bit(w, 14)
}

pub fn external_off(w: u32, stop: External) -> bool
    ensures { result ≡ external_off w stop }
{
    match stop {
        External::A => bits::bit(w, 18),
        External::C => bits::bit(w, 19),
        External::D => bits::bit(w, 20),
        External::E => bits::bit(w, 21),
    }
}

#[tactic(auto, unfolding(bits::specs::Bits::field_of))]
pub fn override_number(w: u32) -> u8
    ensures { result ≡ override_number w }
{
    (w / 268435456) as u8
}

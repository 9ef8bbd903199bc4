// Speeds compared without a division: a step in a cycle, times its gear's ratio, against a speed times the cycle's length.
#![tactic(auto)]

ghost use Rattle.std.specs.Prelude.{◌≡◌, ◌≤◌};
ghost use Rattle.speed.specs.Speed.{percent_of, speed_of, load_step, load_time, too_fast, slower_than, slower};

use machine_data::{Ratio, Values, numbers};

// The step of a cycle, |d|, and the ratio of its gear.
#[derive(Clone, Copy)]
pub struct Step {
    pub moved: u32,
    pub ratio: Ratio,
}

// An SG by its number less one, with the number of its override.
#[derive(Clone, Copy)]
pub struct Sg {
    pub number: u8,
    pub over: u8,
}

// The override percent of an SG: SG2 and SG4 have one, the others 100.
#[tactic(auto, unfolding(crate::specs::Speed::percent_of))]
fn sg_percent(values: &Values, sg: Sg) -> u64
    ensures { result ≡ percent_of values.now sg.number sg.over }
{
    if sg.number % 2 == 1 {
        machine_data::percent(values, sg.over)
    } else {
        100
    }
}

// Limit × percent of an SG.
#[tactic(auto, unfolding(crate::specs::Speed::speed_of))]
pub fn sg_speed(values: &Values, sg: Sg) -> u64
    ensures { result ≡ speed_of values.now sg.number sg.over }
{
    machine_data::sg_limit(values, sg.number) * sg_percent(values, sg)
}

// The load's step, times the denominator: no more than 32 bits times 16 hold.
fn load_step(step: Step) -> u64
    ensures value { result ≡ load_step step }
    ensures upper_bound { result ≤ 281470681677825 }
{
    step.moved as u64 * step.ratio.numerator as u64
}

// The cycle's length, times the denominator: no more than 25 times 16 bits hold.
fn load_time(values: &Values, step: Step) -> u64
    ensures value { result ≡ load_time values.now step }
    ensures upper_bound { result ≤ 1638375 }
{
    machine_data::number(values, numbers::CYCLE_TIME) * step.ratio.denominator as u64
}

// Whether a step is over the limit of an SG.
#[tactic(auto, unfolding(crate::specs::Speed::too_fast))]
pub fn too_fast(values: &Values, step: Step, sg: Sg) -> bool
    ensures { result ≡ too_fast values.now step sg.number sg.over }
{
    sg_speed(values, sg) * load_time(values, step) < load_step(step) * 6000
}

// Whether a step is below a speed.
#[tactic(auto, unfolding(crate::specs::Speed::slower_than))]
pub fn slower_than(values: &Values, step: Step, speed: u32) -> bool
    ensures { result ≡ slower_than values.now step speed }
{
    load_step(step) * 60 < speed as u64 * load_time(values, step)
}

// Whether it is below the speed that is datum k.
#[tactic(auto, using(machine_data::proofs::Bounds::number_most))]
pub fn slower(values: &Values, step: Step, k: usize) -> bool
    ensures { result ≡ slower values.now step k }
{
    slower_than(values, step, machine_data::number(values, k) as u32)
}

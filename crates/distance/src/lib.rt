// Steps and distances of positions, on either side of zero.
#![tactic(auto)]

ghost use Rattle.std.specs.Prelude.{◌≡◌, ◌-ℤ◌, nat_abs};
ghost use Rattle.distance.specs.Step.{step_from, moved_from};

// The signed step from b to a.
pub fn step(a: i32, b: i32) -> i64
    ensures { result ≡ a -ℤ b }
{
    i64::from(a) - i64::from(b)
}

// The magnitude of any step, the lowest i64 too, which has no positive counterpart.
pub fn magnitude(d: i64) -> u64
    ensures { result ≡ nat_abs d }
{
    d.unsigned_abs()
}

// How far apart two positions are.
pub fn distance(a: i32, b: i32) -> u32
    ensures { result ≡ nat_abs (a -ℤ b) }
{
    a.abs_diff(b)
}

// d: the signed step from the position of the cycle before, where there is one, to a position; 0 without one.
pub fn step_to(previous: Option<i32>, position: i32) -> i64
    ensures { result ≡ step_from previous position }
{
    previous.map_or(0, |p| step(position, p))
}

// |d|.
pub fn moved_to(previous: Option<i32>, position: i32) -> u32
    ensures { result ≡ moved_from previous position }
{
    previous.map_or(0, |p| distance(position, p))
}

// The whole number that a float stands for, at both widths: worked out from the bits, turned back by `as` and compared exactly.
#![tactic(auto)]

ghost use Rattle.std.specs.Prelude.{◌≡◌, ℕ, ◌^◌, ◌≤◌, ◌<◌, refl, to_bits, T, Float};
ghost use Rattle.std.specs.Float.{Format, NotNan, binary32, binary64};
ghost use Rattle.std.specs.Float.Ieee.{of_bits, nan_bits, fits};
ghost use Rattle.whole.specs.Whole.{limit, whole_of};
ghost use Rattle.whole.specs.Bits.{Layout, unless_nan, whole_part, with_sign, pattern_number, compared};
ghost use Rattle.std.proofs.Common.{mul-one};

// A float of one of the formats, by its pattern: the digits behind the leading one are lowest, above them the exponent field, then the sign.
trait Binary: Copy {
    // The leading digit's weight: the digits stand below it, and the exponent field from there on.
    const LEAD: u64;

    const SIGN: u64;

    // The exponent field of 1.0.
    const BIAS: u32;

    // Digits times this are the digits of the same number as a binary64.
    const SPREAD: u64;

    ghost LEAD: { ℕ };

    ghost SIGN: { ℕ };

    ghost BIAS: { ℕ };

    ghost SPREAD: { ℕ };

    ghost format: { Format };

    ghost value: { Self → Float };

    // The same number as a binary64, unless it is a NaN.
    fn wide(self) -> Option<f64>
        ensures { result ≡ unless_nan (value self) };

    // `to_bits` is undefined at a NaN.
    fn pattern(self) -> u64
        requires { NotNan (value self) }
        ensures bits { result ≡ to_bits format (value self) }
        ensures fits { T (fits format (value self)) };

    ghost layout: { Layout format LEAD SIGN BIAS SPREAD };
}

impl Binary for f32 {
    const LEAD: u64 = 1 << 23;

    const SIGN: u64 = 1 << 31;

    const BIAS: u32 = 127;

    const SPREAD: u64 = 1 << 29;

    ghost LEAD = { 8388608 };

    ghost SIGN = { 2147483648 };

    ghost BIAS = { 127 };

    ghost SPREAD = { 536870912 };

    ghost format = { binary32 };

    ghost value = { λ x. x };

    ghost layout = { record { lead_is = refl; sign_is = refl; bias_is = refl; spread_is = λ t. refl } };

    fn wide(self) -> Option<f64> {
        if self.is_nan() {
            None
        } else {
            Some(self as f64)
        }
    }

    fn pattern(self) -> u64 {
        u64::from(self.to_bits())
    }
}

impl Binary for f64 {
    const LEAD: u64 = 1 << 52;

    const SIGN: u64 = 1 << 63;

    const BIAS: u32 = 1023;

    const SPREAD: u64 = 1;

    ghost LEAD = { 4503599627370496 };

    ghost SIGN = { 9223372036854775808 };

    ghost BIAS = { 1023 };

    ghost SPREAD = { 1 };

    ghost format = { binary64 };

    ghost value = { λ x. x };

    ghost layout = { record { lead_is = refl; sign_is = refl; bias_is = refl; spread_is = λ t. mul-one t } };

    fn wide(self) -> Option<f64> {
        if self.is_nan() { None } else { Some(self) }
    }

    fn pattern(self) -> u64 {
        self.to_bits()
    }
}

// The largest power of 2 within the limit is 2^26, for the limit is 2^27 - 1.
const LARGEST_POWER: u32 = 26;

// Infinity's pattern has an exponent field of ones and no digits; one above it, but for the sign, is a NaN's.
fn is_nan_pattern<F: Binary>(bits: u64) -> bool
    ensures { result ≡ nan_bits F.format bits }
{
    F::SIGN - F::LEAD < bits % F::SIGN
}

// The float of a bit pattern, as IEEE 754 has it. `from_bits` is undefined at a NaN's, so a comparison finds those, and 0 / 0 makes the NaN.
// Two functions and no method of the trait: a pattern is a u32 or a u64, and each has its own body either way.
pub fn single(bits: u32) -> f32
    ensures { result ≡ of_bits binary32 bits }
{
    if is_nan_pattern::<f32>(u64::from(bits)) {
        0.0f32 / 0.0f32
    } else {
        f32::from_bits(bits)
    }
}

pub fn double(bits: u64) -> f64
    ensures { result ≡ of_bits binary64 bits }
{
    if is_nan_pattern::<f64>(bits) {
        0.0f64 / 0.0f64
    } else {
        f64::from_bits(bits)
    }
}

// The whole number that x stands for.
pub fn whole<F: Binary>(x: F) -> Option<i32>
    ensures { result ≡ whole_of (F.value x) }
{
    let wide = x.wide()?;
    compared(wide, number_of::<F>(x.pattern()))
}

// z, if x equals z turned back. A binary64 holds every z; a binary32 doesn't, so both widths are compared here.
fn compared(x: f64, z: i32) -> Option<i32>
    ensures { result ≡ compared x z }
{
    (x == z as f64).then_some(z)
}

// The number of a bit pattern, without its fraction.
fn number_of<F: Binary>(bits: u64) -> i32
    ensures { result ≡ pattern_number F.format bits }
{
    let field = (bits % F::SIGN / F::LEAD) as u32;
    let digits = bits % F::LEAD * F::SPREAD;
    with_sign(F::SIGN <= bits, whole_part(field, F::BIAS, digits))
}

// The whole part of a magnitude, from its exponent field and its digits as a binary64; 0 if it is beyond the limit.
fn whole_part(field: u32, bias: u32, digits: u64) -> u32
    requires { digits < 2 ^ 52 }
    ensures value { result ≡ whole_part field bias digits }
    ensures upper_bound { result ≤ limit }
{
    if field < bias || LARGEST_POWER < field - bias {
        return 0;
    }
    ((<f64 as Binary>::LEAD + digits) >> (52 - (field - bias))) as u32
}

fn with_sign(negative: bool, n: u32) -> i32
    requires { n ≤ limit }
    ensures { result ≡ with_sign negative n }
{
    if negative { -(n as i32) } else { n as i32 }
}

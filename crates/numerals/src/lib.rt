// Numbers as digits of a base, in lent bytes.
#![tactic(auto)]

ghost use Rattle.std.specs.Prelude.{◌≡◌, ◌+◌, ◌/◌, ◌%◌, ◌<◌, length, leb};
ghost use Rattle.numerals.specs.Numerals.{radix, glyph as Numerals·glyph, digits, width as Numerals·width};
ghost use Rattle.numerals.specs.Written.{written};

// An enum and no const parameter: a function of any base would have to require one from 2 to 16.
#[derive(Clone, Copy)]
pub enum Base {
    Decimal,
    Hexadecimal,
}

// So many bytes from a place on.
#[derive(Clone, Copy)]
pub struct Span {
    pub at: usize,
    pub many: usize,
}

impl Base {
    // A number without its last digit, and that digit: each base divides by a constant.
    fn parted(self, n: usize) -> (usize, u8)
        ensures rest { result.0 ≡ n / radix self }
        ensures last { result.1 ≡ n % radix self }
        ensures small { result.1 < 16 }
    {
        match self {
            Base::Decimal => (n / 10, (n % 10) as u8),
            Base::Hexadecimal => (n / 16, (n % 16) as u8),
        }
    }
}

// How many digits a number has, without leading zeros.
pub fn width(n: usize, base: Base) -> usize
    ensures { result ≡ Numerals·width (radix base) n }
{
    let n = n.max(1);
    match base {
        Base::Decimal => n.ilog10() as usize + 1,
        Base::Hexadecimal => n.ilog2() as usize / 4 + 1,
    }
}

// Whether a span lies within so many bytes.
pub fn has_room(all: usize, span: Span) -> bool
    ensures { result ≡ leb (span.at + span.many) all }
{
    span.at <= all && span.many <= all - span.at
}

#[tactic(auto, unfolding(crate::specs::Numerals::glyph))]
fn glyph(d: u8) -> u8
    requires { d < 16 }
    ensures { result ≡ Numerals·glyph d }
{
    if d < 10 { b'0' + d } else { b'a' + (d - 10) }
}

// The number's lowest digits, as many as there are bytes.
fn fill(out: &mut [u8], n: usize, base: Base)
    ensures { out.new ≡ digits (radix base) (length out.old) n }
{
    let mut rest = n;
    for i in (0..out.len()).rev() {
        let (shorter, last) = base.parted(rest);
        out[i] = glyph(last);
        rest = shorter;
    }
}

// The number's lowest digits, as many as the span has bytes; nothing where it lies outside.
pub fn put_digits(out: &mut [u8], span: Span, n: usize, base: Base)
    ensures { out.new ≡ written span.at (digits (radix base) span.many n) out.old }
{
    if has_room(out.len(), span) {
        fill(&mut out[span.at..span.at + span.many], n, base);
    }
}

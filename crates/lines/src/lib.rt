// A line of the bench's text, in a lent buffer.
#![tactic(auto)]

ghost use Rattle.std.specs.Prelude.{◌≡◌, ◌∷◌, [], ◌++◌, ◌+◌, ◌≤◌, length};
ghost use Rattle.numerals.specs.Numerals.{radix, digits as Numerals·digits, width as Numerals·width};
ghost use Rattle.numerals.specs.Written.{splice, written, Puts};
ghost use Rattle.lines.specs.Lines.{cycle_line, refusal_line};

use numerals::{Base, Span, has_room, put_digits, width};

// A cycle and its three words.
#[derive(Clone, Copy)]
pub struct Line {
    pub cycle: usize,
    pub a: u32,
    pub b: u32,
    pub device: u32,
}

// A refusal's number, its place, and the letter of its part.
#[derive(Clone, Copy)]
pub struct RefusalLine {
    pub number: u32,
    pub place: usize,
    pub letter: u8,
}

// A number's digits, and the byte that ends them; the place behind.
fn put_field(out: &mut [u8], digits: Span, n: usize, base: Base, end: u8) -> usize
    requires { digits.at + digits.many + 1 ≤ length out.old }
    ensures behind { result ≡ digits.at + digits.many + 1 }
    ensures out_after { out.new ≡ splice digits.at (Numerals·digits (radix base) digits.many n ++ end ∷ []) out.old }
{
    put_digits(out, digits, n, base);
    let last = digits.at + digits.many;
    out[last] = end;
    last + 1
}

impl Line {
    #[tactic(auto, using(crate::proofs::Sizes::line_size, crate::proofs::Sizes::decimal_most, crate::proofs::Sizes::hex_most))]
    pub fn length(self) -> usize
        ensures value { result ≡ length (cycle_line self) }
        ensures upper_bound { result ≤ Numerals·width 10 self.cycle + 28 }
    {
        width(self.cycle, Base::Decimal) + width(self.device as usize, Base::Hexadecimal) + 20
    }

    #[tactic(auto, using(crate::proofs::Sizes::line_size))]
    fn write(self, out: &mut [u8], at: usize)
        requires { at + length (cycle_line self) ≤ length out.old }
        ensures { out.new ≡ splice at (cycle_line self) out.old }
    {
        let many = width(self.cycle, Base::Decimal);
        let a = put_field(out, Span { at, many }, self.cycle, Base::Decimal, b' ');
        let eight = Span { at: a, many: 8 };
        let b = put_field(out, eight, self.a as usize, Base::Hexadecimal, b' ');
        let eight = Span { at: b, many: 8 };
        let device = put_field(out, eight, self.b as usize, Base::Hexadecimal, b' ');
        let word = self.device as usize;
        let many = width(word, Base::Hexadecimal);
        let last = Span { at: device, many };
        put_field(out, last, word, Base::Hexadecimal, b'\n');
    }

    // From a place on, where it fits; its length.
    pub fn put(self, out: &mut [u8], at: usize) -> usize
        ensures value { result ≡ length (cycle_line self) }
        ensures out_after { out.new ≡ written at (cycle_line self) out.old }
    {
        let bytes = self.length();
        if has_room(out.len(), Span { at, many: bytes }) {
            self.write(out, at);
        }
        bytes
    }
}

impl RefusalLine {
    #[tactic(auto, using(crate::proofs::Sizes::refusal_size, crate::proofs::Sizes::decimal_most))]
    fn length(self) -> usize
        ensures value { result ≡ length (refusal_line self) }
        ensures upper_bound { result ≤ 52 }
    {
        width(self.number as usize, Base::Decimal) + width(self.place, Base::Decimal) + 12
    }

    #[tactic(auto, using(crate::proofs::Sizes::refusal_size))]
    fn write(self, out: &mut [u8])
        requires { length (refusal_line self) ≤ length out.old }
        ensures { out.new ≡ splice 0 (refusal_line self) out.old }
    {
        out[..8].copy_from_slice(b"refused ");
        let number = self.number as usize;
        let many = width(number, Base::Decimal);
        let place = put_field(out, Span { at: 8, many }, number, Base::Decimal, b' ');
        let many = width(self.place, Base::Decimal);
        let digits = Span { at: place, many };
        let letter = put_field(out, digits, self.place, Base::Decimal, b' ');
        out[letter..letter + 2].copy_from_slice(&[self.letter, b'\n']);
    }

    // At the buffer's front, where it fits; its length. Line's has a place: a trait of the two would be longer.
    pub fn put(self, out: &mut [u8]) -> usize
        ensures { Puts 52 (refusal_line self) result out.old out.new }
    {
        let bytes = self.length();
        if bytes <= out.len() {
            self.write(out);
        }
        bytes
    }
}

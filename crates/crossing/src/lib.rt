// How numbers, and yes and no, cross to a program in another language and back: as words of 32 bits.
#![tactic(auto)]

ghost use Rattle.std.specs.Prelude.{◌≡◌, ◌<◌};
ghost use Rattle.crossing.specs.Words.{signed_of, unsigned_of, yes_from, yes_word};

// The signed number of a word, in two's complement.
#[tactic(auto, using(crate::proofs::Twos::signed_read))]
pub fn signed(word: u32) -> i32
    ensures { result ≡ signed_of word }
{
    word.cast_signed()
}

// The word of a signed number.
pub fn unsigned(z: i32) -> u32
    ensures { result ≡ unsigned_of z }
{
    z.cast_unsigned()
}

// A word as yes or no: anything but 0 is yes.
pub fn yes(word: u32) -> bool
    ensures { result ≡ yes_from word }
{
    word != 0
}

// The word of yes or no.
pub fn yes_word(b: bool) -> u32
    ensures { result ≡ yes_word b }
{
    u32::from(b)
}

// A word as a number of things.
pub fn wide(word: u32) -> usize
    ensures value { result ≡ word }
    ensures upper_bound { result < 4294967296 }
{
    word as usize
}

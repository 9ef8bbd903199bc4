// A bit of a word.
#![tactic(auto)]

ghost use Rattle.std.specs.Prelude.{◌≡◌};
ghost use Rattle.bits.specs.Bits.{bit_of};

// Bit n of a word; a word has none past 31.
#[tactic(auto, unfolding(crate::specs::Bits::bit_of))]
pub fn bit(word: u32, n: u32) -> bool
    ensures { result ≡ bit_of word n }
{
    n < 32 && (word >> n) % 2 == 1
}

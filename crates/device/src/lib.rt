// The device word of two channel words.
#![tactic(auto)]

ghost use Rattle.std.specs.Prelude.{◌≡◌};
ghost use Rattle.device.specs.Device.{word_rank, device_of};

// The rank that any word shows.
#[tactic(auto, unfolding(crate::specs::Device::word_rank, bits::specs::Bits::field_of))]
fn rank(word: u32) -> u32
    ensures { result ≡ word_rank word }
{
    let shown = word / 16777216 % 8;
    if bits::bit(word, 2) || 5 < shown {
        5
    } else {
        shown
    }
}

#[tactic(auto, using(crate::proofs::Ranks::word_rank_most), unfolding(crate::specs::Device::device_rank, crate::specs::Device::device_of))]
pub fn device_word(a: u32, b: u32) -> u32
    ensures { result ≡ device_of a b }
{
    let rank = rank(a).max(rank(b));
    u32::from(rank < 5) + 2 * rank
}

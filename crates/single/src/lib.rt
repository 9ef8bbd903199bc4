// A single cycle with its device word.
#![tactic(auto)]

ghost use Rattle.std.specs.Prelude.{◌≡◌};
ghost use Rattle.single.specs.Single.{single_of};

use channel::Channel;
use codes::Causes;
use state::Given;

// What a single cycle gives, with the device word of its channel word and the other's.
#[derive(Clone, Copy)]
pub struct SingleOutcome {
    pub channel: Channel,
    pub word: u32,
    pub causes: Causes,
    pub device: u32,
}

// A cycle of a channel, then the device word of its word and any other.
pub fn single(channel: Channel, given: Given, other: u32) -> SingleOutcome
    ensures { result ≡ single_of channel given other }
{
    let outcome = channel::cycle(channel, given);
    SingleOutcome {
        channel: outcome.channel,
        word: outcome.word,
        causes: outcome.causes,
        device: device::device_word(outcome.word, other),
    }
}

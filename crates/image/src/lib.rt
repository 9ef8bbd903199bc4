// A channel's state as 26 words of 32 bits, what a program keeps of a channel that crosses into its memory: the places of the
// words, and the state that is read from them. Every content of the words stands for some state.
#![tactic(auto)]

ghost use Rattle.std.specs.Prelude.{◌≡◌, ◌<◌};
ghost use Rattle.image.specs.Image.{count_from, pending_count, pending_after, state_from};

use direction::Direction;
use directions::Directions;
use fault::Fault;
use nx_signal::Signal;
use selection::Choice;
use state::{Kept, State};

// How many words an image has.
pub const WORDS: usize = 26;

// The words of a channel's state, as they are lent.
pub type Image = [u32; WORDS];

// How many data the list has.
pub fn count_of(words: &Image) -> usize
    ensures value { result ≡ count_from words.now }
    ensures upper_bound { result < 4294967296 }
{
    crossing::wide(words[0])
}

// How many data the pending list has behind so many cycles, 0 where none is: each drops it.
pub fn pending_after(cycles: usize, words: &Image) -> usize
    ensures value { result ≡ pending_after cycles (pending_count words.now) }
    ensures upper_bound { result < 4294967296 }
{
    if cycles == 0 {
        crossing::wide(words[25])
    } else {
        0
    }
}

// The state that the words stand for.
pub fn state_from(words: &Image) -> State
    ensures { result ≡ state_from words.now }
{
    State {
        k: (words[1] % 256) as u8,
        kept: Kept {
            cams: words[16],
            choice: Choice {
                chosen: crossing::yes(words[4]),
                effective: image_cases::selection_from(words[5], words[6], words[7]),
                reference: crossing::signed(words[8]),
                left: words[9],
            },
            differing: words[10],
            fault: Fault {
                on: crossing::yes(words[11]),
                left: words[12],
            },
            nx: Signal {
                run: words[18],
                on: crossing::yes(words[17]),
            },
            directions: Directions {
                positive: Direction {
                    run: words[19],
                    watch: image_cases::position_from(words[20], words[21]),
                },
                negative: Direction {
                    run: words[22],
                    watch: image_cases::position_from(words[23], words[24]),
                },
            },
        },
        stop: image_cases::stop_from(words[13], words[14], words[15]),
        previous: image_cases::position_from(words[2], words[3]),
    }
}

// k alone, for a report.
pub fn k_of(words: &Image) -> u8
    ensures { result ≡ (state_from words.now).k }
{
    (words[1] % 256) as u8
}

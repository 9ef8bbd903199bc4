// The sums of a channel's state as words of 32 bits, and back: the number of a value's case, and what it holds. Every content of
// the words stands for some value.
#![tactic(auto)]

ghost use Rattle.std.specs.Prelude.{◌≡◌};
ghost use Rattle.image_cases.specs.Cases.{position_from, position_words, PositionFits, selection_from, selection_words, SelectionFits, stop_from, stop_words, StopFits};

use rank::Rank;
use selection::Selection;
use stop::Stop;

// A value of a sum: the number of its case, and what it holds. A number and no enum: C keeps these words.
#[derive(Clone, Copy)]
pub struct Case {
    pub kind: u32,
    pub first: u32,
    pub second: u32,
}

// The position that words stand for, or none: the previous one, and the extreme of a direction's watch.
pub fn position_from(kind: u32, position: u32) -> Option<i32>
    ensures { result ≡ position_from kind position }
{
    match kind {
        0 => None,
        _ => Some(crossing::signed(position)),
    }
}

// The words of such a position.
pub fn position_words(position: Option<i32>) -> Case
    ensures value { result ≡ position_words position }
    ensures position_fits { PositionFits position }
{
    match position {
        None => Case {
            kind: 0,
            first: 0,
            second: 0,
        },
        Some(at) => Case {
            kind: 1,
            first: crossing::unsigned(at),
            second: 0,
        },
    }
}

// The selection that words stand for.
pub fn selection_from(kind: u32, number: u32, over: u32) -> Selection
    ensures { result ≡ selection_from kind number over }
{
    match kind {
        0 => Selection::Nothing,
        1 => Selection::Sg((number % 256) as u8, (over % 256) as u8),
        _ => Selection::Sbh,
    }
}

// The words of a selection.
pub fn selection_words(selection: Selection) -> Case
    ensures value { result ≡ selection_words selection }
    ensures selection_fits { SelectionFits selection }
{
    match selection {
        Selection::Nothing => Case {
            kind: 0,
            first: 0,
            second: 0,
        },
        Selection::Sg(number, over) => Case {
            kind: 1,
            first: u32::from(number),
            second: u32::from(over),
        },
        Selection::Sbh => Case {
            kind: 2,
            first: 0,
            second: 0,
        },
    }
}

// The stop state that words stand for.
pub fn stop_from(kind: u32, rank: u32, rest: u32) -> Stop
    ensures { result ≡ stop_from kind rank rest }
{
    match kind {
        0 => Stop::Free,
        1 => Stop::Braking(Rank::from(u64::from(rank)), rest),
        2 => Stop::Held(Rank::from(u64::from(rank)), crossing::signed(rest)),
        _ => Stop::Cancelled,
    }
}

// The words of a stop state.
pub fn stop_words(stop: Stop) -> Case
    ensures value { result ≡ stop_words stop }
    ensures stop_fits { StopFits stop }
{
    match stop {
        Stop::Free => Case {
            kind: 0,
            first: 0,
            second: 0,
        },
        Stop::Braking(rank, left) => Case {
            kind: 1,
            first: u32::from(u8::from(rank)),
            second: left,
        },
        Stop::Held(rank, reference) => Case {
            kind: 2,
            first: u32::from(u8::from(rank)),
            second: crossing::unsigned(reference),
        },
        Stop::Cancelled => Case {
            kind: 3,
            first: 0,
            second: 0,
        },
    }
}

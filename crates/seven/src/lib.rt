// A record's words: the first gives its position, and the six behind it are looked at together.
#![tactic(auto)]

ghost use Rattle.std.specs.Prelude.{◌≡◌};
ghost use Rattle.seven.specs.Seven.{are_halves, reading_from, six_behind, are_six, record_of};

use inputs::Reading;

// What a record gives both channels.
#[derive(Clone, Copy)]
pub struct CycleRecord {
    pub a: Reading,
    pub b: Reading,
    pub acknowledged: bool,
}

// The two words that hold an input word.
#[derive(Clone, Copy)]
pub struct Halves {
    pub lower: u32,
    pub upper: u32,
}

// The six words behind a record's first: A's input word, B's position and input word, the end.
#[derive(Clone, Copy)]
pub struct Six {
    pub a: Halves,
    pub position: u32,
    pub b: Halves,
    pub end: u32,
}

// Whether two words are of kinds 5 and 6, with their unused bits 0.
#[tactic(auto, unfolding(crate::specs::Seven::are_halves))]
fn are_halves(halves: Halves) -> bool
    ensures { result ≡ are_halves halves }
{
    halves.lower / 65536 == 20480 && halves.upper / 65536 == 24576
}

// What a position and an input word's two words hold.
fn reading_from(position: i32, halves: Halves) -> Reading
    ensures { result ≡ reading_from position halves }
{
    Reading {
        position,
        inputs: halves.upper % 65536 * 65536 + halves.lower % 65536,
    }
}

// The six words behind a place, where none is missing.
pub fn six_behind(words: &[u32], at: usize) -> Option<Six>
    ensures { result ≡ six_behind words.now at }
{
    let &[_, lower_a, upper_a, position, lower_b, upper_b, end, ..] = words.get(at..)? else {
        return None;
    };
    Some(Six {
        a: Halves {
            lower: lower_a,
            upper: upper_a,
        },
        position,
        b: Halves {
            lower: lower_b,
            upper: upper_b,
        },
        end,
    })
}

// Whether six words are those of a record, by their kinds and unused bits.
#[tactic(auto, unfolding(crate::specs::Seven::are_six))]
pub fn are_six(six: Six) -> bool
    ensures { result ≡ are_six six }
{
    six.position / 268435456 == 4
        && six.end / 2 == 939524096
        && are_halves(six.a)
        && are_halves(six.b)
}

// The record that a position and the six words behind it hold.
pub fn record_of(position: i32, six: Six) -> CycleRecord
    ensures { result ≡ record_of position six }
{
    CycleRecord {
        a: reading_from(position, six.a),
        b: reading_from(words::position_of(six.position), six.b),
        acknowledged: six.end % 2 == 1,
    }
}

// Why a list, a log or a commit is refused: the rows of document 01's refusal table and of W7, each with what it returns beside its number.
#![tactic(auto)]

ghost use Rattle.std.specs.Prelude.{◌≡◌};
ghost use Rattle.refusal.specs.Refusal.{refusal_number, refusal_place};

#[derive(Clone, Copy, PartialEq, Eq)]
pub enum Refusal {
    // a list's word is missing, or of wrong kind, number or bits: its place
    WrongWord(usize),
    // the place of the datum's own word
    OpenDatum(usize),
    NoWholeNumber(usize),
    OutOfRange(usize),
    // an SE minus is not below its plus: the place of the minus datum
    SeEnds(usize),
    // a log is too long, or a word of it is missing or wrong: the longest log's length, or the place
    WrongLog(usize),
    // the words wanted
    ShortOutput(usize),
    // a commit with no list pending
    NothingPending,
}

// The part of a kit that a refusal is about, and in which its place is counted.
#[derive(Clone, Copy, PartialEq, Eq)]
pub enum Part {
    ListA,
    ListB,
    Log,
}

// Why a kit is refused, and in which part of it.
#[derive(Clone, Copy, PartialEq, Eq)]
pub struct KitRefusal {
    pub why: Refusal,
    pub part: Part,
}

impl Refusal {
    pub fn number(self) -> u32
        ensures { result ≡ refusal_number self }
    {
        match self {
            Refusal::WrongWord(_) => 1,
            Refusal::OpenDatum(_) => 2,
            Refusal::NoWholeNumber(_) => 3,
            Refusal::OutOfRange(_) => 4,
            Refusal::SeEnds(_) => 5,
            Refusal::WrongLog(_) => 6,
            Refusal::ShortOutput(_) => 7,
            Refusal::NothingPending => 8,
        }
    }

    // What is returned beside the number: a place, or the words wanted.
    pub fn place(self) -> usize
        ensures { result ≡ refusal_place self }
    {
        match self {
            Refusal::WrongWord(place)
            | Refusal::OpenDatum(place)
            | Refusal::NoWholeNumber(place)
            | Refusal::OutOfRange(place)
            | Refusal::SeEnds(place)
            | Refusal::WrongLog(place) => place,
            Refusal::ShortOutput(wanted) => wanted,
            Refusal::NothingPending => 0,
        }
    }
}

// A 32-bit word of a list or a log: its kind in the top 4 bits, and what the other 28 hold.
#![tactic(auto)]

ghost use Rattle.std.specs.Prelude.{◌≡◌, ◌%◌};
ghost use Rattle.words.specs.Words.{twos, numbered_form, datum_word, word_of, word_at};

// The form that a datum is written in.
#[derive(Clone, Copy, PartialEq, Eq)]
pub enum Form {
    // a whole number in two's complement
    Whole,
    // a binary32
    Single,
    // a binary64
    Double,
    // entered later
    Open,
}

// A word taken apart. Other: a word that no list and no log can hold.
#[derive(Clone, Copy)]
pub enum Word {
    // the number that a list head holds
    Head(u32),
    // a datum's number, and its form
    Datum(u8, Form),
    Piece(u16),
    Position(i32),
    Lower(u16),
    Upper(u16),
    // whether it acknowledges
    End(bool),
    Remark,
    Other,
}

const KIND: u32 = 268435456;

const PIECE: u32 = 65536;

// The 32 bits of a whole number.
#[tactic(auto, using(crate::proofs::Twos::casts))]
pub fn signed32(bits: u32) -> i32
    ensures { result ≡ twos 2147483648 bits }
{
    bits.cast_signed()
}

// The position that a word of kind 4 holds, without a branch: half the width is added first and taken off last.
pub fn position_of(w: u32) -> i32
    ensures { result ≡ twos 134217728 (w % 268435456) }
{
    ((w % KIND + 134217728) % KIND) as i32 - 134217728
}

impl Form {
    // The form of a number. None is numbered past 3.
    fn numbered(number: u32) -> Option<Form>
        ensures { result ≡ numbered_form number }
    {
        match number {
            0 => Some(Form::Whole),
            1 => Some(Form::Single),
            2 => Some(Form::Double),
            3 => Some(Form::Open),
            _ => None,
        }
    }
}

#[tactic(auto, unfolding(crate::specs::Words::datum_word))]
fn datum(value: u32) -> Word
    ensures { result ≡ datum_word value }
{
    let number = value / PIECE;
    match Form::numbered(value % PIECE) {
        Some(form) if number < 256 => Word::Datum(number as u8, form),
        _ => Word::Other,
    }
}

// A word by its kind.
#[tactic(auto, unfolding(crate::specs::Words::word_of))]
pub fn word_of(w: u32) -> Word
    ensures { result ≡ word_of w }
{
    let value = w % KIND;
    match w / KIND {
        1 => Word::Head(value),
        2 => datum(value),
        3 if value < PIECE => Word::Piece(value as u16),
        4 => Word::Position(position_of(w)),
        5 if value < PIECE => Word::Lower(value as u16),
        6 if value < PIECE => Word::Upper(value as u16),
        7 if value < 2 => Word::End(value == 1),
        15 => Word::Remark,
        _ => Word::Other,
    }
}

// The word at a place. Behind the last word no word of the format stands. A place beside the words, and no cursor of both: what is
// read says how far on the next place is, and a refusal tells a place as it is.
#[tactic(auto, unfolding(crate::specs::Words::word_at))]
pub fn word_at(words: &[u32], at: usize) -> Word
    ensures { result ≡ word_at words.now at }
{
    if at < words.len() {
        word_of(words[at])
    } else {
        Word::Other
    }
}

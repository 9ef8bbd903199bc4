// A log as cycle records, with remarks between them.
#![tactic(auto)]

ghost use Rattle.std.specs.Prelude.{◌≡◌};
ghost use Rattle.words.specs.declared.Word.TheVariants.{Position};
ghost use Rattle.words.specs.Words.{word_at};
ghost use Rattle.records.specs.Records.{inputs_at, ending_at, other_at, between_of, entry_at, scan_of};

use inputs::Reading;
use seven::CycleRecord;
use words::Word;

// What stands at a place of a log: a record of seven words, or a remark.
#[derive(Clone, Copy)]
pub enum Entry {
    Record(CycleRecord),
    Remark,
}

// The input word from its two halves, or the place of a missing or wrong word; so below, of a record's other parts.
#[tactic(auto, using(crate::proofs::Parts::lower_there, crate::proofs::Parts::no_low, crate::proofs::Parts::no_high, crate::proofs::Parts::both_halves))]
fn inputs_at(words: &[u32], at: usize) -> Result<u32, usize>
    ensures { result ≡ inputs_at words.now at }
{
    let Word::Lower(low) = words::word_at(words, at) else {
        return Err(at);
    };
    let Word::Upper(high) = words::word_at(words, at + 1) else {
        return Err(at + 1);
    };
    Ok(u32::from(high) * 65536 + u32::from(low))
}

// The end of a record.
#[tactic(auto, using(crate::proofs::Parts::no_ending, crate::proofs::Parts::ending_is))]
fn ending_at(words: &[u32], at: usize, a: Reading, b: Reading) -> Result<Entry, usize>
    ensures { result ≡ ending_at words.now at a b }
{
    let Word::End(acknowledged) = words::word_at(words, at) else {
        return Err(at);
    };
    Ok(Entry::Record(CycleRecord { a, b, acknowledged }))
}

// B's part of a record, and its end.
#[tactic(auto, using(crate::proofs::Parts::position_there, crate::proofs::Parts::inputs_there, crate::proofs::Parts::no_other))]
fn other_at(words: &[u32], at: usize, a: Reading) -> Result<Entry, usize>
    ensures { result ≡ other_at words.now at a }
{
    let Word::Position(position) = words::word_at(words, at) else {
        return Err(at);
    };
    let inputs = inputs_at(words, at + 1)?;
    ending_at(words, at + 3, a, Reading { position, inputs })
}

// A record that begins with a position, word by word: for the place of the word that is missing or wrong.
#[tactic(auto, using(crate::proofs::Parts::position_there, crate::proofs::Parts::inputs_there))]
fn by_words(words: &[u32], at: usize, position: i32) -> Result<Entry, usize>
    requires { word_at words.now at ≡ Position position }
    ensures { result ≡ entry_at words.now at }
{
    let inputs = inputs_at(words, at + 1)?;
    other_at(words, at + 3, Reading { position, inputs })
}

// A record that begins with a position. A sound record's other six words are looked at together.
#[tactic(auto, using(crate::proofs::Seven::whole_record))]
fn record_at(words: &[u32], at: usize, position: i32) -> Result<Entry, usize>
    requires { word_at words.now at ≡ Position position }
    ensures { result ≡ entry_at words.now at }
{
    match seven::six_behind(words, at) {
        Some(six) if seven::are_six(six) => Ok(Entry::Record(seven::record_of(position, six))),
        _ => by_words(words, at, position),
    }
}

// A word that begins no record: a remark is passed over.
fn between(words: &[u32], at: usize) -> Result<Entry, usize>
    ensures { result ≡ between_of (word_at words.now at) at }
{
    let Word::Remark = words::word_at(words, at) else {
        return Err(at);
    };
    Ok(Entry::Remark)
}

// The record or the remark at a place, or the place of a missing or wrong word.
pub fn entry_at(words: &[u32], at: usize) -> Result<Entry, usize>
    ensures { result ≡ entry_at words.now at }
{
    // No match with three arms: document 01 wants a `let .. else` for a record's first word, docs/TRACE.md F1.
    let Word::Position(position) = words::word_at(words, at) else {
        return between(words, at);
    };
    record_at(words, at, position)
}

// How many cycles a log has, or the place of its first missing or wrong word.
pub fn scan_log(words: &[u32]) -> Result<usize, usize>
    ensures { result ≡ scan_of words.now }
{
    let mut at = 0;
    let mut cycles = 0;
    // No iterator steps so: the entry read says whether the next is 7 words on or 1. No match either: the compiler made one
    // addition of the steps of its two arms, which a record paid for.
    while at < words.len() {
        let Entry::Record(_) = entry_at(words, at)? else {
            at += 1;
            continue;
        };
        at += 7;
        cycles += 1;
    }
    Ok(cycles)
}

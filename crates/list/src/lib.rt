// Reads a list of machine data: a head, then as many data as it says, in number order.
#![tactic(auto)]

ghost use Rattle.std.specs.Prelude.{◌≡◌, ◌<◌, ◌≤◌};
ghost use Rattle.ranges.specs.Table.{data_count};
ghost use Rattle.list.specs.Rules.{is_head, se_below};
ghost use Rattle.list.specs.Reading.{place_of, refused_list, ends, gather, zeros, read_list};

use machine_data::numbers::{SE1_MINUS, SE2_MINUS};
use machine_data::{MachineData, Values};
use ranges::{DATA, heads};
use refusal::Refusal;
use words::Word;

// The data stand beside the answer and not in its Ok, for an ask takes them as the pending list either way; a refused list has none.
#[derive(Clone, Copy)]
pub struct ListRead {
    // how many words the list has, or its first fault
    pub answer: Result<usize, Refusal>,
    pub list: MachineData,
}

// Whether a list may have so many data.
fn is_head(n: u32) -> bool
    ensures { result ≡ is_head n }
{
    matches!(
        n as usize,
        heads::BASE | heads::GEARS | heads::NX | heads::DIRECTION
    )
}

fn refused(why: Refusal) -> ListRead
    ensures { result ≡ refused_list why }
{
    ListRead {
        answer: Err(why),
        list: MachineData {
            values: [0; DATA],
            count: 0,
        },
    }
}

// The place of datum k's own word, by the forms of the data before it: the way of a sound list alone needs no place.
#[tactic(auto, using(crate::proofs::Steps::next_place), unfolding(crate::specs::Reading::place_of))]
fn place_of(words: &[u32], k: usize) -> usize
    ensures { result ≡ place_of words.now k }
{
    let mut at = 1;
    for i in 0..k {
        at = datum::behind(words, at);
    }
    at
}

// Whether an SE minus lies below its plus, the datum behind it.
fn se_below(values: &Values, minus: usize) -> bool
    requires { minus < 71 }
    ensures { result ≡ se_below values.now minus }
{
    values[minus] < values[minus + 1]
}

// All data are read: what is left is that each SE minus lies below its plus.
#[tactic(auto, unfolding(crate::specs::Reading::ends))]
fn ended(words: &[u32], list: MachineData, at: usize) -> ListRead
    ensures { result ≡ ends words.now list at }
{
    if !se_below(&list.values, SE1_MINUS) {
        return refused(Refusal::SeEnds(place_of(words, SE1_MINUS)));
    }
    if !se_below(&list.values, SE2_MINUS) {
        return refused(Refusal::SeEnds(place_of(words, SE2_MINUS)));
    }
    ListRead {
        answer: Ok(at),
        list,
    }
}

// The data, from behind the head.
#[tactic(auto, using(crate::proofs::Steps::begun, crate::proofs::Steps::again, crate::proofs::Steps::stopped, crate::proofs::Steps::all_read))]
fn data_from(words: &[u32], count: usize) -> ListRead
    requires { count ≤ data_count }
    ensures { result ≡ gather count count words.now 0 1 zeros }
{
    let mut values = [0; DATA];
    let mut at = 1;
    for k in 0..count {
        match datum::value_at(words, count, k, at) {
            Ok((z, next)) => {
                values[k] = z;
                at = next;
            }
            Err(why) => return refused(why),
        }
    }
    ended(words, MachineData { values, count }, at)
}

// A list from the front of the words: its data and how many words it has, or its first fault.
#[tactic(auto, using(crate::proofs::Steps::no_head_word))]
pub fn read_list(words: &[u32]) -> ListRead
    ensures { result ≡ read_list words.now }
{
    let Word::Head(n) = words::word_at(words, 0) else {
        return refused(Refusal::WrongWord(0));
    };
    if is_head(n) {
        data_from(words, n as usize)
    } else {
        refused(Refusal::WrongWord(0))
    }
}

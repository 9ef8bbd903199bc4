// The run of a log over two channels, into a lent output.
#![tactic(auto)]

ghost use Rattle.std.specs.Prelude.{◌≡◌, ◌+◌, ◌<◌, ◌≤◌, ◌*◌, length, IfOk, IfErr};
ghost use Rattle.machine_data.specs.Data.{list_of};
ghost use Rattle.channel.specs.Cycle.{with_list};
ghost use Rattle.logs.specs.Alone.{reading_places, reading_there, record_from, given_in, first_place, with_devices};
ghost use Rattle.logs.specs.Run.{ran_of};
ghost use Rattle.logs.specs.Left.{left_by, left_beside, ran_beside, Enough, Sound, Refuses, RunsAlone};

use channel::Channel;
use inputs::Reading;
use machine_data::Lent;
use refusal::Refusal;
use state::{Given, State};
use words::Word;

// The words of the longest log.
const LONGEST: usize = 16384;

// What a log leaves: how many cycles were run, and both channels, or both states beside their data; as they were where the log
// is refused.
#[derive(Clone, Copy)]
pub struct LogRun<T> {
    pub answer: Result<usize, Refusal>,
    pub a: T,
    pub b: T,
}

// One of the two channels of a log.
#[derive(Clone, Copy)]
enum Side {
    A,
    B,
}

impl Side {
    // How far into a record the channel's own reading stands, and the other's.
    fn reading_places(self) -> (usize, usize)
        ensures { result ≡ reading_places self }
    {
        match self {
            Side::A => (0, 3),
            Side::B => (3, 0),
        }
    }

    // The place of the channel's first word in the output.
    fn first_place(self) -> usize
        ensures { result ≡ first_place self }
    {
        match self {
            Side::A => 0,
            Side::B => 1,
        }
    }
}

// A channel's reading at its place in a record: a position, and the two words of an input word.
fn reading_at(words: &[u32], at: usize) -> Reading
    requires { at + 2 < length words.now }
    ensures { result ≡ reading_there words.now at }
{
    Reading {
        position: words::position_of(words[at]),
        inputs: words[at + 2] % 65536 * 65536 + words[at + 1] % 65536,
    }
}

// What a record gives a channel: its own reading, and the other's report by the other's k. Each reading is read at its place, and
// not picked out of a whole record: that took an unusable cycle of a log a tenth longer.
fn given_at(words: &[u32], at: usize, side: Side, other: Lent, k: u8) -> Given
    requires { at + 7 ≤ length words.now }
    ensures { result ≡ given_in side (list_of other.entry) k (record_from words.now at) }
{
    let (own, others) = side.reading_places();
    Given {
        reading: reading_at(words, at + own),
        acknowledged: words[at + 6] % 2 == 1,
        report: report::report_of(other, k, reading_at(words, at + others)),
    }
}

// One channel over the records of an accepted log: what begins with a position is a record, and all else a remark. Its words
// go to every third place of the output. Of the other channel it takes the data and k, which rises by one in every cycle,
// so each channel runs by itself. Its own data are copied here: a copy that no write to the output can reach is read once.
fn run_channel(
    own: Lent,
    start: State,
    other: Lent,
    k: u8,
    side: Side,
    words: &[u32],
    out: &mut [u32],
) -> State
    requires { Enough words.now out.old }
    ensures { RunsAlone (with_list (list_of own.entry) start) (list_of other.entry) k side words.now out.old result out.new }
{
    let values = *own.values;
    let own = Lent {
        values: &values,
        count: own.count,
    };
    let mut state = start;
    let mut reported = k;
    let mut at = 0;
    let mut next = side.first_place();
    // No iterator steps so: the word read says whether the next entry is 7 words on or 1.
    while at < words.len() {
        let Word::Position(_) = words::word_of(words[at]) else {
            at += 1;
            continue;
        };
        let given = given_at(words, at, side, other, reported);
        let after = channel::advance(own, state, given);
        // The other's k is counted before what the cycle leaves goes out: behind it an unusable cycle took up to a tenth longer.
        reported = report::next_k(other.count, reported);
        state = after.state;
        out[next] = after.word;
        next += 3;
        at += 7;
    }
    state
}

// The device word of each cycle, behind the words of A and B.
fn put_devices(out: &mut [u32], cycles: usize)
    requires { 3 * cycles ≤ length out.old }
    ensures { out.new ≡ with_devices 0 cycles out.old }
{
    // No chunks of three: of a slice written through chunks the proof knows the length alone.
    for cycle in 0..cycles {
        out[3 * cycle + 2] = device::device_word(out[3 * cycle], out[3 * cycle + 1]);
    }
}

// How many cycles a log has whose records are sound, with room for their words; or why it is refused.
#[tactic(auto, using(crate::proofs::Answers::too_long, crate::proofs::Answers::few_cycles, crate::proofs::Answers::no_room, crate::proofs::Answers::bad_word))]
fn checked(words: &[u32], out: &[u32]) -> Result<usize, Refusal>
    ensures sound { IfOk result (Sound words.now out.now) }
    ensures refused { IfErr result (Refuses words.now out.now) }
{
    if LONGEST < words.len() {
        return Err(Refusal::WrongLog(LONGEST));
    }
    match records::scan_log(words) {
        Ok(cycles) if 3 * cycles <= out.len() => Ok(cycles),
        Ok(cycles) => Err(Refusal::ShortOutput(3 * cycles)),
        Err(place) => Err(Refusal::WrongLog(place)),
    }
}

// A log over two states beside their data, with no copy of the data on the way: checked whole, and only then run.
pub fn run_on(
    da: Lent,
    a: State,
    db: Lent,
    b: State,
    words: &[u32],
    out: &mut [u32],
) -> LogRun<State>
    ensures { left_beside (with_list (list_of da.entry) a) (with_list (list_of db.entry) b) result out.new ≡ ran_beside (with_list (list_of da.entry) a) (with_list (list_of db.entry) b) words.now out.old }
{
    let answer = checked(words, out);
    let Ok(cycles) = answer else {
        return LogRun { answer, a, b };
    };
    let after_a = run_channel(da, a, db, b.k, Side::A, words, out);
    let after_b = run_channel(db, b, da, a.k, Side::B, words, out);
    put_devices(out, cycles);
    LogRun {
        answer,
        a: after_a,
        b: after_b,
    }
}

// A log over two channels.
pub fn run_log(a: Channel, b: Channel, words: &[u32], out: &mut [u32]) -> LogRun<Channel>
    ensures { left_by result out.new ≡ ran_of a b words.now out.old }
{
    let ran = run_on(a.list.lend(), a.state, b.list.lend(), b.state, words, out);
    let cycles = ran.answer.unwrap_or(0);
    LogRun {
        answer: ran.answer,
        a: channel::after_cycles(a, ran.a, cycles),
        b: channel::after_cycles(b, ran.b, cycles),
    }
}

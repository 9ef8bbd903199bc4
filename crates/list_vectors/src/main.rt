// Runs the list reader over the vectors of standard input and prints an answer for each.
//
// A line that begins with = gives the words of the base list, in hexadecimal. Each other vector edits the base: the place of
// the edit, how many words go there, and the words that come in their place. l reads the edited list alone, a reads it as
// list A before the base, b as list B behind the base. What stands behind a # is a remark.
#![tactic(auto)]

use arrayvec::ArrayVec;
use machine_data::MachineData;
use refusal::{KitRefusal, Part, Refusal};

// The words of a list, or the numbers of a line: as many as there is room for.
type Words = ArrayVec<u32, 512>;

// What a vector does with the base list.
#[derive(Clone, Copy)]
enum Vector {
    Base,
    List,
    ListA,
    ListB,
}

impl Vector {
    fn named(b: u8) -> Option<Vector> {
        match b {
            b'=' => Some(Vector::Base),
            b'l' => Some(Vector::List),
            b'a' => Some(Vector::ListA),
            b'b' => Some(Vector::ListB),
            _ => None,
        }
    }
}

// A line as far as it is read.
#[derive(Drop)]
struct Line {
    // by its first byte
    vector: Option<Vector>,
    numbers: Words,
    // the number that is being read
    value: Option<u32>,
    remark: bool,
}

// A hexadecimal digit.
fn digit(b: u8) -> Option<u32> {
    match b {
        b'0'..=b'9' => Some(u32::from(b - b'0')),
        b'a'..=b'f' => Some(u32::from(b - b'a') + 10),
        _ => None,
    }
}

impl Line {
    fn new() -> Line {
        Line {
            vector: None,
            numbers: Words::new(),
            value: None,
            remark: false,
        }
    }

    // The number that was being read is complete.
    fn close(&mut self) {
        if let Some(w) = self.value.take() {
            let _ = self.numbers.try_push(w);
        }
    }

    // One byte more, which is no line feed. A line that names no vector is a remark; bytes 0 before the name count for nothing.
    fn push(&mut self, b: u8) {
        if self.remark {
            return;
        }
        if self.vector.is_none() {
            self.vector = Vector::named(b);
            self.remark = self.vector.is_none() && b != 0;
        } else if let Some(d) = digit(b) {
            self.value = Some(self.value.unwrap_or(0) << 4 | d);
        } else {
            self.close();
            self.remark = b == b'#';
        }
    }

    // Number i, 0 where there is none.
    fn number(&self, i: usize) -> usize {
        self.numbers.get(i).copied().unwrap_or(0) as usize
    }

    // The base with the line's edit.
    fn edited(&self, base: &Words) -> Words {
        let place = self.number(0);
        let removed = self.number(1);
        let before = base.iter().take(place);
        let behind = base.iter().skip(place).skip(removed);
        let words = before.chain(self.numbers.iter().skip(2)).chain(behind);
        let mut edited = Words::new();
        let _ = edited.extend(words.copied());
        edited
    }
}

// On standard output. What cannot be written is left out, and the next that can be follows.
fn put(rt: &impl Print, bytes: &[u8]) {
    let _ = rt.write_all(bytes);
}

fn put_number(rt: &impl Print, n: u64) {
    put(rt, b" ");
    let _ = rt.print(n);
}

fn put_value(rt: &impl Print, k: usize, z: i32) {
    put_number(rt, k as u64);
    put(rt, b"=");
    let _ = rt.print(z);
}

// The data that differ from the base list's.
fn put_changed(rt: &impl Print, base: MachineData, list: MachineData) {
    for (k, (old, new)) in base.values.iter().zip(&list.values).enumerate() {
        if old != new {
            put_value(rt, k, *new);
        }
    }
}

fn put_list(rt: &impl Print, base: &Words, words: &Words) {
    let read = list::read_list(words.as_slice());
    match read.answer {
        Ok(n) => {
            put(rt, b"accepted");
            put_number(rt, n as u64);
            put_changed(rt, list::read_list(base.as_slice()).list, read.list);
        }
        Err(why) => {
            put(rt, b"refused");
            put_refusal(rt, why);
        }
    }
}

fn put_refusal(rt: &impl Print, why: Refusal) {
    put_number(rt, why.number() as u64);
    put_number(rt, why.place() as u64);
}

fn put_part(rt: &impl Print, part: Part) {
    put(
        rt,
        match part {
            Part::ListA => b" A",
            Part::ListB => b" B",
            Part::Log => b" L",
        },
    );
}

fn put_kit(rt: &impl Print, first: &Words, behind: &Words) {
    let mut words = Words::new();
    let _ = words.extend(first.iter().chain(behind.iter()).copied());
    match kit::read_kit(words.as_slice()).answer {
        Ok(n) => {
            put(rt, b"accepted");
            put_number(rt, n as u64);
        }
        Err(KitRefusal { why, part }) => {
            put(rt, b"refused");
            put_part(rt, part);
            put_refusal(rt, why);
        }
    }
}

// The answer to a line; the base for the lines behind it.
fn answered(rt: &impl Print, line: Line, base: Words) -> Words {
    let Some(vector) = line.vector else {
        return base;
    };
    let edited = line.edited(&base);
    match vector {
        Vector::Base => return line.numbers,
        Vector::List => put_list(rt, &base, &edited),
        Vector::ListA => put_kit(rt, &edited, &base),
        Vector::ListB => put_kit(rt, &base, &edited),
    }
    put(rt, b"\n");
    base
}

fn run(rt: &impl Print, text: &[u8]) {
    let mut base = Words::new();
    let mut line = Line::new();
    for b in text {
        if *b == b'\n' {
            line.close();
            base = answered(rt, line, base);
            line = Line::new();
        } else {
            line.push(*b);
        }
    }
}

fn main(rt: HostRuntime) {
    let mut text = [0u8; 65536];
    // What was read up to a failure is run.
    let (n, _) = reading::fill(&mut rt.stdin(), &mut text);
    run(&rt, &text[..n]);
}

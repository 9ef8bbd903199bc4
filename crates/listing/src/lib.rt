// A kit's bytes listed as the bench's text, in a lent buffer.
#![tactic(auto)]

ghost use Rattle.std.specs.Prelude.{◌≡◌, ◌%◌, ◌≤◌, length};
ghost use Rattle.numerals.specs.Written.{Puts};
ghost use Rattle.kit_bytes.specs.KitBytes.{words_of};
ghost use Rattle.listing.specs.Listing.{letter_of, line_of as Listing·line_of, of_words, listed, answer_text, HasCycles, Rooms, cycles_of, told_of};
ghost use Rattle.kit_run.specs.KitRun.{kit_ran};

use kit_bytes::{read_words, whole_words};
use lines::RefusalLine;
use refusal::{KitRefusal, Part, Refusal};
use run_text::put_run;

fn letter(part: Part) -> u8
    ensures { result ≡ letter_of part }
{
    match part {
        Part::ListA => b'A',
        Part::ListB => b'B',
        Part::Log => b'L',
    }
}

fn line_of(refused: KitRefusal) -> RefusalLine
    ensures { result ≡ Listing·line_of refused }
{
    RefusalLine {
        number: refused.why.number(),
        place: refused.why.place(),
        letter: letter(refused.part),
    }
}

fn put_answer(out: &mut [u8], answer: Result<usize, KitRefusal>, words: &[u32]) -> usize
    requires { HasCycles answer words.now }
    ensures { Puts 74880 (answer_text answer words.now) result out.old out.new }
{
    match answer {
        Ok(cycles) => put_run(out, &words[..3 * cycles]),
        Err(refused) => line_of(refused).put(out),
    }
}

// A kit's listing, with room lent for its words and for those of its run. Of more room than its words take, the front; where
// there is too little, in the largest there is.
#[cycle(list_in_list_long)]
fn list_in(kit: &[u8], room: &mut [u32], ran: &mut [u32], out: &mut [u8]) -> usize
    requires { Rooms kit.now room.old ran.old }
    ensures { Puts 74880 (of_words (words_of kit.now)) result out.old out.new }
{
    let many = kit.len() / 4;
    if room.len() < many {
        return list_long(kit, out);
    }
    if many < room.len() {
        return list_in(kit, &mut room[..many], ran, out);
    }
    read_words(kit, room);
    let answer = kit_run::run_kit(room, ran);
    put_answer(out, answer, ran)
}

// The largest kit has 16,384 words, and its log 2,340 cycles.
#[cycle(list_in_list_long)]
fn list_long(kit: &[u8], out: &mut [u8]) -> usize
    requires kit_len_bound { length kit.now ≤ 65536 }
    requires kit_len { length kit.now % 4 ≡ 0 }
    ensures { Puts 74880 (of_words (words_of kit.now)) result out.old out.new }
{
    let mut words = [0u32; 16384];
    let mut ran = [0u32; 7020];
    list_in(kit, &mut words, &mut ran, out)
}

// The length of the kit's text; where the buffer has room the text stands at its front. No text is longer than 2,340
// lines of 32 bytes. The room is that of a kit of 2,560 words, as most are, whose log has at most 365 cycles: clearing room
// for the largest takes longer than listing one, and no such kit needs the stack for it.
pub fn list_kit(kit: &[u8], out: &mut [u8]) -> usize
    ensures { Puts 74880 (listed kit.now) result out.old out.new }
{
    if !whole_words(kit.len()) {
        let refused = KitRefusal {
            why: Refusal::WrongLog(0),
            part: Part::Log,
        };
        return line_of(refused).put(out);
    }
    let mut words = [0u32; 2560];
    let mut ran = [0u32; 1095];
    list_in(kit, &mut words, &mut ran, out)
}

// A kit's words run: the number of cycles, whose words stand at the output's front, and in `told` 0. Where the kit is
// refused no cycle, and in `told` the refusal's number, its place, and the letter of the part.
pub fn run_kit(words: &[u32], out: &mut [u32], told: &mut [u64; 3]) -> usize
    ensures value { result ≡ cycles_of (kit_ran words.now out.old).answer }
    ensures out_after { out.new ≡ (kit_ran words.now out.old).out }
    ensures told_after { told.new ≡ told_of (kit_ran words.now out.old).answer }
{
    match kit_run::run_kit(words, out) {
        Ok(cycles) => {
            *told = [0, 0, 0];
            cycles
        }
        Err(refused) => {
            let line = line_of(refused);
            *told = [line.number as u64, line.place as u64, line.letter as u64];
            0
        }
    }
}

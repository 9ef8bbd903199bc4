// The lines of a run, in a lent buffer.
#![tactic(auto)]

ghost use Rattle.std.specs.Prelude.{◌≡◌, ◌^◌, ◌<◌, ◌≤◌, length};
ghost use Rattle.numerals.specs.Written.{splice, Puts};
ghost use Rattle.run_text.specs.RunText.{line_of, lines_of, run_text};

use lines::Line;

// The line of a cycle's three words.
fn line(i: usize, words: [u32; 3]) -> Line
    requires { i < 2 ^ 63 }
    ensures { result ≡ line_of i words }
{
    Line {
        cycle: i + 1,
        a: words[0],
        b: words[1],
        device: words[2],
    }
}

// How long the lines of a run are: looked at first, so that a buffer too short is not touched.
fn lines_length(cycles: &[[u32; 3]]) -> usize
    requires { length cycles.now ≤ 2340 }
    ensures value { result ≡ length (lines_of 0 cycles.now) }
    ensures upper_bound { result ≤ 74880 }
{
    let mut bytes = 0;
    for (i, words) in cycles.iter().enumerate() {
        bytes += line(i, *words).length();
    }
    bytes
}

fn put_lines(out: &mut [u8], cycles: &[[u32; 3]])
    requires { length (lines_of 0 cycles.now) ≤ length out.old }
    ensures { out.new ≡ splice 0 (lines_of 0 cycles.now) out.old }
{
    let mut at = 0;
    for (i, words) in cycles.iter().enumerate() {
        at += line(i, *words).put(out, at);
    }
}

// A run's text at the buffer's front, where it fits; its length.
pub fn put_run(out: &mut [u8], words: &[u32]) -> usize
    ensures { Puts 74880 (run_text words.now) result out.old out.new }
{
    let (cycles, _) = words.as_chunks::<3>();
    let cycles = &cycles[..cycles.len().min(2340)];
    let bytes = lines_length(cycles);
    if bytes <= out.len() {
        put_lines(out, cycles);
    }
    bytes
}

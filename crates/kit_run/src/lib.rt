// A kit's log, run over two fresh channels with the kit's lists.
#![tactic(auto)]

ghost use Rattle.std.specs.Prelude.{◌≡◌};
ghost use Rattle.channel.specs.Cycle.{fresh_channel};
ghost use Rattle.logs.specs.Run.{ran_of};
ghost use Rattle.kit_run.specs.KitRun.{of_log, kit_ran};

use machine_data::MachineData;
use refusal::{KitRefusal, Part};

// The log of a kit whose lists are accepted: how many cycles were run.
fn run_behind(
    a: MachineData,
    b: MachineData,
    words: &[u32],
    out: &mut [u32],
) -> Result<usize, KitRefusal>
    ensures value { result ≡ (of_log (ran_of (fresh_channel a) (fresh_channel b) words.now out.old)).answer }
    ensures out_after { out.new ≡ (of_log (ran_of (fresh_channel a) (fresh_channel b) words.now out.old)).out }
{
    let ran = logs::run_log(channel::fresh(a), channel::fresh(b), words, out);
    ran.answer.map_err(|why| KitRefusal {
        why,
        part: Part::Log,
    })
}

// Both lists are read, and the log behind them is run: how many cycles. A refused kit leaves the output as it was.
pub fn run_kit(words: &[u32], out: &mut [u32]) -> Result<usize, KitRefusal>
    ensures value { result ≡ (kit_ran words.now out.old).answer }
    ensures out_after { out.new ≡ (kit_ran words.now out.old).out }
{
    let read = kit::read_kit(words);
    let at = read.answer?;
    run_behind(read.a, read.b, &words[at..], out)
}

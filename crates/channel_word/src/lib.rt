// The channel word.
#![tactic(auto)]

ghost use Rattle.std.specs.Prelude.{◌≡◌};
ghost use Rattle.bits.specs.Bits.{flag};
ghost use Rattle.channel_word.specs.Word.{shown_sg, is_held, shown_cams, shown_nx, placed, Parts, word_by};

use machine_data::{Values, functions};
use rank::Rank;
use selection::Selection;
use stop::Stop;

fn shown_sg(s: Selection) -> u8
    ensures { result ≡ shown_sg s }
{
    match s {
        Selection::Sg(n, _) => n % 4,
        Selection::Nothing | Selection::Sbh => 0,
    }
}

fn is_held(s: Stop) -> bool
    ensures { result ≡ is_held s }
{
    matches!(s, Stop::Held(_, _))
}

// The cams, while their function is on.
fn shown_cams(values: &Values, cams: u32) -> u8
    ensures { result ≡ shown_cams values.now cams }
{
    if machine_data::function(values, functions::CAMS) {
        (cams % 256) as u8
    } else {
        0
    }
}

// n<nx, while its function is on.
fn shown_nx(values: &Values, nx: bool) -> bool
    ensures { result ≡ shown_nx values.now nx }
{
    machine_data::function(values, functions::NX) && nx
}

// The parts of a word.
#[derive(Clone, Copy)]
struct WordParts {
    effective: bool,
    cancelled: bool,
    cams: u8,
    sg: u8,
    nx: bool,
    rank: u8,
    held: bool,
    fault: bool,
}

impl WordParts {
    // The parts at their places.
    fn placed(self) -> u32
        requires { Parts (flag self.effective) (flag self.cancelled) self.sg (flag self.nx) self.rank (flag self.held) (flag self.fault) }
        ensures { result ≡ placed (flag self.effective) (flag self.cancelled) self.cams self.sg (flag self.nx) self.rank (flag self.held) (flag self.fault) }
    {
        u32::from(self.effective)
            + (u32::from(self.cancelled) << 2)
            + (1 << 7)
            + (u32::from(self.cams) << 8)
            + (u32::from(self.sg) << 19)
            + (u32::from(self.nx) << 21)
            + (u32::from(self.rank) << 24)
            + (u32::from(self.held) << 27)
            + (u32::from(self.fault) << 28)
    }
}

// The word of what a cycle leaves: the effective selection, the stop, F, the cams, and n<nx.
#[tactic(auto, unfolding(crate::specs::Word::word_by))]
pub fn channel_word(
    values: &Values,
    effective: Selection,
    stop: Stop,
    fault: bool,
    cams: u32,
    nx: bool,
) -> u32
    ensures { result ≡ word_by values.now effective stop fault cams nx }
{
    let rank = stop.rank();
    WordParts {
        effective: effective.is_effective(),
        cancelled: rank == Rank::A,
        cams: shown_cams(values, cams),
        sg: shown_sg(effective),
        nx: shown_nx(values, nx),
        rank: u8::from(rank),
        held: is_held(stop),
        fault,
    }
    .placed()
}

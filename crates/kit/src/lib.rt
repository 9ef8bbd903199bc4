// The two lists of a kit: the words behind list A are list B, and those behind B the log.
#![tactic(auto)]

ghost use Rattle.std.specs.Prelude.{◌≡◌};
ghost use Rattle.kit.specs.Kit.{read_kit};

use machine_data::MachineData;
use refusal::{KitRefusal, Part};

// Both lists stand beside the answer: where B is refused, A has its data.
#[derive(Clone, Copy)]
pub struct KitRead {
    // where the log begins, or the first fault; its place is counted from the first word of the list refused
    pub answer: Result<usize, KitRefusal>,
    pub a: MachineData,
    pub b: MachineData,
}

// Both lists; where A is refused B is not looked at, and has no data either.
#[tactic(auto, using(crate::proofs::Lists::first_used, crate::proofs::Lists::both_used))]
pub fn read_kit(words: &[u32]) -> KitRead
    ensures { result ≡ read_kit words.now }
{
    let first = list::read_list(words);
    match first.answer {
        Ok(n) => {
            let second = list::read_list(&words[n..]);
            let b = second.list;
            match second.answer {
                Ok(m) => KitRead {
                    answer: Ok(n + m),
                    a: first.list,
                    b,
                },
                Err(why) => KitRead {
                    answer: Err(KitRefusal {
                        why,
                        part: Part::ListB,
                    }),
                    a: first.list,
                    b,
                },
            }
        }
        Err(why) => KitRead {
            answer: Err(KitRefusal {
                why,
                part: Part::ListA,
            }),
            a: first.list,
            b: first.list,
        },
    }
}

// Step 3 of a cycle: what is selected, and what is effective.
#![tactic(auto)]

ghost use Rattle.std.specs.Prelude.{◌≡◌};
ghost use Rattle.selection.specs.Selection.{selected_of, allowance_of, stricter, is_effective, reference_of, bound_of, delay_count, waited_of, choice_next};

use inputs::Reading;
use machine_data::{Values, functions, numbers};
use speed::Sg;

#[derive(Clone, Copy, PartialEq, Eq)]
pub enum Selection {
    Nothing,
    // the SG's number less one, and the override's number
    Sg(u8, u8),
    Sbh,
}

// The effective selection, once one was made; SBH's reference; the cycles left of a lowering, 0 where none is under way.
// `chosen` stands beside them, and not an Option around them: C's image of a channel holds both, and axis_monitor takes any.
#[derive(Clone, Copy)]
pub struct Choice {
    pub chosen: bool,
    pub effective: Selection,
    pub reference: i32,
    pub left: u32,
}

impl Selection {
    // Whether SBH or SG.
    pub fn is_effective(self) -> bool
        ensures { result ≡ is_effective self }
    {
        self != Selection::Nothing
    }
}

// What an input word selects.
#[tactic(auto, unfolding(crate::specs::Selection::selected_of))]
pub fn selected(values: &Values, word: u32) -> Selection
    ensures { result ≡ selected_of values.now word }
{
    if !machine_data::function(values, functions::SBH_SG) || inputs::sbh_sg_off(word) {
        Selection::Nothing
    } else if inputs::sbh_off(word) {
        Selection::Sg(inputs::sg_number(word), inputs::override_number(word))
    } else {
        Selection::Sbh
    }
}

// The speed that a selection allows, as limit × percent: SBH none, nothing more than any SG.
fn allowance(values: &Values, s: Selection) -> u64
    ensures { result ≡ allowance_of values.now s }
{
    match s {
        Selection::Nothing => 100000001,
        Selection::Sg(number, over) => speed::sg_speed(values, Sg { number, over }),
        Selection::Sbh => 0,
    }
}

impl Choice {
    // SBH's reference is the position where SBH becomes effective.
    fn reference_of(self, s: Selection, reading: Reading) -> i32
        ensures { result ≡ reference_of self s reading.position }
    {
        if s == Selection::Sbh && self.effective != Selection::Sbh {
            reading.position
        } else {
            self.reference
        }
    }

    // The selection s becomes effective.
    fn bound(self, s: Selection, reading: Reading) -> Choice
        ensures { result ≡ bound_of self s reading.position }
    {
        Choice {
            chosen: true,
            effective: s,
            reference: self.reference_of(s, reading),
            left: 0,
        }
    }

    // The count of a lowering: datum 27 where none is under way, else one less.
    fn count(self, values: &Values) -> u32
        ensures { result ≡ delay_count values.now self.left }
    {
        if self.left == 0 {
            machine_data::cycles(values, numbers::DELAY)
        } else {
            self.left - 1
        }
    }

    // A stricter selection s, with the count at left.
    fn waited(self, s: Selection, reading: Reading, left: u32) -> Choice
        ensures { result ≡ waited_of self s reading.position left }
    {
        if left == 0 {
            return self.bound(s, reading);
        }
        Choice {
            chosen: true,
            left,
            ..self
        }
    }

    // Whether s is stricter than what is effective; the same selection is not, which is seen without its speed.
    #[tactic(auto, unfolding(crate::specs::Selection::stricter))]
    fn lowered(self, values: &Values, s: Selection) -> bool
        ensures { result ≡ stricter values.now s self.effective }
    {
        s != self.effective && allowance(values, s) < allowance(values, self.effective)
    }

    // The choice after a usable cycle that selects s.
    #[tactic(auto, unfolding(crate::specs::Selection::choice_next))]
    pub fn next(self, values: &Values, s: Selection, reading: Reading) -> Choice
        ensures { result ≡ choice_next values.now self s reading.position }
    {
        if self.chosen && self.lowered(values, s) {
            self.waited(s, reading, self.count(values))
        } else {
            self.bound(s, reading)
        }
    }
}

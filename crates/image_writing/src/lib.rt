// A channel's state written into its words: what is read from them again is the same state.
#![tactic(auto)]

ghost use Rattle.std.specs.Prelude.{◌≡◌};
ghost use Rattle.image_writing.specs.Written.{written_as, writing, writing_front, directions_as, writing_directions, writing_pending};

use directions::Directions;
use image::{Image, WORDS};
use state::State;

// The words of a count and a state behind a cycle, which drops what is pending; those of the directions stay. A count of 2^32 or
// more, which no list has, is kept modulo 2^32.
pub fn put_front(count: usize, state: State, words: &mut Image)
    ensures { written_as words.new ≡ writing_front count state words.old }
{
    let kept = state.kept;
    let choice = kept.choice;
    let previous = image_cases::position_words(state.previous);
    let effective = image_cases::selection_words(choice.effective);
    let stop = image_cases::stop_words(state.stop);
    words[..19].copy_from_slice(&[
        (count % 4294967296) as u32,
        state.k as u32,
        previous.kind,
        previous.first,
        crossing::yes_word(choice.chosen),
        effective.kind,
        effective.first,
        effective.second,
        crossing::unsigned(choice.reference),
        choice.left,
        kept.differing,
        crossing::yes_word(kept.fault.on),
        kept.fault.left,
        stop.kind,
        stop.first,
        stop.second,
        kept.cams,
        crossing::yes_word(kept.nx.on),
        kept.nx.run,
    ]);
    words[25] = 0;
}

// The words of the directions; the others stay.
pub fn put_directions(directions: Directions, words: &mut Image)
    ensures { directions_as words.new ≡ writing_directions directions words.old }
{
    let positive = image_cases::position_words(directions.positive.watch);
    let negative = image_cases::position_words(directions.negative.watch);
    words[19..25].copy_from_slice(&[
        directions.positive.run,
        positive.kind,
        positive.first,
        directions.negative.run,
        negative.kind,
        negative.first,
    ]);
}

// The word of the pending list, by how many data it has; the others stay.
pub fn put_pending(pending: usize, words: &mut Image)
    ensures { written_as words.new ≡ writing_pending pending words.old }
{
    words[25] = (pending % 4294967296) as u32;
}

// All words of a count, a state and the pending list's count.
pub fn words_of(count: usize, state: State, pending: usize) -> Image
    ensures { written_as result ≡ writing count state pending }
{
    let mut words = [0u32; WORDS];
    put_directions(state.kept.directions, &mut words);
    put_front(count, state, &mut words);
    put_pending(pending, &mut words);
    words
}

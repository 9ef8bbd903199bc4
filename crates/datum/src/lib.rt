// A datum of a list: its words in one of the forms, and the whole units that it stands for, within its range.
#![tactic(auto)]

ghost use Rattle.std.specs.Prelude.{◌≡◌, ◌≤◌, ◌<◌, ◌*◌, ◌^◌};
ghost use Rattle.datum.specs.Datum.{pieces_at, behind_of, form_at, form_pieces, in_form, datum_at, units_of, value_at};

use refusal::Refusal;
use words::{Form, Word};

// A datum as it arrives.
#[derive(Clone, Copy)]
pub enum Datum {
    Whole(i32),
    Single(f32),
    Double(f64),
    Open,
}

// n pieces joined, the most significant first; or the place of the first word that is none.
fn pieces_at(words: &[u32], at: usize, n: usize) -> Result<u64, usize>
    requires { n ≤ 4 }
    ensures { result ≡ pieces_at words.now at n 0 }
{
    let mut bits = 0;
    for i in 0..n {
        let Word::Piece(b) = words::word_at(words, at + i) else {
            return Err(at + i);
        };
        bits = bits * 65536 + u64::from(b);
    }
    Ok(bits)
}

// How many pieces a form has.
fn pieces_of(form: Form) -> usize
    ensures { result ≡ form_pieces form }
{
    match form {
        Form::Whole | Form::Single => 2,
        Form::Double => 4,
        Form::Open => 0,
    }
}

// The datum that the bits of a form's pieces make.
fn in_form(form: Form, bits: u64) -> Datum
    requires { bits < 2 ^ (16 * form_pieces form) }
    ensures { result ≡ in_form form bits }
{
    match form {
        Form::Whole => Datum::Whole(words::signed32(bits as u32)),
        Form::Single => Datum::Single(whole::single(bits as u32)),
        Form::Double => Datum::Double(whole::double(bits)),
        Form::Open => Datum::Open,
    }
}

// A form's pieces as a datum, and the place behind them; or the place of the first word that is missing or wrong. The number of pieces is given by whoever
// knows the form, so that the code of each form is its own.
fn form_at(words: &[u32], at: usize, form: Form, n: usize) -> Result<(Datum, usize), usize>
    requires { n ≡ form_pieces form }
    ensures { result ≡ form_at form words.now at }
{
    let bits = pieces_at(words, at, n)?;
    Ok((in_form(form, bits), at + n))
}

// Datum k, whose own word stands at a place and its pieces behind it.
#[tactic(auto, using(crate::proofs::Forms::no_datum_word, crate::proofs::Forms::other_number, crate::proofs::Forms::formed, crate::proofs::Forms::datum_there))]
fn datum_at(words: &[u32], k: usize, at: usize) -> Result<(Datum, usize), usize>
    ensures { result ≡ datum_at words.now k at }
{
    let Word::Datum(number, form) = words::word_at(words, at) else {
        return Err(at);
    };
    if usize::from(number) != k {
        return Err(at);
    }
    let next = at + 1;
    match form {
        Form::Whole => form_at(words, next, Form::Whole, 2),
        Form::Single => form_at(words, next, Form::Single, 2),
        Form::Double => form_at(words, next, Form::Double, 4),
        Form::Open => form_at(words, next, Form::Open, 0),
    }
}

// The place behind a datum whose own word stands at a place, by its form alone.
#[tactic(auto, using(crate::proofs::Forms::no_datum_behind, crate::proofs::Forms::datum_behind, crate::proofs::Forms::few_pieces, crate::proofs::Forms::datum_there))]
pub fn behind(words: &[u32], at: usize) -> usize
    ensures { result ≡ behind_of words.now at }
{
    let Word::Datum(_, form) = words::word_at(words, at) else {
        return at;
    };
    at + 1 + pieces_of(form)
}

// The whole units that a datum stands for, whose own word stands at a place; or why it has none.
#[tactic(auto, unfolding(crate::specs::Datum::units_of))]
pub fn resolve(d: Datum, at: usize) -> Result<i32, Refusal>
    ensures { result ≡ units_of d at }
{
    match d {
        Datum::Whole(z) => Ok(z),
        Datum::Single(x) => whole::whole(x).ok_or(Refusal::NoWholeNumber(at)),
        Datum::Double(x) => whole::whole(x).ok_or(Refusal::NoWholeNumber(at)),
        Datum::Open => Err(Refusal::OpenDatum(at)),
    }
}

// Datum k of a list with this head in whole units, within its range, and the place behind it; or its first fault.
#[tactic(auto, unfolding(crate::specs::Datum::value_at))]
pub fn value_at(words: &[u32], head: usize, k: usize, at: usize) -> Result<(i32, usize), Refusal>
    ensures { result ≡ value_at head words.now k at }
{
    let (d, next) = datum_at(words, k, at).map_err(Refusal::WrongWord)?;
    let z = resolve(d, at)?;
    if ranges::allowed(head, k, z) {
        Ok((z, next))
    } else {
        Err(Refusal::OutOfRange(at))
    }
}

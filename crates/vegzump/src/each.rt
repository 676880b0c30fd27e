// Many formulas under one table, which has been checked once: each is expanded as `expand` does it.
ghost use Rattle.std.specs.Prelude.{◌+◌, ◌≤◌, ◌≡◌, length};
ghost use Rattle.std.proofs.lemmas.List.Edits.{sets};
ghost use Rattle.meaning.specs.Each.{formula_in, numbers_of, numbers_each, written as the-written-Each, expand_each};
ghost use Rattle.parser.specs.Parse.{CheckedRoom};

use answers::{Answer, Verdict, numbered};
use handover::expand_checked;
use productions::room::ROOM;

// The numbers of an answer: document 01's number and its three values.
const NUMBERS: usize = 4;

// The formula from the end of the one before to its own end, as far as there are bytes.
fn formula_in(formulas: &[u8], from: usize, end: usize) -> &[u8]
    ensures { result.now ≡ formula_in formulas.now from end }
{
    let last = end.min(formulas.len());
    &formulas[from.min(last)..last]
}

// The bytes of text that an expansion has written.
fn written(answer: Answer) -> usize
    ensures { result ≡ the-written-Each answer }
{
    match answer {
        Ok(made) => made.length,
        Err(_) => 0,
    }
}

// Stores the four numbers of an answer.
fn store(answers: &mut [u64], at: usize, answer: Answer)
    requires { at + numbers_each ≤ length answers.old }
    ensures { answers.new ≡ sets answers.old at (numbers_of answer) }
{
    let r = numbered(answer);
    answers[at..at + NUMBERS].copy_from_slice(&[u64::from(r.number), r.a, r.b, r.c]);
}

// Expands as many formulas as have an end and four places for their answers, after the check of a table, and tells how many. Formulas, answers and texts lie
// one behind the other; the cells are lent to each as the one before left them.
pub(crate) fn expand_all(
    table: &[u8],
    room: &[u64; ROOM],
    verdict: Verdict,
    formulas: &[u8],
    ends: &[usize],
    answers: &mut [u64],
    cells: &mut [u32],
    text: &mut [u8],
) -> usize
    requires { CheckedRoom table.now room.now verdict }
    ensures { record { count = result; answers = answers.new; cells = cells.new; text = text.new }
        ≡ expand_each table.now formulas.now ends.now answers.old cells.old text.old }
{
    let count = ends.len().min(answers.len() / NUMBERS);
    let mut from: usize = 0;
    let mut at: usize = 0;
    for i in 0..count {
        let end = ends[i];
        let formula = formula_in(formulas, from, end);
        let answer = expand_checked(table, room, verdict, formula, cells, &mut text[at..]);
        store(answers, i * NUMBERS, answer);
        at += written(answer);
        from = end;
    }
    count
}

// What is tested of a text that is read, and what its reading answers.
ghost use Rattle.std.specs.Prelude.{◌≤◌, ◌≡◌};
ghost use Rattle.terms.specs.Cells.{most_cells};
ghost use Rattle.reader.specs.TextAnswers.{Judges, cause_of, because_of};

use crate::measuring::is_small_text;
use expansion::State;
use grammar::sorts::Sort;

// What a text is refused for: it holds a number or would meet one of 15 to 22; a word stands at a Binder; its reading makes a fresh name; it has a word that
// is not defined; it is of another sort. `cause_of` (specs/TextAnswers) gives document 02's number of each.
#[derive(Clone, Copy)]
pub enum TextFault {
    Unread,
    WordAtBinder,
    MakesFresh,
    Undefined,
    WrongSort,
}

// A text is read, with its value and how many rows it made; or it is refused.
pub type TextAnswer = Result<(u32, usize), TextFault>;

// What a text is read for: its nonterminal, the sort of that nonterminal, the sort that is asked of the result, and the kinds of the keywords that count.
#[derive(Clone, Copy)]
pub struct TextHead {
    pub nonterminal: u8,
    pub sort: u8,
    pub asked: u8,
    pub kinds: u64,
}

// The tests of a text whose run is done with the value x and so many words that are no outside names: its size (26), a fresh name (28), its words (9), its
// sort (11).
pub fn judge(cells: &[u32], head: TextHead, x: u32, s: State, others: usize) -> TextAnswer
    requires { s.made ≤ most_cells }
    ensures { Judges cells.now head x s others result }
{
    let made = s.made;
    let small = is_small_text(cells, head.sort, x, made);
    if !small {
        return Err(TextFault::Unread);
    }
    if 1 < s.fresh {
        return Err(TextFault::MakesFresh);
    }
    if others != 0 {
        return Err(TextFault::Undefined);
    }
    let fits = Sort(head.sort).fits(Sort(head.asked));
    if fits {
        Ok((x, made))
    } else {
        Err(TextFault::WrongSort)
    }
}

// Why a text is refused that is read with its words as words, and is not with its words as outside names: `WordAtBinder` (27) if it is small
// enough, else `Unread` (26).
pub fn because(cells: &[u32], sort: u8, x: u32, s: State) -> TextFault
    requires { s.made ≤ most_cells }
    ensures { cause_of result ≡ because_of sort x s cells.now }
{
    let small = is_small_text(cells, sort, x, s.made);
    if small {
        TextFault::WordAtBinder
    } else {
        TextFault::Unread
    }
}

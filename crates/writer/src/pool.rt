// Spellings by their numbers, in a room.
ghost use Rattle.std.specs.Prelude.{ℕ, ◌*◌, ◌+◌, ◌≤◌, ◌<◌, ◌≡◌, ◌∷◌, length};
ghost use Rattle.std.proofs.lemmas.List.Edits.{sets};
ghost use Rattle.grammar.specs.Lookup.{lexicon_of};
ghost use Rattle.tokens.specs.Tokens.{most_tokens};
ghost use Rattle.writer.specs.Pool.{spelling_room, spell_in, first_word, one_of, stored_from, filled, Fillable};

use crate::writing::{write_byte, write_bytes};
use grammar::codes::{KEYWORD_TAG, OUTSIDE_TAG};
use grammar::limits::MOST_OUTSIDES;
use grammar::reader::{byte, part};
use spellings::LONGEST_WORD;

// The bytes of a spelling number: the length of a spelling, and the longest spelling.
pub const SPELLING_ROOM: usize = LONGEST_WORD + 1;

// The spelling numbers of outside names; those of a formula's words stand behind them.
pub const OUTSIDES: usize = MOST_OUTSIDES as usize;

// The spelling of a spelling number.
pub fn spelling(pool: &[u8], n: u32) -> &[u8]
    ensures { result.now ≡ spell_in pool.now n }
{
    let i = (n as usize) * SPELLING_ROOM;
    part(pool, i + 1, usize::from(byte(pool, i)))
}

// Stores a spelling at a number.
fn store(pool: &mut [u8], i: usize, s: &[u8])
    requires s_len_bound { (length s.now < spelling_room) × (i * spelling_room + spelling_room ≤ length pool.old) }
    requires i_bound { i < first_word + most_tokens }
    ensures { pool.new ≡ sets pool.old (i * spelling_room) (length s.now ∷ s.now) }
{
    let at = i * SPELLING_ROOM;
    let first = at + write_byte(&mut pool[at..], s.len() as u8);
    write_bytes(&mut pool[first..], s);
}

// The table's outside names.
fn fill_outsides(table: &[u8], pool: &mut [u8])
    requires spelling_room_in_bounds { first_word * spelling_room ≤ length pool.old }
    requires by_index { (m : ℕ) → length (one_of (lexicon_of table.now).outsides m) < spelling_room }
    ensures { pool.new ≡ stored_from pool.old 0 (lexicon_of table.now).outsides }
{
    let mut at = grammar::after_leading(table, KEYWORD_TAG);
    for i in 0..OUTSIDES {
        let front = grammar::front_at(table, at);
        match front {
            grammar::Front::Nothing => {
                return;
            }
            grammar::Front::Short => {
                return;
            }
            grammar::Front::Field(t, size) => {
                if t != OUTSIDE_TAG {
                    return;
                }
                let from = at + 3;
                store(pool, i, part(table, from, size));
                at = from + size;
            }
        }
    }
}

// The table's outside names, and the formula's words, whose offsets and lengths stand in `words`.
pub fn fill(table: &[u8], formula: &[u8], words: &[u32], count: usize, pool: &mut [u8])
    requires { Fillable table.now formula.now words.now count pool.old }
    ensures { pool.new ≡ filled table.now formula.now words.now count pool.old }
{
    fill_outsides(table, pool);
    for i in 0..count {
        let at = words[i * 2] as usize;
        let size = words[i * 2 + 1] as usize;
        store(pool, i + OUTSIDES, part(formula, at, size));
    }
}

// The scanner: from the bytes of a formula to its tokens.
#![tactic(auto)]

pub mod dollars;
pub mod room;

ghost use Rattle.std.specs.Prelude.{◌≡◌, List, [], true, false, ℕ, ◌+◌, ◌*◌, ◌≤◌, ◌<◌, length, get_or, take, drop};
ghost use Rattle.std.proofs.lemmas.List.Edits.{sets};
ghost use Rattle.spellings.specs.Bytes.{is_letter, is_digit};
ghost use Rattle.grammar.specs.Table.{Lexicon};
ghost use Rattle.tokens.specs.Tokens.{token, most_tokens, longest_formula};
ghost use Rattle.tokens.specs.Variables.{dollar};
ghost use Rattle.lexicon.specs.Trees.{hash_of, Planted, Linkable, links_with};
ghost use Rattle.lexicon.specs.LexiconRoom.{lexicon_by, lexicon_in, LexicalIn};
ghost use Rattle.scanner.specs.Stepping.{Named, Ready, OwnWord, made, SymbolHere, Marks, Stepped, Agrees, Scannable, LentToLink};
ghost use Rattle.answers.specs.Causes.{cause_number};
ghost use Rattle.answers.specs.Refusals.{refusal};
ghost use Rattle.scanner.specs.Rooms.{row_then, place_then, count_with, words_in, RoomFor, LentToScan, filled, scan_into};
ghost use Rattle.scanner.specs.Numbered.{Scans};

use crate::dollars::{DOLLAR, variable_at};
use crate::room::{LENGTH, OFFSET, PLACE, TOKEN, VALUE};
use answers::Refusal;
use answers::causes::Cause;
use grammar::limits::MOST_OUTSIDES;
use grammar::reader::part;
use kinds::{KEYWORD_KIND, NO_KIND, NUMBER_KIND, VARIABLE_KIND, WORD_KIND};
use lexicon::trees::{Spot, seek, settle, word_at};
use lexicon::variables::enter_sorts;
use lexicon::{
    KEYWORD_COUNT, MASK, ROOM, SPELLING_COUNT, SYMBOLS, TREE, VARIABLE_COUNT, VARIABLES,
};
use spellings::LONGEST_WORD;
use terms::VARIABLE;
use tokens::{LONGEST_FORMULA, MOST_TOKENS, Scanned, Step, Token};

// The trees of a formula's words are one more than this, for a short formula, a middle one, and any.
const SHORT_MASK: usize = 63;

const MIDDLE_MASK: usize = 255;

const LARGEST_MASK: usize = 2047;

// Sizes of formulas for which shorter rooms of links are lent.
const SHORT: usize = 64;

const MIDDLE: usize = 512;

// The numbers of the rooms of links: one for each tree, and two for each word that there may be.
const SHORT_LINKS: usize = SHORT_MASK + 1 + 2 * SHORT;

const MIDDLE_LINKS: usize = MIDDLE_MASK + 1 + 2 * MIDDLE;

const LARGEST_LINKS: usize = LARGEST_MASK + 1 + 2 * MOST_TOKENS;

// The spelling number of a formula's first word that is no outside name.
const FIRST_WORD: u32 = MOST_OUTSIDES as u32;

// A step, and where a word that is new is linked.
#[derive(Drop)]
pub struct Made {
    pub step: Step,
    pub spot: Spot,
}

// What a word is by the table: a keyword or an outside name, by its number, or neither.
#[derive(Drop)]
pub enum WordClass {
    Keyword(u32),
    Outside(u32),
    Other,
}

// ---------------------------------------------------------------- numbers and symbols

// What is done at a number.
fn number_step(formula: &[u8], at: usize) -> Step
    requires { (at < length formula.now) × (length formula.now ≤ longest_formula) × (is_digit (get_or formula.now at 0) ≡ true) }
    ensures { (lex : Lexicon) → Marks lex at (drop at formula.now) result }
{
    let rest = &formula[at..];
    let n = spellings::digit_run(rest);
    let number = spellings::value(&rest[..n]);
    match number {
        Some(v) => Step::Emit(Token {
            kind: NUMBER_KIND,
            at: at as u32,
            size: n as u32,
            value: v,
        }),
        None => Step::Stop,
    }
}

// What is done at a symbol, which is no variable's `$`.
fn symbol_step(table: &[u8], room: &[u32], tree: &[u32], formula: &[u8], at: usize) -> Step
    requires { LexicalIn table.now room.now tree.now × SymbolHere (lexicon_in table.now room.now) formula.now at }
    ensures { Marks (lexicon_in table.now room.now) at (drop at formula.now) result }
{
    let b = formula[at];
    Step::Emit(Token {
        kind: room[SYMBOLS + b as usize],
        at: at as u32,
        size: 1,
        value: 0,
    })
}

// What is done at a `$`.
fn dollar_step(table: &[u8], room: &[u32], tree: &[u32], formula: &[u8], at: usize) -> Step
    requires lexical_in { LexicalIn table.now room.now tree.now × (get_or formula.now at 0 ≡ dollar) }
    requires at_in_bounds { (at < length formula.now) × (length formula.now ≤ longest_formula) }
    ensures { Marks (lexicon_in table.now room.now) at (drop at formula.now) result }
{
    let count = room[VARIABLE_COUNT] as usize;
    let variable = variable_at(formula, at, count);
    match variable {
        Some((n, size)) => {
            let sort = room[VARIABLES + n as usize];
            Step::Emit(Token {
                kind: VARIABLE_KIND + sort,
                at: at as u32,
                size: size as u32,
                value: VARIABLE + n,
            })
        }
        None => symbol_step(table, room, tree, formula, at),
    }
}

// What is done at what is no word.
fn mark_step(table: &[u8], room: &[u32], tree: &[u32], formula: &[u8], at: usize) -> Step
    requires lexical_in { LexicalIn table.now room.now tree.now × (is_letter (get_or formula.now at 0) ≡ false) }
    requires at_in_bounds { (at < length formula.now) × (length formula.now ≤ longest_formula) }
    ensures { Marks (lexicon_in table.now room.now) at (drop at formula.now) result }
{
    let b = formula[at];
    if spellings::is_separator(b) {
        return Step::Skip;
    }
    if spellings::is_digit(b) {
        return number_step(formula, at);
    }
    if b == DOLLAR {
        return dollar_step(table, room, tree, formula, at);
    }
    if spellings::is_symbol(b) {
        return symbol_step(table, room, tree, formula, at);
    }
    Step::Stop
}

// ---------------------------------------------------------------- words

// What the word s with a hash is by the table.
fn class_of(table: &[u8], room: &[u32], tree: &[u32], s: &[u8], hash: u64) -> WordClass
    requires { LexicalIn table.now room.now tree.now × (hash ≡ hash_of s.now) }
    ensures { Named (lexicon_in table.now room.now) s.now result }
{
    let keywords = room[KEYWORD_COUNT];
    let count = room[SPELLING_COUNT] as usize;
    let seen = seek(table, room, tree, MASK, count, s, hash);
    let spot = settle(seen, table, room, tree, MASK, count, s, hash);
    match spot {
        Spot::Node(i) => {
            let k = i as u32;
            if k < keywords {
                return WordClass::Keyword(k);
            }
            WordClass::Outside(k - keywords)
        }
        Spot::Free(_) => WordClass::Other,
    }
}

// A step that emits a token.
fn emit(kind: u32, at: usize, size: usize, value: u32, spot: Spot) -> Made
    requires { (at ≤ longest_formula) × (size ≤ longest_formula) }
    ensures { result ≡ made (Step.Emit (token kind at size value)) spot }
{
    Made {
        step: Step::Emit(Token {
            kind,
            at: at as u32,
            size: size as u32,
            value,
        }),
        spot,
    }
}

// A word that is neither a keyword nor an outside name, by the words met so far.
fn own_word(
    formula: &[u8],
    words: &[u32],
    links: &[u32],
    mask: usize,
    count: usize,
    at: usize,
    size: usize,
    hash: u64,
) -> Made
    requires planted { Planted formula.now words.now links.now mask count × (hash ≡ hash_of (take size (drop at formula.now))) }
    requires at_le_longest_formula { (at ≤ longest_formula) × (size ≤ longest_formula) × (count ≤ most_tokens) }
    ensures { OwnWord mask (words_in formula.now words.now count) links.now at size
        (take size (drop at formula.now)) result }
{
    let s = part(formula, at, size);
    let seen = seek(formula, words, links, mask, count, s, hash);
    let spot = settle(seen, formula, words, links, mask, count, s, hash);
    match spot {
        Spot::Node(i) => emit(WORD_KIND, at, size, FIRST_WORD + i as u32, Spot::Node(0)),
        Spot::Free(slot) => emit(
            WORD_KIND,
            at,
            size,
            FIRST_WORD + count as u32,
            Spot::Free(slot),
        ),
    }
}

// What is done at a word.
fn word_step(
    table: &[u8],
    room: &[u32],
    tree: &[u32],
    formula: &[u8],
    words: &[u32],
    links: &[u32],
    mask: usize,
    count: usize,
    at: usize,
) -> Made
    requires ready { Ready table.now room.now tree.now formula.now words.now links.now mask count }
    requires at_in_bounds { (at < length formula.now) × (length formula.now ≤ longest_formula) × (is_letter (get_or formula.now at 0) ≡ true) }
    ensures { Stepped (lexicon_in table.now room.now) mask (words_in formula.now words.now count)
        links.now at (drop at formula.now) result }
{
    let run = word_at(formula, at);
    let size = run.size;
    let hash = run.hash;
    if LONGEST_WORD < size {
        return Made {
            step: Step::Stop,
            spot: Spot::Node(0),
        };
    }
    let name = class_of(table, room, tree, part(formula, at, size), hash);
    match name {
        WordClass::Keyword(k) => emit(k + KEYWORD_KIND, at, size, 0, Spot::Node(0)),
        WordClass::Outside(k) => emit(WORD_KIND, at, size, k, Spot::Node(0)),
        WordClass::Other => own_word(formula, words, links, mask, count, at, size, hash),
    }
}

// What is done at the lexeme at an offset of the formula.
fn step_at(
    table: &[u8],
    room: &[u32],
    tree: &[u32],
    formula: &[u8],
    words: &[u32],
    links: &[u32],
    mask: usize,
    count: usize,
    at: usize,
) -> Made
    requires ready { Ready table.now room.now tree.now formula.now words.now links.now mask count }
    requires at_in_bounds { (at < length formula.now) × (length formula.now ≤ longest_formula) }
    ensures { Stepped (lexicon_in table.now room.now) mask (words_in formula.now words.now count)
        links.now at (drop at formula.now) result }
{
    let letter = spellings::is_letter(formula[at]);
    if letter {
        return word_step(table, room, tree, formula, words, links, mask, count, at);
    }
    let step = mark_step(table, room, tree, formula, at);
    Made {
        step,
        spot: Spot::Node(0),
    }
}

// ---------------------------------------------------------------- the lent rooms

// A token is stored in row n.
fn store_token(tokens: &mut [u32], n: usize, t: Token)
    requires { n * 4 + 4 ≤ length tokens.old }
    ensures { tokens.new ≡ sets tokens.old (n * 4) (row_then t []) }
{
    let i = n * TOKEN;
    tokens[i] = t.kind;
    tokens[i + OFFSET] = t.at;
    tokens[i + LENGTH] = t.size;
    tokens[i + VALUE] = t.value;
}

// The place of a word that is new is stored, and the word is linked; the answer is how many words there are then.
fn store_word(words: &mut [u32], links: &mut [u32], count: usize, t: Token, spot: Spot) -> usize
    requires { Agrees count t spot × Linkable links.old spot × (count * 2 + 2 ≤ length words.old) × (count < most_tokens) }
    ensures value { result ≡ count_with count t }
    ensures words_after { words.new ≡ sets words.old (count * 2) (place_then count t []) }
    ensures links_after { links.new ≡ links_with links.old spot count }
{
    match spot {
        Spot::Node(_) => count,
        Spot::Free(slot) => {
            let i = count * PLACE;
            words[i] = t.at;
            words[i + 1] = t.size;
            links[slot] = (count + 1) as u32;
            count + 1
        }
    }
}

// ---------------------------------------------------------------- the scan

fn unscanned(cause: Cause, a: u64) -> Scanned
    ensures { result ≡ Err (refusal (cause_number cause) a 0 0) }
{
    Err(cause.refuse(a, 0, 0))
}

// Refusal 15, with the offset at which the bad lexeme starts.
fn bad_lexeme(at: usize) -> Scanned
    ensures { result ≡ Err (refusal 15 at 0 0) }
{
    unscanned(Cause::BadToken, at as u64)
}

// The scan of a formula by the lexicon of a table.
fn scan_loop(
    table: &[u8],
    room: &[u32],
    tree: &[u32],
    formula: &[u8],
    tokens: &mut [u32],
    words: &mut [u32],
    links: &mut [u32],
    mask: usize,
) -> Scanned
    requires { LexicalIn table.now room.now tree.now × RoomFor formula.now tokens.old words.old × Scannable formula.now links.old mask }
    ensures { filled result tokens.new words.new
        ≡ scan_into (lexicon_in table.now room.now) formula.now tokens.old words.old }
{
    let mut at: usize = 0;
    let mut n: usize = 0;
    let mut count: usize = 0;
    while at < formula.len() {
        let made = step_at(table, room, tree, formula, words, links, mask, count, at);
        let step = made.step;
        let spot = made.spot;
        match step {
            Step::Skip => {
                at += 1;
            }
            Step::Stop => {
                return bad_lexeme(at);
            }
            Step::Emit(t) => {
                if n == MOST_TOKENS {
                    return unscanned(Cause::TooManyTokens, 0);
                }
                store_token(tokens, n, t);
                count = store_word(words, links, count, t, spot);
                n += 1;
                at += t.size as usize;
            }
        }
    }
    Ok((n, count))
}

// The same, with the lexicon entered first.
fn scan_with(
    table: &[u8],
    kinds: u64,
    variables: &[u8],
    formula: &[u8],
    tokens: &mut [u32],
    words: &mut [u32],
    links: &mut [u32],
    mask: usize,
) -> Scanned
    requires { LentToScan table.now variables.now formula.now tokens.old words.old × Scannable formula.now links.old mask }
    ensures { filled result tokens.new words.new
        ≡ scan_into (lexicon_by kinds variables.now table.now) formula.now tokens.old words.old }
{
    let mut room = [NO_KIND; ROOM];
    let mut tree = [0u32; TREE];
    lexicon::enter_table(table, kinds, &mut room, &mut tree);
    enter_sorts(variables, &mut room);
    scan_loop(table, &room, &tree, formula, tokens, words, links, mask)
}

// The same, with a room for the links of the formula's words. It stands apart, so that the frame of its caller stays without this room.
#[inline(never)]
fn scan_linked<const LINKS: usize>(
    table: &[u8],
    kinds: u64,
    variables: &[u8],
    formula: &[u8],
    tokens: &mut [u32],
    words: &mut [u32],
    mask: usize,
) -> Scanned
    requires { LentToLink LINKS mask table.now variables.now formula.now tokens.old words.old }
    ensures { filled result tokens.new words.new
        ≡ scan_into (lexicon_by kinds variables.now table.now) formula.now tokens.old words.old }
{
    let mut links = [0u32; LINKS];
    scan_with(
        table, kinds, variables, formula, tokens, words, &mut links, mask,
    )
}

// The scan of a formula by the outside names of a table and those of its keywords whose kinds are among some. The text of a result is scanned as a formula is,
// with the sorts of its `$` variables; a formula has none. Four numbers a token are stored from the front of `tokens`: kind, offset, length, value; two
// numbers a word from the front of `words`: the offset and the length of the first token that has it, for the spelling numbers from 64 on. Numbers behind
// these stay as they were, on a refusal too. The answer's number, 0 or 14 to 16, and its values are those of the rules.
// Ruled out are, among others, a scanner that takes a keyword for a word, or the `$` of a variable for a keyword, one that refuses one byte beside the fault,
// one that numbers words from 65, and one that clears a room before it refuses.
pub fn scan(
    table: &[u8],
    kinds: u64,
    variables: &[u8],
    formula: &[u8],
    tokens: &mut [u32],
    words: &mut [u32],
) -> Scanned
    requires { LentToScan table.now variables.now formula.now tokens.old words.old }
    ensures { Scans (lexicon_by kinds variables.now table.now) formula.now tokens.old words.old result
        tokens.new words.new }
{
    let size = formula.len();
    if LONGEST_FORMULA < size {
        return unscanned(Cause::FormulaTooLong, 0);
    }
    if size <= SHORT {
        return scan_linked::<SHORT_LINKS>(
            table, kinds, variables, formula, tokens, words, SHORT_MASK,
        );
    }
    if size <= MIDDLE {
        return scan_linked::<MIDDLE_LINKS>(
            table,
            kinds,
            variables,
            formula,
            tokens,
            words,
            MIDDLE_MASK,
        );
    }
    scan_linked::<LARGEST_LINKS>(
        table,
        kinds,
        variables,
        formula,
        tokens,
        words,
        LARGEST_MASK,
    )
}

// How much a table may have. Document 01, "Phrase table". specs/Limits has the same numbers. The sizes of rooms follow from these, in code
// and in specs (docs/PROOFS.md, "To move a limit").
pub const LONGEST_TABLE: usize = 16_384;

pub const MOST_KEYWORDS: u16 = 62;

pub const MOST_OUTSIDES: u16 = 64;

pub const MOST_BLOCKS: u16 = 16;

pub const MOST_ALTERNATIVES: u16 = 256;

// In an alternative.
pub const MOST_ITEMS: u16 = 12;

// Of a nonterminal.
pub const MOST_PARAMETERS: usize = 4;

// Numbered from 0.
pub const NONTERMINALS: u8 = 64;

// The variables of an alternative: its parameters, and one for each of its items.
pub const MOST_VARIABLES: usize = MOST_PARAMETERS + MOST_ITEMS as usize;

// How many numbers a room has that holds one for each nonterminal.
pub const EACH_NONTERMINAL: usize = NONTERMINALS as usize;

// How many numbers a room has that holds one for each alternative.
pub const EACH_ALTERNATIVE: usize = MOST_ALTERNATIVES as usize;

// Sizes of tables for which shorter rooms are lent.
pub const SMALL_TABLE: usize = 1_024;

// The larger of the two.
pub const MIDDLE_TABLE: usize = 4_096;

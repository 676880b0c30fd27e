// Left recursion and clashes: refusals 12 and 13, with the room that an expansion reads.
#![tactic(auto)]

mod clash;
pub mod prepared;
mod sorts;

// What productions of a nonterminal give together: the kinds that they open with, and whether one of them is nullable.
#[derive(Clone, Copy)]
pub struct Seen {
    pub kinds: u64,
    pub nullable: bool,
}

// What is found where a grammar is prepared: the lowest nonterminal that is left recursive, the nullable nonterminals, and the pattern places
// (document 02, C-14) that stand first in productions.
#[derive(Drop)]
pub struct Preparation {
    pub recursive: u8,
    pub nulls: u64,
    pub places: u64,
}

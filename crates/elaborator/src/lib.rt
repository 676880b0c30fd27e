// The check of a result that is written as a text (document 02, C-14): what is prepared of the blocks before its own, what is tested
// before it is read, and its reading under them.
#![tactic(auto)]

pub mod heads;
pub mod prepared;
pub mod reading;

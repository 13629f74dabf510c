// How the record is stored: here its plain fields as a struct and its private tables by field, and in specs/ the tables as lists of words, what the code
// reads of them, and the rules' record that both say together. No code.
#![tactic(auto)]

mod by_field;

pub use by_field::Fields;
use rules::{Modes, Open};

// The record's fields beside its tables.
#[derive(Clone, Copy)]
pub struct Core {
    pub n: u16,
    pub modes: Modes,
    pub base: u64,
    pub num_used: u16,
    pub free_head: u16,
    pub avail_idx: u16,
    pub last_used_idx: u16,
    pub call: Open,
}

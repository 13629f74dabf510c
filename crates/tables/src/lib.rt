// The private tables as the rules have them, in lent words (views): loads and stores of a descriptor, of a noted length and of a list entry, and links
// followed. Code above this crate passes the tables on and never reads or stores a word itself, so that where a word lies is said here and in views alone.
#![tactic(auto)]

ghost use Rattle.std.specs.Prelude.{◌+◌, ◌*◌, ◌≤◌, length};

mod flags;
mod reads;
mod stores;

pub use flags::flags_of;

// The private tables, lent to be read: with room for `room` descriptors, as views lays them out.
#[derive(Clone, Copy)]
pub struct TablesRef<'a> {
    pub room: usize,
    pub words: &'a [u64],
    pub lens: &'a [u32],
    pub halves: &'a [u16],
    pub sides: &'a [bool],
    pub ghost words_of: { room + room * room ≤ length words.now },
    pub ghost lens_of: { room + room * room ≤ length lens.now },
    pub ghost halves_of: { 3 * room ≤ length halves.now },
    pub ghost sides_of: { room * room ≤ length sides.now },
}

// The same, lent to be changed.
#[derive(Drop)]
pub struct TablesMut<'a> {
    pub room: usize,
    pub words: &'a mut [u64],
    pub lens: &'a mut [u32],
    pub halves: &'a mut [u16],
    pub sides: &'a mut [bool],
    pub ghost words_of: { room + room * room ≤ length words.now },
    pub ghost lens_of: { room + room * room ≤ length lens.now },
    pub ghost halves_of: { 3 * room ≤ length halves.now },
    pub ghost sides_of: { room * room ≤ length sides.now },
}

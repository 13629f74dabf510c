// The queue's record as a struct by value, and what its calls answer (document 01, "The record" and part 3). The tables lie in arrays at the limit, one for
// each width, as views lays them out. new.rt has the call new, calls.rt the others and the check.
#![tactic(auto)]

ghost use Rattle.std.specs.Prelude.{◌≡◌};
ghost use Rattle.rules.specs.Refused.{result_number, result_value};
ghost use Rattle.record.specs.Abs.{Lends};

mod calls;
mod new;

use rules::{Modes, Refusal};
use tables::TablesRef;
use views::Core;

#[derive(Clone, Copy)]
pub struct Queue {
    pub core: Core,
    pub words: [u64; 4160],
    pub lens: [u32; 4160],
    pub halves: [u16; 192],
    pub sides: [bool; 4096],
}

impl Queue {
    // The tables, lent to be read.
    pub fn tables(&self) -> TablesRef<'_>
        ensures { Lends self.now result }
    {
        TablesRef {
            room: 64,
            words: &self.words,
            lens: &self.lens,
            halves: &self.halves,
            sides: &self.sides,
        }
    }
}

// What new is asked: the size, whether the transport says that the queue is in use, the device's maximum, the modes, and the addresses of the lent
// regions and of the pool.
#[derive(Clone, Copy)]
pub struct Ask {
    pub n: u32,
    pub in_use: bool,
    pub most: u32,
    pub modes: Modes,
    pub base_one: u64,
    pub base_two: u64,
    pub base_pool: u64,
}

// Where the parts of a queue lie, for the transport: the addresses of table, available ring and used ring.
#[derive(Clone, Copy, PartialEq, Eq, Debug, Default)]
pub struct Places {
    pub table: u64,
    pub avail: u64,
    pub used: u64,
}

// What new answers: the places, or why it refused; and the record, all zero where it did.
#[derive(Clone, Copy)]
pub struct Made {
    pub outcome: Result<Places, Refusal>,
    pub queue: Queue,
}

// What a call answers: its value, or why it was refused; how many loads and stores were made; and the record after it.
#[derive(Clone, Copy)]
pub struct Answer {
    pub outcome: Result<u32, Refusal>,
    pub steps: u32,
    pub queue: Queue,
}

// The number of what a call came to: 0, or the refusal's.
pub fn number_of<T>(outcome: &Result<T, Refusal>) -> u8
    ensures { result ≡ result_number outcome.now }
{
    match outcome {
        Ok(_) => 0,
        Err(refusal) => refusal.number(),
    }
}

impl Answer {
    // The number: 0, or the refusal's.
    pub fn number(&self) -> u8
        ensures { result ≡ result_number self.now.outcome }
    {
        number_of(&self.outcome)
    }

    // The value: 0 where the call was refused.
    pub fn value(&self) -> u32
        ensures { result ≡ result_value self.now.outcome }
    {
        self.outcome.unwrap_or(0)
    }
}

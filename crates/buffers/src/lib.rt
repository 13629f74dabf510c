// The queue's calls over a list of buffers lent as a slice of structs; and such a list made of three slices of numbers, as a program in C has it.
#![tactic(auto)]

ghost use Rattle.std.specs.Prelude.{◌≡◌};
ghost use Rattle.rules.specs.Calls.{open_add, open_pop, add as add_is, pop_used};
ghost use Rattle.access.specs.Accesses.{memory};
ghost use Rattle.record.specs.Abs.{abs};
ghost use Rattle.record.specs.Asked.{answer_of};

mod gathering;

pub use gathering::{Gathered, gather, stand_in};
use record::{Answer, Queue};
use virtio::Buffer;

// An outstanding chain: the queue, and the token that add answered.
#[derive(Clone, Copy)]
pub struct Outstanding {
    pub queue: Queue,
    pub token: u32,
}

// Opens an add: everything is checked, and the private record updated but for avail_idx.
pub fn open_add(
    queue: Queue,
    list: &[Buffer],
    one: &mut [u8],
    two: &[u8],
    pool: &mut [u8],
) -> Answer
    ensures { answer_of result (memory one.new two.now pool.new) ≡ open_add (abs queue) (memory one.old two.now pool.old) list.now }
{
    queue.open_add(list, one, two, pool)
}

// Opens a pop: it keeps the token and whether the list is the one that was added.
pub fn open_pop(
    chain: Outstanding,
    list: &[Buffer],
    one: &mut [u8],
    two: &[u8],
    pool: &mut [u8],
) -> Answer
    ensures { answer_of result (memory one.new two.now pool.new) ≡ open_pop (abs chain.queue) (memory one.old two.now pool.old) chain.token list.now }
{
    chain.queue.open_pop(chain.token, list, one, two, pool)
}

// Adds a list of buffers; the value is the token.
pub fn add(queue: Queue, list: &[Buffer], one: &mut [u8], two: &[u8], pool: &mut [u8]) -> Answer
    ensures { answer_of result (memory one.new two.now pool.new) ≡ add_is (abs queue) (memory one.old two.now pool.old) list.now }
{
    queue.add(list, one, two, pool)
}

// Pops the token's list; the value is the device's length.
pub fn pop_used(
    chain: Outstanding,
    list: &[Buffer],
    one: &mut [u8],
    two: &[u8],
    pool: &mut [u8],
) -> Answer
    ensures { answer_of result (memory one.new two.now pool.new) ≡ pop_used (abs chain.queue) (memory one.old two.now pool.old) chain.token list.now }
{
    chain.queue.pop_used(chain.token, list, one, two, pool)
}

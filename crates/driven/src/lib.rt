// A queue is taken into use, and the driver's events of demand 3 are made, by the methods of `record`. That these, called one after the other as the events of a
// mixing say, are that mixing is their contract; `specs/Driven.antt` says what it means.
#![tactic(auto)]

ghost use Rattle.std.specs.Prelude.{◌≡◌};
ghost use Rattle.virtio.specs.Memory.{Memory};
ghost use Rattle.rules.specs.Calls.{available_desc};
ghost use Rattle.access.specs.Accesses.{memory};
ghost use Rattle.record.specs.Abs.{abs};
ghost use Rattle.record.specs.Asked.{answer_of};
ghost use Rattle.driven.specs.Named.{drive_of};
ghost use Rattle.driven.specs.Driven.{MakesEvent, Starts};

use record::{Answer, Ask, Made, Queue};
use virtio::Buffer;

// An event of the driver: a call, by name, whose list, if it has one, comes beside it; or a step of the open call.
#[derive(Clone, Copy)]
pub enum Event {
    Add,
    PopUsed { token: u32 },
    PeekUsed,
    CanPop,
    ShouldNotify,
    AvailableDesc,
    SetDevNotify { wanted: bool },
    Step,
}

// Takes a queue into use.
pub fn start(ask: Ask, one: &mut [u8], two: &mut [u8], pool: &[u8]) -> Made
    ensures { Starts ask (memory one.old two.old pool.now) result
        (memory one.new two.new pool.now) }
{
    Queue::new(ask, one, two, pool)
}

// How many descriptors an add can have, as an answer with its record.
fn available(q: Queue) -> Answer
    ensures { (m : Memory) → answer_of result m ≡ available_desc (abs q) m }
{
    Answer {
        outcome: q.available_desc().map(u32::from),
        steps: 0,
        queue: q,
    }
}

// Makes an event: opens add, pop_used or peek_used; makes a call of a single step, or a step of the open call.
pub fn drive(
    event: Event,
    q: Queue,
    list: &[Buffer],
    one: &mut [u8],
    two: &[u8],
    pool: &mut [u8],
) -> Answer
    ensures { MakesEvent (drive_of event list.now) q
        (memory one.old two.now pool.old) result
        (memory one.new two.now pool.new) }
{
    match event {
        Event::Add => q.open_add(list, one, two, pool),
        Event::PopUsed { token } => q.open_pop(token, list, one, two, pool),
        Event::PeekUsed => q.open_peek(one, two, pool),
        Event::CanPop => q.can_pop(one, two, pool),
        Event::ShouldNotify => q.should_notify(one, two, pool),
        Event::AvailableDesc => available(q),
        Event::SetDevNotify { wanted } => q.set_dev_notify(wanted, one, two, pool),
        Event::Step => q.step(one, two, pool),
    }
}

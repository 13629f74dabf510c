// The owning queue's operations. What a poll shows is read through `view`, and stands at the end of the line as three numbers.
use crate::Machine;
use crate::lending::{Lent, Memory, ROOM};
use crate::lines::{line, sum_bytes};
use crate::operations::OwnCall;
use crate::tokens::{Script, low16, low32};
use owning::{Owned, Owning, Part};
use record::Answer;
use rules::Held;
use std::io;
use std::io::Write;

// A call's answer, the sum of the bytes that it shows, the record after all that its operation does, and, of the operation that asks it, whether the
// device is to be notified.
#[derive(Clone, Copy)]
struct Done {
    owned: Owned,
    sum: u64,
    owning: Owning,
    notify: Option<u32>,
}

// ---- an answer as numbers

// The part shown, as its offset and its count.
fn shown_part(shows: Option<Part>) -> (u64, u64) {
    shows.map_or((0, 0), |part| (part.from as u64, part.count as u64))
}

// The held token plus one, 0 for none, and the held length.
fn held_pair(held: Option<Held>) -> (u64, u64) {
    held.map_or((0, 0), |held| {
        (u64::from(held.token) + 1, u64::from(held.len))
    })
}

// The sum of the bytes shown, which the record then views.
fn shown_sum(owned: &Owned, store: &[u8]) -> u64 {
    if owned.shows.is_none() {
        return 0;
    }
    sum_bytes(0, owned.owning.view(store))
}

// The line of an answer, behind which stand the part shown, what is held, and, where it was asked, whether the device is to be notified.
fn own_line<W: Write>(
    to: &mut W,
    number: u64,
    done: &Done,
    lent: Lent,
    memory: &Memory,
) -> io::Result<()> {
    let (from, count) = shown_part(done.owned.shows);
    let (token, len) = held_pair(done.owning.held);
    let notify = u64::from(done.notify.unwrap_or(0));
    let numbers = [from, count, done.sum, token, len, notify];
    let tail = if done.notify.is_some() { 6 } else { 5 };
    let r = Answer {
        outcome: done.owned.outcome,
        steps: 0,
        queue: done.owning.queue,
    };
    line(to, number, &r, &numbers[..tail], lent, memory)
}

// ---- the calls

// The call was all that its operation does.
fn alone(owned: Owned, sum: u64) -> Done {
    Done {
        owned,
        sum,
        owning: owned.owning,
        notify: None,
    }
}

// The buffer that a poll shows is released, and should_notify asked.
fn let_go(
    owned: Owned,
    sum: u64,
    one: &mut [u8],
    two: &[u8],
    pool: &mut [u8],
    store: &[u8],
) -> Done {
    if owned.shows.is_none() {
        return Done {
            notify: Some(0),
            ..alone(owned, sum)
        };
    }
    let freed = owned.owning.release(one, two, pool, store);
    let asked = freed.owning.should_notify(one, two, pool);
    Done {
        owned,
        sum,
        owning: asked.owning,
        notify: Some(asked.outcome.unwrap_or(0)),
    }
}

// A call of the owning queue.
fn own_call(
    call: OwnCall,
    x: u32,
    owning: Owning,
    one: &mut [u8],
    two: &[u8],
    pool: &mut [u8],
    store: &[u8],
) -> Owned {
    match call {
        OwnCall::Poll | OwnCall::PollAndRelease => { owning.poll(one, two, pool, store) }
        OwnCall::Release => owning.release(one, two, pool, store),
        OwnCall::ShouldNotify => owning.should_notify(one, two, pool),
        OwnCall::SetDevNotify => { owning.set_dev_notify(x != 0, one, two, pool) }
    }
}

// A call, and what its operation does behind it.
fn own_whole(
    call: OwnCall,
    x: u32,
    owning: Owning,
    one: &mut [u8],
    two: &[u8],
    pool: &mut [u8],
    store: &[u8],
) -> Done {
    let owned = own_call(call, x, owning, one, two, pool, store);
    let sum = shown_sum(&owned, store);
    match call {
        OwnCall::PollAndRelease => let_go(owned, sum, one, two, pool, store),
        _ => alone(owned, sum),
    }
}

// ---- the operations

// A store of bytes 165, and an owning queue over it and the queue at hand.
pub fn own_new_turn<W: Write>(
    to: &mut W,
    number: u64,
    script: &mut Script,
    machine: &mut Machine,
    memory: &mut Memory,
) -> io::Result<()> {
    let base = script.number();
    let size = low32(script.number());
    machine.lent.store = script.capped(ROOM);
    let lent = machine.lent;
    let one = &mut memory.one[..];
    let pool = &mut memory.pool[..];
    let store = &mut memory.store[..];
    store[..lent.store].fill(165);
    let owned = Owning::new(
        machine.owning.queue,
        base,
        size,
        &mut one[..lent.one],
        &memory.two[..lent.two],
        &mut pool[..lent.pool],
        &mut store[..lent.store],
    );
    machine.owning = owned.owning;
    own_line(to, number, &alone(owned, 0), lent, memory)
}

// A number, and the call.
pub fn own_turn<W: Write>(
    to: &mut W,
    number: u64,
    call: OwnCall,
    script: &mut Script,
    machine: &mut Machine,
    memory: &mut Memory,
) -> io::Result<()> {
    let x = low32(script.number());
    let lent = machine.lent;
    let one = &mut memory.one[..];
    let pool = &mut memory.pool[..];
    let done = own_whole(
        call,
        x,
        machine.owning,
        &mut one[..lent.one],
        &memory.two[..lent.two],
        &mut pool[..lent.pool],
        &memory.store[..lent.store],
    );
    machine.owning = done.owning;
    own_line(to, number, &done, lent, memory)
}

// What is held, by its token plus one, and its length.
fn held_by(token: u64, len: u64) -> Option<Held> {
    let token = token.checked_sub(1)?;
    Some(Held {
        token: low16(token),
        len: low32(len),
    })
}

// The owning record forged, all but its queue.
pub fn own_forge_turn(script: &mut Script, owning: &mut Owning) {
    owning.base = script.number();
    owning.size = low32(script.number());
    let token = script.number();
    let len = script.number();
    owning.held = held_by(token, len);
}

// The queue's operations: those that take a list, and those that take at most a number.
use crate::Machine;
use crate::lending::Memory;
use crate::lines::line;
use crate::operations::{ListCall, PlainCall};
use crate::tokens::{MOST, NO_BUFFER, Script, low32};
use record::{Answer, Queue};
use std::io;
use std::io::Write;
use virtio::Buffer;

// A call that takes a list.
fn list_call(
    call: ListCall,
    token: u32,
    queue: Queue,
    list: &[Buffer],
    one: &mut [u8],
    two: &[u8],
    pool: &mut [u8],
) -> Answer {
    match call {
        ListCall::Add => queue.add(list, one, two, pool),
        ListCall::OpenAdd => queue.open_add(list, one, two, pool),
        ListCall::PopUsed => queue.pop_used(token, list, one, two, pool),
        ListCall::OpenPop => queue.open_pop(token, list, one, two, pool),
    }
}

// A call that takes at most a number.
fn plain_call(
    call: PlainCall,
    x: u32,
    queue: Queue,
    one: &mut [u8],
    two: &[u8],
    pool: &mut [u8],
) -> Answer {
    match call {
        PlainCall::PeekUsed => queue.peek_used(one, two, pool),
        PlainCall::OpenPeek => queue.open_peek(one, two, pool),
        PlainCall::Step => queue.step(one, two, pool),
        PlainCall::Run => queue.run(x, one, two, pool),
        PlainCall::CanPop => queue.can_pop(one, two, pool),
        PlainCall::ShouldNotify => queue.should_notify(one, two, pool),
        PlainCall::SetDevNotify => queue.set_dev_notify(x != 0, one, two, pool),
    }
}

// A token, a list, and the call.
pub fn list_turn<W: Write>(
    to: &mut W,
    number: u64,
    call: ListCall,
    script: &mut Script,
    machine: &mut Machine,
    memory: &mut Memory,
) -> io::Result<()> {
    let mut room = [NO_BUFFER; MOST];
    let token = low32(script.number());
    let list = script.list(&mut room);
    let lent = machine.lent;
    let one = &mut memory.one[..];
    let pool = &mut memory.pool[..];
    let r = list_call(
        call,
        token,
        machine.owning.queue,
        list,
        &mut one[..lent.one],
        &memory.two[..lent.two],
        &mut pool[..lent.pool],
    );
    machine.owning.queue = r.queue;
    line(to, number, &r, &[], lent, memory)
}

// A number, and the call.
pub fn plain_turn<W: Write>(
    to: &mut W,
    number: u64,
    call: PlainCall,
    script: &mut Script,
    machine: &mut Machine,
    memory: &mut Memory,
) -> io::Result<()> {
    let x = low32(script.number());
    let lent = machine.lent;
    let one = &mut memory.one[..];
    let pool = &mut memory.pool[..];
    let r = plain_call(
        call,
        x,
        machine.owning.queue,
        &mut one[..lent.one],
        &memory.two[..lent.two],
        &mut pool[..lent.pool],
    );
    machine.owning.queue = r.queue;
    line(to, number, &r, &[], lent, memory)
}

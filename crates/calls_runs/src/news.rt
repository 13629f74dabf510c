// New, as two operations ask for it: by a size and modes alone, or by all that it takes.
use crate::Machine;
use crate::forge::bits;
use crate::lending::{Lent, Memory};
use crate::lines::line;
use crate::operations::Asks;
use crate::tokens::{Script, low32};
use owning::Owning;
use record::{Answer, Ask, Made, Queue};
use std::io;
use std::io::Write;

// A size and modes, of a queue that is not in use, with room for 64 and memory on pages.
fn short_ask(script: &mut Script) -> Ask {
    Ask {
        n: low32(script.number()),
        modes: bits(script.number()),
        in_use: false,
        most: 64,
        base_one: 4096,
        base_two: 65536,
        base_pool: 131072,
    }
}

// Size, modes, in_use, the device's maximum, and three bases.
fn full_ask(script: &mut Script) -> Ask {
    Ask {
        n: low32(script.number()),
        modes: bits(script.number()),
        in_use: script.number() != 0,
        most: low32(script.number()),
        base_one: script.number(),
        base_two: script.number(),
        base_pool: script.number(),
    }
}

// Every lent byte 165, and then a fresh queue over what is lent.
fn fresh(ask: Ask, lent: Lent, memory: &mut Memory) -> Made {
    let one = &mut memory.one[..];
    let two = &mut memory.two[..];
    let pool = &mut memory.pool[..];
    one[..lent.one].fill(165);
    two[..lent.two].fill(165);
    pool[..lent.pool].fill(165);
    Queue::new(
        ask,
        &mut one[..lent.one],
        &mut two[..lent.two],
        &pool[..lent.pool],
    )
}

// A fresh queue, of which nothing is owned. Asked in full, new shows the three addresses that it answers.
pub fn anew<W: Write>(
    to: &mut W,
    number: u64,
    asks: Asks,
    script: &mut Script,
    memory: &mut Memory,
) -> io::Result<Machine> {
    let ask = match asks {
        Asks::Shortly => short_ask(script),
        Asks::InFull => full_ask(script),
    };
    let lent = Lent::read(script, 0);
    let made = fresh(ask, lent, memory);
    let queue = made.queue;
    let r = Answer {
        outcome: made.outcome.map(|_| 0),
        steps: 0,
        queue,
    };
    let places = made.outcome.unwrap_or_default();
    let addresses = [places.table, places.avail, places.used];
    let shown = match asks {
        Asks::Shortly => 0,
        Asks::InFull => 3,
    };
    line(to, number, &r, &addresses[..shown], lent, memory)?;
    let owning = Owning {
        queue,
        base: 0,
        size: 0,
        held: None,
    };
    Ok(Machine { owning, lent })
}

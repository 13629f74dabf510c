// Runs the queue's calls as a script on standard input tells, and prints a line for each. A script can also write to the lent memory, as a device
// does, and forge the record. docs/SCRIPTS.md says its operations and what a line shows.
#![tactic(auto)]

ghost use Rattle.std.specs.Prelude.{length, ◌≡◌};

mod forge;
mod lending;
mod lines;
mod news;
mod operations;
mod own_turns;
mod tokens;
mod turns;

use crate::forge::forge_part;
use crate::lending::{Lent, Memory};
use crate::news::anew;
use crate::operations::{Asks, Operation};
use crate::own_turns::{own_forge_turn, own_new_turn, own_turn};
use crate::tokens::Script;
use crate::turns::{list_turn, plain_turn};
use owning::Owning;
use std::io;
use std::io::Write;

// The owning record, whose queue the plain calls use, and what is lent and shown.
#[derive(Clone, Copy)]
struct Machine {
    owning: Owning,
    lent: Lent,
}

// One operation of the script; a number that names none is passed over.
fn turn<W: Write>(
    to: &mut W,
    script: &mut Script,
    machine: &mut Machine,
    memory: &mut Memory,
) -> io::Result<()> {
    let number = script.number();
    let Some(operation) = Operation::numbered(number) else {
        return Ok(());
    };
    match operation {
        Operation::New(asks) => *machine = anew(to, number, asks, script, memory)?,
        Operation::List(call) => list_turn(to, number, call, script, machine, memory)?,
        Operation::Plain(call) => plain_turn(to, number, call, script, machine, memory)?,
        Operation::Poke => memory.poke(script),
        Operation::Forge(part) => forge_part(part, script, &mut machine.owning.queue),
        Operation::Lend => machine.lent = Lent::read(script, machine.lent.store),
        Operation::OwnNew => own_new_turn(to, number, script, machine, memory)?,
        Operation::Own(call) => own_turn(to, number, call, script, machine, memory)?,
        Operation::OwnForge => own_forge_turn(script, &mut machine.owning),
    }
    Ok(())
}

// The whole script, which starts with an operation 1 or 25, and any other number counts as 1: at most as many operations as it has bytes.
fn run<W: Write>(to: &mut W, text: &[u8], memory: &mut Memory) -> io::Result<()> {
    let mut script = Script::new(text);
    let number = script.number();
    let asks = match Operation::numbered(number) {
        Some(Operation::New(asks)) => asks,
        _ => Asks::Shortly,
    };
    let mut machine = anew(to, number, asks, &mut script, memory)?;
    for _ in 0..text.len() {
        if script.is_at_end() {
            break;
        }
        turn(to, &mut script, &mut machine, memory)?;
    }
    Ok(())
}

// Room for the script, 1 MiB. The `ensures` is what lending it as a slice needs.
fn script_room() -> [u8; 1048576]
    ensures { 1048576 ≡ length result }
{
    [0; 1048576]
}

// No queue needs more than one of these large buffers has: 65,536 bytes, for the pool of 64; region one needs 8,192 at most, in the legacy layout.
// A read that fails counts as the end of the script.
fn main(rt: HostRuntime) -> io::Result<()> {
    let mut text = script_room();
    let mut memory = Memory {
        one: console::large_buffer(),
        two: console::large_buffer(),
        pool: console::large_buffer(),
        store: console::large_buffer(),
    };
    let (got, _) = console::read_full(&mut rt.stdin(), &mut text);
    run(&mut rt.stdout(), &text[..got], &mut memory)
}

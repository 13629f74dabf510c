// The README's section "Use" as a program: a queue is taken into use, a list of three buffers added, and popped if the device has given it back. There is no
// device here, so that the pop answers 3, NotReady.
#![tactic(auto)]

ghost use Rattle.std.specs.Prelude.{◌≡◌};
ghost use Rattle.rules.specs.Calls.{add as add_is, pop_used};
ghost use Rattle.access.specs.Accesses.{memory};
ghost use Rattle.record.specs.Abs.{abs};
ghost use Rattle.record.specs.Asked.{answer_of};

use buffers::Outstanding;
use console::print_word;
use record::{Answer, Ask, Queue};
use rules::Modes;
use std::io;
use std::io::Write;
use virtio::Buffer;

// It lends its list as a slice of structs, as pop_request does; the check proves both with nothing written in proofs/.
fn add_request(
    queue: Queue,
    list: [Buffer; 3],
    one: &mut [u8],
    two: &[u8],
    pool: &mut [u8],
) -> Answer
    ensures { answer_of result (memory one.new two.now pool.new) ≡ add_is (abs queue) (memory one.old two.now pool.old) list }
{
    buffers::add(queue, &list, one, two, pool)
}

fn pop_request(
    chain: Outstanding,
    list: [Buffer; 3],
    one: &mut [u8],
    two: &[u8],
    pool: &mut [u8],
) -> Answer
    ensures { answer_of result (memory one.new two.now pool.new) ≡ pop_used (abs chain.queue) (memory one.old two.now pool.old) chain.token list }
{
    buffers::pop_used(chain, &list, one, two, pool)
}

// Whether the device wants to be told of what was added.
fn wants_notice<'a>(queue: Queue, one: &'a [u8], two: &'a [u8], pool: &[u8]) -> bool {
    queue.should_notify(one, two, pool).outcome == Ok(1)
}

// Says what a call answered, by its number and its value.
fn report<W: Write>(to: &mut W, name: &str, r: &Answer) -> io::Result<()> {
    to.write_all(name.as_bytes())?;
    print_word(to, b" answer=", u64::from(r.number()))?;
    print_word(to, b" value=", u64::from(r.value()))?;
    to.write_all(b"\n")
}

// What new is asked: a queue of 4 in the flexible layout.
fn question() -> Ask {
    Ask {
        n: 4,
        in_use: false,
        most: 256,
        modes: Modes {
            indirect: false,
            event_idx: false,
            legacy: false,
        },
        base_one: 4096,
        base_two: 8192,
        base_pool: 0,
    }
}

// A buffer that the device reads, and two that it writes.
fn request() -> [Buffer; 3] {
    [
        Buffer {
            addr: 65536,
            len: 16,
            output: false,
        },
        Buffer {
            addr: 131072,
            len: 512,
            output: true,
        },
        Buffer {
            addr: 65552,
            len: 1,
            output: true,
        },
    ]
}

fn main(rt: HostRuntime) -> io::Result<()> {
    let mut out = rt.stdout();
    let mut one = [0u8; 78];
    let mut two = [0u8; 38];
    let mut pool = [0u8; 1];
    let made = Queue::new(question(), &mut one, &mut two, &pool);
    if made.outcome.is_err() {
        return Ok(());
    }
    let list = request();
    let sent = add_request(made.queue, list, &mut one, &two, &mut pool);
    report(&mut out, "add", &sent)?;
    let Ok(token) = sent.outcome else {
        return Ok(());
    };
    let queue = sent.queue;
    if wants_notice(queue, &one, &two, &pool) {
        out.write_all(b"the device is notified\n")?;
    }
    let chain = Outstanding { queue, token };
    let done = pop_request(chain, list, &mut one, &two, &mut pool);
    report(&mut out, "pop", &done)
}

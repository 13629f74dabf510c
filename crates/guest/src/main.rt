// A guest that reads a block: it takes a queue into use, sends a request of three buffers, and has it back when the device is done. The device is a
// few stores of this program. It prints what each call answered.
#![tactic(auto)]

ghost use Rattle.std.specs.Prelude.{◌≡◌};
ghost use Rattle.rules.specs.Calls.{open_add, open_pop, add as add_is, pop_used};
ghost use Rattle.access.specs.Accesses.{memory};
ghost use Rattle.record.specs.Abs.{abs};
ghost use Rattle.record.specs.Asked.{answer_of};

use buffers::Outstanding;
use console::print_word;
use record::{Answer, Ask, Made, Queue, number_of};
use rules::Modes;
use std::io;
use std::io::Write;
use virtio::Buffer;

// A read of one block: what is asked, where the block goes, and where the device says how it went.
#[derive(Clone, Copy)]
struct Request {
    header: Buffer,
    block: Buffer,
    status: Buffer,
}

impl Request {
    // The buffers, inputs first.
    fn listed(self) -> [Buffer; 3] {
        [self.header, self.block, self.status]
    }
}

// ---- the calls, each with a list of its own that it lends as a slice of structs; the check proves them with nothing written in proofs/

fn add_request(
    queue: Queue,
    list: [Buffer; 3],
    one: &mut [u8],
    two: &[u8],
    pool: &mut [u8],
) -> Answer
    ensures { answer_of result (memory one.new two.now pool.new) ≡ add_is (abs queue) (memory one.old two.now pool.old) list }
{
    buffers::add(queue, &list, one, two, pool)
}

fn pop_request(
    chain: Outstanding,
    list: [Buffer; 3],
    one: &mut [u8],
    two: &[u8],
    pool: &mut [u8],
) -> Answer
    ensures { answer_of result (memory one.new two.now pool.new) ≡ pop_used (abs chain.queue) (memory one.old two.now pool.old) chain.token list }
{
    buffers::pop_used(chain, &list, one, two, pool)
}

// A list of any length: of more buffers than any queue takes, too.
fn open_add_list<const N: usize>(
    queue: Queue,
    list: [Buffer; N],
    one: &mut [u8],
    two: &[u8],
    pool: &mut [u8],
) -> Answer
    ensures { answer_of result (memory one.new two.now pool.new) ≡ open_add (abs queue) (memory one.old two.now pool.old) list.entry }
{
    buffers::open_add(queue, &list, one, two, pool)
}

fn open_pop_list<const N: usize>(
    chain: Outstanding,
    list: [Buffer; N],
    one: &mut [u8],
    two: &[u8],
    pool: &mut [u8],
) -> Answer
    ensures { answer_of result (memory one.new two.now pool.new) ≡ open_pop (abs chain.queue) (memory one.old two.now pool.old) chain.token list.entry }
{
    buffers::open_pop(chain, &list, one, two, pool)
}

// ---- what a guest does with them

// What a call answered, and how many descriptors are then free, unless a call is open.
fn report<W: Write>(to: &mut W, name: &str, r: &Answer) -> io::Result<()> {
    let free = r.queue.available_desc();
    to.write_all(name.as_bytes())?;
    print_word(to, b" answer=", u64::from(r.number()))?;
    print_word(to, b" value=", u64::from(r.value()))?;
    print_word(to, b" steps=", u64::from(r.steps))?;
    if let Ok(free) = free {
        print_word(to, b" free=", u64::from(free))?;
    }
    to.write_all(b"\n")
}

// The queue, and the memory that it shares with the device.
#[derive(Drop)]
struct Guest {
    queue: Queue,
    one: [u8; 78],
    two: [u8; 38],
    pool: [u8; 1],
}

impl Guest {
    // Says what a call answered, and goes on with its record.
    fn after<W: Write>(&mut self, to: &mut W, name: &str, r: &Answer) -> io::Result<()> {
        self.queue = r.queue;
        report(to, name, r)
    }

    // Sends the request, and answers its token, if it was taken.
    fn send<W: Write>(&mut self, to: &mut W, request: Request) -> io::Result<Option<u32>> {
        let sent = add_request(
            self.queue,
            request.listed(),
            &mut self.one,
            &self.two,
            &mut self.pool,
        );
        self.after(to, "add", &sent)?;
        Ok(sent.outcome.ok())
    }

    // Tells the device of a list that was added, if it wants to be told.
    fn notify<W: Write>(&mut self, to: &mut W) -> io::Result<()> {
        let asked = self.queue.should_notify(&self.one, &self.two, &self.pool);
        report(to, "should_notify", &asked)?;
        if asked.outcome == Ok(1) {
            to.write_all(b"the device is notified\n")?;
        }
        Ok(())
    }

    // The device fills block and status: element 0 of the used ring gets the chain's head and 513 bytes, and then used idx is 1.
    fn complete(&mut self) {
        self.two[4] = self.one[68];
        self.two[8] = 1;
        self.two[9] = 2;
        self.two[2] = 1;
    }

    // Whether the device has given a list back.
    fn ready<W: Write>(&mut self, to: &mut W) -> io::Result<bool> {
        let asked = self.queue.can_pop(&self.one, &self.two, &self.pool);
        report(to, "can_pop", &asked)?;
        Ok(asked.outcome == Ok(1))
    }

    // A pop by another list is refused once the device's element is read, and closes.
    fn mistake<W: Write>(&mut self, to: &mut W, token: u32, block: Buffer) -> io::Result<()> {
        let chain = Outstanding {
            queue: self.queue,
            token,
        };
        let opened = open_pop_list(chain, [block; 66], &mut self.one, &self.two, &mut self.pool);
        self.after(to, "pop of 66 buffers, opened", &opened)?;
        let closed = self.queue.run(10, &mut self.one, &self.two, &mut self.pool);
        self.after(to, "pop of 66 buffers, run", &closed)
    }

    // Has the request back.
    fn take<W: Write>(&mut self, to: &mut W, token: u32, request: Request) -> io::Result<()> {
        let chain = Outstanding {
            queue: self.queue,
            token,
        };
        let done = pop_request(
            chain,
            request.listed(),
            &mut self.one,
            &self.two,
            &mut self.pool,
        );
        self.after(to, "pop", &done)
    }

    // Adds the request again in two parts, of which the first is five loads and stores: between them a guest may place what it needs, as a barrier.
    fn stepped<W: Write>(&mut self, to: &mut W, request: Request) -> io::Result<()> {
        let opened = open_add_list(
            self.queue,
            request.listed(),
            &mut self.one,
            &self.two,
            &mut self.pool,
        );
        self.after(to, "add, opened", &opened)?;
        let part = self.queue.run(5, &mut self.one, &self.two, &mut self.pool);
        self.after(to, "add, five steps", &part)?;
        let done = self.queue.run(10, &mut self.one, &self.two, &mut self.pool);
        self.after(to, "add, run", &done)
    }

    // Lists that no queue takes, for their number; and one of them for its order too, which is tried before.
    fn too_many<W: Write>(&mut self, to: &mut W, request: Request) -> io::Result<()> {
        let mut list = [request.block; 66];
        let opened = open_add_list(self.queue, list, &mut self.one, &self.two, &mut self.pool);
        report(to, "add of 66 buffers, opened", &opened)?;
        list[65] = request.header;
        let opened = open_add_list(self.queue, list, &mut self.one, &self.two, &mut self.pool);
        report(to, "add of 66 buffers, an input last, opened", &opened)
    }

    // Has the request back, with a list that no queue takes tried before, and what else a guest may do after.
    fn finish<W: Write>(&mut self, to: &mut W, token: u32, request: Request) -> io::Result<()> {
        self.mistake(to, token, request.block)?;
        self.take(to, token, request)?;
        self.stepped(to, request)?;
        self.too_many(to, request)
    }
}

fn question() -> Ask {
    Ask {
        n: 4,
        in_use: false,
        most: 256,
        modes: Modes {
            indirect: false,
            event_idx: false,
            legacy: false,
        },
        base_one: 4096,
        base_two: 8192,
        base_pool: 0,
    }
}

// The addresses that the transport is told, zeros where new refused.
fn told<W: Write>(to: &mut W, made: &Made) -> io::Result<()> {
    let number = number_of(&made.outcome);
    let places = made.outcome.unwrap_or_default();
    print_word(to, b"new answer=", u64::from(number))?;
    print_word(to, b" table=", places.table)?;
    print_word(to, b" avail=", places.avail)?;
    print_word(to, b" used=", places.used)?;
    to.write_all(b"\n")
}

fn buffer(addr: u64, len: u32, output: bool) -> Buffer {
    Buffer { addr, len, output }
}

fn read_block() -> Request {
    Request {
        header: buffer(65536, 16, false),
        block: buffer(131072, 512, true),
        status: buffer(65552, 1, true),
    }
}

fn main(rt: HostRuntime) -> io::Result<()> {
    let mut out = rt.stdout();
    let mut one = [0u8; 78];
    let mut two = [0u8; 38];
    let pool = [0u8; 1];
    let made = Queue::new(question(), &mut one, &mut two, &pool);
    told(&mut out, &made)?;
    if made.outcome.is_err() {
        return Ok(());
    }
    let mut guest = Guest {
        queue: made.queue,
        one,
        two,
        pool,
    };
    let request = read_block();
    let Some(token) = guest.send(&mut out, request)? else {
        return Ok(());
    };
    guest.notify(&mut out)?;
    guest.complete();
    if guest.ready(&mut out)? {
        guest.finish(&mut out, token, request)?;
    }
    Ok(())
}

// The queue for programs in C and Rust: new, add, pop_used and peek_used, over a record by value and over tables that the caller lends; crate exports_c exports
// them under these names. Their record has no field for the open call, since whole calls leave none open.
#![tactic(auto)]

ghost use Rattle.std.specs.Prelude.{◌≡◌};
ghost use Rattle.rules.specs.Calls.{add as add_is, pop_used, peek_used};
ghost use Rattle.rules.specs.New.{new as new_is};
ghost use Rattle.opens.specs.Given.{given};
ghost use Rattle.views.specs.Tables.{queue_of as read_queue_of};
ghost use Rattle.tables.specs.Lent.{tables_read};
ghost use Rattle.wellformed.specs.Room.{HasRoom};
ghost use Rattle.access.specs.Accesses.{memory};
ghost use Rattle.record.specs.Abs.{abs};
ghost use Rattle.record.specs.Asked.{ask_of};
ghost use Rattle.buffers.specs.Long.{AskedOrRefused};
ghost use Rattle.exports.specs.Flat.{queue_of, lent_of, ask_is, made_is, answer_is, lent_is, made_of, answer_of};

mod forms;
pub mod single;

use asks::may_begin;
use buffers::stand_in;
use record::{Ask, Queue};
use tables::{TablesMut, TablesRef};
use views::Core;
use virtio::Buffer;

// What a list's room holds before it is copied.
const NO_BUFFER: Buffer = Buffer {
    addr: 0,
    len: 0,
    output: false,
};

// The record's fields beside its tables and the open call.
#[repr(C)]
#[derive(Clone, Copy)]
pub struct Plain {
    pub n: u16,
    pub indirect: bool,
    pub event_idx: bool,
    pub legacy: bool,
    pub base: u64,
    pub num_used: u16,
    pub free_head: u16,
    pub avail_idx: u16,
    pub last_used_idx: u16,
}

// The record, with its tables.
#[repr(C)]
#[derive(Clone, Copy)]
pub struct Flat {
    pub plain: Plain,
    pub words: [u64; 4160],
    pub lens: [u32; 4160],
    pub halves: [u16; 192],
    pub sides: [bool; 4096],
}

// What new is asked, as record's Ask.
#[repr(C)]
#[derive(Clone, Copy)]
pub struct FlatAsk {
    pub n: u32,
    pub in_use: bool,
    pub most: u32,
    pub indirect: bool,
    pub event_idx: bool,
    pub legacy: bool,
    pub base_one: u64,
    pub base_two: u64,
    pub base_pool: u64,
}

// The tables of a record, lent to be changed. So a call changes them where they lie, and no record is copied for it.
macro_rules! lent {
    ($queue:ident) => {
        TablesMut {
            room: 64,
            words: &mut $queue.words,
            lens: &mut $queue.lens,
            halves: &mut $queue.halves,
            sides: &mut $queue.sides,
        }
    };
}

impl Flat {
    // What a call over the record's tables came to, with the record that they now hold.
    fn answered(mut self, told: LentAnswer) -> FlatAnswer
        ensures { result ≡ record { answer = told.answer; value = told.value; steps = told.steps; queue = record self { plain = told.plain } } }
    {
        self.plain = told.plain;
        FlatAnswer {
            answer: told.answer,
            value: told.value,
            steps: told.steps,
            queue: self,
        }
    }
}

// What new answers: the number, three addresses, and the record.
#[repr(C)]
#[derive(Clone, Copy)]
pub struct FlatMade {
    pub answer: u8,
    pub table: u64,
    pub avail: u64,
    pub used: u64,
    pub queue: Flat,
}

// What a call answers, with the record after it.
#[repr(C)]
#[derive(Clone, Copy)]
pub struct FlatAnswer {
    pub answer: u8,
    pub value: u32,
    pub steps: u32,
    pub queue: Flat,
}

// What a call over a lent record answers, with the plain fields after it.
#[repr(C)]
#[derive(Clone, Copy)]
pub struct LentAnswer {
    pub answer: u8,
    pub value: u32,
    pub steps: u32,
    pub plain: Plain,
}

// Whether an add asks if its list is in order: of more than 64 buffers only where the call is not refused before, so that no such list is read for nothing.
fn asks_order(core: Core, t: &TablesRef, count: usize, one: &[u8], two: &[u8], pool: &[u8]) -> bool
    requires { HasRoom core t.now.room }
    ensures { AskedOrRefused result (read_queue_of core (tables_read t.now)) (memory one.now two.now pool.now) }
{
    count <= 64 || may_begin(core, t, one, two, pool).is_ok()
}

// ---- the record by value

// record's new.
pub fn mayketura_new(ask: FlatAsk, one: &mut [u8], two: &mut [u8], pool: &[u8]) -> FlatMade
    ensures { made_of (made_is result) (memory one.new two.new pool.now) ≡ new_is (ask_of (ask_is ask)) (memory one.old two.old pool.now) }
{
    FlatMade::from(Queue::new(Ask::from(ask), one, two, pool))
}

// queue's add, over the record's tables.
pub fn mayketura_add(
    mut q: Flat,
    addrs: &[u64],
    sizes: &[u32],
    outs: &[u8],
    one: &mut [u8],
    two: &[u8],
    pool: &mut [u8],
) -> FlatAnswer
    ensures { answer_of (answer_is result) (memory one.new two.now pool.new) ≡ add_is (abs (queue_of q)) (memory one.old two.now pool.old) (given addrs.now sizes.now outs.now) }
{
    let core = Core::from(q.plain);
    let mut tables = lent!(q);
    let ordered = asks_order(core, &tables.read(), addrs.len(), one, two, pool);
    let mut room = [NO_BUFFER; 65];
    let count = stand_in(&mut room, addrs, sizes, outs, ordered);
    let done = queue::add(core, &mut tables, &room[..count], one, two, pool);
    q.answered(LentAnswer::from(done))
}

// queue's pop_used, over the record's tables.
pub fn mayketura_pop_used(
    mut q: Flat,
    token: u32,
    addrs: &[u64],
    sizes: &[u32],
    outs: &[u8],
    one: &mut [u8],
    two: &[u8],
    pool: &mut [u8],
) -> FlatAnswer
    ensures { answer_of (answer_is result) (memory one.new two.now pool.new) ≡ pop_used (abs (queue_of q)) (memory one.old two.now pool.old) token (given addrs.now sizes.now outs.now) }
{
    let mut room = [NO_BUFFER; 65];
    let count = stand_in(&mut room, addrs, sizes, outs, false);
    let mut tables = lent!(q);
    let done = queue::pop_used(
        Core::from(q.plain),
        &mut tables,
        token,
        &room[..count],
        one,
        two,
        pool,
    );
    q.answered(LentAnswer::from(done))
}

// queue's peek_used, over the record's tables.
pub fn mayketura_peek_used(mut q: Flat, one: &mut [u8], two: &[u8], pool: &mut [u8]) -> FlatAnswer
    ensures { answer_of (answer_is result) (memory one.new two.now pool.new) ≡ peek_used (abs (queue_of q)) (memory one.old two.now pool.old) }
{
    let mut tables = lent!(q);
    let done = queue::peek_used(Core::from(q.plain), &mut tables, one, two, pool);
    q.answered(LentAnswer::from(done))
}

// ---- the record's tables lent

// queue's add, over tables at the limit.
pub fn mayketura_add_lent(
    p: Plain,
    words: &mut [u64; 4160],
    lens: &mut [u32; 4160],
    halves: &mut [u16; 192],
    sides: &mut [bool; 4096],
    addrs: &[u64],
    sizes: &[u32],
    outs: &[u8],
    one: &mut [u8],
    two: &[u8],
    pool: &mut [u8],
) -> LentAnswer
    ensures { answer_of (lent_is result words.new lens.new halves.new sides.new) (memory one.new two.now pool.new) ≡ add_is (abs (lent_of p words.old lens.old halves.old sides.old)) (memory one.old two.now pool.old) (given addrs.now sizes.now outs.now) }
{
    let core = Core::from(p);
    let mut tables = TablesMut {
        room: 64,
        words,
        lens,
        halves,
        sides,
    };
    let ordered = asks_order(core, &tables.read(), addrs.len(), one, two, pool);
    let mut room = [NO_BUFFER; 65];
    let count = stand_in(&mut room, addrs, sizes, outs, ordered);
    let done = queue::add(core, &mut tables, &room[..count], one, two, pool);
    LentAnswer::from(done)
}

// queue's pop_used, over tables at the limit.
pub fn mayketura_pop_used_lent(
    p: Plain,
    words: &mut [u64; 4160],
    lens: &mut [u32; 4160],
    halves: &mut [u16; 192],
    sides: &mut [bool; 4096],
    token: u32,
    addrs: &[u64],
    sizes: &[u32],
    outs: &[u8],
    one: &mut [u8],
    two: &[u8],
    pool: &mut [u8],
) -> LentAnswer
    ensures { answer_of (lent_is result words.new lens.new halves.new sides.new) (memory one.new two.now pool.new) ≡ pop_used (abs (lent_of p words.old lens.old halves.old sides.old)) (memory one.old two.now pool.old) token (given addrs.now sizes.now outs.now) }
{
    let mut room = [NO_BUFFER; 65];
    let count = stand_in(&mut room, addrs, sizes, outs, false);
    let mut tables = TablesMut {
        room: 64,
        words,
        lens,
        halves,
        sides,
    };
    let done = queue::pop_used(
        Core::from(p),
        &mut tables,
        token,
        &room[..count],
        one,
        two,
        pool,
    );
    LentAnswer::from(done)
}

// queue's peek_used, over tables at the limit.
pub fn mayketura_peek_used_lent(
    p: Plain,
    words: &mut [u64; 4160],
    lens: &mut [u32; 4160],
    halves: &mut [u16; 192],
    sides: &mut [bool; 4096],
    one: &mut [u8],
    two: &[u8],
    pool: &mut [u8],
) -> LentAnswer
    ensures { answer_of (lent_is result words.new lens.new halves.new sides.new) (memory one.new two.now pool.new) ≡ peek_used (abs (lent_of p words.old lens.old halves.old sides.old)) (memory one.old two.now pool.old) }
{
    let mut tables = TablesMut {
        room: 64,
        words,
        lens,
        halves,
        sides,
    };
    LentAnswer::from(queue::peek_used(Core::from(p), &mut tables, one, two, pool))
}

// The replay of document 01, over slices: reads a text, runs the queue as it tells, and writes what is to be printed. `specs/Replay.antt` says
// what that is, as a function of the text.
#![tactic(auto)]

ghost use Rattle.std.specs.Prelude.{◌≡◌, [], true, false, cond, ◌&&◌, List, ℕ, ◌+◌, ◌≤◌, ◌^◌, length, replicate};
ghost use Rattle.virtio.specs.Layout.{need_two, need_pool};
ghost use Rattle.virtio.specs.Memory.{Memory};
ghost use Rattle.rules.specs.Record.{free_count};
ghost use Rattle.rules.specs.WellFormed.{size_ok};
ghost use Rattle.access.specs.Accesses.{memory};
ghost use Rattle.record.specs.Abs.{abs};
ghost use Rattle.record.specs.Asked.{answer_of};
ghost use Rattle.print.specs.Print.{Written};
ghost use Rattle.print.specs.Page.{Has, SameLoan};
ghost use Rattle.print.specs.declared.Page.{Page};
ghost use Rattle.text.specs.Text.{field as field_is};
ghost use Rattle.replay.specs.Words.{word_size};
ghost use Rattle.replay.specs.Header.{told_sized};
ghost use Rattle.replay.specs.Replay.{Play, called as called_is, completed as completed_is};
ghost use Rattle.replay.specs.Replay.{add_block, used_block, pop_block, block as block_is, blocks as blocks_is};
ghost use Rattle.replay.specs.Replay.{zeros, opened, replayed as replayed_is, transcript};
ghost use Rattle.replay.specs.Plays.{Plays, Sized, LeadsTo, Short};
ghost use Rattle.replay.specs.Sides.{BothRead};

use fields::{load, store};
use heads::size_ok;
use indices::after;
use layout::{need_one, need_pool, need_two};
use print::Page;
use record::{Answer, Ask, Queue};
use rules::Modes;
use text::{MOST_BUFFERS, Number, Side, field, side_at, stands};
use virtio::Buffer;

// A buffer that was not read.
const NO_BUFFER: Buffer = Buffer {
    addr: 0,
    len: 0,
    output: false,
};

// A replay under way: the queue and its size, where the text is read, and the number of the line there.
#[derive(Clone, Copy)]
pub struct Played {
    pub queue: Queue,
    pub size: u16,
    pub at: usize,
    pub line: usize,
}

// The free descriptors, as the report prints them.
fn free_of(q: Queue) -> u16
    ensures { result ≡ free_count (abs q) }
{
    q.core.n.saturating_sub(q.core.num_used)
}

// It goes on behind a block of k lines, with what a call came to.
fn called(p: Played, op: &[u8], r: Answer, at: usize, k: usize, page: &mut Page) -> Played
    requires { (p.line ≤ 2 ^ 20) × (k ≤ 4) }
    ensures by_index { (before : List ℕ) (l m : Memory) (q : Play)
        → Plays before page.old p l q
        → Plays before page.new result m (called_is q op.now (answer_of r m) at k) }
    ensures size_value { (result.size ≡ p.size) × (result.line ≤ p.line + 4) }
    ensures loan { SameLoan page.old page.new }
{
    page.report(op, r.number(), r.value(), r.steps, free_of(r.queue));
    Played {
        queue: r.queue,
        at,
        line: p.line + k,
        ..p
    }
}

// The two lists of an add or a pop: how many buffers there are and where the next line starts, or which of the two lines is wrong.
fn both_at(src: &[u8], at: usize, list: &mut [Buffer; MOST_BUFFERS]) -> Result<Side, usize>
    ensures { BothRead result list.new src.now at }
{
    let ins = side_at(src, at, b"in=", false, 0, list).ok_or(1usize)?;
    side_at(src, ins.at, b"out=", true, ins.count, list).ok_or(2)
}

// An add: its two lists, and the call; or how many lines on the wrong one is.
fn add_block(
    src: &[u8],
    p: Played,
    at: usize,
    one: &mut [u8],
    two: &[u8],
    pool: &mut [u8],
    page: &mut Page,
) -> Result<Played, usize>
    requires { p.line ≤ 2 ^ 20 }
    ensures by_index { (before : List ℕ) (q : Play)
        → Plays before page.old p (memory one.old two.now pool.old) q
        → LeadsTo before page.new p (memory one.new two.now pool.new) q result (add_block src.now q at) }
    ensures size_value { Short p result }
    ensures loan { SameLoan page.old page.new }
{
    let mut list = [NO_BUFFER; MOST_BUFFERS];
    let both = both_at(src, at, &mut list)?;
    let r = p.queue.add(&list[..both.count], one, two, pool);
    Ok(called(p, b"op=add\n", r, both.at, 3, page))
}

// A pop: its token and two lists, and the call; or how many lines on the wrong one is.
fn pop_block(
    src: &[u8],
    p: Played,
    at: usize,
    one: &mut [u8],
    two: &[u8],
    pool: &mut [u8],
    page: &mut Page,
) -> Result<Played, usize>
    requires { p.line ≤ 2 ^ 20 }
    ensures by_index { (before : List ℕ) (q : Play)
        → Plays before page.old p (memory one.old two.now pool.old) q
        → LeadsTo before page.new p (memory one.new two.now pool.new) q result (pop_block src.now q at) }
    ensures size_value { Short p result }
    ensures loan { SameLoan page.old page.new }
{
    let token = field(src, at, b"token=", u64::from(u32::MAX)).ok_or(1usize)?;
    let mut list = [NO_BUFFER; MOST_BUFFERS];
    let both = both_at(src, token.at, &mut list).map_err(|line| 1 + line)?;
    let id = token.value as u32;
    let r = p.queue.pop_used(id, &list[..both.count], one, two, pool);
    Ok(called(p, b"op=pop\n", r, both.at, 4, page))
}

// The device gives back an element: id and length at used idx, and then idx + 1.
fn complete(n: u16, two: &mut [u8], id: u32, len: u32)
    requires { (1 ≤ n) × (n ≤ 64) × (length two.old ≡ need_two false n) }
    ensures { (one pool : List ℕ) → memory one two.new pool ≡ completed_is n (memory one two.old pool) id len }
{
    let idx: u16 = load(two, 2);
    let at = 4 + 8 * ((idx % n) as usize);
    store(two, at, id);
    store(two, at + 4, len);
    store(two, 2, after(idx));
}

// What the device gives back: an id and a length; or how many lines on the wrong one is.
fn used_block(src: &[u8], p: Played, at: usize, two: &mut [u8]) -> Result<Played, usize>
    requires line_bound { p.line ≤ 2 ^ 20 }
    requires sized { Sized p two.old }
    ensures by_index { (before one pool : List ℕ) (page : Page) (q : Play)
        → Plays before page p (memory one two.old pool) q
        → LeadsTo before page p (memory one two.new pool) q result (used_block src.now q at) }
    ensures size_value { Short p result }
{
    let id = field(src, at, b"id=", u64::from(u32::MAX)).ok_or(1usize)?;
    let len = field(src, id.at, b"len=", u64::from(u32::MAX)).ok_or(2usize)?;
    complete(p.size, two, id.value as u32, len.value as u32);
    Ok(Played {
        at: len.at,
        line: p.line + 3,
        ..p
    })
}

// A block, by its first line; or how many lines on the wrong one is.
fn block(
    src: &[u8],
    p: Played,
    one: &mut [u8],
    two: &mut [u8],
    pool: &mut [u8],
    page: &mut Page,
) -> Result<Played, usize>
    requires line_bound { p.line ≤ 2 ^ 20 }
    requires sized { Sized p two.old }
    ensures by_index { (before : List ℕ) (q : Play)
        → Plays before page.old p (memory one.old two.old pool.old) q
        → LeadsTo before page.new p (memory one.new two.new pool.new) q result (block_is src.now q) }
    ensures size_value { Short p result }
    ensures loan { SameLoan page.old page.new }
{
    if stands(src, p.at, b"op=add\n") {
        return add_block(src, p, p.at + 7, one, two, pool, page);
    }
    if stands(src, p.at, b"op=used\n") {
        return used_block(src, p, p.at + 8, two);
    }
    if stands(src, p.at, b"op=pop\n") {
        return pop_block(src, p, p.at + 7, one, two, pool, page);
    }
    Err(0)
}

// Blocks until the text ends or a line is wrong; answers how much was printed by then. No text has more blocks than bytes.
fn all_blocks(
    src: &[u8],
    start: Played,
    one: &mut [u8],
    two: &mut [u8],
    pool: &mut [u8],
    page: &mut Page,
)
    requires src_len_bound { (length src.now ≤ 32768) × (start.line ≤ 4) }
    requires sized { Sized start two.old }
    ensures wrote { (before : List ℕ) (q : Play)
        → Plays before page.old start (memory one.old two.old pool.old) q
        → Has before page.new (blocks_is (length src.now) src.now q).said }
    ensures loan { SameLoan page.old page.new }
{
    let mut p = start;
    for _turn in 0..src.len() {
        if src.len() <= p.at {
            break;
        }
        match block(src, p, one, two, pool, page) {
            Ok(next) => p = next,
            Err(k) => {
                page.field(b"bad=", (p.line + k) as u64);
                return;
            }
        }
    }
}

// Zeros are made by a function of their own, so that no proof computes with so many.
fn room<const N: usize>() -> [u8; N]
    ensures { result ≡ replicate N 0 }
{
    [0; N]
}

// Makes the queue, and runs the blocks that follow the header.
fn run(
    src: &[u8],
    n: u16,
    modes: Modes,
    at: usize,
    one: &mut [u8],
    two: &mut [u8],
    pool: &mut [u8],
    page: &mut Page,
)
    requires n_value { (size_ok n ≡ true) × (modes.legacy ≡ false) × (length src.now ≤ 32768) }
    requires pool_value { memory one.old two.old pool.old ≡ zeros modes.indirect n }
    ensures wrote { (before text : List ℕ)
        → Has before page.old text
        → Has before page.new (blocks_is (length src.now) src.now
        (opened n modes.indirect modes.event_idx at text)).said }
    ensures loan { SameLoan page.old page.new }
{
    let ask = Ask {
        n: n as u32,
        in_use: false,
        most: n as u32,
        modes,
        base_one: 0,
        base_two: 0,
        base_pool: 0,
    };
    let start = Played {
        queue: Queue::new(ask, one, two, pool).queue,
        size: n,
        at,
        line: 4,
    };
    all_blocks(src, start, one, two, pool, page);
}

// How many bytes of pool the modes need.
fn pool_need(indirect: bool, n: u16) -> usize
    ensures { result ≡ cond indirect (need_pool n) 0 }
{
    if indirect { need_pool(n) } else { 0 }
}

// Lends the memory that the layout needs.
fn lent(src: &[u8], n: u16, modes: Modes, at: usize, page: &mut Page)
    requires { (size_ok n ≡ true) × (modes.legacy ≡ false) × (length src.now ≤ 32768) }
    ensures wrote { (before text : List ℕ)
        → Has before page.old text
        → Has before page.new (blocks_is (length src.now) src.now
        (opened n modes.indirect modes.event_idx at text)).said }
    ensures loan { SameLoan page.old page.new }
{
    let mut one = room::<1158>();
    let mut two = room::<518>();
    let mut pool = room::<65536>();
    let one_len = need_one(false, n);
    let two_len = need_two(false, n);
    let pool_len = pool_need(modes.indirect, n);
    run(
        src,
        n,
        modes,
        at,
        &mut one[..one_len],
        &mut two[..two_len],
        &mut pool[..pool_len],
        page,
    );
}

// The size in the header's first line, if it is one that new takes.
fn size_at(src: &[u8]) -> Option<Number>
    ensures { result ≡ told_sized (field_is word_size 65535 src.now 0) }
{
    let size = field(src, 0, b"size=", u64::from(u16::MAX))?;
    if size_ok(size.value as u16) {
        Some(size)
    } else {
        None
    }
}

// The header, and then the blocks.
fn replayed(src: &[u8], page: &mut Page)
    requires { length src.now ≤ 32768 }
    ensures wrote { (before : List ℕ) → Has before page.old [] → Has before page.new (replayed_is src.now) }
    ensures loan { SameLoan page.old page.new }
{
    let Some(n) = size_at(src) else {
        page.field(b"bad=", 1);
        return;
    };
    page.field(b"size=", n.value);
    let Some(i) = field(src, n.at, b"indirect=", 1) else {
        page.field(b"bad=", 2);
        return;
    };
    page.field(b"indirect=", i.value);
    let Some(e) = field(src, i.at, b"event=", 1) else {
        page.field(b"bad=", 3);
        return;
    };
    page.field(b"event=", e.value);
    let modes = Modes {
        indirect: i.value == 1,
        event_idx: e.value == 1,
        legacy: false,
    };
    lent(src, n.value as u16, modes, e.at, page);
}

// Reads a replay and writes what it prints, as far as there is room; answers how many bytes that is.
pub fn replay(src: &[u8], out: &mut [u8]) -> usize
    ensures { Written out.old out.new result (transcript src.now) }
{
    let mut page = Page {
        bytes: out,
        said: 0,
    };
    if 32768 < src.len() {
        page.field(b"bad=", 0);
        return page.said;
    }
    replayed(src, &mut page);
    page.said
}

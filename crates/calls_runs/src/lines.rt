// What is printed of an answer: a line of numbers, among them sums of the memory and of the private tables, and where asked for the bytes.
ghost use Rattle.std.specs.Prelude.{◌≤◌};

use crate::lending::{Lent, Memory, Show};
use print::{Page, write_first};
use record::{Answer, Queue, number_of};
use std::io;
use std::io::Write;

// The sums of a line: of regions one and two, the shadow table, the live lists, the pool, and the rest of the tables.
#[derive(Clone, Copy)]
struct Sums {
    memory: u64,
    shadow: u64,
    lists: u64,
    pool: u64,
    kept: u64,
}

// One more number in a sum that tells the places of its numbers.
fn mixed<X: Into<u64>>(total: u64, x: X) -> u64 {
    (total % 4294967291 * 1000003 + x.into() % 4294967291) % 4294967291
}

// The sum goes on over the bytes.
pub fn sum_bytes(start: u64, bytes: &[u8]) -> u64 {
    bytes.iter().fold(start, |total, byte| mixed(total, *byte))
}

// A sum of the first n descriptors of the shadow table.
fn sum_shadow(n: usize, queue: &Queue) -> u64 {
    let mut total = 0;
    for i in 0..n.min(64) {
        total = mixed(total, queue.words[i]);
        total = mixed(total, queue.lens[i]);
        total = mixed(total, queue.halves[64 + i]);
        total = mixed(total, queue.halves[i]);
    }
    total
}

// The bytes of a head's list in the pool of a queue of size n.
fn list_bytes(n: usize) -> usize
    ensures { result ≤ 1024 }
{
    if n < 65 { 16 * n } else { 0 }
}

// A sum of the live lists: the pool's bytes that an outstanding indirect head names.
fn sum_lists(n: usize, queue: &Queue, pool: &[u8]) -> u64 {
    let size = list_bytes(n);
    let mut total = 0;
    for i in 0..n.min(64) {
        if queue.halves[128 + i] != 0 && queue.halves[64 + i] == 4 {
            let list = pool.get(i * size..).unwrap_or(&[]);
            let named = list.iter().take(queue.lens[i] as usize);
            total = named.fold(total, |total, byte| mixed(total, *byte));
        }
    }
    total
}

// A sum of the noted lengths.
fn sum_noted(n: usize, queue: &Queue) -> u64 {
    let noted = queue.halves[128..].iter().take(n);
    noted.fold(0, |total, len| mixed(total, *len))
}

// How many entries the private lists of a queue of size n have.
fn entries(n: usize) -> usize
    ensures { result ≤ 4096 }
{
    if n < 65 { n * n } else { 0 }
}

// The sum goes on over the private lists' n * n entries.
fn sum_kept(start: u64, n: usize, queue: &Queue) -> u64 {
    let mut total = start;
    for i in 0..entries(n) {
        total = mixed(total, queue.words[64 + i]);
        total = mixed(total, queue.lens[64 + i]);
        total = mixed(total, queue.sides[i]);
    }
    total
}

// The sums of the record's tables, and of the memory that they tell of; the last two only where all is shown.
fn sums_of(queue: &Queue, lent: Lent, memory: &Memory) -> Sums {
    let n = usize::from(queue.core.n);
    let (size, bytes) = match lent.show {
        Show::All => (n, lent.pool),
        _ => (0, 0),
    };
    let one = sum_bytes(0, &memory.one[..lent.one]);
    Sums {
        memory: sum_bytes(one, &memory.two[..lent.two]),
        shadow: sum_shadow(n, queue),
        lists: sum_lists(n, queue, &memory.pool),
        pool: sum_bytes(0, &memory.pool[..bytes]),
        kept: sum_kept(sum_noted(size, queue), size, queue),
    }
}

// Writes the bytes of a region.
fn dump<W: Write>(to: &mut W, bytes: &[u8]) -> io::Result<()> {
    for byte in bytes {
        write!(to, "{byte:02x}")?;
    }
    writeln!(to)
}

// Puts numbers behind what is there, each with a space in front.
fn put_numbers(page: &mut Page, numbers: &[u64]) {
    for number in numbers {
        page.text(b" ");
        page.number(*number);
    }
}

// Writes a line in one go, since standard output has no buffer: 21 numbers have at most 441 bytes.
fn print_numbers<W: Write>(
    to: &mut W,
    first: u64,
    numbers: &[u64],
    tail: &[u64],
) -> io::Result<()> {
    let mut space = [0u8; 500];
    let mut page = Page {
        bytes: &mut space,
        said: 0,
    };
    page.number(first);
    put_numbers(&mut page, numbers);
    put_numbers(&mut page, tail);
    page.text(b"\n");
    let end = page.said;
    write_first(to, &space, end)
}

// The line of an answer: the operation's number, answer and value, the record's plain numbers, what available_desc says, and the sums; and the tail,
// numbers that only some operations have. The last four numbers before the tail are those that the crate can't tell.
pub fn line<W: Write>(
    to: &mut W,
    operation: u64,
    r: &Answer,
    tail: &[u64],
    lent: Lent,
    memory: &Memory,
) -> io::Result<()> {
    let core = r.queue.core;
    let told = r.queue.available_desc();
    let sums = sums_of(&r.queue, lent, memory);
    let numbers = [
        u64::from(r.number()),
        u64::from(r.value()),
        u64::from(core.free_head),
        u64::from(core.num_used),
        u64::from(core.avail_idx),
        u64::from(core.last_used_idx),
        u64::from(told.unwrap_or(0)),
        sums.memory,
        sums.shadow,
        sums.lists,
        u64::from(r.steps),
        u64::from(number_of(&told)),
        sums.pool,
        sums.kept,
    ];
    let shown = match lent.show {
        Show::All => 14,
        _ => 10,
    };
    print_numbers(to, operation, &numbers[..shown], tail)?;
    if lent.show == Show::Bytes {
        dump(to, &memory.one[..lent.one])?;
        dump(to, &memory.two[..lent.two])?;
        dump(to, &memory.pool[..lent.pool])?;
    }
    Ok(())
}

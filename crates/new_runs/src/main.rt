// Runs new over every size, layout and mode, over lent memory that is one byte short, off a page or at the top of the address space, and over what it
// refuses before it looks at memory. Each line says what was asked, what was answered, and sums of the bytes that the regions then hold.
#![tactic(auto)]

use console::print_word;
use record::{Ask, Made, Queue, number_of};
use rules::Modes;
use std::io;
use std::io::Write;
use wellformed::Clause;

// Every size that a queue may have.
const SIZES: [u16; 7] = [1, 2, 4, 8, 16, 32, 64];

// Numbers that new is asked for a size by: some are none.
const ASKED: [u32; 8] = [0, 3, 63, 64, 65, 128, 65536, u32::MAX];

const TOP: u64 = 18446744073709547520; // 2^64 - 4096

// What is lent: how many bytes of each region and of the pool.
#[derive(Clone, Copy)]
struct Lent {
    one: usize,
    two: usize,
    pool: usize,
}

// A sum of bytes that tells their places.
fn sum(bytes: &[u8]) -> u64 {
    let mut total = 0;
    for byte in bytes {
        total = (total * 31 + u64::from(*byte)) % 1000000007;
    }
    total
}

// What was asked, what was answered, and the sums of the two regions.
fn line<W: Write>(
    to: &mut W,
    label: &str,
    ask: Ask,
    made: &Made,
    one: u64,
    two: u64,
) -> io::Result<()> {
    let places = made.outcome.unwrap_or_default();
    let noted = made.queue.core.modes;
    let broken = made.queue.broken().err().map_or(0, Clause::number);
    let free = made.queue.available_desc();
    to.write_all(label.as_bytes())?;
    print_word(to, b" n=", u64::from(ask.n))?;
    print_word(to, b" legacy=", u64::from(ask.modes.legacy))?;
    print_word(to, b" indirect=", u64::from(ask.modes.indirect))?;
    print_word(to, b" event=", u64::from(ask.modes.event_idx))?;
    print_word(to, b" answer=", u64::from(number_of(&made.outcome)))?;
    print_word(to, b" table=", places.table)?;
    print_word(to, b" avail=", places.avail)?;
    print_word(to, b" used=", places.used)?;
    print_word(to, b" one=", one)?;
    print_word(to, b" two=", two)?;
    print_word(to, b" modes=", u64::from(noted.indirect))?;
    print_word(to, b",", u64::from(noted.event_idx))?;
    print_word(to, b",", u64::from(noted.legacy))?;
    print_word(to, b" base=", made.queue.core.base)?;
    print_word(to, b" broken=", u64::from(broken))?;
    print_word(to, b" desc=", u64::from(number_of(&free)))?;
    print_word(to, b",", u64::from(free.unwrap_or(0)))?;
    to.write_all(b"\n")
}

// One call over regions that hold 170 everywhere, of which as much is lent as there is.
fn run<W: Write>(to: &mut W, label: &str, ask: Ask, lent: Lent) -> io::Result<()> {
    let mut one = [170u8; 8193];
    let mut two = [170u8; 1024];
    let pool = [170u8; 65536];
    let Some(one_lent) = one.get_mut(..lent.one) else {
        return Ok(());
    };
    let Some(two_lent) = two.get_mut(..lent.two) else {
        return Ok(());
    };
    let Some(pool_lent) = pool.get(..lent.pool) else {
        return Ok(());
    };
    let made = Queue::new(ask, one_lent, two_lent, pool_lent);
    line(to, label, ask, &made, sum(&one), sum(&two))
}

// The memory that a queue needs, exactly.
fn needed(n: u16, legacy: bool, indirect: bool) -> Lent {
    Lent {
        one: layout::need_one(legacy, n),
        two: layout::need_two(legacy, n),
        pool: if indirect { layout::need_pool(n) } else { 0 },
    }
}

// A queue of this size and these modes, with good bases.
fn ask(n: u32, legacy: bool, indirect: bool) -> Ask {
    Ask {
        n,
        in_use: false,
        most: 256,
        modes: Modes {
            indirect,
            event_idx: false,
            legacy,
        },
        base_one: 8192,
        base_two: 20480,
        base_pool: 65536,
    }
}

// A size, a layout and a mode: good, with event indices too; region one a byte longer, and each region and the pool a byte shorter than needed; and
// each base off its page and at the top of the address space.
fn memory_runs<W: Write>(to: &mut W, n: u16, legacy: bool, indirect: bool) -> io::Result<()> {
    let good = ask(u32::from(n), legacy, indirect);
    let need = needed(n, legacy, indirect);
    run(to, "good", good, need)?;
    let modes = Modes {
        event_idx: true,
        ..good.modes
    };
    run(to, "events", Ask { modes, ..good }, need)?;
    length_runs(to, good, need)?;
    base_runs(to, good, need)?;
    top_runs(to, good, need)
}

// Region one a byte longer, and each region and the pool a byte shorter than needed.
fn length_runs<W: Write>(to: &mut W, good: Ask, need: Lent) -> io::Result<()> {
    if need.one < 8193 {
        let one = need.one + 1;
        run(to, "one+1", good, Lent { one, ..need })?;
    }
    if let Some(one) = need.one.checked_sub(1) {
        run(to, "one-1", good, Lent { one, ..need })?;
    }
    if let Some(two) = need.two.checked_sub(1) {
        run(to, "two-1", good, Lent { two, ..need })?;
    }
    if let Some(pool) = need.pool.checked_sub(1) {
        run(to, "pool-1", good, Lent { pool, ..need })?;
    }
    Ok(())
}

// Each base off its page.
fn base_runs<W: Write>(to: &mut W, good: Ask, need: Lent) -> io::Result<()> {
    run(
        to,
        "one off",
        Ask {
            base_one: 8193,
            ..good
        },
        need,
    )?;
    run(
        to,
        "two off",
        Ask {
            base_two: 20481,
            ..good
        },
        need,
    )?;
    run(
        to,
        "pool off",
        Ask {
            base_pool: 65537,
            ..good
        },
        need,
    )
}

// Each base at the last page, and region one so that whole pages end at 2^64; and the runs of a pool that ends there.
fn top_runs<W: Write>(to: &mut W, good: Ask, need: Lent) -> io::Result<()> {
    run(
        to,
        "one top",
        Ask {
            base_one: TOP,
            ..good
        },
        need,
    )?;
    run(
        to,
        "one end",
        Ask {
            base_one: TOP - 4096,
            ..good
        },
        need,
    )?;
    run(
        to,
        "two top",
        Ask {
            base_two: TOP,
            ..good
        },
        need,
    )?;
    run(
        to,
        "pool top",
        Ask {
            base_pool: TOP,
            ..good
        },
        need,
    )?;
    end_runs(to, good, need)
}

// Where the need is whole pages, the pool so that it ends at 2^64, and a page above that.
fn end_runs<W: Write>(to: &mut W, good: Ask, need: Lent) -> io::Result<()> {
    if 4096 < need.pool && need.pool <= 65536 {
        let end = TOP - need.pool as u64 + 4096;
        run(
            to,
            "pool end",
            Ask {
                base_pool: end,
                ..good
            },
            need,
        )?;
        run(
            to,
            "pool above",
            Ask {
                base_pool: end + 4096,
                ..good
            },
            need,
        )?;
    }
    Ok(())
}

// What is refused before memory is looked at, and in which order.
fn question_runs<W: Write>(to: &mut W, n: u32) -> io::Result<()> {
    let lent = Lent {
        one: 8192,
        two: 1024,
        pool: 65536,
    };
    let plain = ask(n, false, true);
    run(to, "size", plain, lent)?;
    let busy = Ask {
        in_use: true,
        most: 0,
        ..plain
    };
    run(to, "in use", busy, lent)?;
    let small = Ask {
        most: 63,
        base_one: 1,
        ..plain
    };
    run(to, "most", small, lent)
}

fn main(rt: HostRuntime) -> io::Result<()> {
    let mut out = rt.stdout();
    for n in SIZES {
        for legacy in [false, true] {
            for indirect in [false, true] {
                memory_runs(&mut out, n, legacy, indirect)?;
            }
        }
    }
    for n in ASKED {
        question_runs(&mut out, n)?;
    }
    Ok(())
}

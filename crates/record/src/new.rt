// The call new: what it refuses, what it clears and links in the lent memory, and the fresh record.
ghost use Rattle.std.specs.Prelude.{◌≡◌, cond, [], ◌≤◌, ◌<◌, ◌^◌, length};
ghost use Rattle.virtio.specs.Layout.{need_one, need_two};
ghost use Rattle.rules.specs.Refused.{result_number};
ghost use Rattle.rules.specs.New.{zero_queue, fresh_queue, clear_used, clear_front, used_base, new_refusal, regions_ok, lends, new};
ghost use Rattle.access.specs.Accesses.{memory};
ghost use Rattle.record.specs.Abs.{abs};
ghost use Rattle.record.specs.Asked.{ask_of, made_of};

use crate::{Ask, Made, Places, Queue};
use fresh::{clear, link_nexts, link_table};
use heads::{base_ok, size_ok};
use layout::{avail_at, avail_size, need_one, need_pool, need_two, table_size, used_at, used_size};
use rules::{Modes, Open, Refusal};
use views::Core;

// Whether a region of this length at this base does for a need.
fn lends(base: u64, size: usize, have: usize) -> bool
    ensures { result ≡ lends base size have }
{
    size <= have && base_ok(base, size as u64)
}

// Whether what is lent does, of what the layout and the modes need.
fn regions_ok(a: Ask, one: usize, two: usize, pool: usize) -> bool
    requires { a.n ≤ 64 }
    ensures { result ≡ regions_ok (ask_of a) one two pool }
{
    let n = a.n as u16;
    lends(a.base_one, need_one(a.modes.legacy, n), one)
        && (a.modes.legacy || lends(a.base_two, need_two(false, n), two))
        && (!a.modes.indirect || lends(a.base_pool, need_pool(n), pool))
}

// Whether new may take the queue into use, by what is asked and how much is lent.
fn may_make(a: Ask, one: usize, two: usize, pool: usize) -> Result<(), Refusal>
    ensures { result_number result ≡ new_refusal (ask_of a) one two pool }
{
    if 64 < a.n || !size_ok(a.n as u16) {
        return Err(Refusal::BadSize);
    }
    if a.in_use {
        return Err(Refusal::AlreadyUsed);
    }
    if a.most < a.n {
        return Err(Refusal::InvalidParam);
    }
    if !regions_ok(a, one, two, pool) {
        return Err(Refusal::BadRegion);
    }
    Ok(())
}

// The all-zero record.
fn zero_queue() -> Queue
    ensures { abs result ≡ zero_queue }
{
    Queue {
        core: Core {
            n: 0,
            modes: Modes {
                indirect: false,
                event_idx: false,
                legacy: false,
            },
            base: 0,
            num_used: 0,
            free_head: 0,
            avail_idx: 0,
            last_used_idx: 0,
            call: Open::Idle,
        },
        words: [0; 4160],
        lens: [0; 4160],
        halves: [0; 192],
        sides: [false; 4096],
    }
}

// A record with nothing outstanding, its n descriptors linked in rising order.
fn fresh_queue(a: Ask) -> Queue
    requires { a.n ≤ 64 }
    ensures { abs result ≡ fresh_queue (ask_of a) }
{
    let n = a.n as u16;
    let mut halves = [0u16; 192];
    link_nexts(&mut halves, n);
    let core = Core {
        n,
        modes: a.modes,
        base: pool_base(a.modes.indirect, a.base_pool),
        num_used: 0,
        free_head: 0,
        avail_idx: 0,
        last_used_idx: 0,
        call: Open::Idle,
    };
    Queue {
        core,
        words: [0; 4160],
        lens: [0; 4160],
        halves,
        sides: [false; 4096],
    }
}

// The pool's base that a fresh record notes.
fn pool_base(indirect: bool, base: u64) -> u64
    ensures { result ≡ cond indirect base 0 }
{
    if indirect { base } else { 0 }
}

// Clears table, rings, and links the table; all other bytes stay.
fn clear_parts(one: &mut [u8], two: &mut [u8], legacy: bool, n: u16)
    requires n_in_bounds { need_one legacy n ≤ length one.old }
    requires n_in_bounds_2 { need_two legacy n ≤ length two.old }
    ensures { memory one.new two.new [] ≡ clear_used legacy n (clear_front n (memory one.old two.old [])) }
{
    clear(one, 0, table_size(n) + avail_size(n));
    link_table(one, n);
    if legacy {
        clear(one, used_at(legacy, n), used_size(n));
    } else {
        clear(two, used_at(legacy, n), used_size(n));
    }
}

// The used ring's address.
fn used_base(a: Ask) -> u64
    requires n_bound { a.n ≤ 64 }
    requires a_bound { used_base (ask_of a) < 2 ^ 64 }
    ensures { result ≡ used_base (ask_of a) }
{
    let n = a.n as u16;
    if a.modes.legacy {
        a.base_one + (used_at(true, n) as u64)
    } else {
        a.base_two + (used_at(false, n) as u64)
    }
}

impl Queue {
    // Takes a queue into use: checks what is lent, clears and links it, and answers the addresses for the transport.
    pub fn new(ask: Ask, one: &mut [u8], two: &mut [u8], pool: &[u8]) -> Made
        ensures { made_of result (memory one.new two.new pool.now) ≡ new (ask_of ask) (memory one.old two.old pool.now) }
    {
        if let Err(refusal) = may_make(ask, one.len(), two.len(), pool.len()) {
            return Made {
                outcome: Err(refusal),
                queue: zero_queue(),
            };
        }
        let n = ask.n as u16;
        clear_parts(one, two, ask.modes.legacy, n);
        let places = Places {
            table: ask.base_one,
            avail: ask.base_one + (avail_at(n) as u64),
            used: used_base(ask),
        };
        Made {
            outcome: Ok(places),
            queue: fresh_queue(ask),
        }
    }
}

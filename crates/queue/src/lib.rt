// The queue's calls over lent words and bytes (document 01, "Rules of the calls", "Step by step", "When the queue says no"): refusals in their order,
// openings, runs with a budget, and whole calls; crate asks has those of a single step. The record with its tables inside (crate record) lends them to these.
#![tactic(auto)]

ghost use Rattle.std.specs.Prelude.{◌≡◌};
ghost use Rattle.rules.specs.Step.{move};
ghost use Rattle.rules.specs.Calls.{open_add, open_pop, open_peek, moves as moves_is, run as run_is, whole, add as add_is, pop_used, peek_used, opened as opened_is};
ghost use Rattle.views.specs.Tables.{queue_of};
ghost use Rattle.tables.specs.Lent.{tables_read, tables_held, SameLoan};
ghost use Rattle.tables.specs.Ready.{ReadyHeld, Fitting};
ghost use Rattle.wellformed.specs.Room.{HasRoom};
ghost use Rattle.access.specs.Accesses.{memory};
ghost use Rattle.asks.specs.Outcomes.{done_of};
ghost use Rattle.queue.specs.Outcomes.{stepped_of, Going};

use access::{next_access, perform};
use asks::{Done, may_begin};
use opens::matches;
use react::{Reacted, react};
use refusals::{fits, is_open, may_add, may_step};
use rules::Open;
use tables::{TablesMut, TablesRef};
use views::Core;
use virtio::Buffer;

// Regions one and two and the pool are three parameters and no struct: which of them is lent to be written differs from call to call.

// ---- openings

// Opens an add: everything is checked, and the private record updated but for avail_idx.
pub fn open_add(
    c: Core,
    t: &mut TablesMut,
    list: &[Buffer],
    one: &[u8],
    two: &[u8],
    pool: &[u8],
) -> Done
    requires { HasRoom c t.old.room }
    ensures opened { done_of result (tables_held t.new) (memory one.now two.now pool.now) ≡ open_add (queue_of c (tables_held t.old)) (memory one.now two.now pool.now) list.now }
    ensures same_loan { SameLoan t.old t.new }
{
    let fit = fits(c, one.len(), two.len(), pool.len());
    match may_add(c, &t.read(), fit, list) {
        Err(refusal) => Done::refused(c, refusal),
        Ok(()) => Done::opened(opens::open_add(c, t, list)),
    }
}

// Opens a pop: it keeps the token and whether the list is the one that was added.
pub fn open_pop(
    c: Core,
    t: &TablesRef,
    token: u32,
    list: &[Buffer],
    one: &[u8],
    two: &[u8],
    pool: &[u8],
) -> Done
    requires { HasRoom c t.now.room }
    ensures { done_of result (tables_read t.now) (memory one.now two.now pool.now) ≡ open_pop (queue_of c (tables_read t.now)) (memory one.now two.now pool.now) token list.now }
{
    match may_begin(c, t, one, two, pool) {
        Err(refusal) => Done::refused(c, refusal),
        Ok(()) => {
            let matched = matches(c, t, token, list);
            let call = Open::PopIdx { token, matched };
            Done::opened(Core { call, ..c })
        }
    }
}

// Opens a peek.
pub fn open_peek(c: Core, t: &TablesRef, one: &[u8], two: &[u8], pool: &[u8]) -> Done
    requires { HasRoom c t.now.room }
    ensures { done_of result (tables_read t.now) (memory one.now two.now pool.now) ≡ open_peek (queue_of c (tables_read t.now)) (memory one.now two.now pool.now) }
{
    match may_begin(c, t, one, two, pool) {
        Err(refusal) => Done::refused(c, refusal),
        Ok(()) => Done::opened(Core {
            call: Open::PeekIdx,
            ..c
        }),
    }
}

// ---- steps and runs

// One step of the open call: its access, and what becomes of the record.
fn step(c: Core, t: &mut TablesMut, one: &mut [u8], two: &[u8], pool: &mut [u8]) -> Reacted
    requires ready { ReadyHeld c t.old }
    requires fitting { Fitting c one.old two.now pool.old }
    ensures moved { stepped_of result (tables_held t.new) (memory one.new two.now pool.new) ≡ move (queue_of c (tables_held t.old)) (memory one.old two.now pool.old) }
    ensures same_loan { SameLoan t.old t.new }
{
    let access = next_access(c, &t.read());
    let number = perform(c, access, one, two, pool);
    react(c, t, number)
}

// At most `budget` steps, while a call is open.
fn moves(
    c: Core,
    t: &mut TablesMut,
    one: &mut [u8],
    two: &[u8],
    pool: &mut [u8],
    budget: u32,
) -> Done
    requires ready { ReadyHeld c t.old }
    requires fitting { Fitting c one.old two.now pool.old }
    ensures moved { done_of result (tables_held t.new) (memory one.new two.now pool.new) ≡ moves_is budget (opened_is (queue_of c (tables_held t.old)) (memory one.old two.now pool.old)) }
    ensures same_loan { SameLoan t.old t.new }
{
    let mut done = Done::opened(c);
    for _ in 0..budget {
        if !is_open(done.core.call) {
            return done;
        }
        let stepped = step(done.core, t, one, two, pool);
        done = Done {
            core: stepped.core,
            outcome: stepped.outcome,
            steps: done.steps + 1,
        };
    }
    done
}

// A run with a budget: the lesser of it and the steps left, and that number is reported.
pub fn run(
    c: Core,
    t: &mut TablesMut,
    one: &mut [u8],
    two: &[u8],
    pool: &mut [u8],
    budget: u32,
) -> Done
    requires { HasRoom c t.old.room }
    ensures moved { done_of result (tables_held t.new) (memory one.new two.now pool.new) ≡ run_is budget (queue_of c (tables_held t.old)) (memory one.old two.now pool.old) }
    ensures same_loan { SameLoan t.old t.new }
{
    let fit = fits(c, one.len(), two.len(), pool.len());
    match may_step(c, &t.read(), fit) {
        Err(refusal) => Done::refused(c, refusal),
        Ok(()) => moves(c, t, one, two, pool, budget),
    }
}

// ---- whole calls: the record is checked once, at the opening

// All the steps of a call that was just opened, or its refusal.
fn finish(
    n: u16,
    opened: Done,
    t: &mut TablesMut,
    one: &mut [u8],
    two: &[u8],
    pool: &mut [u8],
) -> Done
    requires { Going opened t.old one.old two.now pool.old }
    ensures moved { done_of result (tables_held t.new) (memory one.new two.now pool.new) ≡ whole n (done_of opened (tables_held t.old) (memory one.old two.now pool.old)) }
    ensures same_loan { SameLoan t.old t.new }
{
    match opened.outcome {
        Err(_) => opened,
        Ok(_) => moves(opened.core, t, one, two, pool, u32::from(n) + 4),
    }
}

// Adds a list of buffers; the value is the token.
pub fn add(
    c: Core,
    t: &mut TablesMut,
    list: &[Buffer],
    one: &mut [u8],
    two: &[u8],
    pool: &mut [u8],
) -> Done
    requires { HasRoom c t.old.room }
    ensures done { done_of result (tables_held t.new) (memory one.new two.now pool.new) ≡ add_is (queue_of c (tables_held t.old)) (memory one.old two.now pool.old) list.now }
    ensures same_loan { SameLoan t.old t.new }
{
    let opened = open_add(c, t, list, one, two, pool);
    finish(c.n, opened, t, one, two, pool)
}

// Pops the token's list; the value is the device's length.
pub fn pop_used(
    c: Core,
    t: &mut TablesMut,
    token: u32,
    list: &[Buffer],
    one: &mut [u8],
    two: &[u8],
    pool: &mut [u8],
) -> Done
    requires { HasRoom c t.old.room }
    ensures done { done_of result (tables_held t.new) (memory one.new two.now pool.new) ≡ pop_used (queue_of c (tables_held t.old)) (memory one.old two.now pool.old) token list.now }
    ensures same_loan { SameLoan t.old t.new }
{
    let opened = open_pop(c, &t.read(), token, list, one, two, pool);
    finish(c.n, opened, t, one, two, pool)
}

// The token that the device gave back next.
pub fn peek_used(c: Core, t: &mut TablesMut, one: &mut [u8], two: &[u8], pool: &mut [u8]) -> Done
    requires { HasRoom c t.old.room }
    ensures done { done_of result (tables_held t.new) (memory one.new two.now pool.new) ≡ peek_used (queue_of c (tables_held t.old)) (memory one.old two.now pool.old) }
    ensures same_loan { SameLoan t.old t.new }
{
    let opened = open_peek(c, &t.read(), one, two, pool);
    finish(c.n, opened, t, one, two, pool)
}

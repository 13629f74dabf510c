// What becomes of the record when the open call has made its access (document 01, "Step by step"): the call goes on, or it ends with a value or a
// refusal; at a pop's third load all checks are made and the token's chain is freed.
#![tactic(auto)]

ghost use Rattle.std.specs.Prelude.{◌≡◌, cond, Ok, ◌+◌, ◌*◌, ◌<◌, ◌≤◌, eqb};
ghost use Rattle.virtio.specs.Desc.{has_indirect};
ghost use Rattle.rules.specs.declared.Open.TheVariants.{Idle, Add, PopLen, PopStore};
ghost use Rattle.rules.specs.Answer.{NotReady};
ghost use Rattle.rules.specs.Record.{Tables, size_of};
ghost use Rattle.rules.specs.WellFormed.{steps_of_stores};
ghost use Rattle.rules.specs.Refused.{result_number};
ghost use Rattle.rules.specs.Step.{will_go_on, ends as ends_with, verdict as verdict_is, react as react_is};
ghost use Rattle.views.specs.Tables.{queue_of};
ghost use Rattle.tables.specs.Lent.{tables_read, tables_held, SameLoan};
ghost use Rattle.tables.specs.Ready.{ReadyHeld};
ghost use Rattle.react.specs.Reactions.{called, published, reacted_of};

mod freeing;

use freeing::free_chain;
use indices::after;
use rules::{Open, Refusal};
use tables::{TablesMut, TablesRef};
use views::Core;
use virtio::Desc;

// The plain fields after a step, and what the call answers: 0 while it goes on.
#[derive(Clone, Copy)]
pub struct Reacted {
    pub core: Core,
    pub outcome: Result<u32, Refusal>,
}

// The fields with another open call.
pub fn with_call(c: Core, call: Open) -> Core
    ensures { result ≡ called c call }
{
    Core { call, ..c }
}

// The call goes on.
fn goes_on(c: Core, call: Open) -> Reacted
    ensures { result ≡ record { core = called c call; outcome = Ok 0 } }
{
    Reacted {
        core: with_call(c, call),
        outcome: Ok(0),
    }
}

// The call ends with this value or refusal.
fn ends(c: Core, outcome: Result<u32, Refusal>) -> Reacted
    ensures { result ≡ record { core = called c Idle; outcome = outcome } }
{
    Reacted {
        core: with_call(c, Open::Idle),
        outcome,
    }
}

// The fields with avail_idx counted on.
fn publish(c: Core) -> Core
    ensures { result ≡ published c }
{
    Core {
        avail_idx: after(c.avail_idx),
        ..c
    }
}

// After a store of an add of `size` buffers.
fn add_stored(c: Core, size: u32, head: u16, step: u16) -> Reacted
    requires { (step < size + 3) × (size ≤ 64) }
    ensures { (t : Tables) → size ≡ size_of (queue_of c t) head → reacted_of result t ≡ react_is (queue_of c t) (Add head step) 0 }
{
    if (step as u32) + 1 < size + 3 {
        goes_on(
            c,
            Open::Add {
                head,
                step: step + 1,
            },
        )
    } else {
        ends(publish(c), Ok(head as u32))
    }
}

// After the load of used idx: nothing was used since, or the call goes on as `next`.
fn saw_idx(c: Core, idx: u32, next: Open) -> Reacted
    ensures { (t : Tables) → reacted_of result t ≡ cond (eqb idx c.last_used_idx) (ends_with (queue_of c t) NotReady 0) (will_go_on (queue_of c t) next) }
{
    if idx == c.last_used_idx as u32 {
        ends(c, Err(Refusal::NotReady))
    } else {
        goes_on(c, next)
    }
}

// How many stores a pop of so many descriptors makes.
fn store_steps(event: bool, count: u16) -> u16
    requires { count ≤ 64 }
    ensures { result ≡ steps_of_stores event count }
{
    if event { count + 1 } else { count }
}

// After a store of a pop.
fn pop_stored(c: Core, count: u16, step: u16, len: u32) -> Reacted
    requires { (count ≤ 64) × (step ≤ 64) }
    ensures { (t : Tables) → reacted_of result t ≡ react_is (queue_of c t) (PopStore count step len) 0 }
{
    if step + 1 < store_steps(c.modes.event_idx, count) {
        goes_on(
            c,
            Open::PopStore {
                count,
                step: step + 1,
                len,
            },
        )
    } else {
        ends(c, Ok(len))
    }
}

// Why a pop is refused at its third load, if it is.
fn verdict(c: Core, t: &TablesRef, token: u32, matched: bool, id: u32) -> Result<(), Refusal>
    requires { c.n ≤ t.now.room }
    ensures { result_number result ≡ verdict_is (queue_of c (tables_read t.now)) token matched id }
{
    if id % 65536 != token {
        return Err(Refusal::WrongToken);
    }
    if token >= c.n as u32 || t.noted_at(token as u16) == 0 {
        return Err(Refusal::NotOutstanding);
    }
    if !matched {
        return Err(Refusal::Mismatch);
    }
    Ok(())
}

// How many descriptors a pop stores of a chain of k with this head: none of an indirect one.
fn stored_count(head: Desc, k: u16) -> u16
    ensures { result ≡ cond (has_indirect head) 0 k }
{
    if head.is_indirect() { 0 } else { k }
}

// After a pop's third load: the checks, and the freeing.
fn pop_saw_len(c: Core, t: &mut TablesMut, token: u32, matched: bool, id: u32, len: u32) -> Reacted
    requires { ReadyHeld c t.old }
    ensures reacted { reacted_of result (tables_held t.new) ≡ react_is (queue_of c (tables_held t.old)) (PopLen token matched id) len }
    ensures same_loan { SameLoan t.old t.new }
{
    if let Err(refusal) = verdict(c, &t.read(), token, matched, id) {
        return ends(c, Err(refusal));
    }
    let head = token as u16;
    let read = t.read();
    let count = stored_count(read.desc_at(head), read.noted_at(head));
    let core = free_chain(c, t, head);
    if store_steps(c.modes.event_idx, count) == 0 {
        ends(core, Ok(len))
    } else {
        goes_on(
            core,
            Open::PopStore {
                count,
                step: 0,
                len,
            },
        )
    }
}

// What becomes of the record when the open call's access gave v.
pub fn react(c: Core, t: &mut TablesMut, v: u32) -> Reacted
    requires { ReadyHeld c t.old }
    ensures reacted { reacted_of result (tables_held t.new) ≡ react_is (queue_of c (tables_held t.old)) c.call v }
    ensures same_loan { SameLoan t.old t.new }
{
    match c.call {
        Open::Idle => Reacted {
            core: c,
            outcome: Ok(0),
        },
        Open::Add { head, step } => add_stored(c, t.read().size_at(head), head, step),
        Open::PopIdx { token, matched } => saw_idx(c, v, Open::PopId { token, matched }),
        Open::PopId { token, matched } => goes_on(
            c,
            Open::PopLen {
                token,
                matched,
                id: v,
            },
        ),
        Open::PopLen { token, matched, id } => pop_saw_len(c, t, token, matched, id, v),
        Open::PopStore { count, step, len } => pop_stored(c, count, step, len),
        Open::PeekIdx => saw_idx(c, v, Open::PeekId),
        Open::PeekId => ends(c, Ok(v % 65536)),
    }
}

// Which refusal a call meets (document 01, "When the queue says no"), in 01's order: the record, the regions, an open call, and for an add its list and the
// room for it.
#![tactic(auto)]

ghost use Rattle.std.specs.Prelude.{◌≡◌, cond};
ghost use Rattle.lists.specs.Pick.{first};
ghost use Rattle.rules.specs.Record.{is_open};
ghost use Rattle.rules.specs.Refused.{refusal_number, result_number};
ghost use Rattle.views.specs.Tables.{queue_of};
ghost use Rattle.tables.specs.Lent.{tables_read};
ghost use Rattle.wellformed.specs.Room.{HasRoom};
ghost use Rattle.rules.specs.Calls.{step_tests, call_tests, add_tests};
ghost use Rattle.refusals.specs.Refusals.{fits_by};

use layout::{need_one, need_pool, need_two};
use opens::{full, in_order, none_empty};
use rules::{Open, Refusal};
use tables::TablesRef;
use views::Core;
use virtio::Buffer;
use wellformed::broken;

// Whether a call is open.
pub fn is_open(call: Open) -> bool
    ensures { result ≡ is_open call }
{
    !matches!(call, Open::Idle)
}

// Whether the lent bytes are as long as layout and mode ask.
pub fn fits(c: Core, one: usize, two: usize, pool: usize) -> bool
    ensures { result ≡ fits_by c one two pool }
{
    need_one(c.modes.legacy, c.n) <= one
        && need_two(c.modes.legacy, c.n) <= two
        && (!c.modes.indirect || need_pool(c.n) <= pool)
}

// Refuses unless this holds.
fn refuse_unless(holds: bool, refusal: Refusal) -> Result<(), Refusal>
    ensures { result_number result ≡ cond holds 0 (refusal_number refusal) }
{
    if holds { Ok(()) } else { Err(refusal) }
}

// Whether a step may be made; `fit`: the lent bytes do.
pub fn may_step(c: Core, t: &TablesRef, fit: bool) -> Result<(), Refusal>
    requires { HasRoom c t.now.room }
    ensures { result_number result ≡ first (step_tests (queue_of c (tables_read t.now)) fit) }
{
    refuse_unless(broken(c, t).is_ok(), Refusal::BadRecord)?;
    refuse_unless(fit, Refusal::BadRegion)
}

// Whether a call may be made, before its own tests.
pub fn may_call(c: Core, t: &TablesRef, fit: bool) -> Result<(), Refusal>
    requires { HasRoom c t.now.room }
    ensures { result_number result ≡ first (call_tests (queue_of c (tables_read t.now)) fit) }
{
    may_step(c, t, fit)?;
    refuse_unless(!is_open(c.call), Refusal::Busy)
}

// Whether an add of the list may be made.
pub fn may_add(c: Core, t: &TablesRef, fit: bool, list: &[Buffer]) -> Result<(), Refusal>
    requires { HasRoom c t.now.room }
    ensures { result_number result ≡ first (add_tests (queue_of c (tables_read t.now)) fit list.now) }
{
    may_call(c, t, fit)?;
    refuse_unless(!list.is_empty(), Refusal::InvalidParam)?;
    refuse_unless(in_order(list), Refusal::InvalidParam)?;
    refuse_unless(!full(c, list.len()), Refusal::QueueFull)?;
    refuse_unless(none_empty(list), Refusal::EmptyBuffer)
}

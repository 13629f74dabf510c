// The queue's calls of a single step over lent words and bytes (document 01, "Rules of the calls", "When the queue says no"), apart from crate queue so that
// an edit of them is soon tried; and what every call over lent words answers.
#![tactic(auto)]

ghost use Rattle.std.specs.Prelude.{◌≡◌, cond, Ok, Err, OnOk};
ghost use Rattle.rules.specs.Refused.{result_number};
ghost use Rattle.rules.specs.Calls.{call_refusal, can_pop, should_notify, set_dev_notify};
ghost use Rattle.views.specs.Tables.{queue_of};
ghost use Rattle.tables.specs.Lent.{tables_read};
ghost use Rattle.tables.specs.Ready.{ReadyRead, Fitting};
ghost use Rattle.wellformed.specs.Room.{HasRoom};
ghost use Rattle.access.specs.Accesses.{memory};
ghost use Rattle.asks.specs.Outcomes.{done_of};

use access::load_used;
use fields::store;
use indices::after;
use layout::avail_at;
use refusals::{fits, may_call};
use rules::Refusal;
use tables::TablesRef;
use views::Core;

// What a call answers: its value or its refusal, and how many loads and stores were made; and the plain fields after it.
#[derive(Clone, Copy)]
pub struct Done {
    pub core: Core,
    pub outcome: Result<u32, Refusal>,
    pub steps: u32,
}

impl Done {
    // A call that is refused before any access.
    pub fn refused(core: Core, refusal: Refusal) -> Done
        ensures { result ≡ record { core = core; outcome = Err refusal; steps = 0 } }
    {
        Done {
            core,
            outcome: Err(refusal),
            steps: 0,
        }
    }

    // A call that has its value after so many steps.
    fn answered(core: Core, steps: u32, value: u32) -> Done
        ensures { result ≡ record { core = core; outcome = Ok value; steps = steps } }
    {
        Done {
            core,
            outcome: Ok(value),
            steps,
        }
    }

    // A call that was just opened.
    pub fn opened(core: Core) -> Done
        ensures { result ≡ record { core = core; outcome = Ok 0; steps = 0 } }
    {
        Done::answered(core, 0, 0)
    }
}

// Whether a call may be made over these bytes, before its own tests.
pub fn may_begin(c: Core, t: &TablesRef, one: &[u8], two: &[u8], pool: &[u8]) -> Result<(), Refusal>
    requires { HasRoom c t.now.room }
    ensures number { result_number result ≡ call_refusal (queue_of c (tables_read t.now)) (memory one.now two.now pool.now) }
    ensures ready { OnOk result (ReadyRead c t.now) }
    ensures fitting { OnOk result (Fitting c one.now two.now pool.now) }
{
    may_call(c, t, fits(c, one.len(), two.len(), pool.len()))
}

// Whether the device has given back a chain: the value is 1 or 0.
pub fn can_pop(c: Core, t: &TablesRef, one: &[u8], two: &[u8], pool: &[u8]) -> Done
    requires { HasRoom c t.now.room }
    ensures { done_of result (tables_read t.now) (memory one.now two.now pool.now) ≡ can_pop (queue_of c (tables_read t.now)) (memory one.now two.now pool.now) }
{
    match may_begin(c, t, one, two, pool) {
        Err(refusal) => Done::refused(c, refusal),
        Ok(()) => {
            let idx: u16 = load_used(c, one, two, 2);
            Done::answered(c, 1, u32::from(idx != c.last_used_idx))
        }
    }
}

// Whether the device asks to be notified: the value is 1 or 0.
pub fn should_notify(c: Core, t: &TablesRef, one: &[u8], two: &[u8], pool: &[u8]) -> Done
    requires { HasRoom c t.now.room }
    ensures { done_of result (tables_read t.now) (memory one.now two.now pool.now) ≡ should_notify (queue_of c (tables_read t.now)) (memory one.now two.now pool.now) }
{
    match may_begin(c, t, one, two, pool) {
        Err(refusal) => Done::refused(c, refusal),
        Ok(()) if c.modes.event_idx => {
            let event: u16 = load_used(c, one, two, 4 + 8 * (c.n as usize));
            Done::answered(c, 1, u32::from(after(event) <= c.avail_idx))
        }
        Ok(()) => {
            let flags: u16 = load_used(c, one, two, 0);
            Done::answered(c, 1, u32::from(flags % 2 == 0))
        }
    }
}

// Tells the device whether to notify; nothing is stored with event indices.
pub fn set_dev_notify(
    c: Core,
    t: &TablesRef,
    wanted: bool,
    one: &mut [u8],
    two: &[u8],
    pool: &[u8],
) -> Done
    requires { HasRoom c t.now.room }
    ensures { done_of result (tables_read t.now) (memory one.new two.now pool.now) ≡ set_dev_notify (queue_of c (tables_read t.now)) (memory one.old two.now pool.now) wanted }
{
    match may_begin(c, t, one, two, pool) {
        Err(refusal) => Done::refused(c, refusal),
        Ok(()) if c.modes.event_idx => Done::answered(c, 0, 0),
        Ok(()) => {
            store(one, avail_at(c.n), not_wanted(wanted));
            Done::answered(c, 1, 0)
        }
    }
}

// The available ring's flags: 1 asks the device to leave notifications.
fn not_wanted(wanted: bool) -> u16
    ensures { result ≡ cond wanted 0 1 }
{
    u16::from(!wanted)
}

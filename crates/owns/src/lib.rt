// The owning queue's own clauses and refusals (document 01, "Owning" in "When the queue says no"), over lent tables: each outstanding chain is its token's own
// buffer, all are outstanding but a held one; and why a call is refused.
#![tactic(auto)]

ghost use Rattle.std.specs.Prelude.{◌≡◌, Some, not, cond, ◌&&◌, ◌||◌, [], ◌∷◌, ◌+◌, ◌*◌, ◌≤◌, ◌<◌, ◌^◌, eqb};
ghost use Rattle.lists.specs.Pick.{first, every, rising, same};
ghost use Rattle.rules.specs.Refused.{result_number};
ghost use Rattle.rules.specs.Record.{outstanding, free_list, buffers_of};
ghost use Rattle.rules.specs.WellFormed.{base_ok as base_ok_is};
ghost use Rattle.rules.specs.Calls.{same_list};
ghost use Rattle.rules.specs.Owning.{own_buffer, size_allowed, own_clause, held_clause, own_broken, own_new_tests, poll_tests, release_tests};
ghost use Rattle.views.specs.Tables.{queue_of};
ghost use Rattle.tables.specs.Lent.{tables_read};
ghost use Rattle.tables.specs.Ready.{ReadyRead};
ghost use Rattle.wellformed.specs.Room.{HasRoom};
ghost use Rattle.owns.specs.Numbers.{own_number_of, own_broken_number};
ghost use Rattle.owns.specs.Owns.{owning_in, lent_tests};

mod clause;

pub use clause::OwnClause;
use heads::base_ok;
use opens::matches;
use refusals::{is_open, may_call};
use rules::{Held, Refusal};
use tables::TablesRef;
use views::Core;
use virtio::Buffer;
use wellformed::broken;

// The buffers of an owning record: the address of their store, the size of each, and which of them the caller holds.
#[derive(Clone, Copy, PartialEq, Eq, Debug)]
pub struct Buffers {
    pub base: u64,
    pub size: u32,
    pub held: Option<Held>,
}

impl Buffers {
    // The buffer of token t.
    pub fn buffer(self, t: u16) -> Buffer
        requires { self.base + t * self.size < 2 ^ 64 }
        ensures { result ≡ own_buffer self.base self.size t }
    {
        Buffer {
            addr: self.base + (t as u64) * (self.size as u64),
            len: self.size,
            output: true,
        }
    }
}

// ---- the clauses

// That a clause holds, or else the clause.
fn ask(holds: bool, clause: OwnClause) -> Result<(), OwnClause>
    ensures { own_broken_number result ≡ cond holds 0 (own_number_of clause) }
{
    if holds { Ok(()) } else { Err(clause) }
}

// Whether the chain of head h, if it is out, is the buffer of its token alone.
fn own_head(c: Core, t: &TablesRef, own: Buffers, h: u16) -> bool
    requires ready { ReadyRead c t.now }
    requires h_lt_n { (h < c.n) × (own.base + c.n * own.size ≤ 2 ^ 64) }
    ensures { result ≡ (not (outstanding (queue_of c (tables_read t.now)) h) || same_list (buffers_of (queue_of c (tables_read t.now)) h) (own_buffer own.base own.size h ∷ [])) }
{
    t.noted_at(h) == 0 || matches(c, t, h as u32, &[own.buffer(h)])
}

// Whether each chain that is out is the buffer of its token.
fn all_own(c: Core, t: &TablesRef, own: Buffers) -> bool
    requires ready { ReadyRead c t.now }
    requires size_bound { own.base + c.n * own.size ≤ 2 ^ 64 }
    ensures { result ≡ own_clause (owning_in c t.now own) }
{
    (0..c.n).all(|h| own_head(c, t, own, h))
}

// Whether head h is the one left aside, or is out.
fn out_but(c: Core, t: &TablesRef, aside: u16, h: u16) -> bool
    requires ready { ReadyRead c t.now }
    requires h_lt_n { h < c.n }
    ensures { result ≡ (eqb h aside || outstanding (queue_of c (tables_read t.now)) h) }
{
    h == aside || t.noted_at(h) != 0
}

// Whether all heads but the one left aside are out.
fn all_out_but(c: Core, t: &TablesRef, aside: u16) -> bool
    requires { ReadyRead c t.now }
    ensures { result ≡ every (λ h. eqb h aside || outstanding (queue_of c (tables_read t.now)) h) c.n 0 }
{
    (0..c.n).all(|h| out_but(c, t, aside, h))
}

// Whether all heads but the held token are out, which is not, and its length is within the size.
fn held_one(c: Core, t: &TablesRef, own: Buffers, held: Held) -> bool
    requires { ReadyRead c t.now }
    ensures { result ≡ held_clause (owning_in c t.now own) (Some held) }
{
    held.token < c.n
        && t.noted_at(held.token) == 0
        && all_out_but(c, t, held.token)
        && held.len <= own.size
}

// Whether all heads are out, but for a held one, whose length is within the size.
fn held_ok(c: Core, t: &TablesRef, own: Buffers) -> bool
    requires { ReadyRead c t.now }
    ensures { result ≡ held_clause (owning_in c t.now own) own.held }
{
    match own.held {
        None => all_out_but(c, t, c.n),
        Some(held) => held_one(c, t, own, held),
    }
}

fn size_allowed(size: u32) -> bool
    ensures { result ≡ size_allowed size }
{
    1 <= size && size <= 1024
}

// Whether base and size are allowed.
fn placed(n: u16, own: Buffers) -> bool
    ensures { result ≡ (base_ok_is own.base (n * own.size) && size_allowed own.size) }
{
    base_ok(own.base, (n as u64) * (own.size as u64)) && size_allowed(own.size)
}

// Whether the owning record is well formed, or else its first broken clause.
pub fn own_broken(c: Core, t: &TablesRef, own: Buffers) -> Result<(), OwnClause>
    requires { HasRoom c t.now.room }
    ensures { own_broken_number result ≡ own_broken (owning_in c t.now own) }
{
    broken(c, t)?;
    ask(!is_open(c.call), OwnClause::Open)?;
    ask(placed(c.n, own), OwnClause::Store)?;
    ask(all_own(c, t, own), OwnClause::OwnBuffers)?;
    ask(held_ok(c, t, own), OwnClause::Held)
}

// ---- the refusals

// Whether all descriptors are free, in the order of their numbers.
fn in_free_order(c: Core, t: &TablesRef) -> bool
    requires { ReadyRead c t.now }
    ensures { result ≡ same (free_list (queue_of c (tables_read t.now))) (rising c.n 0) }
{
    if c.num_used != 0 {
        return false;
    }
    let mut at = c.free_head;
    for i in 0..c.n {
        if at != i {
            return false;
        }
        at = t.next_at(at);
    }
    true
}

// Why new is refused, where it is known whether memory and store do.
pub fn new_refusal(c: Core, t: &TablesRef, size: u32, fit: bool) -> Result<(), Refusal>
    requires { HasRoom c t.now.room }
    ensures { result_number result ≡ first (own_new_tests (queue_of c (tables_read t.now)) size fit) }
{
    may_call(c, t, fit)?;
    if !size_allowed(size) || !in_free_order(c, t) {
        return Err(Refusal::InvalidParam);
    }
    Ok(())
}

// Why any call on an owning record is refused: the record is broken, or memory or store don't do.
fn own_refusal(c: Core, t: &TablesRef, own: Buffers, fit: bool) -> Result<(), Refusal>
    requires { HasRoom c t.now.room }
    ensures { result_number result ≡ first (lent_tests (owning_in c t.now own) fit) }
{
    if own_broken(c, t, own).is_err() {
        return Err(Refusal::BadRecord);
    }
    if !fit {
        return Err(Refusal::BadRegion);
    }
    Ok(())
}

// Why poll is refused.
pub fn poll_refusal(c: Core, t: &TablesRef, own: Buffers, fit: bool) -> Result<(), Refusal>
    requires { HasRoom c t.now.room }
    ensures { result_number result ≡ first (poll_tests (owning_in c t.now own) fit) }
{
    own_refusal(c, t, own, fit)?;
    if own.held.is_some() {
        return Err(Refusal::Busy);
    }
    Ok(())
}

// Why release is refused.
pub fn release_refusal(c: Core, t: &TablesRef, own: Buffers, fit: bool) -> Result<(), Refusal>
    requires { HasRoom c t.now.room }
    ensures { result_number result ≡ first (release_tests (owning_in c t.now own) fit) }
{
    own_refusal(c, t, own, fit)?;
    if own.held.is_none() {
        return Err(Refusal::NotOutstanding);
    }
    Ok(())
}

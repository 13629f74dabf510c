// The owning queue (document 01, part 4): a queue all of whose buffers lie in one lent store, buffer i under token i. The caller polls for a buffer that
// the device has filled, looks at its bytes in the store, and releases it. The calls are in calls.rt, on the parts that stand here.
#![tactic(auto)]

ghost use Rattle.std.specs.Prelude.{◌≡◌, true, ◌&&◌, List, [], ◌∷◌, ℕ, ◌+◌, ◌*◌, ◌≤◌, ◌<◌, ◌^◌, leb};
ghost use Rattle.virtio.specs.Memory.{Memory};
ghost use Rattle.rules.specs.Calls.{fits as fits_is};
ghost use Rattle.rules.specs.New.{lends};
ghost use Rattle.rules.specs.Owning.{own_buffer, own_not_made, add_own, plainly as plainly_is, own_refused, showing as showing_is, poll_token, poll_ready, passed as passed_is, own_well_formed};
ghost use Rattle.rules.specs.Refused.{refusal_number, result_number, result_value};
ghost use Rattle.access.specs.Accesses.{memory};
ghost use Rattle.refusals.specs.Refusals.{fits_by};
ghost use Rattle.record.specs.Abs.{abs};
ghost use Rattle.record.specs.Asked.{answer_of};
ghost use Rattle.owning.specs.Owned.{own_of, owned_of, added_of, popped_of};

mod calls;

use heads::base_ok;
use owns::Buffers;
use record::{Answer, Queue};
use refusals::fits;
use rules::{Held, Refusal};
use views::Core;
use virtio::Buffer;

// An owning queue: the queue, the store's address, the size of a buffer, and what the caller holds.
#[derive(Clone, Copy)]
pub struct Owning {
    pub queue: Queue,
    pub base: u64,
    pub size: u32,
    pub held: Option<Held>,
}

impl Owning {
    // The buffers of its tokens.
    fn buffers(&self) -> Buffers
        ensures { result ≡ record { base = self.now.base; size = self.now.size; held = self.now.held } }
    {
        Buffers {
            base: self.base,
            size: self.size,
            held: self.held,
        }
    }

    // The buffer of token t.
    fn buffer(&self, t: u16) -> Buffer
        requires { self.now.base + t * self.now.size < 2 ^ 64 }
        ensures { result ≡ own_buffer self.now.base self.now.size t }
    {
        self.buffers().buffer(t)
    }
}

// A part of the store: so many bytes from an offset on.
#[derive(Clone, Copy, PartialEq, Eq, Debug)]
pub struct Part {
    pub from: usize,
    pub count: usize,
}

// What a call answers: its value, or why it was refused; the part of the store that it shows, if any; and the record after it.
#[derive(Clone, Copy)]
pub struct Owned {
    pub outcome: Result<u32, Refusal>,
    pub shows: Option<Part>,
    pub owning: Owning,
}

// ---- answers

// An answer without a view.
fn plainly(outcome: Result<u32, Refusal>, queue: Queue, o: Owning, held: Option<Held>) -> Owned
    ensures { (m : Memory) (s : List ℕ) → owned_of result m s ≡ plainly_is (own_of o) (result_number outcome) (result_value outcome) (abs queue) held m s }
{
    Owned {
        outcome,
        shows: None,
        owning: Owning { queue, held, ..o },
    }
}

// The answer of a call that is refused, which leaves the record as it was.
fn refused(why: Refusal, o: Owning) -> Owned
    ensures { (m : Memory) (s : List ℕ) → owned_of result m s ≡ own_refused (own_of o) (refusal_number why) m s }
{
    plainly(Err(why), o.queue, o, o.held)
}

// The queue's own answer.
fn passed(o: Owning, r: Answer) -> Owned
    ensures { (m : Memory) (store : List ℕ) → owned_of result m store ≡ passed_is (own_of o) (answer_of r m) store }
{
    plainly(r.outcome, r.queue, o, o.held)
}

// A record that new did not make.
fn not_made(why: Refusal, queue: Queue) -> Owned
    ensures { (m : Memory) (s : List ℕ) → owned_of result m s ≡ own_not_made (refusal_number why) (abs queue) m s }
{
    Owned {
        outcome: Err(why),
        shows: None,
        owning: Owning {
            queue,
            base: 0,
            size: 0,
            held: None,
        },
    }
}

// The buffer of token t was popped, and is held and shown, as many bytes as the device told.
fn showing(queue: Queue, o: Owning, t: u16, len: u32) -> Owned
    ensures { (m : Memory) (store : List ℕ) → owned_of result m store ≡ showing_is (own_of o) (popped_of (abs queue) len m) t store }
{
    Owned {
        outcome: Ok(t as u32),
        shows: Some(Part {
            from: (t as usize) * (o.size as usize),
            count: len as usize,
        }),
        owning: Owning {
            queue,
            held: Some(Held { token: t, len }),
            ..o
        },
    }
}

// ---- what is lent

// Whether memory and store do for poll and release.
fn own_fits(c: Core, size: u32, one: usize, two: usize, pool: usize, store: usize) -> bool
    ensures { result ≡ (fits_by c one two pool && leb (c.n * size) store) }
{
    fits(c, one, two, pool) && (c.n as usize) * (size as usize) <= store
}

// Whether they do for new, which asks of the store's address what is asked of a region's.
fn new_fits(
    c: Core,
    base: u64,
    size: u32,
    one: usize,
    two: usize,
    pool: usize,
    store: usize,
) -> bool
    ensures { result ≡ (fits_by c one two pool && lends base (c.n * size) store) }
{
    own_fits(c, size, one, two, pool, store) && base_ok(base, (c.n as u64) * (size as u64))
}

// ---- the adds of new

// Adds the buffers of all n tokens, each by itself.
fn add_all(queue: Queue, own: Buffers, one: &mut [u8], two: &[u8], pool: &mut [u8]) -> Queue
    requires { own.base + queue.core.n * own.size ≤ 2 ^ 64 }
    ensures { added_of (abs result) (memory one.new two.now pool.new) ≡ add_own own.base own.size queue.core.n 0 (abs queue) (memory one.old two.now pool.old) }
{
    let mut q = queue;
    for i in 0..queue.core.n {
        q = q.add(&[own.buffer(i)], one, two, pool).queue;
    }
    q
}

// ---- poll past its refusals

// The waiting element names token t: its buffer is popped, and is held and shown; or, where the device told a length above the size, added again. A pop that
// is refused, since the device wrote after the look, is answered as it is.
fn poll_token(o: Owning, t: u32, one: &mut [u8], two: &[u8], pool: &mut [u8]) -> Owned
    requires { own_well_formed (own_of o) ≡ true }
    ensures { (store : List ℕ) → owned_of result (memory one.new two.now pool.new) store ≡ poll_token (own_of o) t (memory one.old two.now pool.old) store }
{
    if o.queue.core.n as u32 <= t {
        return refused(Refusal::WrongToken, o);
    }
    let own = [o.buffer(t as u16)];
    let r = o.queue.pop_used(t, &own, one, two, pool);
    let Ok(len) = r.outcome else {
        return passed(o, r);
    };
    if len <= o.size {
        return showing(r.queue, o, t as u16, len);
    }
    let again = r.queue.add(&own, one, two, pool);
    plainly(Err(Refusal::OverLength), again.queue, o, None)
}

// A poll that nothing refuses.
fn poll_ready(o: Owning, one: &mut [u8], two: &[u8], pool: &mut [u8]) -> Owned
    requires o_value { own_well_formed (own_of o) ≡ true }
    requires pool_value { fits_is (abs o.queue) (memory one.old two.now pool.old) ≡ true }
    ensures { (store : List ℕ) → owned_of result (memory one.new two.now pool.new) store ≡ poll_ready (own_of o) (memory one.old two.now pool.old) store }
{
    match o.queue.peek_used(one, two, pool).outcome {
        Err(_) => plainly(Ok(0), o.queue, o, o.held),
        Ok(token) => poll_token(o, token, one, two, pool),
    }
}

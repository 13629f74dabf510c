// The owning queue's calls (document 01, "Owning" in "When the queue says no"): each checks record, memory and store, and then goes on by lib.rt's parts.
ghost use Rattle.std.specs.Prelude.{◌≡◌, true, List, ℕ, ◌*◌, ◌≤◌, length};
ghost use Rattle.lists.specs.Pick.{first};
ghost use Rattle.rules.specs.Owning.{own_broken, poll_tests, release_tests, own_new_tests, own_new, poll as poll_is, release as release_is, released, own_well_formed, own_should_notify, own_set_dev_notify, shown, held_part, own_view};
ghost use Rattle.rules.specs.Refused.{result_number};
ghost use Rattle.access.specs.Accesses.{memory};
ghost use Rattle.record.specs.Abs.{abs};
ghost use Rattle.owns.specs.Numbers.{own_broken_number};
ghost use Rattle.owning.specs.Owned.{own_of, owned_of};

use crate::{
    Owned, Owning, add_all, new_fits, not_made, own_fits, passed, plainly, poll_ready, refused,
};
use fresh::clear;
use owns::{Buffers, OwnClause, own_broken};
use record::Queue;
use rules::Refusal;

// Why new refuses the queue; `fit`: memory and store do.
fn new_refusal(queue: &Queue, size: u32, fit: bool) -> Result<(), Refusal>
    ensures { result_number result ≡ first (own_new_tests (abs queue.now) size fit) }
{
    owns::new_refusal(queue.core, &queue.tables(), size, fit)
}

impl Owning {
    // The first broken clause of the record, if any.
    pub fn broken(self) -> Result<(), OwnClause>
        ensures { own_broken_number result ≡ own_broken (own_of self) }
    {
        own_broken(self.queue.core, &self.queue.tables(), self.buffers())
    }

    // Why poll is refused.
    fn poll_refusal(&self, fit: bool) -> Result<(), Refusal>
        ensures { result_number result ≡ first (poll_tests (own_of self.now) fit) }
    {
        owns::poll_refusal(self.queue.core, &self.queue.tables(), self.buffers(), fit)
    }

    // Why release is refused.
    fn release_refusal(&self, fit: bool) -> Result<(), Refusal>
        ensures { result_number result ≡ first (release_tests (own_of self.now) fit) }
    {
        owns::release_refusal(self.queue.core, &self.queue.tables(), self.buffers(), fit)
    }

    // Takes a queue whose descriptors are all free, in their order, and a store: clears the store and adds each token's buffer.
    pub fn new(
        queue: Queue,
        base: u64,
        size: u32,
        one: &mut [u8],
        two: &[u8],
        pool: &mut [u8],
        store: &mut [u8],
    ) -> Owned
        ensures { owned_of result (memory one.new two.now pool.new) store.new ≡ own_new (abs queue) base size (memory one.old two.now pool.old) store.old }
    {
        let fit = new_fits(
            queue.core,
            base,
            size,
            one.len(),
            two.len(),
            pool.len(),
            store.len(),
        );
        if let Err(why) = new_refusal(&queue, size, fit) {
            return not_made(why, queue);
        }
        clear(store, 0, (queue.core.n as usize) * (size as usize));
        let own = Buffers {
            base,
            size,
            held: None,
        };
        let after = add_all(queue, own, one, two, pool);
        Owned {
            outcome: Ok(0),
            shows: None,
            owning: Owning {
                queue: after,
                base,
                size,
                held: None,
            },
        }
    }

    // Looks for a buffer that the device has given back, and holds and shows it.
    pub fn poll(self, one: &mut [u8], two: &[u8], pool: &mut [u8], store: &[u8]) -> Owned
        ensures { owned_of result (memory one.new two.now pool.new) store.now ≡ poll_is (own_of self) (memory one.old two.now pool.old) store.now }
    {
        let fit = own_fits(
            self.queue.core,
            self.size,
            one.len(),
            two.len(),
            pool.len(),
            store.len(),
        );
        if let Err(why) = self.poll_refusal(fit) {
            return refused(why, self);
        }
        poll_ready(self, one, two, pool)
    }

    // Adds the held buffer again, under the same token.
    pub fn release(self, one: &mut [u8], two: &[u8], pool: &mut [u8], store: &[u8]) -> Owned
        ensures { owned_of result (memory one.new two.now pool.new) store.now ≡ release_is (own_of self) (memory one.old two.now pool.old) store.now }
    {
        let fit = own_fits(
            self.queue.core,
            self.size,
            one.len(),
            two.len(),
            pool.len(),
            store.len(),
        );
        if let Err(why) = self.release_refusal(fit) {
            return refused(why, self);
        }
        self.give_back_held(one, two, pool)
    }

    // The release of what is held: its buffer is added again.
    fn give_back_held(self, one: &mut [u8], two: &[u8], pool: &mut [u8]) -> Owned
        requires { own_well_formed (own_of self) ≡ true }
        ensures { (store : List ℕ) → owned_of result (memory one.new two.now pool.new) store ≡ released (own_of self) self.held (memory one.old two.now pool.old) store }
    {
        match self.held {
            None => refused(Refusal::NotOutstanding, self),
            Some(held) => {
                let r = self.queue.add(&[self.buffer(held.token)], one, two, pool);
                plainly(r.outcome, r.queue, self, None)
            }
        }
    }

    // Whether the device asks to be notified: the value is 1 or 0.
    pub fn should_notify<'a>(self, one: &'a [u8], two: &'a [u8], pool: &[u8]) -> Owned
        ensures { (store : List ℕ) → owned_of result (memory one.now two.now pool.now) store ≡ own_should_notify (own_of self) (memory one.now two.now pool.now) store }
    {
        if self.broken().is_err() {
            return refused(Refusal::BadRecord, self);
        }
        let r = self.queue.should_notify(one, two, pool);
        passed(self, r)
    }

    // Tells the device whether to notify.
    pub fn set_dev_notify(self, wanted: bool, one: &mut [u8], two: &[u8], pool: &[u8]) -> Owned
        ensures { (store : List ℕ) → owned_of result (memory one.new two.now pool.now) store ≡ own_set_dev_notify (own_of self) (memory one.old two.now pool.now) store wanted }
    {
        if self.broken().is_err() {
            return refused(Refusal::BadRecord, self);
        }
        let r = self.queue.set_dev_notify(wanted, one, two, pool);
        passed(self, r)
    }

    // The bytes of the held buffer, as many as the device wrote, as a part of the store; none where nothing is held, the record is broken or the store
    // is too short.
    pub fn view<'a>(self, store: &'a [u8]) -> &'a [u8]
        ensures { result.now ≡ own_view (own_of self) store.now }
    {
        if self.broken().is_err() {
            return &store[..0];
        }
        if store.len() < (self.queue.core.n as usize) * (self.size as usize) {
            return &store[..0];
        }
        self.held_part(store)
    }

    // The same, past these tests.
    fn held_part<'a>(self, store: &'a [u8]) -> &'a [u8]
        requires self_value { own_well_formed (own_of self) ≡ true }
        requires size_in_bounds { self.queue.core.n * self.size ≤ length store.now }
        ensures { result.now ≡ shown (held_part self.held self.size) store.now }
    {
        match self.held {
            None => &store[..0],
            Some(held) => {
                let from = (held.token as usize) * (self.size as usize);
                &store[from..from + (held.len as usize)]
            }
        }
    }
}

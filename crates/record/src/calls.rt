// The calls that add, pop, peek, run and notify (document 01, "Rules of the calls" and "Step by step"), and the check, as methods of the record: each lends
// the tables to crates queue and asks, and answers the record with what they then hold.
ghost use Rattle.std.specs.Prelude.{◌≡◌, cond, ◌-◌, ◌≤◌, eqb};
ghost use Rattle.virtio.specs.Memory.{Memory};
ghost use Rattle.rules.specs.WellFormed.{broken};
ghost use Rattle.rules.specs.Calls.{open_add, open_pop, open_peek, run, step, add, pop_used, peek_used, can_pop, should_notify, set_dev_notify, available_desc};
ghost use Rattle.access.specs.Accesses.{memory};
ghost use Rattle.wellformed.specs.Numbers.{broken_number};
ghost use Rattle.record.specs.Abs.{abs};
ghost use Rattle.record.specs.Asked.{answer_of, told_of};

use crate::{Answer, Queue};
use asks::Done;
use refusals::is_open;
use rules::Refusal;
use tables::TablesMut;
use virtio::Buffer;
use wellformed::{Clause, broken};

// The tables of a record, lent to be changed.
macro_rules! lent {
    ($queue:ident) => {
        TablesMut {
            room: 64,
            words: &mut $queue.words,
            lens: &mut $queue.lens,
            halves: &mut $queue.halves,
            sides: &mut $queue.sides,
        }
    };
}

// How many descriptors an add may have in a record with none open.
fn available_now(indirect: bool, n: u16, used: u16) -> u16
    requires { used ≤ n }
    ensures { result ≡ cond indirect (cond (eqb used n) 0 n) (n - used) }
{
    if !indirect {
        n - used
    } else if used == n {
        0
    } else {
        n
    }
}

impl Queue {
    // What a call over the tables came to, with the record that they now hold.
    fn answered(mut self, done: Done) -> Answer
        ensures { result ≡ record { outcome = done.outcome; steps = done.steps; queue = record self { core = done.core } } }
    {
        self.core = done.core;
        Answer {
            outcome: done.outcome,
            steps: done.steps,
            queue: self,
        }
    }

    // ---- the check

    // The first broken clause of the record, if any.
    pub fn broken(self) -> Result<(), Clause>
        ensures { broken_number result ≡ broken (abs self) }
    {
        broken(self.core, &self.tables())
    }

    // How many descriptors an add can have now.
    pub fn available_desc(self) -> Result<u16, Refusal>
        ensures { (m : Memory) → told_of result self m ≡ available_desc (abs self) m }
    {
        if self.broken().is_err() {
            return Err(Refusal::BadRecord);
        }
        if is_open(self.core.call) {
            return Err(Refusal::Busy);
        }
        Ok(available_now(self.core.modes.indirect, self.core.n, self.core.num_used))
    }

    // ---- openings

    // Opens an add: everything is checked, and the private record updated but for avail_idx.
    pub fn open_add(mut self, list: &[Buffer], one: &[u8], two: &[u8], pool: &[u8]) -> Answer
        ensures { answer_of result (memory one.now two.now pool.now) ≡ open_add (abs self) (memory one.now two.now pool.now) list.now }
    {
        let done = queue::open_add(self.core, &mut lent!(self), list, one, two, pool);
        self.answered(done)
    }

    // Opens a pop: it keeps the token and whether the list is the one that was added.
    pub fn open_pop(
        self,
        token: u32,
        list: &[Buffer],
        one: &[u8],
        two: &[u8],
        pool: &[u8],
    ) -> Answer
        ensures { answer_of result (memory one.now two.now pool.now) ≡ open_pop (abs self) (memory one.now two.now pool.now) token list.now }
    {
        let done = queue::open_pop(self.core, &self.tables(), token, list, one, two, pool);
        self.answered(done)
    }

    // Opens a peek.
    pub fn open_peek(self, one: &[u8], two: &[u8], pool: &[u8]) -> Answer
        ensures { answer_of result (memory one.now two.now pool.now) ≡ open_peek (abs self) (memory one.now two.now pool.now) }
    {
        let done = queue::open_peek(self.core, &self.tables(), one, two, pool);
        self.answered(done)
    }

    // ---- steps and runs

    // A run with a budget: the lesser of it and the steps left, and that number is reported.
    pub fn run(mut self, budget: u32, one: &mut [u8], two: &[u8], pool: &mut [u8]) -> Answer
        ensures { answer_of result (memory one.new two.now pool.new) ≡ run budget (abs self) (memory one.old two.now pool.old) }
    {
        let done = queue::run(self.core, &mut lent!(self), one, two, pool, budget);
        self.answered(done)
    }

    // A step: with no call open it does nothing and reports 0.
    pub fn step(self, one: &mut [u8], two: &[u8], pool: &mut [u8]) -> Answer
        ensures { answer_of result (memory one.new two.now pool.new) ≡ step (abs self) (memory one.old two.now pool.old) }
    {
        self.run(1, one, two, pool)
    }

    // ---- whole calls

    // Adds a list of buffers; the value is the token.
    pub fn add(mut self, list: &[Buffer], one: &mut [u8], two: &[u8], pool: &mut [u8]) -> Answer
        ensures { answer_of result (memory one.new two.now pool.new) ≡ add (abs self) (memory one.old two.now pool.old) list.now }
    {
        let done = queue::add(self.core, &mut lent!(self), list, one, two, pool);
        self.answered(done)
    }

    // Pops the token's list; the value is the device's length.
    pub fn pop_used(
        mut self,
        token: u32,
        list: &[Buffer],
        one: &mut [u8],
        two: &[u8],
        pool: &mut [u8],
    ) -> Answer
        ensures { answer_of result (memory one.new two.now pool.new) ≡ pop_used (abs self) (memory one.old two.now pool.old) token list.now }
    {
        let done = queue::pop_used(self.core, &mut lent!(self), token, list, one, two, pool);
        self.answered(done)
    }

    // The token that the device gave back next.
    pub fn peek_used(mut self, one: &mut [u8], two: &[u8], pool: &mut [u8]) -> Answer
        ensures { answer_of result (memory one.new two.now pool.new) ≡ peek_used (abs self) (memory one.old two.now pool.old) }
    {
        let done = queue::peek_used(self.core, &mut lent!(self), one, two, pool);
        self.answered(done)
    }

    // ---- calls of a single step

    // Whether the device has given back a chain: the value is 1 or 0.
    pub fn can_pop<'a>(self, one: &'a [u8], two: &'a [u8], pool: &[u8]) -> Answer
        ensures { answer_of result (memory one.now two.now pool.now) ≡ can_pop (abs self) (memory one.now two.now pool.now) }
    {
        let done = asks::can_pop(self.core, &self.tables(), one, two, pool);
        self.answered(done)
    }

    // Whether the device asks to be notified: the value is 1 or 0.
    pub fn should_notify<'a>(self, one: &'a [u8], two: &'a [u8], pool: &[u8]) -> Answer
        ensures { answer_of result (memory one.now two.now pool.now) ≡ should_notify (abs self) (memory one.now two.now pool.now) }
    {
        let done = asks::should_notify(self.core, &self.tables(), one, two, pool);
        self.answered(done)
    }

    // Tells the device whether to notify; nothing is stored with event indices.
    pub fn set_dev_notify(self, wanted: bool, one: &mut [u8], two: &[u8], pool: &[u8]) -> Answer
        ensures { answer_of result (memory one.new two.now pool.now) ≡ set_dev_notify (abs self) (memory one.old two.now pool.now) wanted }
    {
        let done = asks::set_dev_notify(self.core, &self.tables(), wanted, one, two, pool);
        self.answered(done)
    }
}

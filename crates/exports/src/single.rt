// The calls of a single step for C: can_pop, should_notify and set_dev_notify, which leave the record as it is; tables are lent to be read.
ghost use Rattle.std.specs.Prelude.{◌≡◌};
ghost use Rattle.rules.specs.Calls.{can_pop, should_notify, set_dev_notify};
ghost use Rattle.access.specs.Accesses.{memory};
ghost use Rattle.record.specs.Abs.{abs};
ghost use Rattle.exports.specs.Flat.{queue_of, lent_of, answer_is, lent_is, answer_of};

use crate::{Flat, FlatAnswer, LentAnswer, Plain};
use tables::TablesRef;
use views::Core;

// The tables of a record, lent to be read.
macro_rules! lent {
    ($queue:ident) => {
        TablesRef {
            room: 64,
            words: &$queue.words,
            lens: &$queue.lens,
            halves: &$queue.halves,
            sides: &$queue.sides,
        }
    };
}

// ---- the record by value

// asks' can_pop, over the record's tables.
pub fn mayketura_can_pop<'a>(q: Flat, one: &'a [u8], two: &'a [u8], pool: &[u8]) -> FlatAnswer
    ensures { answer_of (answer_is result) (memory one.now two.now pool.now) ≡ can_pop (abs (queue_of q)) (memory one.now two.now pool.now) }
{
    let tables = lent!(q);
    let done = asks::can_pop(Core::from(q.plain), &tables, one, two, pool);
    q.answered(LentAnswer::from(done))
}

// asks' should_notify, over the record's tables.
pub fn mayketura_should_notify<'a>(q: Flat, one: &'a [u8], two: &'a [u8], pool: &[u8]) -> FlatAnswer
    ensures { answer_of (answer_is result) (memory one.now two.now pool.now) ≡ should_notify (abs (queue_of q)) (memory one.now two.now pool.now) }
{
    let tables = lent!(q);
    let done = asks::should_notify(Core::from(q.plain), &tables, one, two, pool);
    q.answered(LentAnswer::from(done))
}

// asks' set_dev_notify, over the record's tables.
pub fn mayketura_set_dev_notify(
    q: Flat,
    wanted: bool,
    one: &mut [u8],
    two: &[u8],
    pool: &[u8],
) -> FlatAnswer
    ensures { answer_of (answer_is result) (memory one.new two.now pool.now) ≡ set_dev_notify (abs (queue_of q)) (memory one.old two.now pool.now) wanted }
{
    let tables = lent!(q);
    let done = asks::set_dev_notify(Core::from(q.plain), &tables, wanted, one, two, pool);
    q.answered(LentAnswer::from(done))
}

// ---- the record's tables lent

// asks' can_pop, over tables at the limit.
pub fn mayketura_can_pop_lent<'a>(
    p: Plain,
    words: &[u64; 4160],
    lens: &[u32; 4160],
    halves: &[u16; 192],
    sides: &[bool; 4096],
    one: &'a [u8],
    two: &'a [u8],
    pool: &[u8],
) -> LentAnswer
    ensures { answer_of (lent_is result words.now lens.now halves.now sides.now) (memory one.now two.now pool.now) ≡ can_pop (abs (lent_of p words.now lens.now halves.now sides.now)) (memory one.now two.now pool.now) }
{
    let tables = TablesRef {
        room: 64,
        words,
        lens,
        halves,
        sides,
    };
    let done = asks::can_pop(Core::from(p), &tables, one, two, pool);
    LentAnswer::from(done)
}

// asks' should_notify, over tables at the limit.
pub fn mayketura_should_notify_lent<'a>(
    p: Plain,
    words: &[u64; 4160],
    lens: &[u32; 4160],
    halves: &[u16; 192],
    sides: &[bool; 4096],
    one: &'a [u8],
    two: &'a [u8],
    pool: &[u8],
) -> LentAnswer
    ensures { answer_of (lent_is result words.now lens.now halves.now sides.now) (memory one.now two.now pool.now) ≡ should_notify (abs (lent_of p words.now lens.now halves.now sides.now)) (memory one.now two.now pool.now) }
{
    let tables = TablesRef {
        room: 64,
        words,
        lens,
        halves,
        sides,
    };
    let done = asks::should_notify(Core::from(p), &tables, one, two, pool);
    LentAnswer::from(done)
}

// asks' set_dev_notify, over tables at the limit.
pub fn mayketura_set_dev_notify_lent(
    p: Plain,
    words: &[u64; 4160],
    lens: &[u32; 4160],
    halves: &[u16; 192],
    sides: &[bool; 4096],
    wanted: bool,
    one: &mut [u8],
    two: &[u8],
    pool: &[u8],
) -> LentAnswer
    ensures { answer_of (lent_is result words.now lens.now halves.now sides.now) (memory one.new two.now pool.now) ≡ set_dev_notify (abs (lent_of p words.now lens.now halves.now sides.now)) (memory one.old two.now pool.now) wanted }
{
    let tables = TablesRef {
        room: 64,
        words,
        lens,
        halves,
        sides,
    };
    let done = asks::set_dev_notify(Core::from(p), &tables, wanted, one, two, pool);
    LentAnswer::from(done)
}

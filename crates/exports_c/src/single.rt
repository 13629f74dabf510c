// The calls of a single step for C: can_pop, should_notify and set_dev_notify, which leave the record as it is; tables are lent to be read.
ghost use Rattle.std.specs.Prelude.{◌≡◌};
ghost use Rattle.rules.specs.Calls.{can_pop, should_notify, set_dev_notify};
ghost use Rattle.access.specs.Accesses.{memory};
ghost use Rattle.record.specs.Abs.{abs};
ghost use Rattle.exports.specs.Flat.{queue_of, lent_of, answer_is, lent_is, answer_of};

use exports::{Flat, FlatAnswer, LentAnswer, Plain};

// ---- the record by value

// record's can_pop.
#[unsafe(no_mangle)]
pub extern "C" fn mayketura_can_pop<'a>(
    q: Flat,
    one: &'a [u8],
    two: &'a [u8],
    pool: &[u8],
) -> FlatAnswer
    ensures { answer_of (answer_is result) (memory one.now two.now pool.now) ≡ can_pop (abs (queue_of q)) (memory one.now two.now pool.now) }
{
    exports::single::mayketura_can_pop(q, one, two, pool)
}

// record's should_notify.
#[unsafe(no_mangle)]
pub extern "C" fn mayketura_should_notify<'a>(
    q: Flat,
    one: &'a [u8],
    two: &'a [u8],
    pool: &[u8],
) -> FlatAnswer
    ensures { answer_of (answer_is result) (memory one.now two.now pool.now) ≡ should_notify (abs (queue_of q)) (memory one.now two.now pool.now) }
{
    exports::single::mayketura_should_notify(q, one, two, pool)
}

// record's set_dev_notify.
#[unsafe(no_mangle)]
pub extern "C" fn mayketura_set_dev_notify(
    q: Flat,
    wanted: bool,
    one: &mut [u8],
    two: &[u8],
    pool: &[u8],
) -> FlatAnswer
    ensures { answer_of (answer_is result) (memory one.new two.now pool.now) ≡ set_dev_notify (abs (queue_of q)) (memory one.old two.now pool.now) wanted }
{
    exports::single::mayketura_set_dev_notify(q, wanted, one, two, pool)
}

// ---- the record's tables lent

// asks' can_pop, over tables at the limit.
#[unsafe(no_mangle)]
pub extern "C" fn mayketura_can_pop_lent<'a>(
    p: Plain,
    words: &[u64; 4160],
    lens: &[u32; 4160],
    halves: &[u16; 192],
    sides: &[bool; 4096],
    one: &'a [u8],
    two: &'a [u8],
    pool: &[u8],
) -> LentAnswer
    ensures { answer_of (lent_is result words.now lens.now halves.now sides.now) (memory one.now two.now pool.now) ≡ can_pop (abs (lent_of p words.now lens.now halves.now sides.now)) (memory one.now two.now pool.now) }
{
    exports::single::mayketura_can_pop_lent(p, words, lens, halves, sides, one, two, pool)
}

// asks' should_notify, over tables at the limit.
#[unsafe(no_mangle)]
pub extern "C" fn mayketura_should_notify_lent<'a>(
    p: Plain,
    words: &[u64; 4160],
    lens: &[u32; 4160],
    halves: &[u16; 192],
    sides: &[bool; 4096],
    one: &'a [u8],
    two: &'a [u8],
    pool: &[u8],
) -> LentAnswer
    ensures { answer_of (lent_is result words.now lens.now halves.now sides.now) (memory one.now two.now pool.now) ≡ should_notify (abs (lent_of p words.now lens.now halves.now sides.now)) (memory one.now two.now pool.now) }
{
    exports::single::mayketura_should_notify_lent(p, words, lens, halves, sides, one, two, pool)
}

// asks' set_dev_notify, over tables at the limit.
#[unsafe(no_mangle)]
pub extern "C" fn mayketura_set_dev_notify_lent(
    p: Plain,
    words: &[u64; 4160],
    lens: &[u32; 4160],
    halves: &[u16; 192],
    sides: &[bool; 4096],
    wanted: bool,
    one: &mut [u8],
    two: &[u8],
    pool: &[u8],
) -> LentAnswer
    ensures { answer_of (lent_is result words.now lens.now halves.now sides.now) (memory one.new two.now pool.now) ≡ set_dev_notify (abs (lent_of p words.now lens.now halves.now sides.now)) (memory one.old two.now pool.now) wanted }
{
    exports::single::mayketura_set_dev_notify_lent(
        p, words, lens, halves, sides, wanted, one, two, pool,
    )
}

// The static library for programs in C and Rust: crate exports' functions, exported under their names. Each calls its own, and says what that says.
#![tactic(auto)]

ghost use Rattle.std.specs.Prelude.{◌≡◌};
ghost use Rattle.rules.specs.Calls.{add as add_is, pop_used, peek_used};
ghost use Rattle.rules.specs.New.{new as new_is};
ghost use Rattle.opens.specs.Given.{given};
ghost use Rattle.access.specs.Accesses.{memory};
ghost use Rattle.record.specs.Abs.{abs};
ghost use Rattle.record.specs.Asked.{ask_of};
ghost use Rattle.exports.specs.Flat.{queue_of, lent_of, ask_is, made_is, answer_is, lent_is, made_of, answer_of};

use exports::{Flat, FlatAnswer, FlatAsk, FlatMade, LentAnswer, Plain};

mod single;

// ---- the record by value

// record's new.
#[unsafe(no_mangle)]
pub extern "C" fn mayketura_new(
    ask: FlatAsk,
    one: &mut [u8],
    two: &mut [u8],
    pool: &[u8],
) -> FlatMade
    ensures { made_of (made_is result) (memory one.new two.new pool.now) ≡ new_is (ask_of (ask_is ask)) (memory one.old two.old pool.now) }
{
    exports::mayketura_new(ask, one, two, pool)
}

// record's add.
#[unsafe(no_mangle)]
pub extern "C" fn mayketura_add(
    q: Flat,
    addrs: &[u64],
    sizes: &[u32],
    outs: &[u8],
    one: &mut [u8],
    two: &[u8],
    pool: &mut [u8],
) -> FlatAnswer
    ensures { answer_of (answer_is result) (memory one.new two.now pool.new) ≡ add_is (abs (queue_of q)) (memory one.old two.now pool.old) (given addrs.now sizes.now outs.now) }
{
    exports::mayketura_add(q, addrs, sizes, outs, one, two, pool)
}

// record's pop_used.
#[unsafe(no_mangle)]
pub extern "C" fn mayketura_pop_used(
    q: Flat,
    token: u32,
    addrs: &[u64],
    sizes: &[u32],
    outs: &[u8],
    one: &mut [u8],
    two: &[u8],
    pool: &mut [u8],
) -> FlatAnswer
    ensures { answer_of (answer_is result) (memory one.new two.now pool.new) ≡ pop_used (abs (queue_of q)) (memory one.old two.now pool.old) token (given addrs.now sizes.now outs.now) }
{
    exports::mayketura_pop_used(q, token, addrs, sizes, outs, one, two, pool)
}

// record's peek_used.
#[unsafe(no_mangle)]
pub extern "C" fn mayketura_peek_used(
    q: Flat,
    one: &mut [u8],
    two: &[u8],
    pool: &mut [u8],
) -> FlatAnswer
    ensures { answer_of (answer_is result) (memory one.new two.now pool.new) ≡ peek_used (abs (queue_of q)) (memory one.old two.now pool.old) }
{
    exports::mayketura_peek_used(q, one, two, pool)
}

// ---- the record's tables lent

// queue's add, over tables at the limit.
#[unsafe(no_mangle)]
pub extern "C" fn mayketura_add_lent(
    p: Plain,
    words: &mut [u64; 4160],
    lens: &mut [u32; 4160],
    halves: &mut [u16; 192],
    sides: &mut [bool; 4096],
    addrs: &[u64],
    sizes: &[u32],
    outs: &[u8],
    one: &mut [u8],
    two: &[u8],
    pool: &mut [u8],
) -> LentAnswer
    ensures { answer_of (lent_is result words.new lens.new halves.new sides.new) (memory one.new two.now pool.new) ≡ add_is (abs (lent_of p words.old lens.old halves.old sides.old)) (memory one.old two.now pool.old) (given addrs.now sizes.now outs.now) }
{
    exports::mayketura_add_lent(
        p, words, lens, halves, sides, addrs, sizes, outs, one, two, pool,
    )
}

// queue's pop_used, over tables at the limit.
#[unsafe(no_mangle)]
pub extern "C" fn mayketura_pop_used_lent(
    p: Plain,
    words: &mut [u64; 4160],
    lens: &mut [u32; 4160],
    halves: &mut [u16; 192],
    sides: &mut [bool; 4096],
    token: u32,
    addrs: &[u64],
    sizes: &[u32],
    outs: &[u8],
    one: &mut [u8],
    two: &[u8],
    pool: &mut [u8],
) -> LentAnswer
    ensures { answer_of (lent_is result words.new lens.new halves.new sides.new) (memory one.new two.now pool.new) ≡ pop_used (abs (lent_of p words.old lens.old halves.old sides.old)) (memory one.old two.now pool.old) token (given addrs.now sizes.now outs.now) }
{
    exports::mayketura_pop_used_lent(
        p, words, lens, halves, sides, token, addrs, sizes, outs, one, two, pool,
    )
}

// queue's peek_used, over tables at the limit.
#[unsafe(no_mangle)]
pub extern "C" fn mayketura_peek_used_lent(
    p: Plain,
    words: &mut [u64; 4160],
    lens: &mut [u32; 4160],
    halves: &mut [u16; 192],
    sides: &mut [bool; 4096],
    one: &mut [u8],
    two: &[u8],
    pool: &mut [u8],
) -> LentAnswer
    ensures { answer_of (lent_is result words.new lens.new halves.new sides.new) (memory one.new two.now pool.new) ≡ peek_used (abs (lent_of p words.old lens.old halves.old sides.old)) (memory one.old two.now pool.old) }
{
    exports::mayketura_peek_used_lent(p, words, lens, halves, sides, one, two, pool)
}

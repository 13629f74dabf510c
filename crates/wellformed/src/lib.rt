// The check that a record is well formed (document 01, "The record"): the first broken clause, if one is. It works on lent tables, so that it serves a record
// with its tables inside and one whose tables are lent.
#![tactic(auto)]

ghost use Rattle.std.specs.Prelude.{◌≡◌, cond, ◌≤◌, eqb, ltb};
ghost use Rattle.lists.specs.Pick.{every, first, one_if};
ghost use Rattle.virtio.specs.Layout.{need_pool};
ghost use Rattle.rules.specs.Record.{is_add};
ghost use Rattle.rules.specs.WellFormed.{base_ok, broken as broken_is};
ghost use Rattle.views.specs.Views.{at, Closed};
ghost use Rattle.views.specs.Tables.{queue_of};
ghost use Rattle.views.specs.Clauses.{plain_tests, link_tests, head_tests, call_tests, Plain};
ghost use Rattle.tables.specs.Lent.{tables_read};
ghost use Rattle.wellformed.specs.Numbers.{number_of, broken_number};
ghost use Rattle.wellformed.specs.Room.{HasRoom};
ghost use Rattle.wellformed.specs.Parts.{IsBy};

mod clause;

use chains::{links, nexts_below, out_count};
pub use clause::Clause;
use heads::{base_ok, buffers_sound, call_ok, list_heads, size_ok};
use indices::ahead;
use layout::need_pool;
use rules::Open;
use tables::TablesRef;
use views::{Core, Fields};

// That a clause holds, or else the clause.
fn ask(holds: bool, clause: Clause) -> Result<(), Clause>
    ensures { broken_number result ≡ cond holds 0 (number_of clause) }
{
    if holds { Ok(()) } else { Err(clause) }
}

// Whether the pool's base fits the mode.
fn pool_base_ok(indirect: bool, base: u64, n: u16) -> bool
    ensures { result ≡ cond indirect (base_ok base (need_pool n)) (eqb base 0) }
{
    if indirect {
        base_ok(base, need_pool(n) as u64)
    } else {
        base == 0
    }
}

// The clauses that read no table: size, base, num_used.
fn plain_broken(c: Core) -> Result<(), Clause>
    ensures { broken_number result ≡ first (plain_tests c) }
{
    ask(size_ok(c.n), Clause::Size)?;
    ask(pool_base_ok(c.modes.indirect, c.base, c.n), Clause::Base)?;
    ask(c.num_used <= c.n, Clause::Used)
}

// Which of two clauses is broken where the walk found one of them broken: a next of n or more, or else a descriptor that is not named once.
fn unnamed(f: &Fields) -> Clause
    ensures { number_of result ≡ cond (every (λ i. ltb (at f.now.next.now i) f.now.n) f.now.n 0) 5 4 }
{
    if nexts_below(f) {
        Clause::Once
    } else {
        Clause::Next
    }
}

// How the tables link: nexts, each descriptor named once, ends of chains. One walk answers them all; which of the first two is broken is asked after it.
fn links_broken(c: Core, f: &Fields) -> Result<(), Clause>
    requires plain { Plain c }
    requires n_of { f.now.n ≡ c.n }
    ensures { broken_number result ≡ first (link_tests c f.now.next.now f.now.flags.now f.now.noted.now) }
{
    if c.n <= c.free_head {
        return Err(Clause::Next);
    }
    match links(f, c.num_used, c.free_head) {
        None => Err(unnamed(f)),
        Some(ended) => ask(ended, Clause::End),
    }
}

// What the heads say: indirect lists, buffers.
fn heads_broken(c: Core, f: &Fields) -> Result<(), Clause>
    requires plain { Plain c }
    requires n_of { f.now.n ≡ c.n }
    requires closed { Closed c.n f.now.next.now }
    ensures { broken_number result ≡ first (head_tests c f.now.next.now f.now.flags.now f.now.noted.now f.now.addr.now f.now.len.now f.now.lens.now f.now.sides.now) }
{
    ask(list_heads(f, c.modes.indirect, c.base), Clause::Indirect)?;
    ask(buffers_sound(f), Clause::Buffer)
}

// 1 for an add, 0 for any other open call and for none.
fn adds(call: Open) -> u32
    ensures { result ≡ one_if (is_add call) }
{
    matches!(call, Open::Add { .. }) as u32
}

// The count of chains, and the open call.
fn call_broken(c: Core, f: &Fields) -> Result<(), Clause>
    requires plain { Plain c }
    requires n_of { f.now.n ≡ c.n }
    ensures { broken_number result ≡ first (call_tests c f.now.flags.now f.now.len.now f.now.noted.now) }
{
    let published = ahead(c.avail_idx, c.last_used_idx) as u32;
    ask(
        published + adds(c.call) == out_count(f) as u32,
        Clause::Count,
    )?;
    ask(
        call_ok(f, c.call, c.num_used, c.modes.event_idx),
        Clause::Call,
    )
}

// The first n descriptors of the tables, by field.
fn by_field<'a>(n: u16, t: &TablesRef<'a>) -> Fields<'a>
    requires { n ≤ t.now.room }
    ensures { IsBy n t.now result }
{
    let square = t.room * t.room;
    Fields {
        n,
        next: &t.halves[..t.room],
        flags: &t.halves[t.room..2 * t.room],
        noted: &t.halves[2 * t.room..3 * t.room],
        addr: &t.words[..t.room],
        len: &t.lens[..t.room],
        lens: &t.lens[t.room..t.room + square],
        sides: &t.sides[..square],
    }
}

// Whether the record that the fields and the tables say is well formed, or else its first broken clause.
pub fn broken(c: Core, t: &TablesRef) -> Result<(), Clause>
    requires { HasRoom c t.now.room }
    ensures { broken_number result ≡ broken_is (queue_of c (tables_read t.now)) }
{
    plain_broken(c)?;
    let f = by_field(c.n, t);
    links_broken(c, &f)?;
    heads_broken(c, &f)?;
    call_broken(c, &f)
}

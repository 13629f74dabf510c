// A chain freed: its descriptors emptied and first in the free list, its noted length and its private list cleared.
ghost use Rattle.std.specs.Prelude.{◌≡◌, cond, ◌+◌, ◌*◌, ◌/◌, ◌<◌, ◌≤◌};
ghost use Rattle.virtio.specs.Desc.{has_indirect};
ghost use Rattle.rules.specs.Meaning.{Out};
ghost use Rattle.rules.specs.Step.{freed as freed_is};
ghost use Rattle.views.specs.Views.{Closed};
ghost use Rattle.views.specs.Tables.{nexts_in, queue_of};
ghost use Rattle.tables.specs.Lent.{tables_held, SameLoan};
ghost use Rattle.tables.specs.Ready.{ReadyHeld};
ghost use Rattle.react.specs.Reactions.{freed_core, unchained, cleared};

use indices::after;
use tables::TablesMut;
use views::Core;
use virtio::{Buffer, Desc};

// The descriptor with address and length 0, linked to `next`.
fn empty(d: Desc, next: u16) -> Desc
    ensures { result ≡ record { addr = 0; len = 0; flags = d.flags; next = next } }
{
    Desc {
        addr: 0,
        len: 0,
        next,
        ..d
    }
}

// Empties the k descriptors from head on, of the n that links stay among, and links the last of them to `free`.
fn free_descs(n: u16, t: &mut TablesMut, head: u16, k: u16, free: u16)
    requires n_le_room { (n ≤ t.old.room) × (head < n) × (0 < k) }
    requires closed { Closed n (nexts_in t.old.room t.old.halves.now) }
    ensures freed { tables_held t.new ≡ unchained (tables_held t.old) head k free }
    ensures same_loan { SameLoan t.old t.new }
{
    let mut i = head;
    for _ in 1..k {
        let d = t.read().desc_at(i);
        t.put_desc(i, empty(d, d.next));
        i = d.next;
    }
    let last = t.read().desc_at(i);
    t.put_desc(i, empty(last, free));
}

// Clears count entries of the private lists from `from` on.
fn clear_entries(t: &mut TablesMut, from: usize, count: u32)
    requires { from + count ≤ t.old.room * t.old.room }
    ensures freed { tables_held t.new ≡ cleared (tables_held t.old) from count }
    ensures same_loan { SameLoan t.old t.new }
{
    let none = Buffer {
        addr: 0,
        len: 0,
        output: false,
    };
    for i in 0..count as usize {
        t.put_entry(from + i, none);
    }
}

// How many entries the list of a chain with this head has: none of a direct one.
fn list_count(head: Desc) -> u32
    ensures { result ≡ cond (has_indirect head) (head.len / 16) 0 }
{
    if head.is_indirect() { head.len / 16 } else { 0 }
}

// The plain fields after the chain of k descriptors at token was freed.
fn freed_core(c: Core, k: u16, token: u16) -> Core
    requires { k ≤ c.num_used }
    ensures { result ≡ freed_core c k token }
{
    Core {
        num_used: c.num_used - k,
        free_head: token,
        last_used_idx: after(c.last_used_idx),
        ..c
    }
}

// Frees the chain at token: its descriptors emptied and first in the free list, its noted length and private list 0, last_used_idx counted on.
pub(crate) fn free_chain(c: Core, t: &mut TablesMut, token: u16) -> Core
    requires ready { ReadyHeld c t.old }
    requires out { Out (queue_of c (tables_held t.old)) token }
    ensures freed { queue_of result (tables_held t.new) ≡ freed_is (queue_of c (tables_held t.old)) token }
    ensures same_loan { SameLoan t.old t.new }
{
    let d = t.read().desc_at(token);
    let k = t.read().noted_at(token);
    free_descs(c.n, t, token, k, c.free_head);
    t.put_noted(token, 0);
    clear_entries(t, c.n as usize * token as usize, list_count(d));
    freed_core(c, k, token)
}

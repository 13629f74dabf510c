// The private update of an add: descriptors filled, direct or one for a list; the list copied; the plain fields with the add open.
ghost use Rattle.std.specs.Prelude.{◌≡◌, true, ◌+◌, ◌*◌, ◌<◌, ◌≤◌, length};
ghost use Rattle.lists.specs.Walk.{hop};
ghost use Rattle.rules.specs.Calls.{filled, add_direct, add_indirect, add_opened};
ghost use Rattle.laws.specs.AddKeeps.{Addable};
ghost use Rattle.views.specs.Views.{Closed};
ghost use Rattle.views.specs.Tables.{nexts_in, queue_of};
ghost use Rattle.tables.specs.Lent.{tables_held, SameLoan};
ghost use Rattle.tables.specs.Ready.{ReadyHeld};
ghost use Rattle.opens.specs.Given.{next_in, with_filled, with_copied, added_core};

use rules::Open;
use tables::{TablesMut, flags_of};
use views::Core;
use virtio::{Buffer, Desc, INDIRECT};

// The descriptor that a buffer fills; its next stays.
fn filled(b: Buffer, more: bool, next: u16) -> Desc
    ensures { result ≡ filled b more next }
{
    Desc {
        addr: b.addr,
        len: b.len,
        flags: flags_of(more, b.output),
        next,
    }
}

// Fills descriptors from `head` on along next with the buffers, and answers the one behind the last of them.
fn fill_descs(n: u16, tables: &mut TablesMut, head: u16, list: &[Buffer]) -> u16
    requires n_le_room { (n ≤ tables.old.room) × (head < n) }
    requires closed { Closed n (nexts_in tables.old.room tables.old.halves.now) }
    ensures behind { result ≡ hop (next_in (tables_held tables.old)) (length list.now) head }
    ensures filled { tables_held tables.new ≡ with_filled (tables_held tables.old) head list.now }
    ensures same_loan { SameLoan tables.old tables.new }
{
    let mut i = head;
    for (j, buffer) in list.iter().enumerate() {
        let next = tables.read().next_at(i);
        tables.put_desc(i, filled(*buffer, j + 1 < list.len(), next));
        i = next;
    }
    i
}

// Copies the buffers to the private lists, from entry `from` on.
fn copy_list(tables: &mut TablesMut, from: usize, list: &[Buffer])
    requires { from + length list.now ≤ tables.old.room * tables.old.room }
    ensures copied { tables_held tables.new ≡ with_copied (tables_held tables.old) from list.now }
    ensures same_loan { SameLoan tables.old tables.new }
{
    for (j, buffer) in list.iter().enumerate() {
        tables.put_entry(from + j, *buffer);
    }
}

// The plain fields with an add open at the old free_head: `used` more descriptors in use, and `free` the new free_head.
fn added_core(c: Core, used: u16, free: u16) -> Core
    requires { c.num_used + used < 65536 }
    ensures { result ≡ added_core c used free }
{
    Core {
        num_used: c.num_used + used,
        free_head: free,
        call: Open::Add {
            head: c.free_head,
            step: 0,
        },
        ..c
    }
}

// Opens a direct add: descriptors from free_head on are filled.
fn open_direct(c: Core, tables: &mut TablesMut, list: &[Buffer]) -> Core
    requires ready { ReadyHeld c tables.old }
    requires addable { Addable (queue_of c (tables_held tables.old)) list.now }
    ensures opened { queue_of result (tables_held tables.new) ≡ add_direct (queue_of c (tables_held tables.old)) list.now }
    ensures same_loan { SameLoan tables.old tables.new }
{
    let count = list.len() as u16;
    let free = fill_descs(c.n, tables, c.free_head, list);
    tables.put_noted(c.free_head, count);
    added_core(c, count, free)
}

// Opens an indirect add: one descriptor that refers to the list in its pool slot, and a private copy of the list.
fn open_list(c: Core, tables: &mut TablesMut, list: &[Buffer]) -> Core
    requires ready { ReadyHeld c tables.old }
    requires addable { Addable (queue_of c (tables_held tables.old)) list.now }
    requires indirect_value { c.modes.indirect ≡ true }
    ensures opened { queue_of result (tables_held tables.new) ≡ add_indirect (queue_of c (tables_held tables.old)) list.now }
    ensures same_loan { SameLoan tables.old tables.new }
{
    let head = c.free_head;
    let slot = (c.n as usize) * (head as usize);
    let next = tables.read().next_at(head);
    let refers = Desc {
        addr: c.base + 16 * (slot as u64),
        len: 16 * (list.len() as u32),
        flags: INDIRECT,
        next,
    };
    tables.put_desc(head, refers);
    tables.put_noted(head, 1);
    copy_list(tables, slot, list);
    added_core(c, 1, next)
}

// Opens an add, direct or indirect as the mode and the number of buffers tell.
pub fn open_add(c: Core, tables: &mut TablesMut, list: &[Buffer]) -> Core
    requires ready { ReadyHeld c tables.old }
    requires addable { Addable (queue_of c (tables_held tables.old)) list.now }
    ensures opened { queue_of result (tables_held tables.new) ≡ add_opened (queue_of c (tables_held tables.old)) list.now }
    ensures same_loan { SameLoan tables.old tables.new }
{
    if c.modes.indirect && 1 < list.len() {
        open_list(c, tables, list)
    } else {
        open_direct(c, tables, list)
    }
}

// Pop's comparison of the caller's list with the one that was added: by the private record, never by the pool.
ghost use Rattle.std.specs.Prelude.{◌≡◌, ◌+◌, ◌*◌, ◌<◌, ◌≤◌};
ghost use Rattle.lists.specs.Pick.{run_of};
ghost use Rattle.virtio.specs.Desc.{no_buffer};
ghost use Rattle.rules.specs.Calls.{same_list, matches};
ghost use Rattle.views.specs.Views.{Closed};
ghost use Rattle.views.specs.Tables.{nexts_in, queue_of};
ghost use Rattle.tables.specs.Lent.{tables_read};
ghost use Rattle.tables.specs.Ready.{ReadyRead};
ghost use Rattle.opens.specs.Given.{direct_in};

use tables::TablesRef;
use views::Core;
use virtio::Buffer;

// Whether the buffers of the direct chain of `count` descriptors at `head` are those of the list.
fn same_direct(n: u16, tables: &TablesRef, head: u16, count: u16, list: &[Buffer]) -> bool
    requires n_le_room { (n ≤ tables.now.room) × (head < n) }
    requires closed { Closed n (nexts_in tables.now.room tables.now.halves.now) }
    ensures { result ≡ same_list (direct_in (tables_read tables.now) count head) list.now }
{
    if list.len() != count as usize {
        return false;
    }
    let mut i = head;
    for buffer in list {
        let d = tables.desc_at(i);
        if d.buffer() != *buffer {
            return false;
        }
        i = d.next;
    }
    true
}

// Whether the `count` entries of the private lists from `from` on are those of the list.
fn same_listed(tables: &TablesRef, from: usize, count: u32, list: &[Buffer]) -> bool
    requires { from + count ≤ tables.now.room * tables.now.room }
    ensures { result ≡ same_list (run_of no_buffer (tables_read tables.now).kept from count) list.now }
{
    if list.len() != count as usize {
        return false;
    }
    for (j, buffer) in list.iter().enumerate() {
        if tables.entry_at(from + j) != *buffer {
            return false;
        }
    }
    true
}

// Whether the buffers of the list are those that were added under the token.
pub fn matches(c: Core, tables: &TablesRef, token: u32, list: &[Buffer]) -> bool
    requires { ReadyRead c tables.now }
    ensures { result ≡ matches (queue_of c (tables_read tables.now)) token list.now }
{
    if c.n as u32 <= token {
        return false;
    }
    let head = token as u16;
    let count = tables.noted_at(head);
    if count == 0 {
        return false;
    }
    let d = tables.desc_at(head);
    if d.is_indirect() {
        same_listed(tables, (c.n as usize) * (head as usize), d.len / 16, list)
    } else {
        same_direct(c.n, tables, head, count, list)
    }
}

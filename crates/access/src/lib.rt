// The one load or store that an open call makes next (document 01, "Step by step"): which it is, read off the record, and the doing of it on lent bytes.
#![tactic(auto)]

ghost use Rattle.std.specs.Prelude.{◌≡◌, List, ℕ, ◌+◌, ◌<◌, ◌≤◌, length};
ghost use Rattle.lists.specs.Bytes.{get_le};
ghost use Rattle.lists.specs.Walk.{hop};
ghost use Rattle.virtio.specs.Layout.{used_size, used_at, need_one, need_two};
ghost use Rattle.virtio.specs.Memory.{used_region, bytes_of};
ghost use Rattle.rules.specs.Record.{Tables, desc_of, next_of, size_of};
ghost use Rattle.rules.specs.Meaning.{Adding};
ghost use Rattle.rules.specs.Step.{with_next, buffer_store, add_access, pop_access, access as access_is, loaded, accessed};
ghost use Rattle.views.specs.Tables.{queue_of};
ghost use Rattle.tables.specs.Lent.{tables_read};
ghost use Rattle.tables.specs.Ready.{ReadyRead, Fitting};
ghost use Rattle.access.specs.Accesses.{memory, access_of, Within};

use fields::{Field, load, store, store_desc};
use indices::after;
use layout::{avail_at, used_ring};
use rules::Open;
use tables::{TablesRef, flags_of};
use views::Core;
use virtio::{Desc, NEXT};

// A load of a used field, a store of one of the driver's fields, or nothing where no call is open.
#[derive(Clone, Copy, PartialEq, Eq, Debug)]
pub enum Access {
    Nothing,
    LoadIdx,
    LoadId { i: u16 },
    LoadLen { i: u16 },
    StoreDesc { i: u16, d: Desc },
    StoreEntry { j: u32, d: Desc },
    StoreSlot { i: u16, head: u16 },
    StoreIdx { idx: u16 },
    StoreEvent { idx: u16 },
}

// The descriptor with NEXT.
fn with_next(d: Desc) -> Desc
    ensures { result ≡ with_next d }
{
    Desc {
        flags: d.flags | NEXT,
        ..d
    }
}

// The descriptor that stands k links on from i, and its number.
fn linked(c: Core, t: &TablesRef, k: u16, i: u16) -> (u16, Desc)
    requires ready { ReadyRead c t.now }
    requires i_bound { i < c.n }
    ensures number { (result.0 ≡ hop (next_of (queue_of c (tables_read t.now))) k i) × (result.0 < c.n) }
    ensures desc { result.1 ≡ desc_of (queue_of c (tables_read t.now)) (hop (next_of (queue_of c (tables_read t.now))) k i) }
{
    let at = t.hop(c.n, k, i);
    (at, t.desc_at(at))
}

// An add's store for its buffer i: the list entry in final form, or the chain's descriptor i with NEXT.
fn buffer_access(c: Core, t: &TablesRef, head: u16, i: u16) -> Access
    requires ready { ReadyRead c t.now }
    requires adding { Adding (queue_of c (tables_read t.now)) head i }
    requires i_bound { i < size_of (queue_of c (tables_read t.now)) head }
    ensures { (access_of result ≡ buffer_store (queue_of c (tables_read t.now)) head i) × Within c result }
{
    let h = t.desc_at(head);
    if h.is_indirect() {
        let j = (c.n as usize) * (head as usize) + (i as usize);
        let b = t.entry_at(j);
        let d = Desc {
            addr: b.addr,
            len: b.len,
            flags: flags_of((i as u32) + 1 < h.len / 16, b.output),
            next: i + 1,
        };
        Access::StoreEntry { j: j as u32, d }
    } else {
        let (at, d) = linked(c, t, i, head);
        Access::StoreDesc {
            i: at,
            d: with_next(d),
        }
    }
}

// An add's next store: its buffers, the last descriptor in final form or the one that refers to the list, the ring slot, idx.
fn add_access(c: Core, t: &TablesRef, head: u16, i: u16) -> Access
    requires ready { ReadyRead c t.now }
    requires adding { Adding (queue_of c (tables_read t.now)) head i }
    ensures { (access_of result ≡ add_access (queue_of c (tables_read t.now)) head i) × Within c result }
{
    let size = t.size_at(head);
    let step = i as u32;
    if step < size {
        return buffer_access(c, t, head, i);
    }
    if step == size {
        let (i, d) = linked(c, t, t.noted_at(head) - 1, head);
        return Access::StoreDesc { i, d };
    }
    if step == size + 1 {
        return Access::StoreSlot {
            i: c.avail_idx % c.n,
            head,
        };
    }
    Access::StoreIdx {
        idx: after(c.avail_idx),
    }
}

// A pop's next store: of the descriptors that it freed, which stand first in the free list; then used_event.
fn pop_access(c: Core, t: &TablesRef, count: u16, i: u16) -> Access
    requires { ReadyRead c t.now }
    ensures { (access_of result ≡ pop_access (queue_of c (tables_read t.now)) count i) × Within c result }
{
    if i < count {
        let (i, d) = linked(c, t, i, c.free_head);
        return Access::StoreDesc { i, d };
    }
    Access::StoreEvent {
        idx: c.last_used_idx,
    }
}

// What the open call does next.
pub fn next_access(c: Core, t: &TablesRef) -> Access
    requires { ReadyRead c t.now }
    ensures { (access_of result ≡ access_is (queue_of c (tables_read t.now)) c.call) × Within c result }
{
    match c.call {
        Open::Idle => Access::Nothing,
        Open::Add { head, step } => add_access(c, t, head, step),
        Open::PopIdx { .. } | Open::PeekIdx => Access::LoadIdx,
        Open::PopId { .. } | Open::PeekId => Access::LoadId {
            i: c.last_used_idx % c.n,
        },
        Open::PopLen { .. } => Access::LoadLen {
            i: c.last_used_idx % c.n,
        },
        Open::PopStore { count, step, .. } => pop_access(c, t, count, step),
    }
}

// A load of a field of the used ring, `at` bytes into it.
pub fn load_used<T: Field>(c: Core, one: &[u8], two: &[u8], at: usize) -> T
    requires n_in_bounds { (need_one c.modes.legacy c.n ≤ length one.now) × (need_two c.modes.legacy c.n ≤ length two.now) }
    requires at_bound { at + T.WIDTH ≤ used_size c.n }
    ensures { (pool : List ℕ) → T.number result ≡ get_le T.WIDTH (bytes_of (used_region c.modes.legacy) (memory one.now two.now pool)) (used_at c.modes.legacy c.n + at) }
{
    load(used_ring(one, two, c.modes.legacy, c.n), at)
}

// Does the access, and answers the number that was loaded, 0 for a store.
pub fn perform(c: Core, a: Access, one: &mut [u8], two: &[u8], pool: &mut [u8]) -> u32
    requires within { Within c a }
    requires fitting { Fitting c one.old two.now pool.old }
    ensures { (t : Tables) → (result ≡ loaded (queue_of c t) (access_of a) (memory one.old two.now pool.old)) × (memory one.new two.now pool.new ≡ accessed (queue_of c t) (access_of a) (memory one.old two.now pool.old)) }
{
    let rings = avail_at(c.n);
    match a {
        Access::Nothing => 0,
        Access::LoadIdx => u32::from(load_used::<u16>(c, one, two, 2)),
        Access::LoadId { i } => load_used(c, one, two, 4 + 8 * (i as usize)),
        Access::LoadLen { i } => load_used(c, one, two, 8 + 8 * (i as usize)),
        Access::StoreDesc { i, d } => {
            store_desc(one, 16 * (i as usize), d);
            0
        }
        Access::StoreEntry { j, d } => {
            store_desc(pool, 16 * (j as usize), d);
            0
        }
        Access::StoreSlot { i, head } => {
            store(one, rings + (4 + 2 * (i as usize)), head);
            0
        }
        Access::StoreIdx { idx } => {
            store(one, rings + 2, idx);
            0
        }
        Access::StoreEvent { idx } => {
            store(one, rings + (4 + 2 * (c.n as usize)), idx);
            0
        }
    }
}

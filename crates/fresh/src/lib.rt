// What the call new does to lent bytes and words: clear a part, link the table, link the private nexts (document 01, "The record", last paragraph).
#![tactic(auto)]

ghost use Rattle.std.specs.Prelude.{◌≡◌, ◌+◌, ◌-◌, ◌*◌, ◌≤◌, ◌<◌, length};
ghost use Rattle.std.proofs.lemmas.List.Edits.{sets};
ghost use Rattle.fresh.specs.Nexts.{lastly};
ghost use Rattle.rules.specs.New.{cleared, linked, nexts_from, put_descs};

use fields::store_desc;
use virtio::Desc;

// Sets count bytes from `from` on to 0.
pub fn clear(s: &mut [u8], from: usize, count: usize)
    requires { from + count ≤ length s.old }
    ensures { s.new ≡ cleared s.old from count }
{
    s[from..from + count].fill(0);
}

// Stores n empty descriptors at the start of the table, each linked to the next, the last to 0.
pub fn link_table(s: &mut [u8], n: u16)
    requires { 16 * n ≤ length s.old }
    ensures { s.new ≡ put_descs s.old 0 (linked n) }
{
    for i in 0..n {
        let d = Desc {
            addr: 0,
            len: 0,
            flags: 0,
            next: next_of(i, n),
        };
        store_desc(s, 16 * usize::from(i), d);
    }
}

// What descriptor i of n links to when all are free: the one after it, and 0 for the last.
fn next_of(i: u16, n: u16) -> u16
    requires { i < n }
    ensures { result ≡ lastly i n }
{
    if i + 1 < n { i + 1 } else { 0 }
}

// Links n private nexts in the same way.
pub fn link_nexts(halves: &mut [u16], n: u16)
    requires { n ≤ length halves.old }
    ensures { halves.new ≡ sets halves.old 0 (nexts_from n 0) }
{
    for i in 0..n {
        halves[usize::from(i)] = next_of(i, n);
    }
}

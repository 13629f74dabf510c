// The walk of the free list: its descriptors are marked run by run, since a free list mostly rises or falls by one from descriptor to descriptor. The answer
// is that of a walk link by link.
#![tactic(auto)]

ghost use Rattle.std.specs.Prelude.{◌≡◌, ℕ, ◌+◌, ◌≤◌, ◌<◌, length};
ghost use Rattle.lists.specs.Asked.{Bounded};
ghost use Rattle.lists.specs.Marks.{Marks, marks_in};
ghost use Rattle.lists.specs.Runs.{Begins};
ghost use Rattle.views.specs.Views.{at};
ghost use Rattle.free_list.specs.Linked.{Linked};

use marks::mark_run;

// How long a run is, counted up to `most`: `ith` gives its numbers in order, and each of them but the last links to the next.
fn run_length<F: Fn(u16) -> u16>(next: &[u16], most: u16, ith: F) -> u16
    requires some { 0 < most }
    requires within { (i : ℕ) → i < most → F.pre ith i × ((j : ℕ) → F.post ith i j → j < length next.now) }
    ensures counted { (0 < result) × (result ≤ most) }
    ensures linked { (i : ℕ) → i + 1 < result → Linked (F.post ith) (at next.now) i }
{
    for i in 1..most {
        if next[ith(i - 1) as usize] != ith(i) {
            return i;
        }
    }
    most
}

// The first run of a walk: `count` numbers from `low` on, which share a word of marks, and the one of them that the walk leaves by.
#[derive(Clone, Copy)]
struct Run {
    low: u16,
    count: u16,
    last: u16,
}

// The first run of the k numbers from d on, which falls or rises.
fn first_run(n: u16, next: &[u16], k: u16, d: u16) -> Run
    requires { (d < n) × (0 < k) × (n ≤ length next.now) }
    ensures { Begins n (at next.now) k d result.low result.count result.last }
{
    if next[d as usize] < d {
        let count = run_length(next, k.min(d % 64 + 1), |i| d - i);
        let last = d - (count - 1);
        return Run {
            low: last,
            count,
            last,
        };
    }
    let room = (64 - d % 64).min(n - d);
    let count = run_length(next, k.min(room), |i| d + i);
    Run {
        low: d,
        count,
        last: d + (count - 1),
    }
}

// Marks the k numbers from i on, and answers whether each was new and each next below n; it ends at the first that is not.
pub fn free_walk(n: u16, next: &[u16], seen: &mut [u64], k: u16, i: u16) -> bool
    requires { (i < n) × (n ≤ length next.now) × Marks n seen }
    ensures { Bounded n (at next.now) (marks_in seen.entry) (marks_in seen.exit) k i result }
{
    let mut more = k;
    let mut d = i;
    'runs: while 0 < more {
        let run = first_run(n, next, more, d);
        if !mark_run(seen, run.low as usize, run.count as usize) {
            return false;
        }
        let x = next[run.last as usize];
        if n <= x {
            return false;
        }
        more -= run.count;
        d = x;
    }
    true
}

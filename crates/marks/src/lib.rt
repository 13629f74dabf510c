// Marks as bits of lent 64-bit words: mark i is bit i % 64 of word i / 64.
#![tactic(auto)]

ghost use Rattle.std.specs.Prelude.{◌≡◌, true, false, not, ◌+◌, ◌%◌, ◌≤◌, ◌<◌, get_or, set};
ghost use Rattle.lists.specs.Digits.{ones};
ghost use Rattle.lists.specs.Marks.{Marks, marks_in};
ghost use Rattle.lists.specs.Visited.{MarkedRun};

// c ones from bit o on.
fn mask(o: usize, c: usize) -> u64
    requires { (0 < c) × (o + c ≤ 64) }
    ensures { result ≡ ones c o }
{
    (u64::MAX >> (64 - c)) << o
}

// Marks the c numbers from d on, which share a word, and answers whether none was marked before.
pub fn mark_run(seen: &mut [u64], d: usize, c: usize) -> bool
    requires c_nonzero { (0 < c) × (d % 64 + c ≤ 64) }
    requires marks { Marks (d + c) seen }
    ensures { MarkedRun (marks_in seen.entry) (marks_in seen.exit) d c result }
{
    let bits = mask(d % 64, c);
    let at = d / 64;
    let word = seen[at];
    if word & bits == 0 {
        seen[at] = word | bits;
        return true;
    }
    false
}

// Marks i, and answers whether it was not marked before.
pub fn mark(seen: &mut [u64], i: usize) -> bool
    requires { Marks (i + 1) seen }
    ensures { (result ≡ not (get_or (marks_in seen.entry) i false)) × (marks_in seen.exit ≡ set (marks_in seen.entry) i true) }
{
    mark_run(seen, i, 1)
}

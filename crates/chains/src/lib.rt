// Clauses of a well-formed record (document 01, "The record") that walk: every next is below n, the free list and the outstanding chains name each descriptor
// once, chains end where they say, and how many there are. One walk over the lent fields of the private tables answers the first three; marks are bits of
// lent words.
#![tactic(auto)]

ghost use Rattle.std.specs.Prelude.{◌≡◌, true, ◌&&◌, ◌+◌, ◌-◌, ◌%◌, ◌≤◌, ◌<◌, ltb, length};
ghost use Rattle.lists.specs.Marks.{Marks, Clear};
ghost use Rattle.lists.specs.Pick.{every, tally};
ghost use Rattle.views.specs.Views.{at, heads};
ghost use Rattle.chains.specs.Links.{agrees, Found};

use free_list::free_walk;
use marks::mark;
use views::Fields;
use virtio::NEXT;

// Whether every next of the table is below n.
pub fn nexts_below(f: &Fields) -> bool
    ensures { result ≡ every (λ i. ltb (at f.now.next.now i) f.now.n) f.now.n 0 }
{
    f.next[..f.n as usize].iter().all(|x| *x < f.n)
}

// Whether chains end where they say, so far and with one more descriptor: NEXT is among its flags exactly if more are to come in its chain.
fn still_ends(ended: bool, flags: u16, more: u16) -> bool
    ensures { result ≡ (ended && agrees flags more) }
{
    let goes = flags & NEXT != 0;
    ended && goes == (0 < more)
}

// The walk, with marks that the caller lends, none of them set. A descriptor met again ends it, out of both loops; so do a next of n or more, and a chain
// that is longer than what is left.
fn links_in(f: &Fields, used: u16, free: u16, seen: &mut [u64]) -> Option<bool>
    requires used_le_n { (used ≤ f.now.n) × (free < f.now.n) × Marks f.now.n seen }
    requires clear { Clear seen }
    ensures { Found f.now.n used free f.now.next.now f.now.flags.now f.now.noted.now result }
{
    if !free_walk(f.n, f.next, seen, f.n - used, free) {
        return None;
    }
    let mut left = used;
    let mut ended = true;
    let whole = 'heads: {
        for h in 0..f.n {
            let size = f.noted[h as usize];
            if left < size {
                break 'heads false;
            }
            let mut j = h;
            for i in 0..size {
                let x = f.next[j as usize];
                if f.n <= x || !mark(seen, j as usize) {
                    break 'heads false;
                }
                left -= 1;
                ended = still_ends(ended, f.flags[j as usize], size - i - 1);
                j = x;
            }
        }
        left == 0
    };
    if whole { Some(ended) } else { None }
}

// What the walk of free list and chains of a queue of at most 64 finds, whose marks are one word: if every next is below n and each descriptor is in one
// place, whether each outstanding chain ends at its noted length; otherwise nothing.
pub fn links(f: &Fields, used: u16, free: u16) -> Option<bool>
    requires { (f.now.n ≤ 64) × (used ≤ f.now.n) × (free < f.now.n) }
    ensures { Found f.now.n used free f.now.next.now f.now.flags.now f.now.noted.now result }
{
    let mut seen = [0; 1];
    links_in(f, used, free, &mut seen)
}

// How many chains are outstanding.
pub fn out_count(f: &Fields) -> u16
    ensures { result ≡ tally (heads f.now.n f.now.noted.now) f.now.n 0 }
{
    let mut count = 0;
    for h in 0..f.n {
        // added with no branch, since this is asked of every head in every check
        count += u16::from(f.noted[h as usize] != 0);
    }
    count
}

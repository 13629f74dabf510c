// The tests of the caller's list, and of the room for it.
ghost use Rattle.std.specs.Prelude.{◌≡◌, ◌≤◌};
ghost use Rattle.virtio.specs.Chain.{in_order};
ghost use Rattle.rules.specs.Record.{Tables};
ghost use Rattle.rules.specs.WellFormed.{no_empty};
ghost use Rattle.rules.specs.Calls.{full};
ghost use Rattle.views.specs.Tables.{queue_of};

use views::Core;
use virtio::Buffer;

// Whether no buffer is an input after an output.
pub fn in_order(list: &[Buffer]) -> bool
    ensures { result ≡ in_order list.now }
{
    let mut written = false;
    for buffer in list {
        if written && !buffer.output {
            return false;
        }
        written = buffer.output;
    }
    true
}

// Whether no buffer is empty.
pub fn none_empty(list: &[Buffer]) -> bool
    ensures { result ≡ no_empty list.now }
{
    list.iter().all(|buffer| buffer.len != 0)
}

// Whether there is no room for k buffers.
pub fn full(c: Core, k: usize) -> bool
    requires { (c.n ≤ 64) × (c.num_used ≤ c.n) }
    ensures { (t : Tables) → result ≡ full (queue_of c t) k }
{
    let n = c.n as usize;
    let used = c.num_used as usize;
    used == n || n < k || (!c.modes.indirect && n < used + k)
}

// The flags of a descriptor.
ghost use Rattle.std.specs.Prelude.{◌≡◌, false};
ghost use Rattle.virtio.specs.Desc.{flags_of};

use virtio::{NEXT, WRITE};

// The flags of a descriptor for a buffer: whether another follows, and whether the device writes it.
pub fn flags_of(more: bool, output: bool) -> u16
    ensures { result ≡ flags_of more output false }
{
    let next = if more { NEXT } else { 0 };
    let write = if output { WRITE } else { 0 };
    next + write
}

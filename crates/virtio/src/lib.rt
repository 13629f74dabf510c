// VIRTIO 1.1's split virtqueue (section 2.6): its rules in specs/, and here the two plain types that these and all code share.
// The rules are written from the public document and say nothing of the driver; document 01, parts 1 and 2, says which layouts we use.
#![tactic(auto)]

ghost use Rattle.std.specs.Prelude.{◌≡◌};

// The flags of a descriptor (2.6.5): another follows, the device writes its buffer, and it refers to a list of descriptors.
pub const NEXT: u16 = 1;

pub const WRITE: u16 = 2;

pub const INDIRECT: u16 = 4;

// An entry of a descriptor table (2.6.5).
#[derive(Clone, Copy, PartialEq, Eq, Debug)]
pub struct Desc {
    pub addr: u64,
    pub len: u32,
    pub flags: u16,
    pub next: u16,
}

impl Desc {
    ghost use Rattle.virtio.specs.Desc.{has_indirect, buffer_of};

    // Whether it refers to a list of descriptors.
    pub fn is_indirect(self) -> bool
        ensures { result ≡ has_indirect self }
    {
        self.flags & INDIRECT != 0
    }

    // The buffer that it tells of.
    pub fn buffer(self) -> Buffer
        ensures { result ≡ buffer_of self }
    {
        Buffer {
            addr: self.addr,
            len: self.len,
            output: self.flags & WRITE != 0,
        }
    }
}

// A buffer of a chain: its address, its length, and its side; an output is what the device writes.
#[derive(Clone, Copy, PartialEq, Eq, Debug)]
pub struct Buffer {
    pub addr: u64,
    pub len: u32,
    pub output: bool,
}

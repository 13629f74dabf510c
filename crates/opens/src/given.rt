// A list of buffers as three slices of numbers, as a program in C gives it.
ghost use Rattle.std.specs.Prelude.{◌≡◌, ◌<◌, ◌≤◌, length, get_or, take};
ghost use Rattle.virtio.specs.Desc.{no_buffer};
ghost use Rattle.opens.specs.Given.{given};

use virtio::Buffer;

// Buffer i of the list that the caller's slices say; what `lens` or `sides` lacks is 0.
pub fn buffer_at(addrs: &[u64], lens: &[u32], sides: &[u8], i: usize) -> Buffer
    requires { i < length addrs.now }
    ensures { result ≡ get_or (given addrs.now lens.now sides.now) i no_buffer }
{
    Buffer {
        addr: addrs[i],
        len: lens.get(i).copied().unwrap_or(0),
        output: sides.get(i).copied().unwrap_or(0) != 0,
    }
}

// Copies the list that three slices of numbers say to the start of a room.
pub fn copy_given(room: &mut [Buffer], addrs: &[u64], lens: &[u32], sides: &[u8])
    requires { length addrs.now ≤ length room.old }
    ensures { take (length addrs.now) room.new ≡ given addrs.now lens.now sides.now }
{
    for i in 0..addrs.len() {
        room[i] = buffer_at(addrs, lens, sides, i);
    }
}

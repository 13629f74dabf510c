// A list of buffers copied from three slices of numbers, as a program in C gives it, with no heap.
// A list of more than 64 buffers fits no queue, and of such a list a call asks only whether it is in order. So 65 buffers can stand for it.
ghost use Rattle.std.specs.Prelude.{◌≡◌, cond, ltb, ◌≤◌, ◌<◌, length, take};
ghost use Rattle.opens.specs.Given.{given};
ghost use Rattle.buffers.specs.Gather.{none_of, kept, passed, gathered, shortened, list_of, stands_for, StandsIn};

use opens::{buffer_at, copy_given};
use virtio::Buffer;

// A list that was copied: how many buffers it has, the first 65 of them, whether there is an output, and whether an input comes after one.
#[derive(Clone, Copy)]
pub struct Gathered {
    pub count: usize,
    pub list: [Buffer; 65],
    pub written: bool,
    pub mixed: bool,
}

// The copy of the list that three slices of numbers say. Behind the buffers that are kept only sides count, and they are read no further than there is anything
// to learn of them.
pub fn gather(addrs: &[u64], sizes: &[u32], outs: &[u8]) -> Gathered
    ensures { result ≡ gathered (given addrs.now sizes.now outs.now) }
{
    let mut g = Gathered::none(addrs.len());
    for i in 0..few(addrs.len()) {
        g.keep(i, buffer_at(addrs, sizes, outs, i));
    }
    for i in few(addrs.len())..addrs.len() {
        if g.mixed {
            return g;
        }
        g.pass(buffer_at(addrs, sizes, outs, i).output);
    }
    g
}

// How many buffers of a list are kept.
fn few(count: usize) -> usize
    ensures { result ≡ cond (ltb count 65) count 65 }
{
    if count < 65 { count } else { 65 }
}

// Puts the list that a call is made of into a room, and answers how many buffers it has: the caller's list, or 65 buffers that are answered as a longer one is.
// `ordered` says that the call asks if the list is in order. Else a longer list is not read, and whatever the room holds stands for it, which only a call that
// does not ask may be made of.
pub fn stand_in(
    room: &mut [Buffer; 65],
    addrs: &[u64],
    sizes: &[u32],
    outs: &[u8],
    ordered: bool,
) -> usize
    ensures within { result ≤ 65 }
    ensures list { StandsIn ordered (take result room.new) (given addrs.now sizes.now outs.now) }
{
    if addrs.len() <= 64 {
        copy_given(&mut room[..], addrs, sizes, outs);
        return addrs.len();
    }
    if ordered {
        *room = stand_in_for_longer(addrs, sizes, outs);
    }
    65
}

// 65 buffers that are in order exactly if a longer list is. It stands apart, since a short list need not pay for its room.
#[inline(never)]
fn stand_in_for_longer(addrs: &[u64], sizes: &[u32], outs: &[u8]) -> [Buffer; 65]
    requires { 64 < length addrs.now }
    ensures { result ≡ stands_for (gathered (given addrs.now sizes.now outs.now)) }
{
    let mut g = gather(addrs, sizes, outs);
    g.shorten();
    g.list
}

impl Gathered {
    // The copy of so many buffers with none of them copied yet.
    fn none(count: usize) -> Self
        ensures { result ≡ none_of count }
    {
        let zero = Buffer {
            addr: 0,
            len: 0,
            output: false,
        };
        Gathered {
            count,
            list: [zero; 65],
            written: false,
            mixed: false,
        }
    }

    // Keeps buffer i where there is room for it; its side counts in any case.
    fn keep(&mut self, i: usize, b: Buffer)
        ensures { self.new ≡ kept self.old i b }
    {
        if i < 65 {
            self.list[i] = b;
        }
        self.pass(b.output);
    }

    // Passes by a buffer of this side, for which there is no room.
    fn pass(&mut self, output: bool)
        ensures { self.new ≡ passed self.old output }
    {
        self.mixed = self.mixed || (self.written && !output);
        self.written = self.written || output;
    }

    // Of a list of more than 64 buffers, 65 buffers are left that are in order exactly if it is; any other stays as it is.
    pub fn shorten(&mut self)
        ensures is { self.new ≡ shortened self.old }
        ensures within { self.new.count ≤ 65 }
    {
        if 64 < self.count {
            for b in &mut self.list {
                b.output = false;
            }
            self.list[0].output = self.mixed;
            self.count = 65;
        }
    }

    // The list that was copied.
    pub fn buffers(&self) -> &[Buffer]
        requires { self.now.count ≤ 65 }
        ensures { result.now ≡ list_of self.now }
    {
        &self.list[..self.count]
    }
}

// Little-endian numbers of 2, 4 and 8 bytes, and descriptors of 16, loaded from and stored to lent bytes (document 01, part 2).
#![tactic(auto)]

ghost use Rattle.std.specs.Prelude.{◌≡◌, ℕ, ◌+◌, ◌≤◌, ◌<◌, ◌^◌, length};
ghost use Rattle.std.proofs.Common.{rules};
ghost use Rattle.lists.specs.Bytes.{get_le, put_le};
ghost use Rattle.virtio.specs.Desc.{desc_at, put_desc};

use virtio::Desc;

// An unsigned number as it stands in a queue's parts: in how many bytes, and which number a value is.
pub trait Field {
    const WIDTH: usize;

    ghost WIDTH: { ℕ };

    ghost number: { Self → ℕ };

    // The value that is the number x.
    fn from_number(x: u64) -> Self
        requires { x < 256 ^ WIDTH }
        ensures { number result ≡ x };

    // The number that the value is.
    fn to_number(self) -> u64
        ensures { result ≡ number self };

    ghost narrow: { WIDTH ≤ 8 };
}

impl Field for u16 {
    const WIDTH: usize = 2;

    ghost WIDTH = { 2 };

    ghost number = { λ x. x };

    ghost narrow = { Prim.search rules };

    fn from_number(x: u64) -> u16 {
        x as u16
    }

    fn to_number(self) -> u64 {
        u64::from(self)
    }
}

impl Field for u32 {
    const WIDTH: usize = 4;

    ghost WIDTH = { 4 };

    ghost number = { λ x. x };

    ghost narrow = { Prim.search rules };

    fn from_number(x: u64) -> u32 {
        x as u32
    }

    fn to_number(self) -> u64 {
        u64::from(self)
    }
}

impl Field for u64 {
    const WIDTH: usize = 8;

    ghost WIDTH = { 8 };

    ghost number = { λ x. x };

    ghost narrow = { Prim.search rules };

    fn from_number(x: u64) -> u64 {
        x
    }

    fn to_number(self) -> u64 {
        self
    }
}

// The field that stands in the bytes from `at` on.
pub fn load<T: Field>(s: &[u8], at: usize) -> T
    requires { at + T.WIDTH ≤ length s.now }
    ensures { T.number result ≡ get_le T.WIDTH s.now at }
{
    let mut number: u64 = 0;
    for i in (0..T::WIDTH).rev() {
        number = number * 256 + u64::from(s[at + i]);
    }
    T::from_number(number)
}

// Stores the field v in the bytes from `at` on.
pub fn store<T: Field>(s: &mut [u8], at: usize, v: T)
    requires { at + T.WIDTH ≤ length s.old }
    ensures { s.new ≡ put_le T.WIDTH s.old at (T.number v) }
{
    let mut rest = v.to_number();
    for i in 0..T::WIDTH {
        s[at + i] = (rest % 256) as u8;
        rest /= 256;
    }
}

// The descriptor that stands in the 16 bytes from `at` on.
pub fn load_desc(s: &[u8], at: usize) -> Desc
    requires { at + 16 ≤ length s.now }
    ensures { result ≡ desc_at s.now at }
{
    Desc {
        addr: load(s, at),
        len: load(s, at + 8),
        flags: load(s, at + 12),
        next: load(s, at + 14),
    }
}

// Stores the descriptor d in the 16 bytes from `at` on.
pub fn store_desc(s: &mut [u8], at: usize, d: Desc)
    requires { at + 16 ≤ length s.old }
    ensures { s.new ≡ put_desc s.old at d }
{
    store(s, at, d.addr);
    store(s, at + 8, d.len);
    store(s, at + 12, d.flags);
    store(s, at + 14, d.next);
}

// Numbers of a script. Whatever is not a digit parts numbers, so that a script may hold words.
ghost use Rattle.std.specs.Prelude.{◌≤◌};

use opens::copy_given;
use virtio::Buffer;

// No list of a script has more buffers.
pub const MOST: usize = 80;

pub const NO_BUFFER: Buffer = Buffer {
    addr: 0,
    len: 0,
    output: false,
};

// What is left to read of a script.
#[derive(Drop)]
pub struct Script<'a> {
    rest: &'a [u8],
}

impl<'a> Script<'a> {
    pub fn new(text: &'a [u8]) -> Script<'a> {
        Script { rest: text }
    }

    pub fn is_at_end(&self) -> bool {
        self.rest.is_empty()
    }

    // The next number; 0 at the end.
    pub fn number(&mut self) -> u64 {
        let (value, rest) = split_number(self.rest);
        self.rest = rest;
        value
    }

    // The next number, and at most `most`.
    pub fn capped(&mut self, most: usize) -> usize
        ensures { result ≤ most }
    {
        self.number().min(most as u64) as usize
    }

    // A list: three counts, of addresses, sizes and sides, and these numbers. What list they make is opens' `given`.
    pub fn list<'b>(&mut self, room: &'b mut [Buffer; MOST]) -> &'b [Buffer] {
        let count = self.capped(MOST);
        let size_count = self.capped(MOST);
        let side_count = self.capped(MOST);
        let mut addrs = [0u64; MOST];
        let mut sizes = [0u32; MOST];
        let mut sides = [0u8; MOST];
        for addr in addrs[..count].iter_mut() {
            *addr = self.number();
        }
        for size in sizes[..size_count].iter_mut() {
            *size = low32(self.number());
        }
        for side in sides[..side_count].iter_mut() {
            *side = low8(self.number());
        }
        copy_given(
            &mut room[..],
            &addrs[..count],
            &sizes[..size_count],
            &sides[..side_count],
        );
        &room[..count]
    }
}

// The first number of a text, and what stands behind it. Digits past 64 bits are left out.
fn split_number(text: &[u8]) -> (u64, &[u8]) {
    let start = text
        .iter()
        .position(|byte| byte.is_ascii_digit())
        .unwrap_or(text.len());
    let mut rest = &text[start..];
    let mut value: u64 = 0;
    while let [digit @ b'0'..=b'9', behind @ ..] = rest {
        value = longer(value, u64::from(*digit - b'0'));
        rest = behind;
    }
    (value, rest)
}

// The number with one more digit, if it fits.
fn longer(value: u64, digit: u64) -> u64 {
    value
        .checked_mul(10)
        .and_then(|tens| tens.checked_add(digit))
        .unwrap_or(value)
}

// Numbers count modulo the width of their field.
pub fn low8(x: u64) -> u8 {
    (x % 256) as u8
}

pub fn low16(x: u64) -> u16 {
    (x % 65536) as u16
}

pub fn low32(x: u64) -> u32 {
    (x % 4294967296) as u32
}

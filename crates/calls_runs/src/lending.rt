// The memory that calls are lent: three regions and a store of 65,536 bytes each, and how much of each is lent.
ghost use Rattle.std.specs.Prelude.{◌≤◌};

use crate::tokens::Script;

// What a region has room for.
pub const ROOM: usize = 65536;

// What lines show: all, what the Rust crate can tell too, or that and the bytes.
#[derive(Clone, Copy, PartialEq, Eq)]
pub enum Show {
    All,
    Shared,
    Bytes,
}

// How much of each region and of the store is lent, and what lines show.
#[derive(Clone, Copy)]
pub struct Lent {
    pub one: usize,
    pub two: usize,
    pub pool: usize,
    pub store: usize,
    pub show: Show,
    ghost one_fits: { one ≤ 65536 },
    ghost two_fits: { two ≤ 65536 },
    ghost pool_fits: { pool ≤ 65536 },
    ghost store_fits: { store ≤ 65536 },
}

impl Lent {
    // What a script says is lent and shown; the store's length is told beside it.
    pub fn read(script: &mut Script, store: usize) -> Lent
        requires { store ≤ 65536 }
    {
        Lent {
            one: script.capped(ROOM),
            two: script.capped(ROOM),
            pool: script.capped(ROOM),
            store,
            show: match script.number() {
                0 => Show::All,
                2 => Show::Bytes,
                _ => Show::Shared,
            },
        }
    }
}

#[derive(Drop)]
pub struct Memory {
    pub one: [u8; 65536],
    pub two: [u8; 65536],
    pub pool: [u8; 65536],
    pub store: [u8; 65536],
}

impl Memory {
    // Bytes stored to a region, as a script says by region, offset, width and number.
    pub fn poke(&mut self, script: &mut Script) {
        let region = script.number();
        let offset = script.capped(ROOM);
        let width = script.capped(8);
        let value = script.number();
        match region {
            0 => poke(&mut self.one, offset, width, value),
            1 => poke(&mut self.two, offset, width, value),
            3 => poke(&mut self.store, offset, width, value),
            _ => poke(&mut self.pool, offset, width, value),
        }
    }
}

// Stores the lowest `width` bytes of a number, as a device does, as far as there is room.
fn poke(region: &mut [u8], offset: usize, width: usize, value: u64)
    requires offset_in_bounds { offset ≤ 65536 }
    requires width_in_bounds { width ≤ 8 }
{
    let bytes = value.to_le_bytes();
    for (i, byte) in bytes[..width].iter().enumerate() {
        if let Some(place) = region.get_mut(offset + i) {
            *place = *byte;
        }
    }
}

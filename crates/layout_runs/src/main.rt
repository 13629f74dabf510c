// Prints, for every queue size and both layouts, the sizes and places that crate layout gives: what oracle/header compares with the header of Linux.
#![tactic(auto)]

use console::print_word;
use layout::{avail_at, avail_size, need_one, need_pool, need_two, table_size, used_at, used_size};
use std::io;
use std::io::Write;

// Every size that a queue may have.
const SIZES: [u16; 7] = [1, 2, 4, 8, 16, 32, 64];

// One size in one layout.
fn line<W: Write>(to: &mut W, n: u16, legacy: bool) -> io::Result<()> {
    print_word(to, b"n ", u64::from(n))?;
    print_word(to, b" legacy ", u64::from(legacy))?;
    print_word(to, b" table ", table_size(n) as u64)?;
    print_word(to, b" avail_at ", avail_at(n) as u64)?;
    print_word(to, b" avail ", avail_size(n) as u64)?;
    print_word(to, b" used_at ", used_at(legacy, n) as u64)?;
    print_word(to, b" used ", used_size(n) as u64)?;
    print_word(to, b" one ", need_one(legacy, n) as u64)?;
    print_word(to, b" two ", need_two(legacy, n) as u64)?;
    print_word(to, b" pool ", need_pool(n) as u64)?;
    to.write_all(b"\n")
}

fn main(rt: HostRuntime) -> io::Result<()> {
    let mut out = rt.stdout();
    for n in SIZES {
        line(&mut out, n, false)?;
        line(&mut out, n, true)?;
    }
    Ok(())
}

// Reads the text of a replay: words, plain decimal numbers, lines of a key and a number, and lines of a key and entries.
#![tactic(auto)]

ghost use Rattle.std.specs.Prelude.{◌≡◌, cond, Some, None, suc, ◌+◌, ◌*◌, ◌≤◌, leb, drop, length, List};
ghost use Rattle.virtio.specs.declared.Buffer.{Buffer};
ghost use Rattle.text.specs.Text.{told, told_entry, stands as stands_is, digits_in, number as number_is, field as field_is, entry_at};
ghost use Rattle.text.specs.Text.{entries as entries_is, side as side_is};
ghost use Rattle.text.specs.Words.{newline};
ghost use Rattle.text.specs.Held.{Holds, Lists};

use virtio::Buffer;

// A number that was read, and where the text goes on.
#[derive(Clone, Copy, PartialEq, Eq, Debug)]
pub struct Number {
    pub value: u64,
    pub at: usize,
}

// An address and a length, and where the text goes on.
#[derive(Clone, Copy, PartialEq, Eq, Debug)]
pub struct Entry {
    pub addr: u64,
    pub len: u32,
    pub at: usize,
}

// A side's line that was good: how many buffers there are with its own, and where the next line starts.
#[derive(Clone, Copy, PartialEq, Eq, Debug)]
pub struct Side {
    pub count: usize,
    pub at: usize,
}

// No side's line has more entries.
const MOST_ENTRIES: usize = 65;

// Room for the buffers of both sides.
pub const MOST_BUFFERS: usize = 130;

// Whether the word stands at this place.
pub fn stands(src: &[u8], at: usize, word: &[u8]) -> bool
    ensures { result ≡ stands_is word.now src.now at }
{
    src.get(at..).unwrap_or(&[]).starts_with(word)
}

// The number with one digit more, if it is within its width.
fn with_digit(value: u64, digit: u64, most: u64) -> Option<u64>
    ensures { result ≡ cond (leb (value * 10 + digit) most) (Some (value * 10 + digit)) None }
{
    let longer = value.checked_mul(10)?.checked_add(digit)?;
    if longer <= most { Some(longer) } else { None }
}

// The digits from this place on, as long as the number is within its width.
fn digits(src: &[u8], at: usize, most: u64) -> Option<Number>
    requires { at ≤ length src.now }
    ensures { result ≡ told (digits_in most (drop at src.now) at 0) }
{
    let mut value = 0;
    for i in at..src.len() {
        if !src[i].is_ascii_digit() {
            return Some(Number { value, at: i });
        }
        value = with_digit(value, u64::from(src[i] - b'0'), most)?;
    }
    Some(Number {
        value,
        at: src.len(),
    })
}

// The number at this place, of at most `most`, with no leading zeros.
pub fn number_at(src: &[u8], at: usize, most: u64) -> Option<Number>
    ensures { result ≡ told (number_is most src.now at) }
{
    let first = *src.get(at)?;
    if first == b'0' {
        return Some(Number {
            value: 0,
            at: at + 1,
        });
    }
    if first.is_ascii_digit() {
        digits(src, at, most)
    } else {
        None
    }
}

// A line of a key and a number.
pub fn field(src: &[u8], at: usize, key: &[u8], most: u64) -> Option<Number>
    ensures { result ≡ told (field_is key.now most src.now at) }
{
    if !stands(src, at, key) {
        return None;
    }
    let number = number_at(src, at + key.len(), most)?;
    if !stands(src, number.at, b"\n") {
        return None;
    }
    Some(Number {
        at: number.at + 1,
        ..number
    })
}

// An address, a colon and a length.
fn entry_at(src: &[u8], at: usize) -> Option<Entry>
    ensures { result ≡ told_entry (entry_at src.now at) }
{
    let addr = number_at(src, at, u64::MAX)?;
    if !stands(src, addr.at, b":") {
        return None;
    }
    let len = number_at(src, addr.at + 1, u64::from(u32::MAX))?;
    Some(Entry {
        addr: addr.value,
        len: len.value as u32,
        at: len.at,
    })
}

// The line ends after so many buffers, or it is wrong.
fn list_end(src: &[u8], at: usize, count: usize) -> Option<Side>
    ensures { result ≡ cond (stands_is newline src.now at) (Some (record { count = count; at = suc at })) None }
{
    if stands(src, at, b"\n") {
        Some(Side { count, at: at + 1 })
    } else {
        None
    }
}

// At most 65 entries, behind the buffers that were read before.
fn entries(
    src: &[u8],
    at: usize,
    output: bool,
    from: usize,
    list: &mut [Buffer; MOST_BUFFERS],
) -> Option<Side>
    requires { from ≤ 65 }
    ensures { (bs : List Buffer) → Holds from list.old bs → Lists result list.new (entries_is 65 output src.now at bs) }
{
    let mut start = at;
    for count in from..from + MOST_ENTRIES {
        let entry = entry_at(src, start)?;
        list[count] = Buffer {
            addr: entry.addr,
            len: entry.len,
            output,
        };
        if !stands(src, entry.at, b",") {
            return list_end(src, entry.at, count + 1);
        }
        start = entry.at + 1;
    }
    None
}

// A side's line: its entries, or none, behind the buffers that were read before.
pub fn side_at(
    src: &[u8],
    at: usize,
    key: &[u8],
    output: bool,
    from: usize,
    list: &mut [Buffer; MOST_BUFFERS],
) -> Option<Side>
    requires { from ≤ 65 }
    ensures { (bs : List Buffer) → Holds from list.old bs → Lists result list.new (side_is key.now output src.now at bs) }
{
    if !stands(src, at, key) {
        return None;
    }
    let start = at + key.len();
    if stands(src, start, b"none\n") {
        return Some(Side {
            count: from,
            at: start + 5,
        });
    }
    if stands(src, start, b"\n") {
        return Some(Side {
            count: from,
            at: start + 1,
        });
    }
    entries(src, start, output, from, list)
}

// The sizes of a queue's parts and where they lie, for every queue size and both layouts (document 01, part 1).
#![tactic(auto)]

ghost use Rattle.std.specs.Prelude.{◌≡◌, ◌≤◌, ◌^◌, length};
ghost use Rattle.virtio.specs.Layout.{table_size, avail_size, used_size, page_up, avail_at, used_at, need_one, need_two, need_pool};
ghost use Rattle.layout.specs.Parts.{used_ring_of};

// The bytes of the descriptor table.
pub fn table_size(n: u16) -> usize
    ensures { result ≡ table_size n }
{
    16 * usize::from(n)
}

// The bytes of the available ring.
pub fn avail_size(n: u16) -> usize
    ensures { result ≡ avail_size n }
{
    6 + 2 * usize::from(n)
}

// The bytes of the used ring.
pub fn used_size(n: u16) -> usize
    ensures { result ≡ used_size n }
{
    6 + 8 * usize::from(n)
}

// x rounded up to a page.
pub fn page_up(x: usize) -> usize
    requires { x ≤ 2 ^ 32 }
    ensures { result ≡ page_up x }
{
    x.next_multiple_of(4096)
}

// Where the available ring starts in region one: right behind the table.
pub fn avail_at(n: u16) -> usize
    ensures { result ≡ avail_at n }
{
    table_size(n)
}

// Where the used ring starts in the region that holds it.
pub fn used_at(legacy: bool, n: u16) -> usize
    ensures { result ≡ used_at legacy n }
{
    if legacy {
        page_up(table_size(n) + avail_size(n))
    } else {
        0
    }
}

// How many bytes of region one the queue needs.
pub fn need_one(legacy: bool, n: u16) -> usize
    ensures { result ≡ need_one legacy n }
{
    if legacy {
        page_up(table_size(n) + avail_size(n)) + page_up(used_size(n))
    } else {
        table_size(n) + avail_size(n)
    }
}

// How many bytes of region two the queue needs.
pub fn need_two(legacy: bool, n: u16) -> usize
    ensures { result ≡ need_two legacy n }
{
    if legacy { 0 } else { used_size(n) }
}

// How many bytes of pool a queue with indirect lists needs.
pub fn need_pool(n: u16) -> usize
    ensures { result ≡ need_pool n }
{
    let wide = usize::from(n);
    16 * (wide * wide)
}

// The used ring, lent on as a part of the region in which the layout has it.
pub fn used_ring<'a>(one: &'a [u8], two: &'a [u8], legacy: bool, n: u16) -> &'a [u8]
    requires n_in_bounds { need_one legacy n ≤ length one.now }
    requires n_in_bounds_2 { need_two legacy n ≤ length two.now }
    ensures { result.now ≡ used_ring_of legacy n one.now two.now }
{
    let from = used_at(legacy, n);
    let to = from + used_size(n);
    if legacy {
        &one[from..to]
    } else {
        &two[from..to]
    }
}

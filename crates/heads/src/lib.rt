// Clauses of a well-formed record (document 01, "The record") that look at single heads: size, base, indirect heads, the buffers of each chain, and the
// open call. Each is a small function over lent slices, one for each field of the private tables.
#![tactic(auto)]

ghost use Rattle.std.specs.Prelude.{◌≡◌, true, not, ◌&&◌, ◌||◌, ◌+◌, ◌-◌, ◌*◌, ◌≤◌, ◌<◌, ◌^◌, ltb, leb, ℕ, map};
ghost use Rattle.lists.specs.Pick.{every};
ghost use Rattle.lists.specs.Walk.{walk};
ghost use Rattle.virtio.specs.declared.Buffer.{Buffer};
ghost use Rattle.rules.specs.WellFormed.{size_ok, base_ok, listed, sound_list, call_fits, steps_of_add, steps_of_stores};
ghost use Rattle.views.specs.Views.{at, heads, refers, described, direct, entries, buffers_at, size_at, Closed, Short};
ghost use Rattle.heads.specs.Heads.{listed_at, sound_at};
ghost use Rattle.heads.specs.Look.{Seen, Told};

use rules::Open;
use views::Fields;
use virtio::{INDIRECT, WRITE};

// Whether n is a queue size that is allowed.
pub fn size_ok(n: u16) -> bool
    ensures { result ≡ size_ok n }
{
    matches!(n, 1 | 2 | 4 | 8 | 16 | 32 | 64)
}

// Whether a region of this size can lie at this base: on a page, and with its last byte below 2^64.
pub fn base_ok(base: u64, size: u64) -> bool
    ensures { result ≡ base_ok base size }
{
    base % 4096 == 0 && (size == 0 || base <= u64::MAX - (size - 1))
}

// Whether h heads an outstanding chain.
fn is_head(f: &Fields, h: u16) -> bool
    ensures { result ≡ heads f.now.n f.now.noted.now h }
{
    h < f.n && f.noted[h as usize] != 0
}

// Whether descriptor h has INDIRECT.
fn is_list(f: &Fields, h: u16) -> bool
    requires { h < f.now.n }
    ensures { result ≡ refers f.now.flags.now h }
{
    f.flags[h as usize] & INDIRECT != 0
}

// Whether descriptor h refers to the indirect list in slot h of the pool.
fn list_head(f: &Fields, indirect: bool, base: u64, h: u16) -> bool
    requires n_bound { (f.now.n ≤ 64) × (h < f.now.n) }
    requires pool { indirect ≡ true → base + 16 * (f.now.n * f.now.n) ≤ 2 ^ 64 }
    ensures { result ≡ listed indirect f.now.n (base + 16 * (f.now.n * h)) (described (at f.now.addr.now h) (at f.now.len.now h) (at f.now.flags.now h)) }
{
    let i = h as usize;
    let len = f.len[i];
    let count = len / 16;
    indirect
        && f.flags[i] == INDIRECT
        && f.addr[i] == base + 16 * ((f.n as u64) * (h as u64))
        && 2 <= count
        && count <= f.n as u32
        && len % 16 == 0
}

// Whether h is no outstanding head with INDIRECT, or refers to its own slot, in indirect mode.
fn list_at(f: &Fields, indirect: bool, base: u64, h: u16) -> bool
    requires n_bound { (f.now.n ≤ 64) × (h < f.now.n) }
    requires pool { indirect ≡ true → base + 16 * (f.now.n * f.now.n) ≤ 2 ^ 64 }
    ensures { result ≡ listed_at indirect base f.now.n f.now.addr.now f.now.len.now f.now.flags.now f.now.noted.now h }
{
    !is_head(f, h) || !is_list(f, h) || list_head(f, indirect, base, h)
}

// Whether each outstanding head with INDIRECT refers to its own slot, in indirect mode.
pub fn list_heads(f: &Fields, indirect: bool, base: u64) -> bool
    requires n_bound { f.now.n ≤ 64 }
    requires pool { indirect ≡ true → base + 16 * (f.now.n * f.now.n) ≤ 2 ^ 64 }
    ensures { result ≡ every (λ h. not (heads f.now.n f.now.noted.now h) || (not (refers f.now.flags.now h) || listed indirect f.now.n (base + 16 * (f.now.n * h)) (described (at f.now.addr.now h) (at f.now.len.now h) (at f.now.flags.now h)))) f.now.n 0 }
{
    (0..f.n).all(|h| list_at(f, indirect, base, h))
}

// A buffer in its chain or list: how long it is, whether it is an output, and where the next one stands.
#[derive(Clone, Copy)]
struct Place {
    len: u32,
    output: bool,
    next: usize,
}

// Whether k buffers are sound, all of some length and inputs before outputs: the first stands at `from`, and `look` tells what stands where.
fn all_sound<F: Fn(usize) -> Place>(k: usize, from: usize, look: F) -> bool
    requires { Seen (F.pre look) (F.post look) k from }
    ensures { (buffer : ℕ → Buffer) (next : ℕ → ℕ) → Told (F.post look) buffer next → result ≡ sound_list (map buffer (walk next k from)) }
{
    let mut at = from;
    let mut written = false;
    for _ in 0..k {
        let place = look(at);
        if place.len == 0 || written && !place.output {
            return false;
        }
        written = place.output;
        at = place.next;
    }
    true
}

// Whether the buffers of the chain at h are sound, if one is outstanding: those of its list, or of its descriptors.
fn head_sound(f: &Fields, h: u16) -> bool
    requires closed { Closed f.now.n f.now.next.now }
    requires n_bound { (f.now.n ≤ 64) × (h < f.now.n) }
    requires short { Short f.now.n f.now.flags.now f.now.len.now f.now.noted.now }
    ensures { result ≡ sound_at f.now.n f.now.next.now f.now.flags.now f.now.len.now f.now.noted.now f.now.lens.now f.now.sides.now h }
{
    if !is_head(f, h) {
        return true;
    }
    let at = h as usize;
    if is_list(f, h) {
        return all_sound(
            (f.len[at] / 16) as usize,
            (f.n as usize) * at,
            |i| Place {
                len: f.lens[i],
                output: f.sides[i],
                next: i + 1,
            },
        );
    }
    all_sound(
        f.noted[at] as usize,
        at,
        |i| Place {
            len: f.len[i],
            output: f.flags[i] & WRITE != 0,
            next: f.next[i] as usize,
        },
    )
}

// Whether the buffers of each outstanding chain are sound.
pub fn buffers_sound(f: &Fields) -> bool
    requires closed { Closed f.now.n f.now.next.now }
    requires n_bound { f.now.n ≤ 64 }
    requires short { Short f.now.n f.now.flags.now f.now.len.now f.now.noted.now }
    ensures { result ≡ every (λ h. not (heads f.now.n f.now.noted.now h) || sound_list (buffers_at f.now.n f.now.next.now f.now.flags.now f.now.len.now f.now.noted.now f.now.lens.now f.now.sides.now h)) f.now.n 0 }
{
    (0..f.n).all(|h| head_sound(f, h))
}

// How many buffers the chain at h has: by its descriptor where that refers to a list, else by the noted length.
fn size_at(f: &Fields, h: u16) -> u32
    requires { h < f.now.n }
    ensures { result ≡ size_at f.now.flags.now f.now.len.now f.now.noted.now h }
{
    if is_list(f, h) {
        f.len[h as usize] / 16
    } else {
        f.noted[h as usize] as u32
    }
}

// An add's head and step.
fn add_ok(f: &Fields, head: u16, step: u16) -> bool
    ensures { result ≡ (heads f.now.n f.now.noted.now head && ltb step (steps_of_add (size_at f.now.flags.now f.now.len.now f.now.noted.now head))) }
{
    is_head(f, head) && (step as u64) < (size_at(f, head) as u64) + 3
}

// A storing pop's count and step.
fn stores_ok(free: u16, event: bool, count: u16, step: u16) -> bool
    ensures { result ≡ (ltb step (steps_of_stores event count) && leb count free) }
{
    (step as u32) < (count as u32) + (event as u32) && count <= free
}

// Whether the open call names a step that it has; an add an outstanding head; a storing pop descriptors that are free.
pub fn call_ok(f: &Fields, call: Open, used: u16, event: bool) -> bool
    requires { used ≤ f.now.n }
    ensures { result ≡ call_fits (heads f.now.n f.now.noted.now) (size_at f.now.flags.now f.now.len.now f.now.noted.now) (f.now.n - used) event call }
{
    match call {
        Open::Add { head, step } => add_ok(f, head, step),
        Open::PopStore { count, step, .. } => stores_ok(f.n - used, event, count, step),
        Open::Idle
        | Open::PopIdx { .. }
        | Open::PopId { .. }
        | Open::PopLen { .. }
        | Open::PeekIdx
        | Open::PeekId => true,
    }
}

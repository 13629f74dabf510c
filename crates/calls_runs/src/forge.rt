// Records that no call makes: any number in any field, array or open call.
use crate::operations::Forged;
use crate::tokens::{Script, low16, low32};
use record::Queue;
use rules::{Modes, Open};

// The modes as bits: indirect, event_idx, legacy.
pub fn bits(x: u64) -> Modes {
    Modes {
        indirect: x % 2 == 1,
        event_idx: x / 2 % 2 == 1,
        legacy: x / 4 % 2 == 1,
    }
}

// Forges a part of the record as a script says by four numbers.
pub fn forge_part(part: Forged, script: &mut Script, queue: &mut Queue) {
    let which = script.number();
    let a = script.number();
    let b = script.number();
    let c = script.number();
    match part {
        Forged::Field => forge_field(queue, which, a, b),
        Forged::Table => forge_table(queue, which, a as usize, b),
        Forged::Call => queue.core.call = open_call(which, a, b, c),
    }
}

// Another number in a plain field: n, num_used, free_head, avail_idx, last_used_idx; or, as field 5, another base and other modes.
fn forge_field(queue: &mut Queue, field: u64, x: u64, y: u64) {
    let half = low16(x);
    match field {
        0 => queue.core.n = half,
        1 => queue.core.num_used = half,
        2 => queue.core.free_head = half,
        3 => queue.core.avail_idx = half,
        4 => queue.core.last_used_idx = half,
        5 => {
            queue.core.base = x;
            queue.core.modes = bits(y);
        }
        _ => {}
    }
}

// Another number in a table: words, lens, halves, sides. A place that the table hasn't is none.
fn forge_table(queue: &mut Queue, table: u64, i: usize, x: u64) {
    match table {
        0 if i < 4160 => queue.words[i] = x,
        1 if i < 4160 => queue.lens[i] = low32(x),
        2 if i < 192 => queue.halves[i] = low16(x),
        3 if i < 4096 => queue.sides[i] = x % 2 == 1,
        _ => {}
    }
}

// An open call by its kind, in the order of the type, and its numbers.
fn open_call(kind: u64, a: u64, b: u64, c: u64) -> Open {
    let token = low32(a);
    let matched = b % 2 == 1;
    match kind {
        1 => Open::Add {
            head: low16(a),
            step: low16(b),
        },
        2 => Open::PopIdx { token, matched },
        3 => Open::PopId { token, matched },
        4 => Open::PopLen {
            token,
            matched,
            id: low32(c),
        },
        5 => Open::PopStore {
            count: low16(a),
            step: low16(b),
            len: low32(c),
        },
        6 => Open::PeekIdx,
        7 => Open::PeekId,
        _ => Open::Idle,
    }
}

// What is read of the tables.
ghost use Rattle.std.specs.Prelude.{◌≡◌, cond, ◌*◌, ◌/◌, ◌≤◌, ◌<◌, get_or};
ghost use Rattle.lists.specs.Walk.{hop};
ghost use Rattle.virtio.specs.Desc.{no_desc, no_buffer, has_indirect};
ghost use Rattle.views.specs.Views.{Closed};
ghost use Rattle.views.specs.Tables.{nexts_in};
ghost use Rattle.tables.specs.Lent.{tables_read};

use crate::TablesRef;
use virtio::{Buffer, Desc};

impl TablesRef<'_> {
    // Descriptor i of the shadow table.
    pub fn desc_at(&self, i: u16) -> Desc
        requires { i < self.now.room }
        ensures { result ≡ get_or (tables_read self.now).shadow i no_desc }
    {
        let at = i as usize;
        Desc {
            addr: self.words[at],
            len: self.lens[at],
            flags: self.halves[self.room + at],
            next: self.halves[at],
        }
    }

    // What descriptor i links to.
    pub fn next_at(&self, i: u16) -> u16
        requires { i < self.now.room }
        ensures { result ≡ (get_or (tables_read self.now).shadow i no_desc).next }
    {
        self.halves[i as usize]
    }

    // The descriptor k links on from i, of the n that links stay among.
    pub fn hop(&self, n: u16, k: u16, i: u16) -> u16
        requires i_lt_n { (i < n) × (n ≤ self.now.room) }
        requires closed { Closed n (nexts_in self.now.room self.now.halves.now) }
        ensures { result ≡ hop (λ j. (get_or (tables_read self.now).shadow j no_desc).next) k i }
    {
        let mut at = i;
        for _ in 0..k {
            at = self.next_at(at);
        }
        at
    }

    // The noted length of the chain at head h.
    pub fn noted_at(&self, h: u16) -> u16
        requires { h < self.now.room }
        ensures { result ≡ get_or (tables_read self.now).noted h 0 }
    {
        self.halves[2 * self.room + (h as usize)]
    }

    // How many buffers the chain at head h has: by its descriptor where that refers to a list, else by the noted length.
    pub fn size_at(&self, h: u16) -> u32
        requires { h < self.now.room }
        ensures { result ≡ cond (has_indirect (get_or (tables_read self.now).shadow h no_desc)) ((get_or (tables_read self.now).shadow h no_desc).len / 16) (get_or (tables_read self.now).noted h 0) }
    {
        let d = self.desc_at(h);
        if d.is_indirect() {
            d.len / 16
        } else {
            self.noted_at(h) as u32
        }
    }

    // Entry j of the private lists.
    pub fn entry_at(&self, j: usize) -> Buffer
        requires { j < self.now.room * self.now.room }
        ensures { result ≡ get_or (tables_read self.now).kept j no_buffer }
    {
        Buffer {
            addr: self.words[self.room + j],
            len: self.lens[self.room + j],
            output: self.sides[j],
        }
    }
}

// What is stored to the tables.
ghost use Rattle.std.specs.Prelude.{◌≡◌, ◌*◌, ◌<◌};
ghost use Rattle.tables.specs.Lent.{tables_held, Reads, SameLoan};
ghost use Rattle.tables.specs.Stores.{with_desc, with_noted, with_entry};

use crate::{TablesMut, TablesRef};
use virtio::{Buffer, Desc};

impl TablesMut<'_> {
    // The same tables, to be read.
    pub fn read(&self) -> TablesRef<'_>
        ensures { Reads self.now result }
    {
        TablesRef {
            room: self.room,
            words: self.words,
            lens: self.lens,
            halves: self.halves,
            sides: self.sides,
        }
    }

    // Stores descriptor i of the shadow table.
    pub fn put_desc(&mut self, i: u16, d: Desc)
        requires { i < self.old.room }
        ensures stored { tables_held self.new ≡ with_desc (tables_held self.old) i d }
        ensures sides_stay { self.new.sides.now ≡ self.old.sides.now }
        ensures same_loan { SameLoan self.old self.new }
    {
        let at = i as usize;
        self.words[at] = d.addr;
        self.lens[at] = d.len;
        self.halves[self.room + at] = d.flags;
        self.halves[at] = d.next;
    }

    // Notes a length for head h.
    pub fn put_noted(&mut self, h: u16, k: u16)
        requires { h < self.old.room }
        ensures stored { tables_held self.new ≡ with_noted (tables_held self.old) h k }
        ensures words_stay { self.new.words.now ≡ self.old.words.now }
        ensures lens_stay { self.new.lens.now ≡ self.old.lens.now }
        ensures sides_stay { self.new.sides.now ≡ self.old.sides.now }
        ensures same_loan { SameLoan self.old self.new }
    {
        self.halves[2 * self.room + (h as usize)] = k;
    }

    // Stores entry j of the private lists.
    pub fn put_entry(&mut self, j: usize, b: Buffer)
        requires { j < self.old.room * self.old.room }
        ensures stored { tables_held self.new ≡ with_entry (tables_held self.old) j b }
        ensures halves_stay { self.new.halves.now ≡ self.old.halves.now }
        ensures same_loan { SameLoan self.old self.new }
    {
        self.words[self.room + j] = b.addr;
        self.lens[self.room + j] = b.len;
        self.sides[j] = b.output;
    }
}

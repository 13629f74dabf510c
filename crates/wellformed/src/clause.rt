// The clauses by name.
use std::fmt;

// A clause of a well-formed record, by the rules' number.
#[derive(Clone, Copy, PartialEq, Eq, Debug)]
pub enum Clause {
    Size = 1,
    Base = 2,
    Used = 3,
    Next = 4,
    Once = 5,
    End = 6,
    Indirect = 7,
    Buffer = 8,
    Count = 9,
    Call = 10,
}

impl Clause {
    ghost use Rattle.std.specs.Prelude.{◌≡◌};
    ghost use Rattle.wellformed.specs.Numbers.{number_of};

    // The number that the rules give it.
    pub fn number(self) -> u8
        ensures { result ≡ number_of self }
    {
        self as u8
    }
}

impl fmt::Display for Clause {
    fn fmt<W: fmt::Write>(&self, f: &mut fmt::Formatter<W>) -> fmt::Result {
        f.write_str(match self {
            Clause::Size => "the size is not an allowed one",
            Clause::Base => "the pool's base does not fit the mode",
            Clause::Used => "more descriptors are in use than there are",
            Clause::Next => "a link leads out of the table",
            Clause::Once => "a descriptor is not named once",
            Clause::End => "a chain does not end where its length says",
            Clause::Indirect => "an indirect head does not refer to its own list",
            Clause::Buffer => "a chain has an empty buffer, or an input behind an output",
            Clause::Count => "the indices do not count the outstanding chains",
            Clause::Call => "the open call has no such step",
        })
    }
}

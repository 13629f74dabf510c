// The clauses by name.
use std::fmt;
use wellformed::Clause;

// A clause of a well-formed owning record, by the rules' number: one of the queue's own, or one of those behind them.
#[derive(Clone, Copy, PartialEq, Eq, Debug)]
pub enum OwnClause {
    Record(Clause),
    Open,
    Store,
    OwnBuffers,
    Held,
}

impl OwnClause {
    ghost use Rattle.std.specs.Prelude.{◌≡◌};
    ghost use Rattle.owns.specs.Numbers.{own_number_of};

    // The number that the rules give it.
    pub fn number(self) -> u8
        ensures { result ≡ own_number_of self }
    {
        match self {
            OwnClause::Record(clause) => clause.number(),
            OwnClause::Open => 11,
            OwnClause::Store => 12,
            OwnClause::OwnBuffers => 13,
            OwnClause::Held => 14,
        }
    }
}

impl From<Clause> for OwnClause {
    ghost use Rattle.std.specs.Prelude.{◌≡◌};
    ghost use Rattle.owns.specs.declared.clause.OwnClause.TheVariants.{Record};

    ghost from_gives = { λ clause e. e ≡ Record clause };

    // A queue's clause is one of the owning record's.
    fn from(clause: Clause) -> OwnClause {
        OwnClause::Record(clause)
    }
}

impl fmt::Display for OwnClause {
    fn fmt<W: fmt::Write>(&self, f: &mut fmt::Formatter<W>) -> fmt::Result {
        match self {
            OwnClause::Record(clause) => clause.fmt(f),
            OwnClause::Open => f.write_str("a call is open"),
            OwnClause::Store => f.write_str("the store or the buffers' size is not an allowed one"),
            OwnClause::OwnBuffers => f.write_str("a chain is not the buffer of its token"),
            OwnClause::Held => f.write_str(
                "a buffer is neither out nor held, or the held one is too long",
            ),
        }
    }
}

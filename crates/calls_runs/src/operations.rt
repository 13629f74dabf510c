// The operations of a script, by their numbers (docs/SCRIPTS.md).

#[derive(Clone, Copy)]
pub enum Operation {
    New(Asks),
    List(ListCall),
    Plain(PlainCall),
    Poke,
    Forge(Forged),
    Lend,
    OwnNew,
    Own(OwnCall),
    OwnForge,
}

// What a new asks for: a size and modes alone, or all that it takes.
#[derive(Clone, Copy, PartialEq, Eq)]
pub enum Asks {
    Shortly,
    InFull,
}

// The calls that take a list.
#[derive(Clone, Copy)]
pub enum ListCall {
    Add,
    OpenAdd,
    PopUsed,
    OpenPop,
}

// The calls that take at most a number.
#[derive(Clone, Copy)]
pub enum PlainCall {
    PeekUsed,
    OpenPeek,
    Step,
    Run,
    CanPop,
    ShouldNotify,
    SetDevNotify,
}

// The part of the record that is forged: a plain field, a table, or the open call.
#[derive(Clone, Copy)]
pub enum Forged {
    Field,
    Table,
    Call,
}

// The owning queue's calls; one is a poll, and where it shows a buffer a release and then a should_notify.
#[derive(Clone, Copy)]
pub enum OwnCall {
    Poll,
    Release,
    PollAndRelease,
    ShouldNotify,
    SetDevNotify,
}

impl Operation {
    // The operation of this number, if it has one.
    pub fn numbered(number: u64) -> Option<Operation> {
        let operation = match number {
            1 => Operation::New(Asks::Shortly),
            2 => Operation::List(ListCall::Add),
            3 => Operation::List(ListCall::OpenAdd),
            4 => Operation::List(ListCall::PopUsed),
            5 => Operation::List(ListCall::OpenPop),
            6 => Operation::Plain(PlainCall::PeekUsed),
            7 => Operation::Plain(PlainCall::OpenPeek),
            8 => Operation::Plain(PlainCall::Step),
            9 => Operation::Plain(PlainCall::Run),
            10 => Operation::Plain(PlainCall::CanPop),
            11 => Operation::Plain(PlainCall::ShouldNotify),
            12 => Operation::Plain(PlainCall::SetDevNotify),
            13 => Operation::Poke,
            14 => Operation::Forge(Forged::Field),
            15 => Operation::Forge(Forged::Table),
            16 => Operation::Forge(Forged::Call),
            17 => Operation::Lend,
            18 => Operation::OwnNew,
            19 => Operation::Own(OwnCall::Poll),
            20 => Operation::Own(OwnCall::Release),
            21 => Operation::Own(OwnCall::PollAndRelease),
            22 => Operation::Own(OwnCall::ShouldNotify),
            23 => Operation::Own(OwnCall::SetDevNotify),
            24 => Operation::OwnForge,
            25 => Operation::New(Asks::InFull),
            _ => return None,
        };
        Some(operation)
    }
}

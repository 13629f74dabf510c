// The driver's rules (document 01) in specs/, and here the plain types that rules and code share: of the record, and of a refusal.
#![tactic(auto)]

ghost use Rattle.std.specs.Prelude.{◌≡◌};

use std::error::Error;
use std::fmt;

// What was negotiated: indirect lists, event indices, and the legacy layout.
#[derive(Clone, Copy, PartialEq, Eq, Debug)]
pub struct Modes {
    pub indirect: bool,
    pub event_idx: bool,
    pub legacy: bool,
}

// The open call: none, or a call and the step that it makes next (document 01, "Step by step").
#[derive(Clone, Copy, PartialEq, Eq, Debug)]
pub enum Open {
    Idle,
    // An add of the chain at `head`; `step` counts from 0.
    Add { head: u16, step: u16 },
    // A pop's three loads. `matched`: the list given is the one that was added under `token`.
    PopIdx { token: u32, matched: bool },
    PopId { token: u32, matched: bool },
    PopLen { token: u32, matched: bool, id: u32 },
    // A pop's stores: of the `count` descriptors freed, then of used_event; the device's length is the answer to come.
    PopStore { count: u16, step: u16, len: u32 },
    // A peek's two loads.
    PeekIdx,
    PeekId,
}

// The buffer that the caller of an owning queue holds, if any: its token, and how many bytes the device wrote.
#[derive(Clone, Copy, PartialEq, Eq, Debug)]
pub struct Held {
    pub token: u16,
    pub len: u32,
}

// Why a call is refused; the numbers are those that answers have.
#[derive(Clone, Copy, PartialEq, Eq, Debug)]
pub enum Refusal {
    InvalidParam = 1,
    QueueFull = 2,
    NotReady = 3,
    WrongToken = 4,
    BadSize = 5,
    AlreadyUsed = 6,
    EmptyBuffer = 7,
    NotOutstanding = 8,
    Mismatch = 9,
    OverLength = 10,
    Busy = 11,
    BadRecord = 12,
    BadRegion = 13,
}

impl Refusal {
    ghost use Rattle.rules.specs.Refused.{refusal_number};

    // The number that an answer has for it.
    pub fn number(self) -> u8
        ensures { result ≡ refusal_number self }
    {
        self as u8
    }
}

impl fmt::Display for Refusal {
    // What is wrong, in words.
    fn fmt<W: fmt::Write>(&self, f: &mut fmt::Formatter<W>) -> fmt::Result {
        let words = match self {
            Refusal::InvalidParam => "a parameter is invalid",
            Refusal::QueueFull => "the queue is full",
            Refusal::NotReady => "no list has been given back",
            Refusal::WrongToken => "the device gave back another list",
            Refusal::BadSize => "the queue's size is not allowed",
            Refusal::AlreadyUsed => "the queue is in use",
            Refusal::EmptyBuffer => "a buffer is empty",
            Refusal::NotOutstanding => "nothing is outstanding under the token",
            Refusal::Mismatch => "the list is not the one that was added",
            Refusal::OverLength => "the device reported more bytes than the buffer has",
            Refusal::Busy => "another call is open",
            Refusal::BadRecord => "the record is broken",
            Refusal::BadRegion => "a region is too short or misplaced",
        };
        f.write_str(words)
    }
}

impl Error for Refusal {}

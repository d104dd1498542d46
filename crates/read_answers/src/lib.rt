// What a master's reading returns (document 01, Answer numbers 30, 31, 10 to 17, 33): an enum of the refusals, one case for each cause,
// the document's number of each, and what a reply that is read holds.
#![tactic(auto)]

ghost use Rattle.std.specs.Prelude.{◌≡◌};
ghost use Rattle.read_answers.specs.declared.ReadFault.TheVariants.{InTelegram};
ghost use Rattle.read_answers.specs.ReadNumbers.{read_fault_number, content_id, content_value};

use address::Fault;
use words::Words;

// What a reply holds: nothing (task 0, or no parameter area), a value with its reply ID, an error number (ID 7), or the
// word that the master has no right (ID 8).
#[derive(Clone, Copy, Debug, PartialEq, Eq)]
pub enum Content {
    Empty,
    Value { id: u8, value: u32 },
    Failed { error: u16 },
    NoRight,
}

// What a reading returns: what the reply holds, and its process words.
#[derive(Clone, Copy, Debug, PartialEq, Eq)]
pub struct Reading {
    pub content: Content,
    pub process: Words,
}

// Why a reply is not read: 30, 31, 10 to 17, 33.
#[derive(Clone, Copy, Debug, PartialEq, Eq)]
pub enum ReadFault {
    UnfitSetup,
    NotAsked,
    InTelegram(Fault),
    OtherNode,
    OtherLength,
    NotTheReply,
}

impl From<Fault> for ReadFault {
    ghost from_gives = { λ fault r. r ≡ InTelegram fault };

    fn from(fault: Fault) -> ReadFault {
        ReadFault::InTelegram(fault)
    }
}

// The document's number of a refusal.
impl From<ReadFault> for u32 {
    ghost from_gives = { λ fault number. number ≡ read_fault_number fault };

    fn from(fault: ReadFault) -> u32 {
        match fault {
            ReadFault::UnfitSetup => 30,
            ReadFault::NotAsked => 31,
            ReadFault::InTelegram(f) => f.into(),
            ReadFault::OtherNode => 16,
            ReadFault::OtherLength => 17,
            ReadFault::NotTheReply => 33,
        }
    }
}

impl Content {
    // The reply ID of what a reply holds.
    pub fn id(self) -> u32
        ensures { result ≡ content_id self }
    {
        match self {
            Content::Empty => 0,
            Content::Value { id, value: _ } => id as u32,
            Content::Failed { error: _ } => 7,
            Content::NoRight => 8,
        }
    }

    // The value or error number of what a reply holds.
    pub fn value(self) -> u32
        ensures { result ≡ content_value self }
    {
        match self {
            Content::Empty | Content::NoRight => 0,
            Content::Value { id: _, value } => value,
            Content::Failed { error } => error as u32,
        }
    }
}

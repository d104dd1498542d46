// The answers of the slave call, and the refusals of it and of its opening check (document 01, Answer numbers): enums, one case for each
// cause, and the document's number of each.
#![tactic(auto)]

ghost use Rattle.std.specs.Prelude.{◌≡◌};
ghost use Rattle.slave_answers.specs.declared.Refusal.TheVariants.{AtOpening, InTelegram};
ghost use Rattle.slave_answers.specs.SlaveNumbers.{opening_number, refusal_number, accepted_number};

use address::Fault;

// ---- the opening check: 20 to 23 and 25

// Why the opening check refuses, by the document's numbers.
#[derive(Clone, Copy, Debug, PartialEq, Eq)]
pub enum OpeningFault {
    BadSetup = 20,
    BadTable = 21,
    BadValues = 22,
    BadPlaces = 25,
    ShortBuffer = 23,
}

// The document's number of a refusal by the opening check.
impl From<OpeningFault> for u32 {
    ghost from_gives = { λ fault number. number ≡ opening_number fault };

    fn from(fault: OpeningFault) -> u32 {
        fault as u32
    }
}

// ---- the slave: 20 to 23 and 25, 10 to 18, 0, 1, 2

// Why a call is refused: by the opening check (20 to 23, 25), by the frame or the address (10 to 15), or 16, 17, 18.
#[derive(Clone, Copy, Debug, PartialEq, Eq)]
pub enum Refusal {
    AtOpening(OpeningFault),
    InTelegram(Fault),
    OtherNode,
    OtherLength,
    VoidBroadcast,
}

impl From<OpeningFault> for Refusal {
    ghost from_gives = { λ fault refusal. refusal ≡ AtOpening fault };

    fn from(fault: OpeningFault) -> Refusal {
        Refusal::AtOpening(fault)
    }
}

impl From<Fault> for Refusal {
    ghost from_gives = { λ fault refusal. refusal ≡ InTelegram fault };

    fn from(fault: Fault) -> Refusal {
        Refusal::InTelegram(fault)
    }
}

// The document's number of a refusal.
impl From<Refusal> for u32 {
    ghost from_gives = { λ refusal number. number ≡ refusal_number refusal };

    fn from(refusal: Refusal) -> u32 {
        match refusal {
            Refusal::AtOpening(fault) => fault.into(),
            Refusal::InTelegram(fault) => fault.into(),
            Refusal::OtherNode => 16,
            Refusal::OtherLength => 17,
            Refusal::VoidBroadcast => 18,
        }
    }
}

// The answer of a call that is not refused, by the document's numbers.
#[derive(Clone, Copy, Debug, PartialEq, Eq)]
pub enum Answer {
    Replied = 0,
    Mirrored = 1,
    Taken = 2,
}

// The document's number of such an answer.
impl From<Answer> for u32 {
    ghost from_gives = { λ answer number. number ≡ accepted_number answer };

    fn from(answer: Answer) -> u32 {
        answer as u32
    }
}

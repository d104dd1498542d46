// Why a master does not build (document 01, Answer numbers 30 to 32): an enum, one case for each cause, and the document's number of each.
#![tactic(auto)]

ghost use Rattle.std.specs.Prelude.{◌≡◌};
ghost use Rattle.build_answers.specs.BuildNumbers.{build_number, built_number};

// Why no telegram is built, by the document's numbers.
#[derive(Clone, Copy, Debug, PartialEq, Eq)]
pub enum BuildFault {
    BadSetup = 30,
    NotExpressible = 31,
    ShortBuffer = 32,
}

// The document's number of a refusal.
impl From<BuildFault> for u32 {
    ghost from_gives = { λ fault number. number ≡ build_number fault };

    fn from(fault: BuildFault) -> u32 {
        fault as u32
    }
}

// The document's number of a build's answer: 0 where a telegram is built, else that of the refusal.
pub fn number_built(built: Result<usize, BuildFault>) -> u32
    ensures { result ≡ built_number built }
{
    match built {
        Ok(_) => 0,
        Err(fault) => fault.into(),
    }
}

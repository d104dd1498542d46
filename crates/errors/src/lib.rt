// The errors of a task on a parameter (document 01, Parameter area), and the document's number of each.
#![tactic(auto)]

ghost use Rattle.std.specs.Prelude.{◌≡◌};
ghost use Rattle.errors.specs.ErrorNumbers.{error_number};

// Why a task on a parameter fails, by the document's error numbers.
#[derive(Clone, Copy, Debug, PartialEq, Eq)]
pub enum ParameterError {
    NoParameter = 0,
    NotWritable = 1,
    OutsideLimits = 2,
    NoElement = 3,
    NoArray = 4,
    OtherWidth = 5,
    NoRoom = 102,
    NoTask = 106,
}

// The document's number of an error.
impl From<ParameterError> for u32 {
    ghost from_gives = { λ error number. number ≡ error_number error };

    fn from(error: ParameterError) -> u32 {
        error as u32
    }
}

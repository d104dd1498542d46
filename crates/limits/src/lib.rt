// The limits of a record, and the rules that it can break by itself (document 01, Parameter table).
#![tactic(auto)]

ghost use Rattle.std.specs.Prelude.{◌≡◌};
ghost use Rattle.limits.specs.Limits.{at_most, fits_in, is_within, entry_ok};

use entry::Entry;

// Whether a is at most b, as the parameter's kind is compared.
#[tactic(auto, unfolding(crate::specs::Limits::at_most, crate::specs::Limits::number_of))]
pub fn at_most(double: bool, signed: bool, a: u32, b: u32) -> bool
    ensures { result ≡ at_most double signed a b }
{
    if signed {
        return signs::signed_of(double, a) <= signs::signed_of(double, b);
    }
    if double {
        return a <= b;
    }
    a % 65536 <= b % 65536
}

// Whether a value has no upper half that its kind forbids.
#[tactic(auto, unfolding(crate::specs::Limits::fits_in))]
fn fits_in(double: bool, v: u32) -> bool
    ensures { result ≡ fits_in double v }
{
    double || v <= 65535
}

// Whether a value is within a record's limits.
#[tactic(auto, unfolding(crate::specs::Limits::is_within))]
pub fn within(e: Entry, v: u32) -> bool
    ensures { result ≡ is_within e v }
{
    fits_in(e.double, v)
        && at_most(e.double, e.signed, e.minimum, v)
        && at_most(e.double, e.signed, v, e.maximum)
}

// Whether a record keeps the rules that it can break by itself.
#[tactic(auto, unfolding(crate::specs::Limits::entry_ok))]
pub fn entry_ok(e: Entry) -> bool
    ensures { result ≡ entry_ok e }
{
    e.number <= 31999
        && e.elements <= 254
        && e.spare == 0
        && fits_in(e.double, e.minimum)
        && fits_in(e.double, e.maximum)
        && at_most(e.double, e.signed, e.minimum, e.maximum)
}

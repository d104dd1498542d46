// Numbers in decimal without leading zeros, into a lent buffer (document 01, Listing program).
#![tactic(auto)]

ghost use Rattle.std.specs.Prelude.{◌≡◌, ◌+◌, ◌≤◌, length};
ghost use Rattle.std.proofs.lemmas.List.Edits.{sets};
ghost use Rattle.text.specs.Digits.{digits};
ghost use Rattle.store.specs.Placed.{put_out};

// How many decimal digits a number has.
#[tactic(auto, using(crate::proofs::DigitsLaws::length_small, crate::proofs::DigitsLaws::length_more))]
pub fn count_digits(n: u32) -> usize
    ensures { result ≡ length (digits n) }
{
    let mut rest = n;
    let mut count = 1;
    while 10 <= rest {
        rest /= 10;
        count += 1;
    }
    count
}

// Writes the digits of n at `at`, where there is room for them: those of its tenth first.
#[tactic(auto, using(crate::proofs::DigitsLaws::digits_small, crate::proofs::DigitsLaws::digits_more, crate::proofs::DigitsLaws::length_more, crate::proofs::DigitsLaws::length_tenth, crate::proofs::DigitsLaws::some_digit, store::proofs::StoreLaws::sets_append))]
fn write_digits(out: &mut [u8], at: usize, n: u32) -> usize
    requires { at + length (digits n) ≤ length out.old }
    ensures value { result ≡ at + length (digits n) }
    ensures out_after { out.new ≡ sets out.old at (digits n) }
{
    if n < 10 {
        out[at] = b'0' + n as u8;
        return at + 1;
    }
    let p = write_digits(out, at, n / 10);
    out[p] = b'0' + (n % 10) as u8;
    p + 1
}

// Writes n in decimal at `at` and returns the place after it; where it does not fit, writes nothing and returns `at`, as store::put does.
#[tactic(auto, using(store::proofs::StoreLaws::put_fits, store::proofs::StoreLaws::put_not))]
pub fn put_number(out: &mut [u8], at: usize, n: u32) -> usize
    ensures value { result ≡ (put_out out.old at (digits n)).place }
    ensures out_after { out.new ≡ (put_out out.old at (digits n)).bytes }
{
    if store::has_room(out.len(), at, count_digits(n)) {
        return write_digits(out, at, n);
    }
    at
}

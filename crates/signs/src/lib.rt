// A word or a double word as a signed number, two's complement (document 01, Parameter table; document 02, W-204).
#![tactic(auto)]

ghost use Rattle.std.specs.Prelude.{◌≡◌};
ghost use Rattle.signs.specs.Signs.{signed_of};

// A word by its low 16 bits.
#[tactic(auto, unfolding(crate::specs::Signs::signed_of))]
pub fn signed_of(double: bool, x: u32) -> i32
    ensures { result ≡ signed_of double x }
{
    if double {
        return x.cast_signed();
    }
    i32::from(((x % 65536) as u16).cast_signed())
}

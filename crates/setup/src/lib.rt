// The set-up of a slave or a master: its node, its parameter words and its process words (document 01, answers 20 and 30).
#![tactic(auto)]

ghost use Rattle.std.specs.Prelude.{◌≡◌};
ghost use Rattle.setup.specs.SetupRules.{setup_ok, area_count, other_length};

#[repr(C)]
#[derive(Clone, Copy, Debug, PartialEq, Eq)]
pub struct Setup {
    pub node: u8,
    pub pkw: u8,
    pub pzd: u8,
}

// Whether a set-up may be used.
#[tactic(auto, unfolding(crate::specs::SetupRules::setup_ok))]
pub fn setup_ok(setup: Setup) -> bool
    ensures { result ≡ setup_ok setup }
{
    setup.node <= 31
        && matches!(setup.pkw, 0 | 3 | 4)
        && setup.pzd <= 4
        && (setup.pkw != 0 || setup.pzd != 0)
}

// How many words the parameter area of a telegram with n net bytes has: the setting, whatever n.
pub fn area_count(setup: Setup, n: usize) -> u8
    ensures { result ≡ area_count setup n }
{
    setup.pkw
}

// Whether n is not the net length of a telegram of the set-up (answer 17).
pub fn is_other_length(setup: Setup, n: usize) -> bool
    ensures { result ≡ other_length setup n }
{
    n != ((area_count(setup, n) as usize) + (setup.pzd as usize)) * 2
}

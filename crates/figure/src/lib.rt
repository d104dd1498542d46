// The figure that a panel shows of a process word (document 02, W-204).
#![tactic(auto)]

ghost use Rattle.std.specs.Prelude.{◌≡◌, ◌≤◌};
ghost use Rattle.figure.specs.Figures.{product_of, over16384, figure_of, fault_number};

// What a word is shown as.
#[derive(Clone, Copy, Debug, PartialEq, Eq)]
pub enum Unit {
    Hertz,
    Percent,
    Raw,
}

// What is shown: a double, or the word as it came.
#[derive(Clone, Copy, Debug, PartialEq)]
pub enum Figure {
    Hertz(f64),
    Percent(f64),
    Raw(u16),
}

// Why there is no figure: the reference is out of range (50).
#[derive(Clone, Copy, Debug, PartialEq, Eq)]
pub enum FigureFault {
    BadReference = 50,
}

// The document's number of a refusal.
impl From<FigureFault> for u32 {
    ghost from_gives = { λ fault number. number ≡ fault_number fault };

    fn from(fault: FigureFault) -> u32 {
        fault as u32
    }
}

// The word, signed, times a multiplier, over 16384. Nothing is rounded.
fn scale(word: u16, by: u32) -> f64
    requires { by ≤ 650 }
    ensures { result ≡ over16384 (product_of word by) }
{
    let product = signs::signed_of(false, word as u32) * (by as i32);
    (product as f64) / 16384.0
}

// Shows a word. Only hertz looks at the reference.
#[tactic(auto, unfolding(crate::specs::Figures::figure_of))]
pub fn show(unit: Unit, word: u16, reference: u32) -> Result<Figure, FigureFault>
    ensures { result ≡ figure_of unit word reference }
{
    match unit {
        Unit::Hertz => {
            if !(1..=650).contains(&reference) {
                return Err(FigureFault::BadReference);
            }
            Ok(Figure::Hertz(scale(word, reference)))
        }
        Unit::Percent => Ok(Figure::Percent(scale(word, 100))),
        Unit::Raw => Ok(Figure::Raw(word)),
    }
}

// A figure for a host: what a panel shows of a process word, in the document's numbers (document 02, W-204).
#![tactic(auto)]

ghost use Rattle.std.specs.Prelude.{◌≡◌};
ghost use Rattle.figure.specs.Figures.{figure_of};
ghost use Rattle.host_figure.specs.Host.{host_figure};

use figure::{Figure, Unit};

// What a showing returns: the answer's number, the raw word, and the double. What is not shown is 0. It is a struct of the calls for C, so
// there is no Result.
#[repr(C)]
#[derive(Clone, Copy, Debug, Default, PartialEq)]
pub struct HostFigure {
    pub number: u32,
    pub raw: u32,
    pub value: f64,
}

// Shows a word.
pub fn show(unit: Unit, word: u16, reference: u32) -> HostFigure
    ensures { result ≡ host_figure (figure_of unit word reference) }
{
    match figure::show(unit, word, reference) {
        Ok(Figure::Hertz(value) | Figure::Percent(value)) => HostFigure {
            value,
            ..HostFigure::default()
        },
        Ok(Figure::Raw(shown)) => HostFigure {
            raw: shown as u32,
            ..HostFigure::default()
        },
        Err(fault) => HostFigure {
            number: fault.into(),
            ..HostFigure::default()
        },
    }
}

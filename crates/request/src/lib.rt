// What a master can ask (document 01, Answer number 31): tasks, mirrors and broadcasts.
#![tactic(auto)]

ghost use Rattle.std.specs.Prelude.{◌≡◌, not, ◌&&◌};
ghost use Rattle.request.specs.Request.{unused_zero, value_fits, task_fits, task_askable, command_of, expressible};
ghost use Rattle.broadcast.specs.Broadcast.{is_void};

use broadcast::Command;
use setup::Setup;
use task::{Act, Width};
use words::Words;

// What a master asks. The net bytes of a mirror stand beside it.
#[derive(Clone, Copy, Debug, PartialEq, Eq)]
pub enum Request {
    Task {
        id: u8,
        number: u16,
        index: u8,
        value: u32,
        process: Words,
    },
    Mirror,
    Broadcast {
        selector: u16,
        mask1: u16,
        mask2: u16,
        process: Words,
    },
}

// Whether the words past the first pzd are 0, from the last one back: most set-ups are told by one or two of them.
#[tactic(auto, unfolding(crate::specs::Request::unused_zero))]
fn leaves_zero(pzd: u8, w: Words) -> bool
    ensures { result ≡ unused_zero pzd w }
{
    3 < pzd
        || w.w4 == 0 && (2 < pzd || w.w3 == 0 && (1 < pzd || w.w2 == 0 && (0 < pzd || w.w1 == 0)))
}

// Whether an act of this width can carry the value in an area of pkw words.
#[tactic(auto, unfolding(crate::specs::Request::value_fits))]
fn fits_value(act: Act, width: Width, pkw: u8, value: u32) -> bool
    ensures { result ≡ value_fits act width pkw value }
{
    match act {
        Act::Read | Act::Count => value == 0,
        Act::Change => match width {
            Width::Either => false,
            Width::Word => value <= 65535,
            Width::Double => pkw != 3,
        },
        Act::Nothing | Act::Refuse => false,
    }
}

// Whether a task can be asked in an area of pkw words.
#[tactic(auto, unfolding(crate::specs::Request::task_fits))]
fn fits_task(pkw: u8, id: u8, number: u16, index: u8, value: u32) -> bool
    ensures { result ≡ task_fits pkw id number index value }
{
    if id == 0 {
        return number == 0 && index == 0 && value == 0;
    }
    if pkw == 0 || 31999 < number || 254 < index {
        return false;
    }
    let task = task::task_of(id);
    fits_value(task.act, task.width, pkw, value)
}

// Whether a task request can be asked.
pub fn can_ask(setup: Setup, id: u8, number: u16, index: u8, value: u32, process: Words) -> bool
    ensures { result ≡ task_askable setup id number index value process }
{
    fits_task(setup.pkw, id, number, index, value) && leaves_zero(setup.pzd, process)
}

// Whether a broadcast can be asked.
fn can_command(setup: Setup, selector: u16, mask1: u16, mask2: u16, process: Words) -> bool
    ensures { result ≡ (not (is_void (command_of selector mask1 mask2) setup.pkw setup.pzd process.w1) && unused_zero setup.pzd process) }
{
    let command = Command {
        selector,
        mask1,
        mask2,
        fourth: 0,
    };
    !broadcast::is_void(command, setup.pkw, setup.pzd, process.w1)
        && leaves_zero(setup.pzd, process)
}

// Whether a request can be asked; net are the net bytes of a mirror.
#[tactic(auto, unfolding(crate::specs::Request::expressible))]
pub fn can_express(setup: Setup, request: Request, net: &[u8]) -> bool
    ensures { result ≡ expressible setup request net.now }
{
    match request {
        Request::Task {
            id,
            number,
            index,
            value,
            process,
        } => can_ask(setup, id, number, index, value, process),
        Request::Mirror => matches!(net.len(), 1..=252),
        Request::Broadcast {
            selector,
            mask1,
            mask2,
            process,
        } => can_command(setup, selector, mask1, mask2, process),
    }
}

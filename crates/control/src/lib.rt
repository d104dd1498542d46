// The control words (document 01, Slave): what a normal telegram and a broadcast make of them.
#![tactic(auto)]

ghost use Rattle.std.specs.Prelude.{◌≡◌};
ghost use Rattle.control.specs.Control.{control_taken, command_at, commanded_of};

use broadcast::Command;
use setup::Setup;
use words::Words;

// The control words after a normal telegram with n net bytes.
#[tactic(auto, unfolding(crate::specs::Control::control_taken))]
pub fn take_control(setup: Setup, n: usize, control: Words, received: &[u8]) -> Words
    ensures { result ≡ control_taken setup n control received.now }
{
    let count = setup::area_count(setup, n);
    let process = area::read_process(received, count, setup.pzd, control);
    if setup.pzd != 0 && process.w1 / 1024 % 2 == 1 {
        return process;
    }
    control
}

// The command in an area of `count` words. Four words can always be read, as a byte past the end is 0; the fourth counts in four.
#[tactic(auto, using(crate::proofs::ControlLaws::command_four, crate::proofs::ControlLaws::command_other))]
fn read_command(received: &[u8], count: u8) -> Command
    ensures { result ≡ command_at received.now count }
{
    let area = area::read_area(received, 4);
    let fourth = if count == 4 { area.value % 65536 } else { 0 };
    Command {
        selector: area.pke,
        mask1: area.ind,
        mask2: (area.value / 65536) as u16,
        fourth: fourth as u16,
    }
}

// The control words after a broadcast with n net bytes, where it is not void.
pub fn take_command(setup: Setup, n: usize, control: Words, received: &[u8]) -> Option<Words>
    ensures { result ≡ commanded_of setup n control received.now }
{
    let count = setup::area_count(setup, n);
    let process = area::read_process(received, count, setup.pzd, control);
    let command = read_command(received, count);
    if broadcast::is_void(command, setup.pkw, setup.pzd, process.w1) {
        return None;
    }
    Some(broadcast::command_control(command, control, process))
}

// Telegrams are built for a host: the answer in the document's numbers (document 01, Answer numbers 30 to 32).
#![tactic(auto)]

ghost use Rattle.std.specs.Prelude.{◌≡◌, [], ◌≤◌, IfOk};
ghost use Rattle.request.specs.declared.Request.TheVariants.{Task, Mirror, Broadcast};
ghost use Rattle.master.specs.Build.{built_of};
ghost use Rattle.host_master.specs.Host.{host_built, BuildLeaves};

use build_answers::{BuildFault, number_built};
use setup::Setup;
use words::Words;

// What a build returns: the answer's number and the telegram's length. C reads both, so it is no Result.
#[repr(C)]
#[derive(Clone, Copy, Debug, PartialEq, Eq)]
pub struct HostBuilt {
    pub number: u32,
    pub length: u32,
}

fn give_built(built: Result<usize, BuildFault>) -> HostBuilt
    requires { IfOk built (λ length. length ≤ 256) }
    ensures { result ≡ host_built built }
{
    let number = number_built(built);
    match built {
        Ok(length) => HostBuilt {
            number,
            length: length as u32,
        },
        Err(_) => HostBuilt { number, length: 0 },
    }
}

// Builds a task. The parameters are those of C's call, one by one.
pub fn build_task(
    setup: Setup,
    task: u8,
    parameter: u16,
    index: u8,
    value: u32,
    process: Words,
    out: &mut [u8],
) -> HostBuilt
    ensures { BuildLeaves (built_of setup (Task task parameter index value process) [] out.old) result out.new }
{
    let built = master::build_task(setup, task, parameter, index, value, process, out);
    give_built(built)
}

// Builds a mirror telegram.
pub fn build_mirror(setup: Setup, net: &[u8], out: &mut [u8]) -> HostBuilt
    ensures { BuildLeaves (built_of setup Mirror net.now out.old) result out.new }
{
    let built = master::build_mirror(setup, net, out);
    give_built(built)
}

// Builds a broadcast.
pub fn build_broadcast(
    setup: Setup,
    selector: u16,
    mask1: u16,
    mask2: u16,
    process: Words,
    out: &mut [u8],
) -> HostBuilt
    ensures { BuildLeaves (built_of setup (Broadcast selector mask1 mask2 process) [] out.old) result out.new }
{
    let built = master::build_broadcast(setup, selector, mask1, mask2, process, out);
    give_built(built)
}

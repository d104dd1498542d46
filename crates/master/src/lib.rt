// What a master builds (document 01, Answer numbers 30 to 32): the telegrams of tasks, mirrors and broadcasts.
#![tactic(auto)]

ghost use Rattle.std.specs.Prelude.{◌≡◌, true, [], ◌+◌, ◌≤◌, length};
ghost use Rattle.setup.specs.SetupRules.{setup_ok};
ghost use Rattle.request.specs.declared.Request.TheVariants.{Task, Mirror, Broadcast};
ghost use Rattle.request.specs.Request.{expressible};
ghost use Rattle.master.specs.Build.{Sends, Builds, telegram_for, admitted, built_of};

use area::Area;
use build_answers::BuildFault;
use request::Request;
use setup::Setup;
use words::Words;

// 30, 31 and 32 in that order: of the set-up, of a request that can be asked or not, of a buffer's length.
#[tactic(auto, unfolding(crate::specs::Build::admitted))]
fn admit(setup: Setup, askable: bool, room: usize) -> Result<(), BuildFault>
    ensures { result ≡ admitted setup askable room }
{
    if !setup::setup_ok(setup) {
        return Err(BuildFault::BadSetup);
    }
    if !askable {
        return Err(BuildFault::NotExpressible);
    }
    if room < 256 {
        return Err(BuildFault::ShortBuffer);
    }
    Ok(())
}

// Writes the telegram of a request. What the tests of `admit` let pass is always written, so the 0 never comes. Compiled in, as `build` is.
#[inline(always)]
fn write(setup: Setup, request: Request, net: &[u8], out: &mut [u8]) -> usize
    requires { (setup_ok setup ≡ true) × (expressible setup request net.now ≡ true) × (256 ≤ length out.old) }
    ensures { Sends (telegram_for setup request net.now) out.old result out.new }
{
    match request {
        Request::Task {
            id,
            number,
            index,
            value,
            process,
        } => {
            let nibble = page::nibble_of(number);
            let area = Area {
                pke: (id as u16) * 4096 + number % 2000,
                ind: (nibble as u16) * 4096 + index as u16,
                value,
            };
            net::write_normal(out, setup.node, area, setup.pkw, process, setup.pzd).unwrap_or(0)
        }
        Request::Mirror => {
            store::put(out, 3, net);
            net::seal(out, setup.node + 64, net.len()).unwrap_or(0)
        }
        Request::Broadcast {
            selector,
            mask1,
            mask2,
            process,
        } => {
            let count = setup.pkw;
            let value = if count == 4 {
                (mask2 as u32) * 65536
            } else {
                mask2 as u32
            };
            let area = Area {
                pke: selector,
                ind: mask1,
                value,
            };
            net::write_normal(out, 32, area, count, process, setup.pzd).unwrap_or(0)
        }
    }
}

// The build of a request's telegram: it is written where the tests of `admit` refuse nothing. It is compiled into each of the three builds
// below, where the kind of request is known: as one function that takes any request a build takes half as many instructions again.
#[inline(always)]
fn build(setup: Setup, request: Request, net: &[u8], out: &mut [u8]) -> Result<usize, BuildFault>
    ensures { Builds (built_of setup request net.now out.old) result out.new }
{
    let askable = request::can_express(setup, request, net);
    admit(setup, askable, out.len())?;
    Ok(write(setup, request, net, out))
}

// The build of a task's telegram: its length. A refusal writes nothing; else only the telegram is written, at the buffer's start. It
// takes the request in parts, as docs/CALLS.md has it and C's call does.
pub fn build_task(
    setup: Setup,
    id: u8,
    number: u16,
    index: u8,
    value: u32,
    process: Words,
    out: &mut [u8],
) -> Result<usize, BuildFault>
    ensures { Builds (built_of setup (Task id number index value process) [] out.old) result out.new }
{
    let request = Request::Task {
        id,
        number,
        index,
        value,
        process,
    };
    build(setup, request, b"", out)
}

// The build of a mirror's telegram, in the same way.
pub fn build_mirror(setup: Setup, net: &[u8], out: &mut [u8]) -> Result<usize, BuildFault>
    ensures { Builds (built_of setup Mirror net.now out.old) result out.new }
{
    build(setup, Request::Mirror, net, out)
}

// The build of a broadcast's telegram, in the same way.
pub fn build_broadcast(
    setup: Setup,
    selector: u16,
    mask1: u16,
    mask2: u16,
    process: Words,
    out: &mut [u8],
) -> Result<usize, BuildFault>
    ensures { Builds (built_of setup (Broadcast selector mask1 mask2 process) [] out.old) result out.new }
{
    let request = Request::Broadcast {
        selector,
        mask1,
        mask2,
        process,
    };
    build(setup, request, b"", out)
}

// A reply is read for a host: the answer in the document's numbers (document 01, Reply reading).
#![tactic(auto)]

ghost use Rattle.std.specs.Prelude.{◌≡◌};
ghost use Rattle.request.specs.declared.Request.TheVariants.{Task};
ghost use Rattle.reply.specs.Reply.{read_of};
ghost use Rattle.host_reply.specs.Host.{host_reply};

use read_answers::{ReadFault, Reading};
use request::Request;
use setup::Setup;
use words::Words;

// What a reading returns: the answer's number, the reply ID, the value or error number, and the process words. It is a struct of the calls
// for C, so there is no Result.
#[repr(C)]
#[derive(Clone, Copy, Debug, Default, PartialEq, Eq)]
pub struct HostReply {
    pub number: u32,
    pub id: u32,
    pub value: u32,
    pub process: Words,
}

fn give_reply(read: Result<Reading, ReadFault>) -> HostReply
    ensures { result ≡ host_reply read }
{
    match read {
        Ok(reading) => HostReply {
            number: 0,
            id: reading.content.id(),
            value: reading.content.value(),
            process: reading.process,
        },
        Err(fault) => HostReply {
            number: fault.into(),
            ..HostReply::default()
        },
    }
}

// Reads the reply to a task. The parameters are those of C's call, one by one.
pub fn read_reply(
    setup: Setup,
    task: u8,
    parameter: u16,
    index: u8,
    value: u32,
    process: Words,
    received: &[u8],
) -> HostReply
    ensures { result ≡ host_reply (read_of setup (Task task parameter index value process) received.now) }
{
    let request = Request::Task {
        id: task,
        number: parameter,
        index,
        value,
        process,
    };
    give_reply(reply::read(setup, request, received))
}

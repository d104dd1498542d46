// The slave call for a host: the answer in the document's numbers (document 01, Answer numbers 0 to 23; document 02, W-205, 25).
#![tactic(auto)]

ghost use Rattle.std.specs.Prelude.{◌≡◌, ◌/◌, ◌%◌, Some, None};
ghost use Rattle.slave.specs.Slave.{call_of, call_with};
ghost use Rattle.host_slave.specs.Host.{SlaveLeaves};

use opening::Drive;
use setup::Setup;
use words::Words;

// What a call returns: the answer's number, the reply's length, and the control words afterwards. It is a struct of the calls for C, so
// there is no Result.
#[repr(C)]
#[derive(Clone, Copy, Debug, PartialEq, Eq)]
pub struct HostAnswer {
    pub number: u32,
    pub length: u32,
    pub control: Words,
}

// What a call tells: number and length as one number of 64 bits, the length above, so that they cross together; and the control words.
#[derive(Clone, Copy, Debug, PartialEq, Eq)]
struct Told {
    both: u64,
    control: Words,
}

impl Told {
    // What the host is told.
    fn answer(self) -> HostAnswer
        ensures { result ≡ record { number = self.both % 4294967296; length = self.both / 4294967296; control = self.control } }
    {
        HostAnswer {
            number: (self.both % 4294967296) as u32,
            length: (self.both / 4294967296) as u32,
            control: self.control,
        }
    }
}

// The slave call, with a list or without.
#[tactic(auto, using(crate::proofs::LengthLaws::served_fits))]
fn serve_either(
    drive: Drive,
    values: &mut [u32],
    control: Words,
    status: Words,
    received: &[u8],
    reply: &mut [u8],
) -> Told
    ensures { SlaveLeaves (call_of (call_with drive.entry values.old control status received.now reply.old)) (record { number = result.both % 4294967296; length = result.both / 4294967296; control = result.control }) (record { values = values.new }) reply.new }
{
    let served = slave::serve(drive, values, control, status, received, reply);
    let number: u32 = match served.answer {
        Ok(answer) => answer.into(),
        Err(refusal) => refusal.into(),
    };
    Told {
        both: number as u64 + served.length as u64 * 4294967296,
        control: served.control,
    }
}

// The slave call that adds: no list is lent. C has this call and the next, so there are two, with C's parameters one by one.
pub fn serve(
    setup: Setup,
    table: &[u8],
    values: &mut [u32],
    control: Words,
    status: Words,
    received: &[u8],
    reply: &mut [u8],
) -> HostAnswer
    ensures { SlaveLeaves (call_of (record { setup = setup; table = table.now; memory = record { values = values.old }; list = None; control = control; status = status; received = received.now; buffer = reply.old })) result (record { values = values.new }) reply.new }
{
    let drive = Drive {
        setup,
        table,
        places: None,
    };
    serve_either(drive, values, control, status, received, reply).answer()
}

// The slave call that looks up: the list of first places is lent.
pub fn serve_listed(
    setup: Setup,
    table: &[u8],
    values: &mut [u32],
    places: &[u16],
    control: Words,
    status: Words,
    received: &[u8],
    reply: &mut [u8],
) -> HostAnswer
    ensures { SlaveLeaves (call_of (record { setup = setup; table = table.now; memory = record { values = values.old }; list = Some places.now; control = control; status = status; received = received.now; buffer = reply.old })) result (record { values = values.new }) reply.new }
{
    let drive = Drive {
        setup,
        table,
        places: Some(places),
    };
    serve_either(drive, values, control, status, received, reply).answer()
}

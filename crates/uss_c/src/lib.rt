// The calls for C (include/uss.h), as functions that Rattle can call: each hands on to the crate that does the work and promises what
// that one promises. Crate uss_c_c exports them.
#![tactic(auto)]

ghost use Rattle.std.specs.Prelude.{◌≡◌, List, [], ◌∷◌, ℕ, length, Some, None};
ghost use Rattle.bcc.specs.Bcc.{xor_all};
ghost use Rattle.receiver.specs.Receive.{received_of, Leaves};
ghost use Rattle.request.specs.declared.Request.TheVariants.{Task, Mirror, Broadcast};
ghost use Rattle.slave.specs.Slave.{call_of};
ghost use Rattle.master.specs.Build.{built_of};
ghost use Rattle.reply.specs.Reply.{read_of};
ghost use Rattle.listing.specs.Listing.{listed_of};
ghost use Rattle.table_check.specs.Checks.{table_check_of};
ghost use Rattle.opening.specs.Answers.{opened_number};
ghost use Rattle.places.specs.Fill.{filling_of, filled_by};
ghost use Rattle.view.specs.View.{open_of, show_of, step_of};
ghost use Rattle.figure.specs.declared.Unit.TheVariants.{Hertz, Percent, Raw};
ghost use Rattle.figure.specs.Figures.{figure_of};
ghost use Rattle.host_slave.specs.Host.{SlaveLeaves};
ghost use Rattle.host_master.specs.Host.{BuildLeaves};
ghost use Rattle.host_reply.specs.Host.{host_reply};
ghost use Rattle.host_figure.specs.Host.{host_figure};

use figure::Unit;
use host_figure::HostFigure;
use host_master::HostBuilt;
use host_reply::HostReply;
use host_slave::HostAnswer;
use receiver::{Received, Receiver};
use setup::Setup;
use table_check::TableCheck;
use view::{Cursor, Shown};
use words::Words;

pub fn uss_receive(receiver: Receiver, items: &[u16], page: &mut [u8]) -> Received
    ensures { Leaves (received_of receiver.state items.now page.old) result page.new }
{
    receiver::receive(receiver, items, page)
}

pub fn uss_receive_bytes(receiver: Receiver, bytes: &[u8], page: &mut [u8]) -> Received
    ensures { Leaves (received_of receiver.state bytes.now page.old) result page.new }
{
    receiver::receive_bytes(receiver, bytes, page)
}

pub fn uss_pause(receiver: Receiver) -> Receiver
    ensures paused { (page : List ℕ) → result ≡ (received_of receiver.state (256 ∷ []) page).received.receiver }
    ensures page_stays { (page : List ℕ) → (received_of receiver.state (256 ∷ []) page).page ≡ page }
{
    receiver::pause(receiver)
}

pub fn uss_slave(
    setup: Setup,
    table: &[u8],
    values: &mut [u32],
    control: Words,
    status: Words,
    received: &[u8],
    reply: &mut [u8],
) -> HostAnswer
    ensures { SlaveLeaves (call_of (record { setup = setup; table = table.now; memory = record { values = values.old }; list = None; control = control; status = status; received = received.now; buffer = reply.old })) result (record { values = values.new }) reply.new }
{
    host_slave::serve(setup, table, values, control, status, received, reply)
}

pub fn uss_slave_listed(
    setup: Setup,
    table: &[u8],
    values: &mut [u32],
    places: &[u16],
    control: Words,
    status: Words,
    received: &[u8],
    reply: &mut [u8],
) -> HostAnswer
    ensures { SlaveLeaves (call_of (record { setup = setup; table = table.now; memory = record { values = values.old }; list = Some places.now; control = control; status = status; received = received.now; buffer = reply.old })) result (record { values = values.new }) reply.new }
{
    host_slave::serve_listed(
        setup, table, values, places, control, status, received, reply,
    )
}

pub fn uss_build_task(
    setup: Setup,
    task: u8,
    parameter: u16,
    index: u8,
    value: u32,
    process: Words,
    out: &mut [u8],
) -> HostBuilt
    ensures { BuildLeaves (built_of setup (Task task parameter index value process) [] out.old) result out.new }
{
    host_master::build_task(setup, task, parameter, index, value, process, out)
}

pub fn uss_build_mirror(setup: Setup, net: &[u8], out: &mut [u8]) -> HostBuilt
    ensures { BuildLeaves (built_of setup Mirror net.now out.old) result out.new }
{
    host_master::build_mirror(setup, net, out)
}

pub fn uss_build_broadcast(
    setup: Setup,
    selector: u16,
    mask1: u16,
    mask2: u16,
    process: Words,
    out: &mut [u8],
) -> HostBuilt
    ensures { BuildLeaves (built_of setup (Broadcast selector mask1 mask2 process) [] out.old) result out.new }
{
    host_master::build_broadcast(setup, selector, mask1, mask2, process, out)
}

pub fn uss_read_reply(
    setup: Setup,
    task: u8,
    parameter: u16,
    index: u8,
    value: u32,
    process: Words,
    received: &[u8],
) -> HostReply
    ensures { result ≡ host_reply (read_of setup (Task task parameter index value process) received.now) }
{
    host_reply::read_reply(setup, task, parameter, index, value, process, received)
}

pub fn uss_list(received: &[u8], out: &mut [u8]) -> u32
    ensures value { result ≡ (listed_of received.now out.old).place }
    ensures out_after { out.new ≡ (listed_of received.now out.old).bytes }
{
    listing::list(received, out)
}

pub fn uss_bcc(bytes: &[u8]) -> u8
    ensures { result ≡ xor_all bytes.now }
{
    bcc::bcc(bytes)
}

pub fn uss_check_table(table: &[u8], values: &[u32]) -> TableCheck
    ensures { result ≡ table_check_of table.now values.now }
{
    table_check::check_table(table, values)
}

pub fn uss_fill_places(table: &[u8], places: &mut [u16]) -> u32
    ensures value { result ≡ opened_number (filling_of table.now (length places.old)) }
    ensures places_after { places.new ≡ filled_by (filling_of table.now (length places.old)) table.now places.old }
{
    places::fill_numbered(table, places)
}

pub fn uss_view_open(table: &[u8]) -> Cursor
    ensures { result ≡ open_of table.now }
{
    view::first(table)
}

pub fn uss_view_show(table: &[u8], view: Cursor) -> Shown
    ensures { result ≡ show_of table.now view }
{
    view::look(table, view)
}

pub fn uss_view_step(table: &[u8], view: Cursor) -> Cursor
    ensures { result ≡ step_of table.now view }
{
    view::next(table, view)
}

pub fn uss_show_hertz(word: u16, reference: u32) -> HostFigure
    ensures { result ≡ host_figure (figure_of Hertz word reference) }
{
    host_figure::show(Unit::Hertz, word, reference)
}

// No reference is looked at.
#[tactic(auto, unfolding(figure::specs::Figures::figure_of))]
pub fn uss_show_percent(word: u16) -> HostFigure
    ensures { (reference : ℕ) → result ≡ host_figure (figure_of Percent word reference) }
{
    host_figure::show(Unit::Percent, word, 0)
}

// No reference is looked at.
#[tactic(auto, unfolding(figure::specs::Figures::figure_of))]
pub fn uss_show_raw(word: u16) -> HostFigure
    ensures { (reference : ℕ) → result ≡ host_figure (figure_of Raw word reference) }
{
    host_figure::show(Unit::Raw, word, 0)
}

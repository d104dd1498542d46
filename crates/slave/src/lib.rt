// The slave (document 01, Slave): one call takes a received page, runs its task on the lent values, and answers.
#![tactic(auto)]

ghost use Rattle.std.specs.Prelude.{◌≡◌, true, List, ℕ, ◌+◌, ◌-◌, ◌*◌, ◌≤◌, length, Option, Ok, Err};
ghost use Rattle.words.specs.declared.Words.{Words};
ghost use Rattle.table.specs.Records.{entry_at, counts_of, entries, first_place, places_of};
ghost use Rattle.opening.specs.Lent.{Memory, lent_list, lent_with, RightList};
ghost use Rattle.opening.specs.Answers.{opening_of, passed};
ghost use Rattle.deed.specs.Deed.{DeedFits};
ghost use Rattle.slave.specs.Perform.{found_of, replying, plan_at, done_by, Performs};
ghost use Rattle.slave.specs.Slave.{Leaves, normal_case, mirror_case, broadcast_case, execute_of, call_of, call_with};

use address::Telegram;
use area::Area;
use deed::Deed;
use entry::Entry;
use errors::ParameterError;
use opening::Drive;
use setup::Setup;
use slave_answers::{Answer, Refusal};
use words::Words;

// What a call returns: its answer, the reply's length, and the control words afterwards. Length and control words stand beside the answer
// because a refusal has them too: length 0, and the given control words.
#[derive(Clone, Copy, Debug, PartialEq, Eq)]
pub struct Served {
    pub answer: Result<Answer, Refusal>,
    pub length: usize,
    pub control: Words,
}

// ---- a parameter task

// The sum of the places of the records before record k. table_check::Records::count_all sums alike,
// where the type bounds the table. One public function for both would need a `requires`, since the sum has to fit, and none has one.
fn sum_places(t: &[u8], k: usize) -> usize
    requires { (12 * k ≤ length t.now) × (k ≤ 512) }
    ensures { result ≡ first_place t.now k }
{
    let mut sum: usize = 0;
    for i in 0..k {
        sum += entry::count_places(table::entry_in(&t[12 * i..12 * i + 12]));
    }
    sum
}

// The first value place of record k, in a table whose records take `count` places at most: looked up where a list is lent, else added
// up. Where there are no more places than records, each takes one.
#[tactic(auto, using(table::proofs::PlacesLaws::places_length, table::proofs::PlacesLaws::places_at, crate::proofs::PerformLaws::places_single))]
fn first_place(drive: Drive, k: usize, count: usize) -> usize
    requires { (12 * k + 12 ≤ length drive.table.now) × (k ≤ 512) × (counts_of (entries drive.table.now) ≤ count) × RightList drive.table.now (lent_list drive.places) }
    ensures { result ≡ first_place drive.entry.table.now k }
{
    if let Some(list) = drive.places {
        return list[k] as usize;
    }
    if count == drive.table.len() / 12 {
        return k;
    }
    sum_places(drive.table, k)
}

// The record that an area names; a base of 2000 to 2047 names none.
#[tactic(auto, unfolding(crate::specs::Perform::found_of))]
fn find_named(table: &[u8], area: Area) -> Option<usize>
    ensures { result ≡ found_of table.now area }
{
    if 2000 <= area.pke % 2048 {
        return None;
    }
    table::find(table, page::full_number(area.pke, area.ind))
}

// What a task asks of the values: the deed, and the first value place of the record that it means; 0 where it means none.
#[derive(Clone, Copy, Debug, PartialEq, Eq)]
pub struct Plan {
    pub deed: Deed,
    pub first: usize,
}

// The area as the reply: nothing is asked of the values.
fn reply_with(area: Area) -> Plan
    ensures { result ≡ replying area }
{
    Plan {
        deed: Deed::Reply { area },
        first: 0,
    }
}

// The parameter task of a telegram whose area has n words, if it has one, on a table of `count` places that passed the opening check.
// Task 0 does nothing, and no error is looked for in it.
#[tactic(auto, using(table::proofs::RecordsLaws::entry_part, crate::proofs::PerformLaws::named_whole), unfolding(crate::specs::Perform::plan_at, crate::specs::Perform::plan_in))]
fn plan_area(n: u8, drive: Drive, count: usize, received: &[u8]) -> Plan
    requires { (length drive.table.now ≤ 6144) × (counts_of (entries drive.table.now) ≤ count) × RightList drive.table.now (lent_list drive.places) }
    ensures { result ≡ plan_at n drive.entry.table.now received.now }
{
    if n == 0 {
        return reply_with(area::empty_area());
    }
    let area = area::read_area(received, n);
    if area.pke / 4096 == 0 {
        return reply_with(area::empty_area());
    }
    let Some(k) = find_named(drive.table, area) else {
        return Plan {
            deed: deed::deny(area, ParameterError::NoParameter),
            first: 0,
        };
    };
    let e = table::entry_in(&drive.table[12 * k..12 * k + 12]);
    Plan {
        deed: deed::plan(n, area, e),
        first: first_place(drive, k, count),
    }
}

// The deed done, on a record whose first value place is `first`: a task reads and writes the values here alone.
fn do_deed(deed: Deed, first: usize, values: &mut [u32]) -> Area
    requires { DeedFits deed (length values.old - first) }
    ensures { Performs (done_by deed first (record { values = values.old })) result (record { values = values.new }) }
{
    match deed {
        Deed::Reply { area } => area,
        Deed::Fetch { area, element } => {
            let value = values[first + element as usize];
            Area { value, ..area }
        }
        Deed::Write { area, element } => {
            values[first + element as usize] = area.value;
            area
        }
    }
}

// ---- the call

// A refusal: length 0, and the given control words.
fn refuse(refusal: Refusal, control: Words) -> Served
    ensures { result ≡ record { answer = Err refusal; length = 0; control = control } }
{
    Served {
        answer: Err(refusal),
        length: 0,
        control,
    }
}

// A normal telegram to a node, with n net bytes: 16, 17, or the reply.
#[tactic(auto, using(setup::proofs::SetupLaws::node_own, setup::proofs::SetupLaws::node_other_lem), unfolding(crate::specs::Slave::normal_case))]
fn serve_normal(
    drive: Drive,
    values: &mut [u32],
    control: Words,
    status: Words,
    received: &[u8],
    reply: &mut [u8],
    node: u8,
    n: usize,
) -> Served
    requires { opening_of (lent_with drive values.old (length reply.old)) ≡ passed }
    ensures { Leaves (normal_case node n (call_with drive.entry values.old control status received.now reply.old)) result (record { values = values.new }) reply.new }
{
    if node != drive.setup.node {
        return refuse(Refusal::OtherNode, control);
    }
    if setup::is_other_length(drive.setup, n) {
        return refuse(Refusal::OtherLength, control);
    }
    let count = setup::area_count(drive.setup, n);
    let next = control::take_control(drive.setup, n, control, received);
    let plan = plan_area(count, drive, values.len(), received);
    let deed = plan.deed;
    let area = do_deed(deed, plan.first, values);
    let setup = drive.setup;
    let length = net::write_normal(reply, setup.node, area, count, status, setup.pzd).unwrap_or(0);
    Served {
        answer: Ok(Answer::Replied),
        length,
        control: next,
    }
}

// A mirror telegram to a node: 16, or the telegram itself. Table, values and status words are not looked at.
#[tactic(auto, using(setup::proofs::SetupLaws::node_own, setup::proofs::SetupLaws::node_other_lem, store::proofs::StoreLaws::put_front), unfolding(crate::specs::Slave::mirror_case))]
fn serve_mirror(setup: Setup, control: Words, received: &[u8], reply: &mut [u8], node: u8) -> Served
    requires { length received.now ≤ length reply.old }
    ensures { (t : List ℕ) (m : Memory) (l : Option (List ℕ)) (w : Words) → Leaves (mirror_case node (record { setup = setup; table = t; memory = m; list = l; control = control; status = w; received = received.now; buffer = reply.old })) result m reply.new }
{
    if node != setup.node {
        return refuse(Refusal::OtherNode, control);
    }
    let length = store::put(reply, 0, received);
    Served {
        answer: Ok(Answer::Mirrored),
        length,
        control,
    }
}

// A broadcast with n net bytes: 17, 18, or the control words with the masked bits taken. No reply, whatever else is lent.
#[tactic(auto, unfolding(crate::specs::Slave::broadcast_case, control::specs::Control::commanded_of))]
fn serve_broadcast(setup: Setup, control: Words, received: &[u8], n: usize) -> Served
    ensures { (t : List ℕ) (m : Memory) (l : Option (List ℕ)) (w : Words) (out : List ℕ) → Leaves (broadcast_case n (record { setup = setup; table = t; memory = m; list = l; control = control; status = w; received = received.now; buffer = out })) result m out }
{
    if setup::is_other_length(setup, n) {
        return refuse(Refusal::OtherLength, control);
    }
    match control::take_command(setup, n, control, received) {
        None => refuse(Refusal::VoidBroadcast, control),
        Some(next) => Served {
            answer: Ok(Answer::Taken),
            length: 0,
            control: next,
        },
    }
}

// The telegram after the opening check.
#[tactic(auto, using(address::proofs::DecodedLaws::telegram_framed, address::proofs::DecodedLaws::normal_bounds), unfolding(crate::specs::Slave::execute_of))]
fn execute(
    drive: Drive,
    values: &mut [u32],
    control: Words,
    status: Words,
    received: &[u8],
    reply: &mut [u8],
) -> Served
    requires { opening_of (lent_with drive values.old (length reply.old)) ≡ passed }
    ensures { Leaves (execute_of (call_with drive.entry values.old control status received.now reply.old)) result (record { values = values.new }) reply.new }
{
    // address::decode, written out so that both are compiled into this call (docs/DECISIONS.md)
    match address::decode_found(frame::check(received), received) {
        Err(fault) => refuse(fault.into(), control),
        Ok(Telegram::Mirror { node }) => serve_mirror(drive.setup, control, received, reply, node),
        Ok(Telegram::Broadcast) => {
            serve_broadcast(drive.setup, control, received, received.len() - 4)
        }
        Ok(
            Telegram::Normal {
                node,
                net_start,
                net_end,
            },
        ) => {
            let n = net_end - net_start;
            serve_normal(drive, values, control, status, received, reply, node, n)
        }
    }
}

// The slave call, with a list of first places where one is lent. Values and reply are lent for writing and the others are the call's own,
// so they stay parameters here and below: a struct of them would be taken apart at each step. A refusal writes nothing and returns the
// given control state; a reply writes only its own bytes at the buffer's start; a change writes one place.
#[tactic(auto, unfolding(crate::specs::Slave::call_of))]
pub fn serve(
    drive: Drive,
    values: &mut [u32],
    control: Words,
    status: Words,
    received: &[u8],
    reply: &mut [u8],
) -> Served
    ensures { Leaves (call_of (call_with drive.entry values.old control status received.now reply.old)) result (record { values = values.new }) reply.new }
{
    if let Err(fault) = drive.open(values, reply.len()) {
        return refuse(fault.into(), control);
    }
    execute(drive, values, control, status, received, reply)
}

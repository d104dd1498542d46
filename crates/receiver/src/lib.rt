// The receiver (document 02, W-201): it is fed as the UART delivers, bytes and pauses, and hands out telegrams at the start of the
// lent page.
#![tactic(auto)]

ghost use Rattle.std.specs.Prelude.{◌≡◌, List, [], ◌∷◌, ℕ, ◌+◌, ◌-◌, ◌≤◌, ◌<◌, IfSome, length, map};
ghost use Rattle.receiver.specs.Receive.{run_from, call_from, received_of, Leaves, Due};

use std::cmp::min;

// 0 disarmed, 1 armed, 1 + k inside a telegram of which k bytes (1 to 255) stand in the page; any other number is disarmed.
#[repr(C)]
#[derive(Clone, Copy, Debug, PartialEq, Eq)]
pub struct Receiver {
    pub state: u32,
}

// How many items were taken, the length of the telegram handed out, 0 where there is none, and the receiver from now on.
// The length is no Option: this crosses to C as it is.
#[repr(C)]
#[derive(Clone, Copy, Debug, PartialEq, Eq)]
pub struct Received {
    pub taken: u64,
    pub length: u32,
    pub receiver: Receiver,
}

// A place among the items, and the state there.
#[derive(Clone, Copy, Debug, PartialEq, Eq)]
struct Passed {
    place: usize,
    state: u32,
}

// An item of a call: a u16 is a byte, or from 256 on a pause; a u8 is a byte alone, so that no pause comes between them. Here and
// below a place counts from the call's start, and the items that are left are not passed on as a slice: the place is what the call returns
// as taken.
trait Item: Copy {
    ghost number: { Self → ℕ };

    fn number(self) -> u16
        ensures { result ≡ number self };

    // Disarmed, bytes are ignored: the place of the next pause, or the end.
    fn skip(items: &[Self], from: usize) -> usize
        requires { from ≤ length items.now }
        ensures lower_bound { (from ≤ result) × (result ≤ length items.now) }
        ensures same_call { (page : List ℕ)
            → call_from from 0 (map number items.now) page ≡ call_from result 0 (map number items.now) page };

    // Puts bytes behind those that are there, up to the last one of the telegram, the next pause or the end; returns how many.
    fn fill(state: u32, items: &[Self], from: usize, page: &mut [u8], due: usize) -> usize
        requires from_in_bounds { from ≤ length items.now }
        requires due { Due state page.old due }
        ensures result_in_bounds { (from + result ≤ length items.now) × (result ≤ due) }
        ensures page_value { call_from from state (map number items.now) page.old
            ≡ call_from (from + result) (state + result) (map number items.now) page.new };
}

impl Item for u16 {
    ghost number = { λ x. x };

    fn number(self) -> u16 {
        self
    }

    fn skip(items: &[u16], from: usize) -> usize {
        for i in from..items.len() {
            if 256 <= items[i] {
                return i;
            }
        }
        items.len()
    }

    fn fill(state: u32, items: &[u16], from: usize, page: &mut [u8], due: usize) -> usize {
        let count = (state - 1) as usize;
        let n = min(due, items.len() - from);
        for j in 0..n {
            let item = items[from + j];
            if 256 <= item {
                return j;
            }
            page[count + j] = item as u8;
        }
        n
    }
}

impl Item for u8 {
    ghost number = { λ x. x };

    fn number(self) -> u16 {
        self as u16
    }

    fn skip(items: &[u8], _from: usize) -> usize {
        items.len()
    }

    fn fill(state: u32, items: &[u8], from: usize, page: &mut [u8], due: usize) -> usize {
        let count = (state - 1) as usize;
        let n = min(due, items.len() - from);
        store::put(&mut page[count..count + n], 0, &items[from..from + n]);
        n
    }
}

// How many bytes of a telegram are still to come before its last one. None where none is, where no telegram is begun, or where the page is
// not as the receiver left it: `step::step` takes every item of those.
fn count_due(state: u32, page: &[u8]) -> Option<usize>
    ensures { IfSome result (Due state page.now) }
{
    if state < 3 {
        return None;
    }
    let count = (state - 1) as usize;
    if page.len() <= count {
        return None;
    }
    let lge = page[1] as usize;
    if lge < count || 254 < lge || page.len() < lge + 2 {
        return None;
    }
    Some(lge + 1 - count)
}

// Passes over the items that only are ignored, or only are put behind others.
fn pass<I: Item>(state: u32, items: &[I], from: usize, page: &mut [u8]) -> Passed
    requires { from ≤ length items.now }
    ensures from_le_place { (from ≤ result.place) × (result.place ≤ length items.now) }
    ensures page_value { call_from from state (map I.number items.now) page.old
        ≡ call_from result.place result.state (map I.number items.now) page.new }
{
    if state == 0 {
        return Passed {
            place: I::skip(items, from),
            state,
        };
    }
    let Some(due) = count_due(state, page) else {
        return Passed { place: from, state };
    };
    let n = I::fill(state, items, from, page, due);
    Passed {
        place: from + n,
        state: state + n as u32,
    }
}

// What a call returns after so many items.
fn end(taken: usize, state: u32, length: u32) -> Received
    ensures { result ≡ record { taken = taken; length = length; receiver = record { state = state } } }
{
    Received {
        taken: taken as u64,
        length,
        receiver: Receiver { state },
    }
}

// Takes the items from a place on, until a telegram is whole or none is left.
fn run<I: Item>(begun: u32, items: &[I], from: usize, page: &mut [u8]) -> Received
    requires { from ≤ length items.now }
    ensures { Leaves (call_from from begun (map I.number items.now) page.old) result page.new }
{
    let mut state = begun;
    let mut i = from;
    while i < items.len() {
        let passed = pass(state, items, i, page);
        i = passed.place;
        state = passed.state;
        if items.len() <= i {
            return end(i, state, 0);
        }
        let moved = step::step(state, items[i].number(), page);
        i += 1;
        state = moved.state;
        if moved.length != 0 {
            return end(i, state, moved.length);
        }
    }
    end(i, state, 0)
}

// Takes items until a telegram is whole or none is left. A single one, as an interrupt has it, is one step.
pub fn receive(receiver: Receiver, items: &[u16], page: &mut [u8]) -> Received
    ensures { Leaves (received_of receiver.state items.now page.old) result page.new }
{
    let state = step::settle(receiver.state, page.len());
    if items.len() == 1 {
        let moved = step::step(state, items[0], page);
        return end(1, moved.state, moved.length);
    }
    run(state, items, 0, page)
}

// The first two bytes of a telegram, one by one.
fn open_bytes(settled: u32, bytes: &[u8], page: &mut [u8]) -> Passed
    ensures place_in_bounds { result.place ≤ length bytes.now }
    ensures page_value { run_from 0 settled bytes.now page.old ≡ call_from result.place result.state bytes.now page.new }
{
    let mut state = settled;
    for i in 0..bytes.len() {
        if state == 0 || 2 < state {
            return Passed { place: i, state };
        }
        state = step::step(state, bytes[i] as u16, page).state;
    }
    Passed {
        place: bytes.len(),
        state,
    }
}

// The bytes from a place on, one by one, until a telegram is whole or none is left. `run` passes before each item: where someone else wrote
// to the page nothing can be passed, and every byte would be looked at twice.
fn run_bytes(begun: u32, bytes: &[u8], from: usize, page: &mut [u8]) -> Received
    requires { from ≤ length bytes.now }
    ensures { Leaves (call_from from begun bytes.now page.old) result page.new }
{
    let mut state = begun;
    for i in from..bytes.len() {
        let moved = step::step(state, bytes[i] as u16, page);
        state = moved.state;
        if moved.length != 0 {
            return end(i + 1, state, moved.length);
        }
    }
    end(bytes.len(), state, 0)
}

// The same for bytes alone, a call of its own for C. No pause comes between them, so that a telegram is opened and goes on once: what is
// left then is its last byte, or nothing; or all of them, where someone else wrote to the page. Disarmed, all are ignored.
pub fn receive_bytes(receiver: Receiver, bytes: &[u8], page: &mut [u8]) -> Received
    ensures { Leaves (received_of receiver.state bytes.now page.old) result page.new }
{
    let state = step::settle(receiver.state, page.len());
    if state == 0 {
        return end(bytes.len(), state, 0);
    }
    if bytes.len() == 1 {
        let moved = step::step(state, bytes[0] as u16, page);
        return end(1, moved.state, moved.length);
    }
    let opened = open_bytes(state, bytes, page);
    let passed = pass(opened.state, bytes, opened.place, page);
    run_bytes(passed.state, bytes, passed.place, page)
}

// One pause, as a timer has it: it arms, from any state, and no page is looked at.
#[tactic(auto, unfolding(step::specs::Step::step_of, crate::specs::Receive::run_from))]
pub fn pause(receiver: Receiver) -> Receiver
    ensures paused { (page : List ℕ) → result ≡ (received_of receiver.state (256 ∷ []) page).received.receiver }
    ensures page_stays { (page : List ℕ) → (received_of receiver.state (256 ∷ []) page).page ≡ page }
{
    Receiver { state: 1 }
}

// One item of the receiver (document 02, W-201): what a byte or a pause does to the state and to the lent page.
#![tactic(auto)]

ghost use Rattle.std.specs.Prelude.{◌≡◌, ◌<◌, length};
ghost use Rattle.rows.specs.Rows.{first_of};
ghost use Rattle.step.specs.Step.{settled_of, first_rows, opened, lge_rows, promised, step_of};

// What an item does: the next state, and the length of the telegram that it completed, else 0.
// The length is no Option: 0 is how C's uss_received says that nothing was handed out.
#[derive(Clone, Copy, Debug, PartialEq, Eq)]
pub struct Move {
    pub state: u32,
    pub length: u32,
}

// The state that a number says: disarmed where it is none, or says more bytes than the page has. It stays a number and is no enum, since
// C's uss_receiver holds it, and the next one is one more.
#[tactic(auto, unfolding(crate::specs::Step::settled_of))]
pub fn settle(state: u32, room: usize) -> u32
    ensures { result ≡ settled_of state room }
{
    if state == 0 || 256 < state || room < (state - 1) as usize {
        return 0;
    }
    state
}

// The next state, and nothing is handed out.
fn onward(state: u32) -> Move
    ensures { result ≡ record { state = state; length = 0 } }
{
    Move { state, length: 0 }
}

// The first byte: only 02 opens a telegram.
fn take_first(item: u16, page: &mut [u8]) -> Move
    requires { 0 < length page.old }
    ensures value { result ≡ (first_of (first_rows item page.old) (opened page.old)).move }
    ensures page_after { page.new ≡ (first_of (first_rows item page.old) (opened page.old)).page }
{
    if item != 2 {
        return onward(0);
    }
    page[0] = 2;
    onward(2)
}

// The second byte, LGE: 3 to 254, and its telegram fits the page.
fn take_lge(item: u16, page: &mut [u8]) -> Move
    requires { 1 < length page.old }
    ensures value { result ≡ (first_of (lge_rows item page.old) (promised item page.old)).move }
    ensures page_after { page.new ≡ (first_of (lge_rows item page.old) (promised item page.old)).page }
{
    if !(3..=254).contains(&item) || page.len() < item as usize + 2 {
        return onward(0);
    }
    page[1] = item as u8;
    onward(3)
}

// Takes one item: the cases in the order of the definition.
#[tactic(auto, unfolding(crate::specs::Step::step_of))]
pub fn step(state: u32, item: u16, page: &mut [u8]) -> Move
    ensures value { result ≡ (step_of state item page.old).move }
    ensures page_after { page.new ≡ (step_of state item page.old).page }
{
    if 256 <= item {
        return onward(1);
    }
    if state == 0 {
        return onward(0);
    }
    let count = (state - 1) as usize;
    if page.len() <= count {
        return onward(0);
    }
    if state == 1 {
        return take_first(item, page);
    }
    if state == 2 {
        return take_lge(item, page);
    }
    let end = page[1] as u32 + 2;
    page[count] = item as u8;
    if state == end {
        return Move {
            state: 0,
            length: state,
        };
    }
    if 256 <= state {
        return onward(0);
    }
    onward(state + 1)
}

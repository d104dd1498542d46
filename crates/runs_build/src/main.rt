// Builds of requests, a line for each: document 01's number, the length, the telegram's bytes.
#![tactic(auto)]

ghost use Rattle.std.specs.Prelude.{◌≤◌};

use build_answers::BuildFault;
use setup::Setup;
use words::Words;

// Node 3 and two process words, with four, three and no parameter words.
const FOUR: Setup = Setup {
    node: 3,
    pkw: 4,
    pzd: 2,
};

const THREE: Setup = Setup {
    node: 3,
    pkw: 3,
    pzd: 2,
};

const NONE: Setup = Setup {
    node: 3,
    pkw: 0,
    pzd: 2,
};

// Four parameter words and one process word.
const ONE: Setup = Setup {
    node: 3,
    pkw: 4,
    pzd: 1,
};

const USUAL: Words = Words {
    w1: 0x047f,
    w2: 0x2000,
    w3: 0,
    w4: 0,
};

// ---- lines. Each format is this program's alone, and io::write_all takes bytes and no
// fmt::Write: so no Display.

fn put_number(n: u64) {
    io::print_decimal(1, n);
    io::write_all(1, b" ");
}

// 0 and the length of a telegram that is built, or the refusal's number and 0.
fn show(built: Result<usize, BuildFault>, out: &[u8]) {
    let length = built.unwrap_or(0);
    put_number(build_answers::number_built(built) as u64);
    put_number(length as u64);
    for &byte in out.iter().take(length) {
        io::print_hex(1, byte as u64, 2);
    }
    io::write_all(1, b"\n");
}

// ---- requests. Their parts stay parameters: a case below is one line of numbers.

fn ask_into(
    setup: Setup,
    id: u8,
    number: u16,
    index: u8,
    value: u32,
    process: Words,
    out: &mut [u8],
) {
    let built = master::build_task(setup, id, number, index, value, process, out);
    show(built, out);
}

// A task in a buffer of so many bytes.
fn ask(setup: Setup, id: u8, number: u16, index: u8, value: u32, process: Words, room: usize)
    requires { room ≤ 256 }
{
    let mut out = [0u8; 256];
    ask_into(setup, id, number, index, value, process, &mut out[..room]);
}

// A task in four words, and in three.
fn ask_four(id: u8, number: u16, index: u8, value: u32) {
    ask(FOUR, id, number, index, value, USUAL, 256);
}

fn ask_three(id: u8, number: u16, index: u8, value: u32) {
    ask(THREE, id, number, index, value, USUAL, 256);
}

fn mirror_into(setup: Setup, net: &[u8], out: &mut [u8]) {
    let built = master::build_mirror(setup, net, out);
    show(built, out);
}

// A mirror of n net bytes, 02 the second, in a buffer of so many bytes.
fn mirror(setup: Setup, first: u8, n: usize, room: usize)
    requires n_bound { n ≤ 2 }
    requires room_bound { room ≤ 256 }
{
    let net = [first, 2];
    let mut out = [0u8; 256];
    mirror_into(setup, &net[..n], &mut out[..room]);
}

fn command(setup: Setup, selector: u16, mask1: u16, mask2: u16, process: Words) {
    let mut out = [0u8; 256];
    let built = master::build_broadcast(setup, selector, mask1, mask2, process, &mut out);
    show(built, &out);
}

fn main() {
    ask_known();
    ask_word_changes();
    ask_double_changes();
    refuse_before();
    refuse_tasks();
    send_mirrors();
    send_broadcasts();
}

// K2 of document 01; tasks 0, 1, 6 and 9; a read in three words.
fn ask_known() {
    ask_four(1, 1082, 0, 0);
    ask_four(0, 0, 0, 0);
    ask_four(1, 31999, 7, 0);
    ask_four(6, 2000, 1, 0);
    ask_four(6, 4000, 254, 0);
    ask_four(9, 16000, 0, 0);
    ask_three(1, 1999, 3, 0);
}

// Tasks 2, 14, 7, 12.
fn ask_word_changes() {
    ask_four(2, 1082, 0, 65535);
    ask_four(14, 3999, 0, 65436);
    ask_four(7, 5000, 2, 1);
    ask_three(12, 6001, 254, 0);
}

// Tasks 3, 13, 8, 11.
fn ask_double_changes() {
    ask_four(3, 1082, 0, 65536);
    ask_four(13, 0, 0, 1);
    ask_four(8, 30000, 1, 4294967295);
    ask_four(11, 28123, 9, 2147483648);
}

// Set-ups that may not be used, requests that cannot be asked, a short buffer; in this order.
fn refuse_before() {
    ask(
        Setup {
            node: 32,
            pkw: 4,
            pzd: 2,
        },
        1,
        1082,
        0,
        0,
        USUAL,
        255,
    );
    ask(
        Setup {
            node: 3,
            pkw: 0,
            pzd: 0,
        },
        0,
        0,
        0,
        0,
        USUAL,
        256,
    );
    ask_four(1, 1082, 255, 0);
    ask_four(2, 1082, 0, 65536);
    ask(FOUR, 1, 32000, 0, 0, USUAL, 255);
    ask(FOUR, 1, 1082, 0, 0, USUAL, 255);
    ask_three(3, 1082, 0, 1);
    ask_four(1, 1082, 0, 1);
}

// Tasks 4, 5, 10 and 15, task 0 with a number, no parameter area, an unused process word.
fn refuse_tasks() {
    ask_four(4, 1082, 0, 0);
    ask_four(5, 1082, 0, 0);
    ask_four(10, 1082, 0, 0);
    ask_four(15, 1082, 0, 0);
    ask_four(0, 1, 0, 0);
    ask(NONE, 1, 1082, 0, 0, USUAL, 256);
    ask(NONE, 0, 0, 0, 0, USUAL, 256);
    ask(
        FOUR,
        1,
        1082,
        0,
        0,
        Words {
            w1: 0x047f,
            w2: 0x0000,
            w3: 1,
            w4: 0,
        },
        256,
    );
}

// Mirrors: none, one and two net bytes, node 31 the last; a short buffer.
fn send_mirrors() {
    mirror(FOUR, 0x55, 0, 256);
    mirror(FOUR, 0x55, 1, 256);
    mirror(
        Setup {
            node: 31,
            pkw: 0,
            pzd: 1,
        },
        0x01,
        2,
        256,
    );
    mirror(FOUR, 0x01, 1, 255);
}

// Broadcasts: K9 and K10, three words, void ones, one with an unused process word.
fn send_broadcasts() {
    command(
        FOUR,
        6,
        0x0401,
        0x0000,
        Words {
            w1: 0x0401,
            w2: 0x2000,
            w3: 0,
            w4: 0,
        },
    );
    command(FOUR, 2, 0xffff, 0x0000, USUAL);
    command(THREE, 6, 0x0400, 0xffff, USUAL);
    command(FOUR, 4, 0x0400, 0xffff, USUAL);
    command(FOUR, 2, 0x0001, 0x0000, USUAL);
    command(FOUR, 10, 0x0400, 0x0000, USUAL);
    command(
        ONE,
        6,
        0x0400,
        0x0000,
        Words {
            w1: 0x0400,
            w2: 0x0000,
            w3: 0,
            w4: 0,
        },
    );
    command(NONE, 2, 0x0400, 0x0000, USUAL);
    command(ONE, 2, 0x0400, 0x0000, USUAL);
}

// Runs the slave call on the telegrams of standard input, whose first lines say how it is read. Writes each line as it is, and below
// one with a telegram what the call gave: document 01's answer number, the reply's length and bytes, the control words and the values.
#![tactic(auto)]

ghost use Rattle.std.specs.Prelude.{◌≤◌};

use hex_lines::Lines;
use host_slave::HostAnswer;
use setup::Setup;
use words::Words;

// The drive of documents 000 and 002: P554 four words, P700 a word, P1082 and P2000 doubles, P2010 two words of 4 to 12.
const DRIVE: [u8; 60] =
    *b"\x04\x54\x41\x00\x00\x00\x00\x00\x00\x00\xff\xff\x05\x78\x40\x00\x00\x00\x00\x00\x00\x00\x00\x63\x08\x75\x40\x00\x00\x00\x00\x00\xff\xff\xff\xff\x0f\xa1\x40\x00\x00\x00\x00\x00\xff\xff\xff\xff\x0f\xb4\x40\x80\x00\x00\x00\x04\x00\x00\x00\x0c";

const DRIVE_VALUES: [u32; 9] = [16, 17, 18, 19, 2, 0x42480000, 0x42480000, 5, 6];

// 5 a signed word of -100 to 100, 1082 a word up to 10000, 1999 a double, 2000 two words up to 100, 4000 three signed doubles of
// -5 to 5, 16000 a word and 16001 a double that are not writable, 31999 an array of one word up to 7.
const BENCH: [u8; 96] =
    *b"\x00\x0a\xc0\x00\x00\x00\xff\x9c\x00\x00\x00\x64\x08\x74\x40\x00\x00\x00\x00\x00\x00\x00\x27\x10\x0f\x9f\x40\x00\x00\x00\x00\x00\xff\xff\xff\xff\x0f\xa0\x40\x80\x00\x00\x00\x00\x00\x00\x00\x64\x1f\x41\xc0\xc0\xff\xff\xff\xfb\x00\x00\x00\x05\x7d\x00\x00\x00\x00\x00\x00\x00\x00\x00\x00\x09\x7d\x03\x00\x00\x00\x00\x00\x00\x00\x01\x86\xa0\xf9\xfe\x40\x40\x00\x00\x00\x00\x00\x00\x00\x07";

const BENCH_VALUES: [u32; 11] = [
    7, 0x1388, 0x12345678, 10, 20, 1, 0xffffffff, 0, 9, 0x11170, 3,
];

// The words that a slave starts from, and its status words.
const CONTROL: Words = Words {
    w1: 0x047e,
    w2: 0x1111,
    w3: 0x2222,
    w4: 0x3333,
};

const STATUS: Words = Words {
    w1: 0x0331,
    w2: 0x2000,
    w3: 0x4444,
    w4: 0x5555,
};

// The values and the control words that a call on the bench leaves.
#[derive(Clone, Copy)]
struct Left {
    values: [u32; 11],
    control: Words,
}

// What they are at first.
const FIRST: Left = Left {
    values: BENCH_VALUES,
    control: CONTROL,
};

// ---- lines that are written. Each format is this program's alone, and io::write_all takes bytes and no
// fmt::Write: so no Display.

// A space, and a number of so many digits.
fn put_hex(n: u32, digits: usize) {
    io::write_all(1, b" ");
    io::print_hex(1, n as u64, digits);
}

fn put_words(words: Words) {
    io::write_all(1, b",");
    for word in [words.w1, words.w2, words.w3, words.w4] {
        put_hex(word as u32, 4);
    }
}

fn put_values(values: &[u32]) {
    io::write_all(1, b",");
    for &value in values {
        put_hex(value, 1);
    }
}

fn put_answer(answer: HostAnswer, reply: &[u8]) {
    io::write_all(1, b"\n");
    io::print_decimal(1, answer.number as u64);
    io::write_all(1, b", ");
    io::print_decimal(1, answer.length as u64);
    for &byte in reply.iter().take(answer.length as usize) {
        put_hex(byte as u32, 2);
    }
    put_words(answer.control);
}

// ---- calls

// One call: the control words that it leaves.
fn call(
    setup: Setup,
    table: &[u8],
    values: &mut [u32],
    control: Words,
    received: &[u8],
    reply: &mut [u8],
) -> Words {
    let answer = host_slave::serve(setup, table, values, control, STATUS, received, reply);
    put_answer(answer, reply);
    put_values(values);
    answer.control
}

// On the drive's table, from its first values.
fn ask_drive(setup: Setup, received: &[u8]) {
    let mut values = DRIVE_VALUES;
    let mut reply = [0u8; 256];
    call(setup, &DRIVE, &mut values, CONTROL, received, &mut reply);
}

// On the bench's table.
fn ask_bench(setup: Setup, received: &[u8], left: Left) -> Left {
    let mut values = left.values;
    let mut reply = [0u8; 256];
    let control = call(
        setup,
        &BENCH,
        &mut values,
        left.control,
        received,
        &mut reply,
    );
    Left { values, control }
}

// On so many bytes of the bench's table and so many of its first values, with a reply buffer of so many bytes.
fn ask_short(setup: Setup, received: &[u8], bytes: usize, count: usize, room: usize)
    requires bytes_bound { bytes ≤ 96 }
    requires count_bound { count ≤ 11 }
    requires room_bound { room ≤ 256 }
{
    let mut values = BENCH_VALUES;
    let mut reply = [0u8; 256];
    call(
        setup,
        &BENCH[..bytes],
        &mut values[..count],
        CONTROL,
        received,
        &mut reply[..room],
    );
}

// The call that the first byte of a line asks for. A `match` on the byte, as the first lines of standard input say it: an enum would only
// name each number again.
fn ask(kind: u8, setup: Setup, received: &[u8], left: Left) -> Left {
    match kind {
        0 => ask_drive(setup, received),
        1 => return ask_bench(setup, received, FIRST),
        2 => return ask_bench(setup, received, left),
        3 => ask_short(setup, received, 95, 11, 256),
        4 => ask_short(setup, received, 96, 10, 256),
        _ => ask_short(setup, received, 96, 11, 255),
    }
    left
}

// The call of a line's bytes: the table's kind, the set-up, the telegram.
fn run(bytes: &[u8], left: Left) -> Left {
    let [kind, node, pkw, pzd, received @ ..] = bytes else {
        return left;
    };
    let setup = Setup {
        node: *node,
        pkw: *pkw,
        pzd: *pzd,
    };
    ask(*kind, setup, received, left)
}

fn run_line(line: &[u8], left: Left) -> Left {
    io::write_all(1, line);
    let mut bytes = [0u8; 304];
    let n = hex_lines::read_bytes(line, &mut bytes);
    let next = run(&bytes[..n], left);
    io::write_all(1, b"\n");
    next
}

fn main() {
    let mut text = io::large_buffer();
    let n = io::read_full(0, &mut text);
    let mut left = FIRST;
    for line in Lines(&text[..n]) {
        left = run_line(line, left);
    }
}

// Reads the replies of standard input, whose first lines say how it is read. Writes each line as it is, and below one with a reply
// what the reading gave: document 01's number, reply ID, value or error number, process words. Then readings as the reply to a mirror
// and to a broadcast: the number and the process words.
#![tactic(auto)]

use hex_lines::Lines;
use host_reply::HostReply;
use read_answers::{ReadFault, Reading};
use request::Request;
use setup::Setup;
use words::Words;

// K3 of document 01: the reply to K2.
const K3: [u8; 16] = *b"\x02\x0e\x03\x14\x3a\x00\x00\x00\x00\x13\x88\x03\x31\x20\x00\xa8";

// The process words of each request.
const USUAL: Words = Words {
    w1: 0x047f,
    w2: 0x2000,
    w3: 0,
    w4: 0,
};

// ---- lines that are written. Each format is this program's alone, and io::write_all takes bytes and no
// fmt::Write: so no Display.

fn put_number(n: u32) {
    io::write_all(1, b" ");
    io::print_decimal(1, n as u64);
}

fn put_words(words: Words) {
    for word in [words.w1, words.w2, words.w3, words.w4] {
        put_number(word as u32);
    }
}

fn put_reply(reply: HostReply) {
    io::write_all(1, b"\n");
    put_number(reply.number);
    put_number(reply.id);
    put_number(reply.value);
    put_words(reply.process);
}

// ---- readings

// The reading of a line's bytes: the set-up, the task, its parameter, a byte 00, its index, its value, and the reply.
fn run(bytes: &[u8]) {
    let [
        node,
        pkw,
        pzd,
        task,
        p1,
        p2,
        _,
        index,
        v1,
        v2,
        v3,
        v4,
        received @ ..,
    ] = bytes
    else {
        return;
    };
    let setup = Setup {
        node: *node,
        pkw: *pkw,
        pzd: *pzd,
    };
    let reply = host_reply::read_reply(
        setup,
        *task,
        u16::from_be_bytes([*p1, *p2]),
        *index,
        u32::from_be_bytes([*v1, *v2, *v3, *v4]),
        USUAL,
        received,
    );
    put_reply(reply);
}

fn run_line(line: &[u8]) {
    io::write_all(1, line);
    let mut bytes = [0u8; 64];
    let n = hex_lines::read_bytes(line, &mut bytes);
    run(&bytes[..n]);
    io::write_all(1, b"\n");
}

// 0 and the process words of what is read, or the refusal's number and words 0.
fn show(read: Result<Reading, ReadFault>) {
    put_number(match read {
        Ok(_) => 0,
        Err(fault) => fault.into(),
    });
    put_words(reply::process_of(read));
    io::write_all(1, b"\n");
}

// K3 as the reply to what is no task.
fn read_other(request: Request) {
    let setup = Setup {
        node: 3,
        pkw: 4,
        pzd: 2,
    };
    show(reply::read(setup, request, &K3));
}

fn main() {
    let mut text = io::large_buffer();
    let n = io::read_full(0, &mut text);
    for line in Lines(&text[..n]) {
        run_line(line);
    }
    read_other(Request::Mirror);
    read_other(Request::Broadcast {
        selector: 2,
        mask1: 0xffff,
        mask2: 0x0000,
        process: USUAL,
    });
}

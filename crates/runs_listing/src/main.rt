// Listings of known telegrams (document 01, Listing program, and the telegrams to run): of those of standard input, whose lines have
// a telegram's bytes in hexadecimal and behind # what it is, then of long ones, then into short and long buffers. Each line is
// written as it is, and a telegram's listing below it.
#![tactic(auto)]

ghost use Rattle.std.specs.Prelude.{◌≤◌};

use hex_lines::Lines;

// The example of document 01.
const K1: [u8; 9] = *b"\x02\x07\x00\x04\x00\x21\x00\x1c\x3c";

fn run(received: &[u8]) {
    let mut out = [0u8; 64];
    let m = listing::list(received, &mut out) as usize;
    io::write_all(1, &out[..m]);
}

fn run_line(line: &[u8]) {
    io::write_all(1, line);
    io::write_all(1, b"\n");
    let mut bytes = [0u8; 64];
    let n = hex_lines::read_bytes(line, &mut bytes);
    if 0 < n {
        run(&bytes[..n]);
    }
}

// The first n bytes of 02, LGE, zeros, and the XOR of 02 and 254 at place 255.
fn list_long(lge: u8, n: usize)
    requires { n ≤ 320 }
{
    let mut t = [0u8; 320];
    t[0] = 2;
    t[1] = lge;
    t[255] = 252;
    run(&t[..n]);
}

fn list_all_long() {
    // 10: nothing
    list_long(254, 0);
    // passes: the longest telegram
    list_long(254, 256);
    // 13: one byte too few, and 256 good bytes with more behind them
    list_long(254, 255);
    list_long(254, 257);
    list_long(254, 299);
    list_long(254, 300);
    // the same: what is past 300 bytes is not counted
    list_long(254, 301);
    list_long(254, 320);
    // 12: LGE 255
    list_long(255, 257);
}

// What a call on the example returned, and the whole buffer after it.
fn show(out: &mut [u8]) {
    let length = listing::list(&K1, out);
    io::print_decimal(1, length as u64);
    io::write_all(1, b"\n");
    io::write_all(1, out);
    io::write_all(1, b"\n");
}

// The example into a buffer of so many bytes.
fn list_into(room: usize)
    requires { room ≤ 60 }
{
    let mut out = [b'.'; 60];
    show(&mut out[..room]);
}

fn main() {
    let mut text = io::large_buffer();
    let n = io::read_full(0, &mut text);
    for line in Lines(&text[..n]) {
        run_line(line);
    }
    list_all_long();
    // too short, just long enough, and longer
    list_into(53);
    list_into(54);
    list_into(60);
}

// Runs the opening check and writes a line for each group of cases: a label, and the document's number of each case, 0 where nothing is
// refused. Lists of first places are lent, filled and lent, and tables are gone through by the view.
// Kinds of a parameter: 0 word, 2 signed word, 4 double, 6 signed double; 1 more where it is writable.
#![tactic(auto)]

ghost use Rattle.std.specs.Prelude.{◌≤◌};

use opening::Drive;
use setup::Setup;
use slave_answers::OpeningFault;

const USUAL: Setup = Setup {
    node: 3,
    pkw: 4,
    pzd: 2,
};

fn put_number(number: u32) {
    io::write_all(1, b" ");
    io::print_decimal(1, number as u64);
}

// The number of a check: 0 where it refuses nothing.
fn show(answer: Result<(), OpeningFault>) {
    put_number(match answer {
        Ok(()) => 0,
        Err(fault) => fault.into(),
    });
}

// ---- tables

// The first 32 bits of a record.
fn head(number: u16, kind: u16, elements: u16) -> u32 {
    ((number % 32768) as u32) * 131072
        + ((kind % 8) as u32) * 16384
        + ((elements % 256) as u32) * 64
}

fn put_double(t: &mut [u8], at: usize, x: u32) {
    store::put(t, at, &x.to_be_bytes());
}

fn put_record(t: &mut [u8], k: u16, first: u32, minimum: u32, maximum: u32) {
    let at = (k as usize) * 12;
    put_double(t, at, first);
    put_double(t, at + 4, minimum);
    put_double(t, at + 8, maximum);
}

// Two records, each 0 to 10.
fn put_pair(t: &mut [u8], first: u32, second: u32) {
    put_record(t, 0, first, 0, 10);
    put_record(t, 1, second, 0, 10);
}

// Records 0 to n - 1, each with so many elements, and record n with others.
fn put_records(t: &mut [u8], n: u16, elements: u16, last: u16) {
    for k in 0..n {
        put_record(t, k, head(k, 1, elements), 0, 10);
    }
    put_record(t, n, head(n, 1, last), 0, 10);
}

// ---- cases

// A table and its values, with no list; a buffer of `room` bytes.
fn check(setup: Setup, t: &[u8], values: &[u32], room: usize) {
    let drive = Drive {
        setup,
        table: t,
        places: None,
    };
    show(drive.open(values, room));
}

// One set-up, no record, no value.
fn configure(node: u8, pkw: u8, pzd: u8) {
    check(Setup { node, pkw, pzd }, &[], &[], 256);
}

// One record of a kind, with its limits and its value.
fn limit(kind: u16, minimum: u32, maximum: u32, value: u32) {
    let mut t = [0u8; 12];
    put_record(&mut t, 0, head(1082, kind, 0), minimum, maximum);
    check(USUAL, &t, &[value], 256);
}

// Two records, each 0 to 10, and two values, 0 the second; a buffer of `room` bytes.
fn pair(first: u32, second: u32, value: u32, room: usize) {
    let mut t = [0u8; 24];
    put_pair(&mut t, first, second);
    check(USUAL, &t, &[value, 0], room);
}

// So many bytes of a table with records 0 to n, and so many values. The bounds here and below are the sizes of
// the function's own buffers.
fn count(n: u16, elements: u16, last: u16, length: usize, count: usize)
    requires length_bound { length ≤ 6156 }
    requires count_bound { count ≤ 4098 }
{
    let mut t = [0u8; 6156];
    let values = [0u32; 4098];
    put_records(&mut t, n, elements, last);
    check(USUAL, &t[..length], &values[..count], 256);
}

// ---- lists and views

// A drive of the usual set-up with a list.
fn lending<'a>(table: &'a [u8], list: &'a [u16]) -> Drive<'a> {
    Drive {
        setup: USUAL,
        table,
        places: Some(list),
    }
}

// Three records of 2, 1 and 3 places, the last value given, and a list; a buffer of `room` bytes.
fn list(entries: &[u16], value: u32, room: usize) {
    let mut t = [0u8; 36];
    put_record(&mut t, 0, head(1, 1, 2), 0, 10);
    put_record(&mut t, 1, head(2, 1, 0), 0, 10);
    put_record(&mut t, 2, head(3, 1, 3), 0, 10);
    let values = [0, 0, 0, 0, 0, value];
    show(lending(&t, entries).open(&values, room));
}

// A list lent.
fn lend(t: &[u8], values: &[u32], list: &[u16]) {
    show(lending(t, list).open(values, 256));
}

// A list filled from a table, then lent; then again with one entry one over: the filling's number, and the opening check's.
fn fill_list(t: &[u8], values: &[u32], list: &mut [u16], wrong: usize) {
    put_number(places::fill_numbered(t, list));
    lend(t, values, list);
    if wrong < list.len() {
        list[wrong] = list[wrong] % 65535 + 1;
        lend(t, values, list);
    }
}

// The same of the first bytes of a table with records 0 to n, with so many values, and a list of so many entries.
fn fill(
    n: u16,
    elements: u16,
    last: u16,
    length: usize,
    value_count: usize,
    entry_count: usize,
    wrong: usize,
)
    requires length_bound { length ≤ 6156 }
    requires value_bound { value_count ≤ 4098 }
    requires entry_bound { entry_count ≤ 513 }
{
    let mut t = [0u8; 6156];
    let values = [0u32; 4098];
    let mut list = [0xffffu16; 513];
    put_records(&mut t, n, elements, last);
    fill_list(
        &t[..length],
        &values[..value_count],
        &mut list[..entry_count],
        wrong,
    );
}

fn show_part(x: u32) {
    io::write_all(1, b":");
    io::print_decimal(1, x as u64);
}

// A table seen through the view: its number, how many records it shows, the first and the last parameter.
fn walk(table: &[u8]) {
    let mut cursor = view::first(table);
    io::write_all(1, b" ");
    io::print_decimal(1, cursor.number as u64);
    let start = view::look(table, cursor);
    let mut count: u32 = 0;
    let mut last: u32 = 0;
    for k in 0..514u32 {
        let seen = view::look(table, cursor);
        if seen.there != 0 {
            count = k + 1;
            last = seen.parameter;
        }
        cursor = view::next(table, cursor);
    }
    show_part(count);
    show_part(start.parameter);
    show_part(last);
}

// The first bytes of a table with records 0 to n.
fn look(n: u16, length: usize)
    requires { length ≤ 6156 }
{
    let mut t = [0u8; 6156];
    put_records(&mut t, n, 0, 0);
    walk(&t[..length]);
}

fn main() {
    run_setups();
    run_words();
    run_word_ends();
    run_doubles();
    run_rules();
    run_order();
    run_lengths();
    run_counts();
    run_lists();
    run_fillings();
    run_views();
}

// Node, PKW words, PZD words.
fn run_setups() {
    io::write_all(1, b"set-ups:");
    configure(31, 4, 4);
    configure(0, 3, 0);
    configure(0, 0, 1);
    configure(32, 4, 4);
    configure(0, 0, 0);
    configure(0, 1, 1);
    configure(0, 2, 1);
    configure(0, 5, 1);
    configure(0, 4, 5);
}

// A signed word from -100 to 100: -100, -101, -1, 100, 101, and -100 with another upper half; then a limit with another.
fn run_words() {
    io::write_all(1, b"\nsigned words:");
    limit(2, 0xff9c, 100, 0xff9c);
    limit(2, 0xff9c, 100, 0xff9b);
    limit(2, 0xff9c, 100, 0xffff);
    limit(2, 0xff9c, 100, 100);
    limit(2, 0xff9c, 100, 101);
    limit(2, 0xff9c, 100, 0xffff_ff9c);
    limit(2, 0xffff_ff9c, 100, 0);
    limit(2, 0xff9c, 0x1_0064, 0);
}

// The ends of 16 bits, signed and unsigned.
fn run_word_ends() {
    io::write_all(1, b"\nword ends:");
    limit(2, 0x8000, 0x7fff, 0x8000);
    limit(2, 0x8000, 0x7fff, 0x7fff);
    limit(0, 0x8000, 0x7fff, 0x8000);
    limit(2, 0x7fff, 0x8000, 0x8000);
    limit(0, 0x7fff, 0x8000, 0x8000);
    limit(0, 0, 0xffff, 0xffff);
    limit(0, 0, 0xffff, 0x1_0000);
}

// A signed double from -100 to 0: -100, -101, -1, 0, 1; then the ends of 32 bits, signed and unsigned.
fn run_doubles() {
    io::write_all(1, b"\ndoubles:");
    limit(6, 0xffff_ff9c, 0, 0xffff_ff9c);
    limit(6, 0xffff_ff9c, 0, 0xffff_ff9b);
    limit(6, 0xffff_ff9c, 0, 0xffff_ffff);
    limit(6, 0xffff_ff9c, 0, 0);
    limit(6, 0xffff_ff9c, 0, 1);
    limit(6, 0x8000_0000, 0x7fff_ffff, 0x8000_0000);
    limit(6, 0x8000_0000, 0x7fff_ffff, 0x7fff_ffff);
    limit(4, 0x8000_0000, 0x7fff_ffff, 0x8000_0000);
    limit(4, 0x7fff_ffff, 0x8000_0000, 0x8000_0000);
    limit(4, 0, 0xffff_ffff, 0xffff_ffff);
}

// Rising, equal and falling numbers, numbers 31999 and 32000, elements 255, a spare bit.
fn run_rules() {
    io::write_all(1, b"\nrules:");
    pair(head(1, 1, 0), head(2, 1, 0), 10, 256);
    pair(head(1, 1, 0), head(1, 1, 0), 10, 256);
    pair(head(2, 1, 0), head(1, 1, 0), 10, 256);
    pair(head(1, 1, 0), head(31999, 1, 0), 10, 256);
    pair(head(1, 1, 0), head(32000, 1, 0), 10, 256);
    pair(head(1, 1, 0), head(2, 1, 255), 10, 256);
    pair(head(1, 1, 0), 262145, 10, 256);
}

// A short buffer; with a bad value; with a bad table after a bad value.
fn run_order() {
    io::write_all(1, b"\norder:");
    pair(head(1, 1, 0), head(2, 1, 0), 10, 255);
    pair(head(1, 1, 0), head(2, 1, 0), 11, 255);
    pair(head(1, 1, 0), head(1, 1, 0), 11, 255);
}

// No record, with no value and with one; one record; 11 and 13 bytes.
fn run_lengths() {
    io::write_all(1, b"\nlengths:");
    count(2, 0, 0, 0, 0);
    count(2, 0, 0, 0, 1);
    count(2, 0, 0, 12, 1);
    count(2, 0, 0, 11, 1);
    count(2, 0, 0, 13, 1);
}

// 512 and 513 records; 4096 places with 4096, 4095 and 4097 values; 4097 places.
fn run_counts() {
    io::write_all(1, b"\ncounts:");
    count(512, 0, 0, 6144, 512);
    count(512, 0, 0, 6156, 513);
    count(16, 254, 32, 204, 4096);
    count(16, 254, 32, 204, 4095);
    count(16, 254, 32, 204, 4097);
    count(16, 254, 33, 204, 4097);
}

// The right list; one over at the first, the middle and the last entry; one short, one long, empty; a short buffer with the right list and
// with a wrong one; a wrong list with a bad value.
fn run_lists() {
    io::write_all(1, b"\nlists:");
    list(&[0, 2, 3], 10, 256);
    list(&[1, 2, 3], 10, 256);
    list(&[0, 3, 3], 10, 256);
    list(&[0, 2, 4], 10, 256);
    list(&[0, 2], 10, 256);
    list(&[0, 2, 3, 6], 10, 256);
    list(&[], 10, 256);
    list(&[0, 2, 3], 10, 255);
    list(&[0, 2, 3, 5], 10, 255);
    list(&[1, 2, 3], 11, 255);
}

// No record; one; 512, with an entry of the middle and the last one made wrong; 4096 places; a list one short and one long; a table of 4097
// places.
fn run_fillings() {
    io::write_all(1, b"\nfillings:");
    fill(0, 0, 0, 0, 0, 0, 600);
    fill(0, 0, 0, 12, 1, 1, 0);
    fill(511, 0, 0, 6144, 512, 512, 256);
    fill(511, 0, 0, 6144, 512, 512, 511);
    fill(16, 254, 32, 204, 4096, 17, 16);
    fill(16, 254, 32, 204, 4096, 16, 600);
    fill(16, 254, 32, 204, 4096, 18, 600);
    fill(16, 254, 33, 204, 4097, 17, 600);
}

// Tables of no record, 1 and 512 records, of 513, and one with a part of a record: number, records, first and last.
fn run_views() {
    io::write_all(1, b"\nviews:");
    look(0, 0);
    look(0, 12);
    look(511, 6144);
    look(512, 6156);
    look(2, 35);
    io::write_all(1, b"\n");
}

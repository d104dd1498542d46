// A lent parameter table, 12 bytes a record (document 01, Parameter table): a record read, and the search.
#![tactic(auto)]

ghost use Rattle.std.specs.Prelude.{◌≡◌, ◌+◌, ◌*◌, ◌≤◌, eqb, length};
ghost use Rattle.words.specs.Words.{double_at};
ghost use Rattle.table.specs.Records.{record_of, entry_in, entry_at, find_in};

use entry::{Entry, entry_of};

// The three double words of a record.
#[derive(Clone, Copy, Debug, Default, PartialEq, Eq)]
pub struct Record {
    pub head: u32,
    pub minimum: u32,
    pub maximum: u32,
}

// The double word at a place that has it.
fn double_in(t: &[u8], at: usize) -> u32
    requires { at + 4 ≤ length t.now }
    ensures { result ≡ double_at t.now at }
{
    u32::from_be_bytes([t[at], t[at + 1], t[at + 2], t[at + 3]])
}

// A record from its 12 bytes; all 0 where there are fewer.
#[tactic(auto, unfolding(crate::specs::Records::record_of))]
pub fn record_of(t: &[u8]) -> Record
    ensures { result ≡ record_of t.now }
{
    if t.len() < 12 {
        return Record::default();
    }
    let head = double_in(t, 0);
    let minimum = double_in(t, 4);
    let maximum = double_in(t, 8);
    Record {
        head,
        minimum,
        maximum,
    }
}

// A record's fields from its 12 bytes; all 0 where there are fewer.
pub fn entry_in(bytes: &[u8]) -> Entry
    ensures { result ≡ entry_in bytes.now }
{
    let raw = record_of(bytes);
    entry_of(raw.head, raw.minimum, raw.maximum)
}

// Whether record k has this number: its first fifteen bits, of which the first byte alone tells most records apart.
#[tactic(auto, using(crate::proofs::RecordsLaws::number_same, crate::proofs::RecordsLaws::number_other))]
fn has_number(t: &[u8], k: usize, number: u16) -> bool
    requires { 12 * k + 12 ≤ length t.now }
    ensures { result ≡ eqb (entry_at t.now k).number number }
{
    t[12 * k] as u16 == number / 128 && t[12 * k + 1] as u16 / 2 == number % 128
}

// The place of the first record with this number. Document 01 names the form: a loop that yields it by `break`.
#[tactic(auto, using(crate::proofs::RecordsLaws::entries_step, crate::proofs::RecordsLaws::entries_end, crate::proofs::RecordsLaws::find_here, crate::proofs::RecordsLaws::find_on, crate::proofs::RecordsLaws::find_none), unfolding(crate::specs::Records::entries))]
pub fn find(t: &[u8], number: u16) -> Option<usize>
    ensures { result ≡ find_in t.now number }
{
    let n = t.len() / 12;
    let mut k = 0;
    loop {
        if n <= k {
            break None;
        }
        if has_number(t, k, number) {
            break Some(k);
        }
        k += 1;
    }
}

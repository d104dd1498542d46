// One record of a parameter table by itself: its fields and its places (document 01, Parameter table).
#![tactic(auto)]

ghost use Rattle.std.specs.Prelude.{◌≡◌};
ghost use Rattle.entry.specs.Fields.{entry_of, count_of};

#[derive(Clone, Copy, Debug, PartialEq, Eq)]
pub struct Entry {
    pub number: u16,
    pub double: bool,
    pub signed: bool,
    pub writable: bool,
    pub elements: u8,
    pub spare: u8,
    pub minimum: u32,
    pub maximum: u32,
}

// The record of its first 32 bits and its limits.
#[tactic(auto, unfolding(crate::specs::Fields::entry_of))]
pub fn entry_of(head: u32, minimum: u32, maximum: u32) -> Entry
    ensures { result ≡ entry_of head minimum maximum }
{
    Entry {
        number: (head / 131072) as u16,
        double: head / 65536 % 2 == 1,
        signed: head / 32768 % 2 == 1,
        writable: head / 16384 % 2 == 1,
        elements: (head / 64 % 256) as u8,
        spare: (head % 64) as u8,
        minimum,
        maximum,
    }
}

// The places that a record takes: its elements, or 1 where it is no array.
#[tactic(auto, unfolding(crate::specs::Fields::count_of))]
pub fn count_places(e: Entry) -> usize
    ensures { result ≡ count_of e }
{
    usize::from(e.elements.max(1))
}

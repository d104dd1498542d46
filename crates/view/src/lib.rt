// A view of a lent table that steps from record to record and shows each record's fields (document 02, W-205). First the cursor by value
// beside the table; then the thin struct that holds both.
#![tactic(auto)]

ghost use Rattle.std.specs.Prelude.{◌≡◌};
ghost use Rattle.view.specs.View.{shown_of, open_of, is_there, show_of, step_of, start_in, shown_in, stepped_in};

use entry::Entry;
use slave_answers::OpeningFault;
use table::entry_in;
use table_check::is_table;

// Number 0 or 21, and the record that the view stands at. It is a struct of the calls for C, so there is no Result.
#[repr(C)]
#[derive(Clone, Copy, Debug, Default, PartialEq, Eq)]
pub struct Cursor {
    pub number: u32,
    pub at: u32,
}

// The fields of a record; all 0 where there is none. It is a struct of the calls for C, so there is no Option.
#[repr(C)]
#[derive(Clone, Copy, Debug, Default, PartialEq, Eq)]
pub struct Shown {
    pub there: u32,
    pub parameter: u32,
    pub is_double: u32,
    pub is_signed: u32,
    pub writable: u32,
    pub elements: u32,
    pub minimum: u32,
    pub maximum: u32,
}

// ---- a record

// A record's fields as they are shown.
#[tactic(auto, unfolding(crate::specs::View::shown_of))]
fn show_entry(e: Entry) -> Shown
    ensures { result ≡ shown_of e }
{
    Shown {
        there: 1,
        parameter: e.number as u32,
        is_double: u32::from(e.double),
        is_signed: u32::from(e.signed),
        writable: u32::from(e.writable),
        elements: e.elements as u32,
        minimum: e.minimum,
        maximum: e.maximum,
    }
}

// ---- the cursor beside the table

// The start: 21 for a table that breaks a rule, and else the first record.
#[tactic(auto, unfolding(crate::specs::View::open_of))]
pub fn first(table: &[u8]) -> Cursor
    ensures { result ≡ open_of table.now }
{
    if !is_table(table) {
        return Cursor {
            number: OpeningFault::BadTable.into(),
            at: 0,
        };
    }
    Cursor::default()
}

// Whether a record is there. A table has no more than 512 records.
#[tactic(auto, unfolding(crate::specs::View::is_there))]
fn is_there(table: &[u8], cursor: Cursor) -> bool
    ensures { result ≡ is_there table.now cursor }
{
    cursor.number == 0 && (cursor.at as usize) < table.len() / 12 && cursor.at < 512
}

// The record that the cursor stands at.
#[tactic(auto, using(table::proofs::RecordsLaws::entry_part, crate::proofs::ViewLaws::there_is, crate::proofs::ViewLaws::show_none, crate::proofs::ViewLaws::show_record))]
pub fn look(table: &[u8], cursor: Cursor) -> Shown
    ensures { result ≡ show_of table.now cursor }
{
    if !is_there(table, cursor) {
        return Shown::default();
    }
    let at = 12 * cursor.at as usize;
    show_entry(entry_in(&table[at..at + 12]))
}

// One record on. Where no record is there the cursor stays.
#[tactic(auto, using(crate::proofs::ViewLaws::there_is, crate::proofs::ViewLaws::step_none, crate::proofs::ViewLaws::step_record))]
pub fn next(table: &[u8], cursor: Cursor) -> Cursor
    ensures { result ≡ step_of table.now cursor }
{
    if !is_there(table, cursor) {
        return cursor;
    }
    Cursor {
        number: 0,
        at: cursor.at + 1,
    }
}

// ---- the struct that holds the table

// A table and the cursor in it.
#[derive(Clone, Copy, Debug, PartialEq, Eq)]
pub struct View<'a> {
    pub table: &'a [u8],
    pub cursor: Cursor,
}

impl<'a> View<'a> {
    // A view of a table, at the start.
    pub fn new(table: &'a [u8]) -> Self
        ensures { result ≡ start_in table.entry }
    {
        let cursor = first(table);
        View { table, cursor }
    }

    // The record that a view stands at.
    pub fn show(self) -> Shown
        ensures { result ≡ shown_in self.entry }
    {
        look(self.table, self.cursor)
    }

    // The view one record on.
    pub fn step(self) -> Self
        ensures { result ≡ stepped_in self.entry }
    {
        let cursor = next(self.table, self.cursor);
        View {
            table: self.table,
            cursor,
        }
    }
}

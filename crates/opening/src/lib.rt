// The opening check: set-up, table, values, list and reply buffer (document 01, answers 20 to 23; document 02, W-205, answer 25). One pass
// over table, values and list finds whether all is in order. Only where it is not, a pass without the list tells 25 from the others, and one
// over the table alone 22 from 21.
#![tactic(auto)]

ghost use Rattle.std.specs.Prelude.{◌≡◌, ◌&&◌, ◌+◌, ◌*◌, ◌/◌, ◌≤◌, eqb, leb, length};
ghost use Rattle.std.specs.Bool.{then_some};
ghost use Rattle.entry.specs.Fields.{entry_of, count_of};
ghost use Rattle.limits.specs.Limits.{limits_ok, is_within};
ghost use Rattle.table.specs.Records.{entries};
ghost use Rattle.opening.specs.Lent.{lent_list, lent_with};
ghost use Rattle.opening.specs.Rules.{run_ok, table_ok, values_ok, sums_ok};
ghost use Rattle.opening.specs.Answers.{content_of, opening_of};

use entry::{Entry, count_places, entry_of};
use limits::{entry_ok, within};
use setup::{Setup, setup_ok};
use slave_answers::OpeningFault;
use table::{Record, entry_in, record_of};

// ---- a record

// Whether a record's limits are in order and a value is within them. A value between limits that fit shows these in order; without
// sign, where the maximum fits, a value between the limits shows that it and the minimum fit.
#[tactic(auto, using(limits::proofs::FitLaws::between_shown, limits::proofs::FitLaws::limits_shown, limits::proofs::FitLaws::fits_double, limits::proofs::FitLaws::fits_word, limits::proofs::FitLaws::word_unfit))]
fn holds(e: Entry, v: u32) -> bool
    ensures { result ≡ (limits_ok e && is_within e v) }
{
    if e.double {
        return within(e, v);
    }
    if 65535 < e.maximum {
        return false;
    }
    if !e.signed {
        return e.minimum <= v && v <= e.maximum;
    }
    if 65535 < e.minimum {
        return false;
    }
    within(e, v)
}

// The same of the value at a place, which must be there. Here and below the bound on a place only keeps sums from wrapping.
#[tactic(auto, using(crate::proofs::RecordLaws::run_one))]
fn value_holds(e: Entry, values: &[u32], place: usize) -> bool
    requires { place ≤ 1000000 }
    ensures { result ≡ (limits_ok e && leb (place + 1) (length values.now) && run_ok e values.now 1 place) }
{
    place < values.len() && holds(e, values[place])
}

// The same of n values from a place on, which must be there. n and the place stand beside all values, and no part of them is handed on,
// here and in record_holds: `run_ok` counts in all values. The loop has no other way out, so that it can be compiled to look at several
// values at once.
fn run_holds(e: Entry, values: &[u32], n: usize, place: usize) -> bool
    requires { (place ≤ 1000000) × (1 ≤ n) × (n ≤ 1000000) }
    ensures { result ≡ (limits_ok e && leb (place + n) (length values.now) && run_ok e values.now n place) }
{
    if values.len() < place + n {
        return false;
    }
    let mut all = true;
    for i in 0..n {
        all &= holds(e, values[place + i]);
    }
    all
}

// How many places a record takes, where it and its values are in order. The record's number is left to the pass. The head's lower fourteen
// bits are elements and spare bits: both 0 is one test.
fn check_record(raw: Record, values: &[u32], place: usize) -> Option<usize>
    requires { place ≤ 1000000 }
    ensures { let e = entry_of raw.head raw.minimum raw.maximum in result ≡ then_some (leb e.elements 254 && eqb e.spare 0 && limits_ok e && leb (place + count_of e) (length values.now) && run_ok e values.now (count_of e) place) (count_of e) }
{
    let e = entry_of(raw.head, raw.minimum, raw.maximum);
    if raw.head % 16384 == 0 {
        return value_holds(e, values, place).then_some(1);
    }
    if e.spare != 0 || 254 < e.elements {
        return None;
    }
    let n = e.elements as usize;
    run_holds(e, values, n, place).then_some(n)
}

// Whether check_record finds places, of a record whose places are already counted; why it stands beside it is told at in_order_listed.
// The places tell of an array whether its elements are too many: they are there already, and the elements are not.
#[tactic(auto, using(crate::proofs::RecordLaws::few_counted))]
fn record_holds(raw: Record, values: &[u32], n: usize, place: usize) -> bool
    requires { (place ≤ 1000000) × (n ≡ count_of (entry_of raw.head raw.minimum raw.maximum)) }
    ensures { let e = entry_of raw.head raw.minimum raw.maximum in result ≡ (leb e.elements 254 && eqb e.spare 0 && limits_ok e && leb (place + count_of e) (length values.now) && run_ok e values.now (count_of e) place) }
{
    let e = entry_of(raw.head, raw.minimum, raw.maximum);
    if raw.head % 16384 == 0 {
        return value_holds(e, values, place);
    }
    e.spare == 0 && n <= 254 && run_holds(e, values, n, place)
}

// ---- the table, its values and its list

// What is left to ask where the records and values before were in order, of the last record's head, the places and the values there are.
// Numbers rise, so the last record alone tells whether one is over 31999.
fn ends_well(head: u32, place: usize, count: usize) -> bool
    ensures { result ≡ (leb (head / 131072 + 1) 32000 && leb place 4096 && eqb place count) }
{
    head < 32000 * 131072 && place <= 4096 && place == count
}

// Whether the records of a table and their values are all in order. The number is the upper fifteen bits of a head, so heads are
// compared: each must be over the greatest head with the number before it. The next record is read at the end of a turn: where a `for`
// reads it at the start, it is put together byte by byte, and the pass takes twice the instructions (tried).
#[tactic(auto, using(crate::proofs::PassLaws::pass_none))]
fn in_order(t: &[u8], values: &[u32]) -> bool
    ensures { result ≡ (table_ok t.now && values_ok t.now values.now) }
{
    if t.len() < 12 {
        return t.is_empty() && values.is_empty();
    }
    if 512 * 12 < t.len() {
        return false;
    }
    let last = t.len() - 12;
    let mut place: usize = 0;
    let mut at: usize = 0;
    let mut current = record_of(&t[0..12]);
    loop {
        let Some(taken) = check_record(current, values, place) else {
            return false;
        };
        let most = current.head / 131072 * 131072 + 131071;
        place += taken;
        at += 12;
        if last < at {
            break;
        }
        current = record_of(&t[at..at + 12]);
        if current.head <= most {
            return false;
        }
    }
    if last + 12 != at {
        return false;
    }
    ends_well(current.head, place, values.len())
}

// The same pass with a list: each record's place is compared as it is reached. It has a function of its own for a record, since
// check_record is compiled into the pass above only while that is its one caller. No `for`, for the reason told at in_order.
fn in_order_listed(t: &[u8], values: &[u32], places: &[u16]) -> bool
    ensures { result ≡ (table_ok t.now && values_ok t.now values.now && sums_ok places.now (entries t.now) 0) }
{
    let n = places.len();
    if 512 < n {
        return false;
    }
    if t.len() != 12 * n {
        return false;
    }
    if n == 0 {
        return values.is_empty();
    }
    let mut place: usize = 0;
    let mut k: usize = 0;
    let mut current = record_of(&t[0..12]);
    loop {
        if places[k] as usize != place {
            return false;
        }
        let count = count_places(entry_of(current.head, current.minimum, current.maximum));
        if !record_holds(current, values, count, place) {
            return false;
        }
        let most = current.head / 131072 * 131072 + 131071;
        place += count;
        k += 1;
        if n <= k {
            break;
        }
        current = record_of(&t[12 * k..12 * k + 12]);
        if current.head <= most {
            return false;
        }
    }
    ends_well(current.head, place, values.len())
}

// Whether n records keep the table's rules. n is handed on, so that it is divided once.
#[tactic(auto, using(table::proofs::RecordsLaws::entries_step, table::proofs::RecordsLaws::entries_end, table::proofs::RecordsLaws::entry_part, table::proofs::RecordsLaws::count_at_le, crate::proofs::PassLaws::rule_all, crate::proofs::PassLaws::rule_low, crate::proofs::PassLaws::rule_broken, crate::proofs::PassLaws::rule_on, crate::proofs::PassLaws::rule_end))]
fn table_ok(t: &[u8], n: usize) -> bool
    requires { (length t.now ≡ 12 * n) × (n ≤ 512) }
    ensures { result ≡ table_ok t.now }
{
    let mut least: u16 = 0;
    let mut place: usize = 0;
    for k in 0..n {
        let e = entry_in(&t[12 * k..12 * k + 12]);
        if e.number < least {
            return false;
        }
        if !entry_ok(e) {
            return false;
        }
        least = e.number + 1;
        place += count_places(e);
    }
    place <= 4096
}

// Whether a table keeps all its rules: for the opening check alone; others ask table_check::is_table (docs/DECISIONS.md).
fn is_table(t: &[u8]) -> bool
    ensures { result ≡ table_ok t.now }
{
    let n = t.len() / 12;
    t.len() % 12 == 0 && n <= 512 && table_ok(t, n)
}

// The table, its values and, where one is lent, the list: 21, 22, 25.
#[tactic(auto, using(crate::proofs::ContentLaws::content_passed, crate::proofs::ContentLaws::content_places, crate::proofs::ContentLaws::content_values, crate::proofs::ContentLaws::content_table))]
fn check_content(t: &[u8], values: &[u32], places: Option<&[u16]>) -> Result<(), OpeningFault>
    ensures { result ≡ content_of t.now values.now (lent_list places.entry) }
{
    if let Some(list) = places
        && in_order_listed(t, values, list)
    {
        return Ok(());
    }
    if in_order(t, values) {
        return match places {
            Some(_) => Err(OpeningFault::BadPlaces),
            None => Ok(()),
        };
    }
    if is_table(t) {
        return Err(OpeningFault::BadValues);
    }
    Err(OpeningFault::BadTable)
}

// A drive as the host lends it to every call, and no call changes it: set-up, table, and the list of first places where there is one.
#[derive(Clone, Copy)]
pub struct Drive<'a> {
    pub setup: Setup,
    pub table: &'a [u8],
    pub places: Option<&'a [u16]>,
}

impl Drive<'_> {
    // The opening check. `room` is the length of the reply buffer.
    #[tactic(auto, using(crate::proofs::AnswersLaws::open_setup, crate::proofs::AnswersLaws::open_content, crate::proofs::AnswersLaws::open_buffer, crate::proofs::AnswersLaws::open_passed))]
    pub fn open(self, values: &[u32], room: usize) -> Result<(), OpeningFault>
        ensures { result ≡ opening_of (lent_with self.entry values.now room) }
    {
        if !setup_ok(self.setup) {
            return Err(OpeningFault::BadSetup);
        }
        check_content(self.table, values, self.places)?;
        if room < 256 {
            return Err(OpeningFault::ShortBuffer);
        }
        Ok(())
    }
}

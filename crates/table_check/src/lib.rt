// A parameter table and its values, looked at one rule after the other (document 01, Parameter table; the order is ours): which rule is
// broken first, by which record, and by which value. The opening check of a slave call says only 21 or 22.
#![tactic(auto)]

ghost use Rattle.std.specs.Prelude.{◌≡◌, not, ◌&&◌, ◌+◌, ◌*◌, ◌≤◌, length, MatchResult};
ghost use Rattle.limits.specs.Limits.{fits_in};
ghost use Rattle.table.specs.Records.{entries, counts_of};
ghost use Rattle.opening.specs.Rules.{table_ok};
ghost use Rattle.table_check.specs.RuleNumbers.{rule_number, rule_fault};
ghost use Rattle.table_check.specs.Checks.{told, record_rule, length_check, records_check, run_check, values_check, content_check, table_check_of};

use entry::{Entry, count_places};
use limits::{at_most, within};
use slave_answers::OpeningFault;
use table::entry_in;

// The rules, in the order in which they are looked at, by their numbers.
#[derive(Clone, Copy, Debug, PartialEq, Eq)]
pub enum Rule {
    PartRecord = 1,
    ManyRecords = 2,
    NumberOrder = 3,
    HighNumber = 4,
    ManyElements = 5,
    SpareBit = 6,
    UpperHalf = 7,
    LimitOrder = 8,
    ManyPlaces = 9,
    ValueCount = 10,
    OutsideLimits = 11,
}

// A rule's number.
impl From<Rule> for u32 {
    ghost from_gives = { λ rule number. number ≡ rule_number rule };

    fn from(rule: Rule) -> u32 {
        rule as u32
    }
}

// What the opening check answers where a rule is broken.
impl From<Rule> for OpeningFault {
    ghost from_gives = { λ rule fault. fault ≡ rule_fault rule };

    fn from(rule: Rule) -> OpeningFault {
        match rule {
            Rule::ValueCount | Rule::OutsideLimits => OpeningFault::BadValues,
            _ => OpeningFault::BadTable,
        }
    }
}

// What a check tells: the answer's number (0, 21 or 22), the rule that is broken first, the record at fault, and of a value its place. It
// is the struct of the call for C, so the rule is a number, and all is 0 where none is broken.
#[repr(C)]
#[derive(Clone, Copy, Debug, Default, PartialEq, Eq)]
pub struct TableCheck {
    pub number: u32,
    pub rule: u32,
    pub record: u32,
    pub place: u32,
}

// A broken rule, with record and place. The bounds only keep numbers within 32 bits.
#[tactic(auto, unfolding(crate::specs::Checks::told))]
fn tell(rule: Rule, k: usize, place: usize) -> TableCheck
    requires { (k ≤ 1000000) × (place ≤ 1000000) }
    ensures { result ≡ told rule k place }
{
    TableCheck {
        number: OpeningFault::from(rule).into(),
        rule: rule.into(),
        record: k as u32,
        place: place as u32,
    }
}

// ---- a record

// Whether a word's limit has an upper half.
#[tactic(auto, unfolding(limits::specs::Limits::fits_in))]
fn has_upper_half(e: Entry) -> bool
    ensures { result ≡ not (fits_in e.double e.minimum && fits_in e.double e.maximum) }
{
    !e.double && (65535 < e.minimum || 65535 < e.maximum)
}

// The first rule that a record breaks: `least` is the least number that may stand there, `place` the first of its places.
#[tactic(auto, using(crate::proofs::CheckLaws::count_254), unfolding(crate::specs::Checks::record_rule))]
fn find_rule(e: Entry, least: u16, place: usize) -> Option<Rule>
    requires { place ≤ 1000000 }
    ensures { result ≡ record_rule least place e }
{
    if e.number < least {
        return Some(Rule::NumberOrder);
    }
    if 31999 < e.number {
        return Some(Rule::HighNumber);
    }
    if 254 < e.elements {
        return Some(Rule::ManyElements);
    }
    if e.spare != 0 {
        return Some(Rule::SpareBit);
    }
    if has_upper_half(e) {
        return Some(Rule::UpperHalf);
    }
    if !at_most(e.double, e.signed, e.minimum, e.maximum) {
        return Some(Rule::LimitOrder);
    }
    if 4096 < place + count_places(e) {
        return Some(Rule::ManyPlaces);
    }
    None
}

// ---- the values of a record

// The first of a record's n values that is outside its limits; the record is record k, its first value at a place. All values are handed
// on and no part of them, since the place among all is what is told.
#[tactic(auto, using(crate::proofs::CheckLaws::run_told))]
fn check_run(e: Entry, values: &[u32], n: usize, k: usize, place: usize) -> Result<(), TableCheck>
    requires { (n ≤ 255) × (k ≤ 512) × (place ≤ 999000) × (place + n ≤ length values.now) }
    ensures { result ≡ run_check e values.now n k place }
{
    for i in 0..n {
        if !within(e, values[place + i]) {
            return Err(tell(Rule::OutsideLimits, k, place + i));
        }
    }
    Ok(())
}

// ---- the records

// The bytes of a table of whole records, 512 at most.
#[derive(Clone, Copy, Debug)]
struct Records<'a> {
    bytes: &'a [u8],
    count: usize,
    ghost whole: { (length bytes.now ≡ 12 * count) × (count ≤ 512) },
}

impl<'a> Records<'a> {
    // The records of a table whose length keeps the rules.
    #[tactic(auto, using(crate::proofs::CheckLaws::length_told))]
    fn of(table: &'a [u8]) -> Result<Self, TableCheck>
        ensures { MatchResult result (λ r. r.bytes ≡ table.entry) (λ c. length_check table.now ≡ Err c) }
    {
        let count = table.len() / 12;
        if table.len() % 12 != 0 {
            return Err(tell(Rule::PartRecord, count.min(512), 0));
        }
        if 512 < count {
            return Err(tell(Rule::ManyRecords, 512, 0));
        }
        Ok(Records {
            bytes: table,
            count,
        })
    }

    // The first record that breaks a rule.
    #[tactic(auto, using(crate::proofs::CheckLaws::records, crate::proofs::CheckLaws::rules_told))]
    fn check(self) -> Result<(), TableCheck>
        ensures { result ≡ records_check (entries self.entry.bytes.now) 0 0 0 }
    {
        let mut least: u16 = 0;
        let mut place: usize = 0;
        for k in 0..self.count {
            let e = entry_in(&self.bytes[12 * k..12 * k + 12]);
            if let Some(rule) = find_rule(e, least, place) {
                return Err(tell(rule, k, 0));
            }
            least = e.number + 1;
            place += count_places(e);
        }
        Ok(())
    }

    // The places of all records. slave::sum_places sums alike; one public function for both would need a `requires`: the sum has to fit.
    #[tactic(auto, using(crate::proofs::CheckLaws::records))]
    fn count_all(self) -> usize
        ensures { result ≡ counts_of (entries self.entry.bytes.now) }
    {
        let mut places: usize = 0;
        for k in 0..self.count {
            places += count_places(entry_in(&self.bytes[12 * k..12 * k + 12]));
        }
        places
    }

    // Whether there are as many values as the records take places; then the first value that is outside the limits of its record.
    #[tactic(auto, using(crate::proofs::CheckLaws::records, crate::proofs::CheckLaws::runs_told))]
    fn check_values(self, values: &[u32]) -> Result<(), TableCheck>
        ensures { result ≡ values_check self.entry.bytes.now values.now }
    {
        let all = self.count_all();
        if all != values.len() {
            return Err(tell(Rule::ValueCount, self.count, all));
        }
        let mut place: usize = 0;
        for k in 0..self.count {
            let e = entry_in(&self.bytes[12 * k..12 * k + 12]);
            let places = count_places(e);
            check_run(e, values, places, k, place)?;
            place += places;
        }
        Ok(())
    }
}

// ---- table and values

// Whether a table keeps all its rules.
#[tactic(auto, using(crate::proofs::NumberLaws::length_table, crate::proofs::NumberLaws::records_test))]
pub fn is_table(table: &[u8]) -> bool
    ensures { result ≡ table_ok table.now }
{
    match Records::of(table) {
        Ok(records) => records.check().is_ok(),
        Err(_) => false,
    }
}

// The first rule that is broken, where one is.
#[tactic(auto, using(crate::proofs::CheckLaws::content_told))]
fn check_content(table: &[u8], values: &[u32]) -> Result<(), TableCheck>
    ensures { result ≡ content_check table.now values.now }
{
    let records = Records::of(table)?;
    records.check()?;
    records.check_values(values)
}

// The first rule that is broken; all 0 where none is.
#[tactic(auto, unfolding(crate::specs::Checks::table_check_of))]
pub fn check_table(table: &[u8], values: &[u32]) -> TableCheck
    ensures { result ≡ table_check_of table.now values.now }
{
    match check_content(table, values) {
        Ok(()) => TableCheck::default(),
        Err(told) => told,
    }
}

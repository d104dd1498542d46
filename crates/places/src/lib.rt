// The list of first places that a host may lend to the slave (document 02, W-205), filled from a table.
#![tactic(auto)]

ghost use Rattle.std.specs.Prelude.{◌≡◌, length};
ghost use Rattle.opening.specs.Answers.{opened_number};
ghost use Rattle.places.specs.Fill.{filling_of, filled_by};

use slave_answers::OpeningFault;

// Each record's first place, as a 16-bit number; or 21, then 25 for the length, and nothing written.
#[tactic(auto, using(crate::proofs::FillLaws::fill_table, crate::proofs::FillLaws::fill_length, crate::proofs::FillLaws::fill_passed, crate::proofs::FillLaws::place_small, table::proofs::RecordsLaws::entry_part))]
pub fn fill(table: &[u8], places: &mut [u16]) -> Result<(), OpeningFault>
    ensures value { result ≡ filling_of table.now (length places.old) }
    ensures places_after { places.new ≡ filled_by (filling_of table.now (length places.old)) table.now places.old }
{
    if !table_check::is_table(table) {
        return Err(OpeningFault::BadTable);
    }
    let n = places.len();
    if n != table.len() / 12 {
        return Err(OpeningFault::BadPlaces);
    }
    let mut place: usize = 0;
    // record k and entry k go together: one place in each of two slices, so the loop counts
    for k in 0..n {
        places[k] = place as u16;
        let e = table::entry_in(&table[12 * k..12 * k + 12]);
        place += entry::count_places(e);
    }
    Ok(())
}

// The same, with the document's number: 0 where the list is written, else that of the refusal.
pub fn fill_numbered(table: &[u8], places: &mut [u16]) -> u32
    ensures value { result ≡ opened_number (filling_of table.now (length places.old)) }
    ensures places_after { places.new ≡ filled_by (filling_of table.now (length places.old)) table.now places.old }
{
    match fill(table, places) {
        Ok(()) => 0,
        Err(fault) => fault.into(),
    }
}

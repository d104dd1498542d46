// Page, base and full number (document 01, Parameter area): the page's nibble in IND, both ways.
#![tactic(auto)]

ghost use Rattle.std.specs.Prelude.{◌≡◌};
ghost use Rattle.page.specs.Page.{page_of, nibble_of, full_number};

// The page of an IND word: twice the low three bits of its nibble, bits 15 to 12, and the nibble's top bit.
pub fn page_of(ind: u16) -> u8
    ensures { result ≡ page_of ind }
{
    let nibble = ind / 4096;
    (nibble % 8 * 2 + nibble / 8) as u8
}

// The nibble of a number's IND word: half of its page, number / 2000, and 8 times the page's lowest bit; 0 past page 15.
pub fn nibble_of(number: u16) -> u8
    ensures { result ≡ nibble_of number }
{
    let page = (number / 2000) as u8;
    if page < 16 {
        page / 2 + page % 2 * 8
    } else {
        0
    }
}

// The full number of PKE and IND: 2000 times the page, and the base.
#[tactic(auto, using(crate::proofs::PageLaws::page_small))]
pub fn full_number(pke: u16, ind: u16) -> u16
    ensures { result ≡ full_number pke ind }
{
    let page = page_of(ind);
    (page as u16) * 2000 + pke % 2048
}

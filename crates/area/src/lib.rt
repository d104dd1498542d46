// The areas of a telegram, read from its bytes (document 01, Parameter area): the words of the parameter area, and the process words
// behind them. Slave and master read here alike.
#![tactic(auto)]

ghost use Rattle.std.specs.Prelude.{◌≡◌, cond, ◌+◌, ◌-◌, ◌≤◌, length};
ghost use Rattle.words.specs.Words.{word_at};
ghost use Rattle.area.specs.Read.{value_at, area_at, process_at, empty_area};

use words::{Words, join, join_double};

// The words of a parameter area: PKE, IND, and the value over the words that are left.
#[derive(Clone, Copy, Debug, Default, PartialEq, Eq)]
pub struct Area {
    pub pke: u16,
    pub ind: u16,
    pub value: u32,
}

// The word at a place that has it.
fn word_in(t: &[u8], at: usize) -> u16
    requires { at + 2 ≤ length t.now }
    ensures { result ≡ word_at t.now at }
{
    join(t[at], t[at + 1])
}

// The area whose words are all 0. It is `Area::default()`; the function stays, as docs/PROMISES.md has a promise of it.
pub fn empty_area() -> Area
    ensures { result ≡ empty_area }
{
    Area::default()
}

// The word at any place: a byte past the end is 0. Bounds on a place only keep sums from wrapping.
fn word_at(t: &[u8], at: usize) -> u16
    requires { at ≤ 1000000 }
    ensures { result ≡ word_at t.now at }
{
    if at + 2 <= t.len() {
        return word_in(t, at);
    }
    if at < t.len() {
        return join(t[at], 0);
    }
    0
}

// The value of an area of n words: that of its last two words, or of its one.
#[tactic(auto, using(crate::proofs::AreaLaws::value_one, crate::proofs::AreaLaws::value_last), unfolding(crate::specs::Read::value_at))]
fn value_at(t: &[u8], n: u8) -> u32
    ensures { result ≡ value_at t.now 7 (n - 2) }
{
    if n < 3 {
        return 0;
    }
    if n == 3 {
        return word_at(t, 7) as u32;
    }
    let at = (n as usize) * 2 - 1;
    join_double(word_at(t, at), word_at(t, at + 2))
}

// The parameter area of n words, at the place of the first net byte. Four words that are all there are read by one test.
#[tactic(auto, using(crate::proofs::AreaLaws::value_last), unfolding(crate::specs::Read::area_at))]
pub fn read_area(t: &[u8], n: u8) -> Area
    ensures { result ≡ area_at t.now n }
{
    if n == 4 && 11 <= t.len() {
        return Area {
            pke: word_in(t, 3),
            ind: word_in(t, 5),
            value: join_double(word_in(t, 7), word_in(t, 9)),
        };
    }
    Area {
        pke: word_at(t, 3),
        ind: word_at(t, 5),
        value: value_at(t, n),
    }
}

// The word at a place where it is taken, else the old one.
fn take_word(t: &[u8], at: usize, taken: bool, old: u16) -> u16
    requires { at ≤ 1000000 }
    ensures { result ≡ cond taken (word_at t.now at) old }
{
    if taken { word_at(t, at) } else { old }
}

// The first pzd of four words, which stand behind an area of n words; the rest are the old ones.
#[tactic(auto, unfolding(crate::specs::Read::process_at))]
pub fn read_process(t: &[u8], n: u8, pzd: u8, old: Words) -> Words
    ensures { result ≡ process_at t.now n pzd old }
{
    let at = (n as usize) * 2 + 3;
    let w1 = take_word(t, at, 0 < pzd, old.w1);
    let w2 = take_word(t, at + 2, 1 < pzd, old.w2);
    let w3 = take_word(t, at + 4, 2 < pzd, old.w3);
    let w4 = take_word(t, at + 6, 3 < pzd, old.w4);
    Words { w1, w2, w3, w4 }
}

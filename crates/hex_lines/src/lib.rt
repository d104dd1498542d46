// The lines of a text, and the bytes that a line has in hexadecimal. The programs that print cases read them.
#![tactic(auto)]

ghost use Rattle.std.specs.Prelude.{◌≡◌, ◌==◌, ◌<◌, ◌≤◌, ◌++◌, length, take, drop, min};
ghost use Rattle.std.specs.Iterator.{YieldsFirstRef, item_count};
ghost use Rattle.std.specs.List.{position};
ghost use Rattle.hex_lines.specs.HexLines.{lines_of, digit_of, byte_of, bytes_of};

// The lines of a text, each without the LF that ends it: what is behind the last LF is none.
#[derive(Drop)]
pub struct Lines<'a>(pub &'a [u8]);

impl<'a> Iterator for Lines<'a> {
    type Item = &'a [u8];

    ghost next_gives = { YieldsFirstRef (λ s. lines_of s.0.now) };

    ghost remaining = { item_count (λ s. lines_of s.0.now) };

    #[tactic(auto, using(crate::proofs::HexLaws::no_line, crate::proofs::HexLaws::one_line, crate::proofs::HexLaws::fewer_lines))]
    fn next(&mut self) -> Option<&'a [u8]> {
        let end = line_end(self.0)?;
        let line = &self.0[..end];
        self.0 = &self.0[end + 1..];
        Some(line)
    }
}

// The place of the first LF.
fn line_end(text: &[u8]) -> Option<usize>
    ensures { result ≡ position (λ b. b == 10) text.now }
{
    text.iter().position(|b| *b == b'\n')
}

// The value of a hexadecimal digit. Any byte has one here, where char::to_digit gives none.
fn digit(b: u8) -> u8
    ensures value { result ≡ digit_of b }
    ensures bound { result < 16 }
{
    if b <= b'9' { b % 16 } else { (b % 16 + 9) % 16 }
}

fn byte(high: u8, low: u8) -> u8
    ensures { result ≡ byte_of high low }
{
    digit(high) * 16 + digit(low)
}

// The bytes of a line, each two digits and a space, up to #, to the start of `out`, as many as it has room for: how many they are.
pub fn read_bytes(line: &[u8], out: &mut [u8]) -> usize
    ensures in_bounds { result ≤ length out.new }
    ensures value { result ≡ min (length (bytes_of line.now)) (length out.old) }
    ensures out_after { out.new ≡ take (length out.old) (bytes_of line.now) ++ drop (length (bytes_of line.now)) out.old }
{
    let mut rest = line;
    for (n, place) in out.iter_mut().enumerate() {
        let [high, low, ..] = rest else {
            return n;
        };
        if *high == b'#' {
            return n;
        }
        *place = byte(*high, *low);
        rest = &rest[rest.len().min(3)..];
    }
    out.len()
}

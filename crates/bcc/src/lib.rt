// The check character BCC (document 01, Frame): the XOR of bytes.
#![tactic(auto)]

ghost use Rattle.std.specs.Prelude.{◌≡◌, ◌+◌, ◌≤◌, length};
ghost use Rattle.words.specs.Words.{byte_at, word_of, double_of};
ghost use Rattle.bcc.specs.Bcc.{xor_all};

// Four bytes as a double word, for their XOR alone: the first byte stands lowest.
fn four(t: &[u8], at: usize) -> u32
    requires { at + 4 ≤ length t.now }
    ensures { result ≡ double_of (word_of (byte_at t.now (at + 3)) (byte_at t.now (at + 2))) (word_of (byte_at t.now (at + 1)) (byte_at t.now at)) }
{
    u32::from_le_bytes([t[at], t[at + 1], t[at + 2], t[at + 3]])
}

// The XOR of all bytes. A double word takes four bytes a turn from each of two halves, then the last 4, 2 and 1 that the
// halves leave; the XOR of its own four bytes is the answer.
pub fn bcc(bytes: &[u8]) -> u8
    ensures { result ≡ xor_all bytes.now }
{
    let n = bytes.len();
    let half = n / 8;
    let mut sum: u32 = 0;
    for i in 0..half {
        sum ^= four(bytes, i * 4) ^ four(bytes, (half + i) * 4);
    }
    if n % 8 != 0 {
        if n / 4 % 2 == 1 {
            sum ^= four(bytes, half * 8);
        }
        if n / 2 % 2 == 1 {
            let at = n / 4 * 4;
            sum ^= words::join(bytes[at + 1], bytes[at]) as u32;
        }
        if n % 2 == 1 {
            sum ^= bytes[n - 1] as u32;
        }
    }
    let low = (sum % 65536) as u16;
    let high = (sum / 65536) as u16;
    let word = low ^ high;
    ((word % 256) ^ (word / 256)) as u8
}

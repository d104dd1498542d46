// telegram-list (document 01, Listing program): lists the first 300 bytes of standard input.
#![tactic(auto)]

fn main() {
    let mut input = [0u8; 300];
    let n = io::read_full(0, &mut input);
    let mut out = [0u8; 64];
    let m = listing::list(&input[..n], &mut out) as usize;
    io::write_all(1, &out[..m]);
}

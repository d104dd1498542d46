// The listing of received bytes (document 01, Listing program).
#![tactic(auto)]

ghost use Rattle.std.specs.Prelude.{◌≡◌, [], ◌∷◌, ◌≤◌, length};
ghost use Rattle.text.specs.Digits.{ascii, digits};
ghost use Rattle.store.specs.Placed.{put_out, put_all, joined};
ghost use Rattle.listing.specs.Listing.{header, good_pieces, good_text, refused_pieces, listing, listed_of};

use address::Telegram;

// list, list_decoded, list_good and list_refused return 0 where nothing is written, and no Option: uss_list returns that 0 to C.

// Writes a label and a number behind it.
fn write_field(out: &mut [u8], at: usize, label: &[u8], n: u32) -> usize
    ensures value { result ≡ (put_all out.old at (label.now ∷ digits n ∷ [])).place }
    ensures out_after { out.new ≡ (put_all out.old at (label.now ∷ digits n ∷ [])).bytes }
{
    let behind = store::put(out, at, label);
    text::put_number(out, behind, n)
}

// Writes what every listing starts with: the first line, and the byte count.
fn write_start(out: &mut [u8], count: u32) -> usize
    ensures value { result ≡ (put_all out.old 0 (header ∷ ascii "bytes " ∷ digits count ∷ [])).place }
    ensures out_after { out.new ≡ (put_all out.old 0 (header ∷ ascii "bytes " ∷ digits count ∷ [])).bytes }
{
    let at = store::put(out, 0, b"telegram listing 1\n");
    write_field(out, at, b"bytes ", count)
}

// Writes the text of a telegram.
fn write_good(out: &mut [u8], count: u32, lge: u32, node: u32, kind: &[u8], bcc: u32) -> usize
    ensures value { result ≡ (put_all out.old 0 (good_pieces count lge node kind.now bcc)).place }
    ensures out_after { out.new ≡ (put_all out.old 0 (good_pieces count lge node kind.now bcc)).bytes }
{
    let a = write_start(out, count);
    let b = write_field(out, a, b" lge ", lge);
    let c = write_field(out, b, b" node ", node);
    let d = store::put(out, c, b" ");
    let e = store::put(out, d, kind);
    let f = write_field(out, e, b"\nbcc ", bcc);
    store::put(out, f, b"\n")
}

// Lists a telegram: its text where `out` has room for it. Its fixed words have 43 bytes.
fn list_good(t: &[u8], node: u8, kind: &[u8], out: &mut [u8]) -> usize
    requires in_bounds { 5 ≤ length t.now }
    requires t_len_bound { length t.now ≤ 300 }
    ensures value { result ≡ (put_out out.old 0 (joined (good_text t.now node kind.now))).place }
    ensures out_after { out.new ≡ (put_out out.old 0 (joined (good_text t.now node kind.now))).bytes }
{
    let count = t.len() as u32;
    let lge = t[1] as u32;
    let bcc = t[t.len() - 1] as u32;
    let node = node as u32;
    let numbers = text::count_digits(count)
        + text::count_digits(lge)
        + text::count_digits(node)
        + text::count_digits(bcc);
    if out.len() < 43 + kind.len() + numbers {
        return 0;
    }
    write_good(out, count, lge, node, kind, bcc)
}

// Lists a refusal: its text where `out` has room for it. Its fixed words have 35 bytes.
fn list_refused(count: u32, number: u32, out: &mut [u8]) -> usize
    ensures value { result ≡ (put_out out.old 0 (joined (refused_pieces count number))).place }
    ensures out_after { out.new ≡ (put_out out.old 0 (joined (refused_pieces count number))).bytes }
{
    if out.len() < 35 + text::count_digits(count) + text::count_digits(number) {
        return 0;
    }
    let at = write_start(out, count);
    let behind = write_field(out, at, b" refused ", number);
    store::put(out, behind, b"\n")
}

// Lists at most 300 bytes, by what they decode to.
#[tactic(auto, unfolding(crate::specs::Listing::listing), using(crate::proofs::ListingLaws::ok_long))]
fn list_decoded(t: &[u8], out: &mut [u8]) -> usize
    requires { length t.now ≤ 300 }
    ensures value { result ≡ (put_out out.old 0 (listing t.now)).place }
    ensures out_after { out.new ≡ (put_out out.old 0 (listing t.now)).bytes }
{
    match address::decode(t) {
        Ok(Telegram::Normal { node, .. }) => list_good(t, node, b"normal", out),
        Ok(Telegram::Mirror { node }) => list_good(t, node, b"mirror", out),
        Ok(Telegram::Broadcast) => list_good(t, t[2] % 32, b"broadcast", out),
        Err(fault) => list_refused(t.len() as u32, fault.into(), out),
    }
}

// Writes the listing of the first 300 bytes to the start of `out` and returns its length; where it does not fit,
// writes nothing and returns 0.
#[tactic(auto, unfolding(crate::specs::Listing::listed_of), using(crate::proofs::LengthLaws::take_first, crate::proofs::LengthLaws::placed_first))]
pub fn list(received: &[u8], out: &mut [u8]) -> u32
    ensures value { result ≡ (listed_of received.now out.old).place }
    ensures out_after { out.new ≡ (listed_of received.now out.old).bytes }
{
    let first = received.len().min(300);
    list_decoded(&received[..first], out) as u32
}

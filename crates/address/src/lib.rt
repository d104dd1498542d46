// The address byte and the decoded telegram (document 01, Frame and answer number 15).
#![tactic(auto)]

ghost use Rattle.std.specs.Prelude.{◌≡◌};
ghost use Rattle.address.specs.Address.{address_of, kind_of, decoded_of, decoded_from, adr_of};
ghost use Rattle.address.specs.declared.Fault.TheVariants.{InFrame};

use frame::FrameFault;

// What the address byte says: one node, one node's mirror, or all nodes.
#[derive(Clone, Copy, Debug, PartialEq, Eq)]
pub enum Address {
    ToOne(u8),
    ToMirror(u8),
    ToAll,
}

// Why no telegram could be read: a fault of the frame check, or of the address byte (15).
#[derive(Clone, Copy, Debug, PartialEq, Eq)]
pub enum Fault {
    InFrame(FrameFault),
    InAddress,
}

// Received bytes as a telegram: one of the three kinds.
#[derive(Clone, Copy, Debug, PartialEq, Eq)]
pub enum Telegram {
    Normal {
        node: u8,
        net_start: usize,
        net_end: usize,
    },
    Mirror {
        node: u8,
    },
    Broadcast,
}

// The address byte by its bits: 0 to 4 node, 5 broadcast, 6 mirror, 7 must be 0; 5 and 6 together are refused. So under 32 it names a
// node, under 64 all, under 96 a node's mirror, and else nobody.
#[tactic(auto, unfolding(crate::specs::Address::address_of))]
fn read_address(adr: u8) -> Result<Address, Fault>
    ensures { result ≡ address_of adr }
{
    match adr {
        0..=31 => Ok(Address::ToOne(adr)),
        32..=63 => Ok(Address::ToAll),
        64..=95 => Ok(Address::ToMirror(adr - 64)),
        96..=255 => Err(Fault::InAddress),
    }
}

// What an address makes of a sound telegram whose net bytes end before net_end.
fn kind(address: Address, net_end: usize) -> Telegram
    ensures { result ≡ kind_of address net_end }
{
    match address {
        Address::ToAll => Telegram::Broadcast,
        Address::ToMirror(node) => Telegram::Mirror { node },
        Address::ToOne(node) => Telegram::Normal {
            node,
            net_start: 3,
            net_end,
        },
    }
}

// What the frame check found, and the address byte, as a telegram: 10 to 15, then its kind. A byte that is not there is 0.
pub fn decode_found(found: Result<usize, FrameFault>, received: &[u8]) -> Result<Telegram, Fault>
    ensures { result ≡ decoded_from found (adr_of received.now) }
{
    let net_end = found?;
    let adr = if received.len() < 3 { 0 } else { received[2] };
    let address = read_address(adr)?;
    Ok(kind(address, net_end))
}

// The received bytes as a telegram.
pub fn decode(received: &[u8]) -> Result<Telegram, Fault>
    ensures { result ≡ decoded_of received.now }
{
    decode_found(frame::check(received), received)
}

impl From<FrameFault> for Fault {
    ghost from_gives = { λ fault r. r ≡ InFrame fault };

    fn from(fault: FrameFault) -> Fault {
        Fault::InFrame(fault)
    }
}

// The document's number of a fault.
impl From<Fault> for u32 {
    ghost use Rattle.address.specs.Address.{fault_number};

    ghost from_gives = { λ fault number. number ≡ fault_number fault };

    fn from(fault: Fault) -> u32 {
        match fault {
            Fault::InFrame(f) => f.into(),
            Fault::InAddress => 15,
        }
    }
}

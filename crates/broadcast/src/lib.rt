// Broadcasts (document 01, Slave): when a broadcast is void, and what it makes of the control words.
#![tactic(auto)]

ghost use Rattle.std.specs.Prelude.{◌≡◌};
ghost use Rattle.broadcast.specs.Broadcast.{is_void, merge_of, word_merged, control_after};

use words::Words;

// The parameter area of a broadcast: word 1 selects process words, words 2 and 3 are their masks, and a fourth must be 0.
#[derive(Clone, Copy, Debug, PartialEq, Eq)]
pub struct Command {
    pub selector: u16,
    pub mask1: u16,
    pub mask2: u16,
    pub fourth: u16,
}

// Whether a broadcast is void (18) for a set-up of pkw and pzd words, where `first` is its first process word.
#[tactic(auto, unfolding(crate::specs::Broadcast::is_void))]
pub fn is_void(command: Command, pkw: u8, pzd: u8, first: u16) -> bool
    ensures { result ≡ is_void command pkw pzd first }
{
    let selector = command.selector;
    pkw == 0
        || pzd == 0
        || selector / 2 % 2 != 1
        || command.mask1 / 1024 % 2 != 1
        || first / 1024 % 2 != 1
        || selector % 2 != 0
        || selector / 8 != 0
        || (selector / 4 % 2 == 1 && pzd < 2)
        || command.fourth != 0
}

// The masked bits of the word, and the rest of the old one.
#[tactic(auto, unfolding(crate::specs::Broadcast::merge_of))]
pub fn merge(old: u16, word: u16, mask: u16) -> u16
    ensures { result ≡ merge_of old word mask }
{
    (old & (65535 - mask)) | (word & mask)
}

fn merge_selected(selected: bool, old: u16, word: u16, mask: u16) -> u16
    ensures { result ≡ word_merged selected old word mask }
{
    if selected {
        merge(old, word, mask)
    } else {
        old
    }
}

// The control words after a broadcast that is not void: selected words take the masked bits and keep the rest.
#[tactic(auto, unfolding(crate::specs::Broadcast::control_after))]
pub fn command_control(command: Command, control: Words, process: Words) -> Words
    ensures { result ≡ control_after command control process }
{
    let selector = command.selector;
    let w1 = merge_selected(selector / 2 % 2 == 1, control.w1, process.w1, command.mask1);
    let w2 = merge_selected(selector / 4 % 2 == 1, control.w2, process.w2, command.mask2);
    Words {
        w1,
        w2,
        w3: control.w3,
        w4: control.w4,
    }
}

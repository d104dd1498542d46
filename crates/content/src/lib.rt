// Whether a parameter area is the reply to a task, and what it holds (document 01, Reply reading, 33).
#![tactic(auto)]

ghost use Rattle.std.specs.Prelude.{◌≡◌, not, ◌&&◌, ◌||◌, ◌≤◌, eqb, ltb};
ghost use Rattle.task.specs.Task.{is_double_id};
ghost use Rattle.content.specs.Content.{in_row, known_id, all_zero, bad_reply, reply_content};

use area::Area;
use read_answers::Content;
use task::Act;

// What a reply answers: the task, and the number and the index that it repeats.
#[derive(Clone, Copy, Debug, PartialEq, Eq)]
pub struct Question {
    pub id: u8,
    pub number: u16,
    pub index: u8,
}

// Whether a reply ID is in the row of an act whose reply ID is `reply`: a read of a double has the next one.
fn is_in_row(act: Act, reply: u8, id: u8) -> bool
    requires { reply ≤ 7 }
    ensures { result ≡ in_row act reply id }
{
    match act {
        Act::Read => id == reply || id == reply + 1,
        Act::Nothing | Act::Change | Act::Count | Act::Refuse => id == reply,
    }
}

// Whether a reply ID may follow the task.
#[tactic(auto, using(task::proofs::TaskLaws::reply_small), unfolding(crate::specs::Content::known_id))]
fn is_known(id: u8, reply_id: u8) -> bool
    ensures { result ≡ known_id id reply_id }
{
    let task = task::task_of(id);
    is_in_row(task.act, task.reply, reply_id) || matches!(reply_id, 7 | 8)
}

// Whether the task is 0 and the area is not all 0.
#[tactic(auto, unfolding(crate::specs::Content::all_zero))]
fn is_filled(id: u8, area: Area) -> bool
    ensures { result ≡ (eqb id 0 && not (all_zero area)) }
{
    id == 0 && (area.pke != 0 || area.ind != 0 || area.value != 0)
}

// Whether a reply ID carries a double.
fn is_double(reply_id: u8) -> bool
    ensures { result ≡ is_double_id reply_id }
{
    matches!(reply_id, 2 | 5)
}

// Whether an area of n words is not the reply to what was asked: a double in three words, and PWE1 not 0 before a word, among them.
#[tactic(auto, unfolding(crate::specs::Content::bad_reply, crate::specs::Content::bad_rows))]
pub fn is_bad(n: u8, asked: Question, area: Area) -> bool
    ensures { result ≡ bad_reply n asked area }
{
    let reply_id = (area.pke / 4096) as u8;
    let double = is_double(reply_id);
    is_filled(asked.id, area)
        || !is_known(asked.id, reply_id)
        || double && n == 3
        || area.pke % 2048 != asked.number % 2000
        || area.ind / 4096 != page::nibble_of(asked.number) as u16
        || area.ind % 256 != asked.index as u16
        || area.pke / 2048 % 2 != 0
        || area.ind / 256 % 16 != 0
        || !double && area.value > 65535
        || reply_id == 8 && area.value != 0
}

// What the reply to a task holds.
#[tactic(auto, unfolding(crate::specs::Content::reply_content))]
pub fn read_content(id: u8, area: Area) -> Content
    ensures { result ≡ reply_content id area }
{
    let reply_id = (area.pke / 4096) as u8;
    match (id, reply_id) {
        (0, _) => Content::Empty,
        (_, 7) => Content::Failed {
            error: (area.value % 65536) as u16,
        },
        (_, 8) => Content::NoRight,
        _ => Content::Value {
            id: reply_id,
            value: area.value,
        },
    }
}

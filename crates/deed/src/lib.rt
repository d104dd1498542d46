// What a task asks of a parameter (document 01, Parameter area): the reply, and the element that is read or written. No value is touched
// here.
#![tactic(auto)]

ghost use Rattle.std.specs.Prelude.{◌≡◌, ◌≤◌};
ghost use Rattle.task.specs.Task.{read_reply, carried};
ghost use Rattle.deed.specs.declared.Deed.TheVariants.{Reply};
ghost use Rattle.deed.specs.Deed.{reply_area, error_area, task_in, value_in, element_in, act_deed, deed_on};

use area::Area;
use entry::Entry;
use errors::ParameterError;
use task::{Act, Task, Width};

// What is to be done: the reply's area as it stands, or with the element's value read into it, or with its value written to the element.
#[derive(Clone, Copy, Debug, PartialEq, Eq)]
pub enum Deed {
    Reply { area: Area },
    Fetch { area: Area, element: u8 },
    Write { area: Area, element: u8 },
}

// A reply's area: ID and value, with the task's base, page and index.
fn reply_area(area: Area, id: u8, value: u32) -> Area
    requires { id ≤ 15 }
    ensures { result ≡ reply_area area id value }
{
    Area {
        pke: (id as u16) * 4096 + area.pke % 2048,
        ind: area.ind / 4096 * 4096 + area.ind % 256,
        value,
    }
}

// An error: the reply with ID 7 and the error's number.
pub fn deny(area: Area, error: ParameterError) -> Deed
    ensures { result ≡ Reply (error_area area error) }
{
    Deed::Reply {
        area: reply_area(area, 7, error.into()),
    }
}

// The value that a task carries: a word task only the low word.
fn carry(width: Width, value: u32) -> u32
    ensures { result ≡ carried width value }
{
    match width {
        Width::Word => value % 65536,
        Width::Either | Width::Double => value,
    }
}

// The reply ID of a read: the next one for a double.
fn pick_reply_id(reply: u8, double: bool) -> u8
    requires { reply ≤ 14 }
    ensures { result ≡ read_reply reply double }
{
    if double { reply + 1 } else { reply }
}

// What the task of an area asks where no error applies: `task`, `element` and `value` are the area's.
#[tactic(auto, unfolding(entry::specs::Fields::count_of), using(task::proofs::TaskLaws::reply_small, crate::proofs::DeedLaws::read_reply_le))]
fn plan_act(task: Task, area: Area, e: Entry, element: u8, value: u32) -> Deed
    requires { (task ≡ task_in area) × (element ≡ element_in area e) × (value ≡ value_in area) }
    ensures { result ≡ act_deed task.act area e }
{
    match task.act {
        Act::Nothing => Deed::Reply {
            area: area::empty_area(),
        },
        Act::Read => Deed::Fetch {
            area: reply_area(area, pick_reply_id(task.reply, e.double), 0),
            element,
        },
        Act::Change => Deed::Write {
            area: reply_area(area, task.reply, value),
            element,
        },
        // the number of elements, 1 where there is no array
        Act::Count => Deed::Reply {
            area: reply_area(area, task.reply, entry::count_places(e) as u32),
        },
        Act::Refuse => deny(area, ParameterError::NoTask),
    }
}

// What the task in an area of n words asks of the parameter of a record: the first error that applies, or the act.
#[tactic(auto, using(crate::proofs::DeedLaws::deed_denied, crate::proofs::DeedLaws::deed_granted))]
pub fn plan(n: u8, area: Area, e: Entry) -> Deed
    ensures { result ≡ deed_on n area e }
{
    let task = task::task_of((area.pke / 4096) as u8);
    let index = (area.ind % 256) as u8;
    let value = carry(task.width, area.value);
    match verdict::judge(n, task, e, index, value) {
        Err(error) => deny(area, error),
        Ok(()) => {
            let element = verdict::pick_element(task, e, index);
            plan_act(task, area, e, element, value)
        }
    }
}

// The verdict on a task (document 01, Parameter area): the errors of a task on a parameter, in the document's order, and the element that
// it means.
#![tactic(auto)]

ghost use Rattle.std.specs.Prelude.{◌≡◌, false};
ghost use Rattle.task.specs.Task.{task_row};
ghost use Rattle.task.specs.declared.Act.TheVariants.{Read, Change};
ghost use Rattle.task.specs.declared.Width.TheVariants.{Either};
ghost use Rattle.verdict.specs.Verdict.{differs_width, verdict_of, element_of};

use entry::Entry;
use errors::ParameterError;
use task::{Act, Task, Width};

// A word task on a double parameter, or the reverse.
fn differs(width: Width, double: bool) -> bool
    ensures { result ≡ differs_width width double }
{
    match width {
        Width::Either => false,
        Width::Word => double,
        Width::Double => !double,
    }
}

// The error of a read: 102.
#[tactic(auto, unfolding(crate::specs::Verdict::verdict_of))]
fn judge_read(n: u8, e: Entry) -> Result<(), ParameterError>
    ensures { result ≡ verdict_of n (task_row Read Either false 0) e 0 0 }
{
    if e.double && n == 3 {
        return Err(ParameterError::NoRoom);
    }
    Ok(())
}

// The first error of a change: 5, 102, 1, 2.
#[tactic(auto, unfolding(crate::specs::Verdict::verdict_of))]
fn judge_change(n: u8, width: Width, e: Entry, value: u32) -> Result<(), ParameterError>
    ensures { result ≡ verdict_of n (task_row Change width false 0) e 0 value }
{
    if differs(width, e.double) {
        return Err(ParameterError::OtherWidth);
    }
    judge_read(n, e)?;
    if !e.writable {
        return Err(ParameterError::NotWritable);
    }
    if !limits::within(e, value) {
        return Err(ParameterError::OutsideLimits);
    }
    Ok(())
}

// The first error that applies to a task with its index and the value that it carries, in an area of n words, on the parameter of a
// record.
#[tactic(auto, using(crate::proofs::VerdictLaws::verdict_read, crate::proofs::VerdictLaws::verdict_change, crate::proofs::VerdictLaws::verdict_none), unfolding(crate::specs::Verdict::verdict_of))]
pub fn judge(n: u8, task: Task, e: Entry, index: u8, value: u32) -> Result<(), ParameterError>
    ensures { result ≡ verdict_of n task e index value }
{
    if matches!(task.act, Act::Refuse) {
        return Err(ParameterError::NoTask);
    }
    if task.array && e.elements == 0 && 1 < index {
        return Err(ParameterError::NoArray);
    }
    if task.array && e.elements != 0 && e.elements <= index {
        return Err(ParameterError::NoElement);
    }
    match task.act {
        Act::Nothing | Act::Count => Ok(()),
        Act::Read => judge_read(n, e),
        Act::Change => judge_change(n, task.width, e, value),
        Act::Refuse => Err(ParameterError::NoTask),
    }
}

// The element that a task means: that of its index where the index names one of an array, else 0, the one value where there is no array.
#[tactic(auto, unfolding(crate::specs::Verdict::element_of))]
pub fn pick_element(task: Task, e: Entry, index: u8) -> u8
    ensures { result ≡ element_of task e index }
{
    if task.array && e.elements != 0 {
        index
    } else {
        0
    }
}

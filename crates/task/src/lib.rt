// Tasks (document 01, Parameter area): what a task ID asks.
#![tactic(auto)]

ghost use Rattle.std.specs.Prelude.{◌≡◌, cond};
ghost use Rattle.task.specs.Task.{task_row, task_of};
ghost use Rattle.task.specs.declared.Act.TheVariants.{Count, Refuse};
ghost use Rattle.task.specs.declared.Width.TheVariants.{Word, Double};

// What is to be done. Refuse is for the task IDs that error 106 answers.
#[derive(Clone, Copy, Debug, PartialEq, Eq)]
pub enum Act {
    Nothing,
    Read,
    Change,
    Count,
    Refuse,
}

// The width of the value that the task carries.
#[derive(Clone, Copy, Debug, PartialEq, Eq)]
pub enum Width {
    Either,
    Word,
    Double,
}

// What a task ID asks: the act, the width, whether the index names an element, and the reply ID. A read of a double replies
// with the next ID.
#[derive(Clone, Copy, Debug, PartialEq, Eq)]
pub struct Task {
    pub act: Act,
    pub width: Width,
    pub array: bool,
    pub reply: u8,
}

// A row of the task table.
fn row(act: Act, width: Width, array: bool, reply: u8) -> Task
    ensures { result ≡ task_row act width array reply }
{
    Task {
        act,
        width,
        array,
        reply,
    }
}

// The width of a change of a word, or of a double.
fn width_of(word: bool) -> Width
    ensures { result ≡ cond word Word Double }
{
    if word { Width::Word } else { Width::Double }
}

// A count of elements, or a task that is refused.
fn count_if(counts: bool) -> Act
    ensures { result ≡ cond counts Count Refuse }
{
    if counts { Act::Count } else { Act::Refuse }
}

// What the task ID asks; IDs over 15 do not occur and are refused like 15. Document 01 names the form: ranges.
#[tactic(auto, unfolding(crate::specs::Task::task_of, crate::specs::Task::tasks))]
pub fn task_of(id: u8) -> Task
    ensures { result ≡ task_of id }
{
    match id {
        0..=0 => row(Act::Nothing, Width::Either, false, 0),
        1..=1 => row(Act::Read, Width::Either, true, 1),
        2..=3 => row(Act::Change, width_of(id == 2), true, id - 1),
        6..=6 => row(Act::Read, Width::Either, true, 4),
        7..=8 => row(Act::Change, width_of(id == 7), true, id - 3),
        9..=10 => row(count_if(id == 9), Width::Either, false, id - 3),
        11..=12 => row(Act::Change, width_of(id == 12), true, 16 - id),
        13..=14 => row(Act::Change, width_of(id == 14), true, 15 - id),
        _ => row(Act::Refuse, Width::Either, false, 7),
    }
}

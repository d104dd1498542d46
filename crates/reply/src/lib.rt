// How a master reads the reply to a task (document 01, Answer numbers, "Reply reading").
#![tactic(auto)]

ghost use Rattle.std.specs.Prelude.{◌≡◌};
ghost use Rattle.reply.specs.Reply.{read_process, read_normal, read_task, read_of};

use address::{Fault, Telegram};
use content::Question;
use read_answers::{Content, ReadFault, Reading};
use request::Request;
use setup::Setup;
use words::Words;

// A normal telegram from a node, with n net bytes, as the reply to what was asked.
#[tactic(auto, unfolding(crate::specs::Reply::read_normal))]
fn read_normal(
    setup: Setup,
    asked: Question,
    received: &[u8],
    node: u8,
    n: usize,
) -> Result<Reading, ReadFault>
    ensures { result ≡ read_normal setup asked received.now node n }
{
    if node != setup.node {
        return Err(ReadFault::OtherNode);
    }
    if setup::is_other_length(setup, n) {
        return Err(ReadFault::OtherLength);
    }
    let count = setup::area_count(setup, n);
    let process = area::read_process(received, count, setup.pzd, Words::default());
    if count == 0 {
        return Ok(Reading {
            content: Content::Empty,
            process,
        });
    }
    let area = area::read_area(received, count);
    if content::is_bad(count, asked, area) {
        return Err(ReadFault::NotTheReply);
    }
    let content = content::read_content(asked.id, area);
    Ok(Reading { content, process })
}

// Received bytes as the reply to what was asked. No telegram to a mirror or to all nodes is a reply: 15.
#[tactic(auto, unfolding(crate::specs::Reply::read_task))]
fn read_task(setup: Setup, asked: Question, received: &[u8]) -> Result<Reading, ReadFault>
    ensures { result ≡ read_task setup asked received.now }
{
    match address::decode(received)? {
        Telegram::Normal {
            node,
            net_start,
            net_end,
        } => read_normal(setup, asked, received, node, net_end - net_start),
        Telegram::Mirror { .. } | Telegram::Broadcast => Err(Fault::InAddress.into()),
    }
}

// The reading of received bytes as the reply to a request. Only a task has a reply that is read.
#[tactic(auto, unfolding(crate::specs::Reply::read_of))]
pub fn read(setup: Setup, request: Request, received: &[u8]) -> Result<Reading, ReadFault>
    ensures { result ≡ read_of setup request received.now }
{
    if !setup::setup_ok(setup) {
        return Err(ReadFault::UnfitSetup);
    }
    let Request::Task {
        id,
        number,
        index,
        value,
        process,
    } = request
    else {
        return Err(ReadFault::NotAsked);
    };
    if !request::can_ask(setup, id, number, index, value, process) {
        return Err(ReadFault::NotAsked);
    }
    read_task(setup, Question { id, number, index }, received)
}

// The process words of a reading, all 0 in a refusal.
pub fn process_of(read: Result<Reading, ReadFault>) -> Words
    ensures { result ≡ read_process read }
{
    match read {
        Ok(reading) => reading.process,
        Err(_) => Words::default(),
    }
}

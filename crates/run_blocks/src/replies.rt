//! The texts of replies.

ghost use Rattle.std.specs.Prelude.{◌≡◌, ◌+◌, ◌≤◌, if◌then◌else◌, vec_capacity};
ghost use Rattle.script_status.specs.script_Script.{is_of_worker};
ghost use Rattle.script_status.specs.script_Texts.{refusal_text, waited_text, worker_text, worker_refusal_text};
ghost use Rattle.script_status.specs.script_Appends.{Appends, AppendsFew};
ghost use Rattle.run_blocks.specs.Shown.{longest_answer, longest_reply, outside_room, more_room, IsShort, IsAnswerShort, outside_text, entry_text, answer_text, reply_text, is_refusal, tells_refusal};
ghost use Rattle.run_line_answers.specs.run_specs_States.{histories_in, IsNamed};

use lane_shared::{Bank, Refusal};
use run_line_answers::{Answered, LineReply, Outside, State, entry_of};
use script_status::{
    Event, Lane, Line, push_alerts, push_assembled, push_created, push_detail, push_event,
    push_examined, push_lane, push_mdstat, push_refusal, push_waited, push_worker,
    push_worker_refusal,
};
use std::alloc::AllocError;

// Whether an event tells a refusal in the reply to a line. A wait with nothing to do isn't refused.
fn is_refused(line: Line, event: &Event) -> bool
    ensures { result ≡ tells_refusal line event.now }
{
    match (line, event) {
        (
            Line::Wait,
            Event::Refused {
                refusal: Refusal::Nothing,
            },
        ) => false,
        (_, Event::Refused { .. }) => true,
        (_, Event::Stepped { ended, .. }) => ended.is_some(),
        _ => false,
    }
}

// Appends the text of an entry that answers a wait, or the worker's line.
fn push_wait(text: &mut Vec<u8>, lane: Lane, event: &Event) -> Result<(), AllocError>
    ensures appended { Appends text.old text.new result (if is_of_worker lane then worker_text event.now else waited_text event.now) }
    ensures short { AppendsFew 200 text.old text.new result }
{
    match lane {
        Lane::Worker => push_worker(text, event),
        _ => push_waited(text, event),
    }
}

// Appends the text of an entry that answers a line.
fn push_entry(text: &mut Vec<u8>, lane: Lane, line: Line, event: &Event) -> Result<(), AllocError>
    requires { IsShort event.now }
    ensures appended { Appends text.old text.new result (entry_text lane line event.now) }
    ensures short { AppendsFew longest_answer text.old text.new result }
{
    match (line, event) {
        (Line::Wait, _) => push_wait(text, lane, event),
        (Line::Detail, Event::Shown { status }) => push_detail(text, status),
        (Line::Mdstat, Event::Shown { status }) => push_mdstat(text, status),
        _ => push_event(text, event),
    }
}

// Appends the text of a refusal that no entry gives.
fn push_refused(text: &mut Vec<u8>, lane: Lane, refusal: &Refusal) -> Result<(), AllocError>
    ensures appended { Appends text.old text.new result (if is_of_worker lane then worker_refusal_text refusal.now else refusal_text refusal.now) }
    ensures short { AppendsFew 200 text.old text.new result }
{
    match lane {
        Lane::Worker => push_worker_refusal(text, refusal),
        _ => push_refusal(text, refusal),
    }
}

fn push_outside(text: &mut Vec<u8>, lane: Lane, outside: &Outside) -> Result<(), AllocError>
    ensures appended { Appends text.old text.new result (outside_text lane outside.now) }
    ensures short { AppendsFew (500 + outside_room outside.now) text.old text.new result }
{
    match outside {
        Outside::Created => push_created(text),
        Outside::Assembled { status, .. } => push_assembled(text, status),
        Outside::Examined { slot, found } => push_examined(text, *slot, found),
        Outside::Alerts { list } => push_alerts(text, list.as_slice()),
        Outside::Refused { refusal } => push_refused(text, lane, refusal),
    }
}

// Appends the text of an answer, without the newline.
fn push_answer<B: Bank>(
    text: &mut Vec<u8>,
    state: &State<B>,
    lane: Lane,
    line: Line,
    what: &Answered,
) -> Result<(), AllocError>
    requires named { IsNamed (histories_in state.now) what.now }
    requires short { IsAnswerShort (longest_reply + more_room what.now) (histories_in state.now) what.now }
    ensures appended { Appends text.old text.new result (answer_text (histories_in state.now) lane line what.now) }
    ensures short { AppendsFew (longest_answer + more_room what.now) text.old text.new result }
{
    match what {
        Answered::Inside { epoch, at } => {
            push_entry(text, lane, line, &entry_of(state, *epoch, *at).event)
        }
        Answered::Outside(outside) => push_outside(text, lane, outside),
    }
}

/// Whether an answer is a refusal.
pub fn is_answer_refused<B: Bank>(state: &State<B>, line: Line, what: &Answered) -> bool
    requires named { IsNamed (histories_in state.now) what.now }
    ensures { result ≡ is_refusal (histories_in state.now) line what.now }
{
    match what {
        Answered::Inside { epoch, at } => is_refused(line, &entry_of(state, *epoch, *at).event),
        Answered::Outside(Outside::Refused { .. }) => true,
        Answered::Outside(_) => false,
    }
}

// Appends the text of a reply, with its newline.
fn push_reply<B: Bank>(
    text: &mut Vec<u8>,
    state: &State<B>,
    line: Line,
    reply: &LineReply,
) -> Result<(), AllocError>
    requires named { IsNamed (histories_in state.now) reply.now.what }
    requires short { IsAnswerShort (longest_reply + more_room reply.now.what) (histories_in state.now) reply.now.what }
    ensures appended { Appends text.old text.new result (reply_text (histories_in state.now) line reply.now) }
    ensures short { AppendsFew (longest_reply + more_room reply.now.what) text.old text.new result }
{
    push_lane(text, reply.lane)?;
    push_answer(text, state, reply.lane, line, &reply.what)?;
    text.extend_from_slice(b"\n")
}

/// Puts the text of a reply in place of what the buffer held, which has room for it: for every one but a list of alerts, and for this list.
#[tactic(auto, using(crate::proofs::Shortness::short_itself, crate::proofs::Shortness::short_fits))]
pub fn put_text<B: Bank>(text: &mut Vec<u8>, state: &State<B>, line: Line, reply: &LineReply)
    requires named { IsNamed (histories_in state.now) reply.now.what }
    requires short { IsAnswerShort (vec_capacity text.old) (histories_in state.now) reply.now.what }
    requires room { longest_reply ≤ vec_capacity text.old }
    ensures text { text.new.items ≡ reply_text (histories_in state.now) line reply.now }
    ensures room { longest_reply ≤ vec_capacity text.new }
{
    text.clear();
    if push_reply(text, state, line, reply).is_err() {
        unreachable!()
    }
}

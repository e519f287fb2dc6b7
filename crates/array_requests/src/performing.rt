//! The requests of a caller to a running array.

ghost use Rattle.std.specs.Prelude.{◌≡◌, ◌≢◌, IfOk, IfErr};
ghost use Rattle.array_open.specs.sb_specs_Reading.{list_length};
ghost use Rattle.history_append.specs.history_Flat.{next_number};
ghost use Rattle.history_append.specs.history_the_Request_TheVariants.{Read as AsksRead, Write as AsksWrite, Flush as AsksFlush, Fail as AsksFail, Add as AsksAdd, Visible as AsksVisible, Grow as AsksGrow};
ghost use Rattle.array_open.specs.array_call_specs_Calls.{IsEndOf};
ghost use Rattle.array_open.specs.array_reply_specs_Replies.{IsAnsweredWith};
ghost use Rattle.array_requests.specs.Entered.{HasEntered, RestsBehind};
ghost use Rattle.array_requests.specs.Going.{HasGoneOn};
ghost use Rattle.array_requests.specs.Replies.{IsAskable, TellsSizes, told_by, IsShownBy, IsPerformed, IsRepliedBy, IsCountedBy, OnReply};

use crate::reply::Reply;
use array_call_specs::{Fault, NoMemory, Sectors, Who};
use array_open::{Running, steps};
use bank::{Bank, Wish};
use history_append::{Event, Request};
use std::alloc::Global;

/// It does nothing: its contract says what a running array keeps.
pub fn tells_sizes<B: Bank>(array: &Running<B>)
    ensures { TellsSizes array.now }
{
    let _ = array.visible();
}

// The event of a call's last entry, by its answer.
fn told(answer: Result<(), Fault>, event: Event) -> Result<Event, NoMemory>
    ensures { result ≡ told_by answer event }
{
    match answer {
        Ok(()) => Ok(event),
        Err(Fault::Refused(refusal)) => Ok(Event::Refused { refusal }),
        Err(Fault::NoMemory) => Err(NoMemory {}),
    }
}

fn read<B: Bank>(
    alloc: Global,
    array: &mut Running<B>,
    who: Who,
    at: u64,
    count: u32,
) -> Result<Event, NoMemory>
    requires next { who.number ≡ next_number who.caller array.old.parts.entries }
    requires caller { who.caller ≢ 254 }
    requires askable { IsAskable (AsksRead at count) }
    ensures replied { IfOk result (λ event. IsAnsweredWith (list_length array.old.parts.members.newest) (AsksRead at count) who array.old.parts.entries array.new.parts.entries event) }
    ensures unchanged { IfErr result (λ none. array.new ≡ array.old) }
    ensures ended { IfOk result (λ event. IsEndOf B.tells array.new.parts.first array.new.parts.entries (B.tape array.new.parts.bank)) }
    ensures went { HasGoneOn B.tells B.given B.tape B.faults_of array.old array.new }
{
    let mut into = match vec![in alloc; 0u8; count as usize * 512] {
        Ok(into) => into,
        Err(_) => return Err(NoMemory {}),
    };
    let answer = crate::reading::read(array, who, at, into.as_mut_slice());
    let body = Sectors::from_bytes(into);
    told(answer, Event::Read { at, body })
}

fn write<B: Bank>(
    array: &mut Running<B>,
    who: Who,
    at: u64,
    body: Sectors,
) -> Result<Event, NoMemory>
    requires next { who.number ≡ next_number who.caller array.old.parts.entries }
    requires caller { who.caller ≢ 254 }
    requires askable { IsAskable (AsksWrite at body) }
    ensures replied { IfOk result (λ event. IsAnsweredWith (list_length array.old.parts.members.newest) (AsksWrite at body) who array.old.parts.entries array.new.parts.entries event) }
    ensures unchanged { IfErr result (λ none. array.new ≡ array.old) }
    ensures ended { IfOk result (λ event. IsEndOf B.tells array.new.parts.first array.new.parts.entries (B.tape array.new.parts.bank)) }
    ensures went { HasGoneOn B.tells B.given B.tape B.faults_of array.old array.new }
{
    tells_sizes(array);
    let answer = crate::writing::write(array, who, at, body.as_bytes());
    told(answer, Event::Wrote { at, body })
}

fn flush<B: Bank>(array: &mut Running<B>, who: Who) -> Result<Event, NoMemory>
    requires next { who.number ≡ next_number who.caller array.old.parts.entries }
    requires caller { who.caller ≢ 254 }
    ensures replied { IfOk result (λ event. IsAnsweredWith (list_length array.old.parts.members.newest) AsksFlush who array.old.parts.entries array.new.parts.entries event) }
    ensures unchanged { IfErr result (λ none. array.new ≡ array.old) }
    ensures ended { IfOk result (λ event. IsEndOf B.tells array.new.parts.first array.new.parts.entries (B.tape array.new.parts.bank)) }
    ensures went { HasGoneOn B.tells B.given B.tape B.faults_of array.old array.new }
{
    let answer = crate::settling::flush(array, who);
    told(answer, Event::Flushed)
}

fn fail<B: Bank>(array: &mut Running<B>, who: Who, role: u32) -> Result<Event, NoMemory>
    requires next { who.number ≡ next_number who.caller array.old.parts.entries }
    requires caller { who.caller ≢ 254 }
    ensures replied { IfOk result (λ event. IsAnsweredWith (list_length array.old.parts.members.newest) (AsksFail role) who array.old.parts.entries array.new.parts.entries event) }
    ensures unchanged { IfErr result (λ none. array.new ≡ array.old) }
    ensures ended { IfOk result (λ event. IsEndOf B.tells array.new.parts.first array.new.parts.entries (B.tape array.new.parts.bank)) }
    ensures went { HasGoneOn B.tells B.given B.tape B.faults_of array.old array.new }
{
    let answer = crate::failing::fail(array, who, role);
    told(answer, Event::Failed { role })
}

fn add<B: Bank>(array: &mut Running<B>, who: Who, slot: u32) -> Result<Event, NoMemory>
    requires next { who.number ≡ next_number who.caller array.old.parts.entries }
    requires caller { who.caller ≢ 254 }
    ensures replied { IfOk result (λ event. IsAnsweredWith (list_length array.old.parts.members.newest) (AsksAdd slot) who array.old.parts.entries array.new.parts.entries event) }
    ensures unchanged { IfErr result (λ none. array.new ≡ array.old) }
    ensures ended { IfOk result (λ event. IsEndOf B.tells array.new.parts.first array.new.parts.entries (B.tape array.new.parts.bank)) }
    ensures went { HasGoneOn B.tells B.given B.tape B.faults_of array.old array.new }
{
    let answer = crate::adding::add(array, who, slot);
    told(answer, Event::Added { slot })
}

fn set_limit<B: Bank>(
    array: &mut Running<B>,
    who: Who,
    limit: Option<u64>,
) -> Result<Event, NoMemory>
    requires next { who.number ≡ next_number who.caller array.old.parts.entries }
    requires caller { who.caller ≢ 254 }
    ensures replied { IfOk result (λ event. IsAnsweredWith (list_length array.old.parts.members.newest) (AsksVisible limit) who array.old.parts.entries array.new.parts.entries event) }
    ensures unchanged { IfErr result (λ none. array.new ≡ array.old) }
    ensures ended { IfOk result (λ event. IsEndOf B.tells array.new.parts.first array.new.parts.entries (B.tape array.new.parts.bank)) }
    ensures went { HasGoneOn B.tells B.given B.tape B.faults_of array.old array.new }
{
    match crate::limiting::set_visible(array, who, limit) {
        Ok(count) => Ok(Event::Visible { limit, count }),
        Err(Fault::Refused(refusal)) => Ok(Event::Refused { refusal }),
        Err(Fault::NoMemory) => Err(NoMemory {}),
    }
}

fn grow<B: Bank>(array: &mut Running<B>, who: Who, wish: Wish) -> Result<Event, NoMemory>
    requires next { who.number ≡ next_number who.caller array.old.parts.entries }
    requires caller { who.caller ≢ 254 }
    ensures replied { IfOk result (λ event. IsAnsweredWith (list_length array.old.parts.members.newest) (AsksGrow wish) who array.old.parts.entries array.new.parts.entries event) }
    ensures unchanged { IfErr result (λ none. array.new ≡ array.old) }
    ensures ended { IfOk result (λ event. IsEndOf B.tells array.new.parts.first array.new.parts.entries (B.tape array.new.parts.bank)) }
    ensures went { HasGoneOn B.tells B.given B.tape B.faults_of array.old array.new }
{
    match crate::planning::plan_grow(array, who, wish) {
        Ok(left) => Ok(Event::Planned { left, wish }),
        Err(Fault::Refused(refusal)) => Ok(Event::Refused { refusal }),
        Err(Fault::NoMemory) => Err(NoMemory {}),
    }
}

fn show<B: Bank>(array: &mut Running<B>, who: Who) -> Result<Event, NoMemory>
    requires next { who.number ≡ next_number who.caller array.old.parts.entries }
    requires caller { who.caller ≢ 254 }
    ensures shown { IfOk result (λ event. IsShownBy who array.old array.new.parts.entries event) }
    ensures unchanged { IfErr result (λ none. array.new ≡ array.old) }
    ensures ended { IfOk result (λ event. IsEndOf B.tells array.new.parts.first array.new.parts.entries (B.tape array.new.parts.bank)) }
    ensures went { HasGoneOn B.tells B.given B.tape B.faults_of array.old array.new }
{
    match crate::showing::status(array, who) {
        Ok(status) => Ok(Event::Shown { status }),
        Err(none) => Err(none),
    }
}

// The event of the request's reply.
fn answer<B: Bank>(
    alloc: Global,
    array: &mut Running<B>,
    who: Who,
    request: Request,
) -> Result<Event, NoMemory>
    requires next { who.number ≡ next_number who.caller array.old.parts.entries }
    requires caller { who.caller ≢ 254 }
    requires askable { IsAskable request }
    ensures replied { IfOk result (λ event. IsPerformed request who array.old array.new.parts.entries event) }
    ensures counted { IfOk result (λ event. IsCountedBy request array.old array.new event) }
    ensures rest { IfOk result (λ event. RestsBehind request array.new) }
    ensures unchanged { IfErr result (λ none. array.new ≡ array.old) }
    ensures ended { IfOk result (λ event. IsEndOf B.tells array.new.parts.first array.new.parts.entries (B.tape array.new.parts.bank)) }
    ensures went { HasGoneOn B.tells B.given B.tape B.faults_of array.old array.new }
{
    match request {
        Request::Read { at, count } => read(alloc, array, who, at, count),
        Request::Write { at, body } => write(array, who, at, body),
        Request::Flush => flush(array, who),
        Request::Fail { role } => fail(array, who, role),
        Request::Add { slot } => add(array, who, slot),
        Request::Visible { limit: wished } => set_limit(array, who, wished),
        Request::Grow { wish } => grow(array, who, wish),
        Request::Steps { most } => steps(array, who, most),
        Request::Show => show(array, who),
    }
}

/// Does a request, and answers with the place of its reply's entry and a copy of its event; `NoMemory` has done nothing.
pub fn perform<B: Bank>(alloc: Global, array: &mut Running<B>, who: Who, request: Request) -> Reply
    requires next { who.number ≡ next_number who.caller array.old.parts.entries }
    requires caller { who.caller ≢ 254 }
    requires askable { IsAskable request }
    ensures replied { IsRepliedBy request who array.old array.new result }
    ensures counted { OnReply result (λ event. IsCountedBy request array.old array.new event) }
    ensures entered { HasEntered array.old array.new }
    ensures ended { OnReply result (λ event. IsEndOf B.tells array.new.parts.first array.new.parts.entries (B.tape array.new.parts.bank)) }
    ensures went { HasGoneOn B.tells B.given B.tape B.faults_of array.old array.new }
{
    match answer(alloc, array, who, request) {
        Ok(event) => Reply::Done {
            at: array.epoch().entries.len() as u64 - 1,
            event,
        },
        Err(_) => Reply::NoMemory,
    }
}

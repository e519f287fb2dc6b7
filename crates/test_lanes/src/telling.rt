//! What lanes and a worker were answered.
use crate::joining::Ran;
use history::{Entries, Event};
use lane_shared::{Reply, Worked};
use raid_types::Refusal;

/// The turns of a worker, the steps that were done in them, how many the last reply left, and what refused the next one.
pub(crate) type Told = (u64, u64, Option<u64>, Option<Refusal>);

// How many steps the reply leaves, and what refused the next one.
fn left_by(reply: &Reply) -> (Option<u64>, Option<Refusal>) {
    let Reply::Done { at: _, event } = reply else {
        return (None, None);
    };
    match event {
        Event::Stepped { left, ended, .. } => (Some(*left), *ended),
        Event::Refused { refusal } => (None, Some(*refusal)),
        _ => (None, None),
    }
}

pub(crate) fn told_of(worked: &Worked) -> Told {
    let (left, ended) = left_by(&worked.last);
    (worked.turns, worked.done, left, ended)
}

/// Whether memory was short.
pub(crate) fn is_short(reply: &Reply) -> bool {
    matches!(reply, Reply::NoMemory)
}

// Whether an event of a lane is that of its first, second or third request. What it read has this byte.
fn is_of(event: &Event, request: usize, byte: u8) -> bool {
    match event {
        Event::Wrote { .. } => request == 0,
        Event::Read { at: _, body } => request == 1 && body.as_bytes() == [byte; 512].as_slice(),
        Event::Flushed => request == 2,
        _ => false,
    }
}

// The place of the reply to such a request.
fn place_of(reply: &Reply, request: usize, byte: u8) -> Option<u64> {
    match reply {
        Reply::Done { at, event } => if is_of(event, request, byte) {
            Some(*at)
        } else {
            None
        },
        Reply::NoMemory => None,
    }
}

// Whether a lane that wrote this byte, read and flushed was answered in full, at one place behind another.
fn is_answered(replies: &[Reply], byte: u8) -> bool {
    if replies.len() != 3 {
        return false;
    }
    let wrote = place_of(&replies[0], 0, byte);
    let read = place_of(&replies[1], 1, byte);
    let flushed = place_of(&replies[2], 2, byte);
    wrote.is_some() && wrote < read && read < flushed
}

// Whether the reply tells an entry of this caller at its place.
fn stands(entries: &Entries, reply: &Reply, caller: u32) -> bool {
    let Reply::Done { at, event: _ } = reply else {
        return false;
    };
    *at < entries.len() as u64 && entries.get(*at as usize).caller == caller
}

// Whether each reply tells an entry of this caller.
fn all_stand(entries: &Entries, replies: &[Reply], caller: u32) -> bool {
    for reply in replies {
        if !stands(entries, reply, caller) {
            return false;
        }
    }
    true
}

// Whether lanes of these two bytes were answered in full, and all replies tell entries of their callers.
fn is_told(ran: &Ran, bytes: (u8, u8)) -> bool {
    let entries = &ran.epoch.entries;
    is_answered(&ran.first, bytes.0)
        && is_answered(&ran.second, bytes.1)
        && all_stand(entries, &ran.first, 1)
        && all_stand(entries, &ran.second, 2)
        && stands(entries, &ran.worked.last, 255)
}

/// What the worker tells, if the lanes, of these two bytes, were answered as they should be.
pub(crate) fn told_by(ran: &Ran, bytes: (u8, u8)) -> Option<Told> {
    if is_told(ran, bytes) {
        Some(told_of(&ran.worked))
    } else {
        None
    }
}

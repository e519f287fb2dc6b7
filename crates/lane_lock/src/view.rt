//! What a seat knows, and the rule of the table.
ghost use Rattle.std.specs.Prelude.{List, [], ◌∷◌};

use crate::call::Call;
use crate::served::Served;
use atomic_table::{Join, Play, Split, TableRule};
use std::collections::LinkedList;
use std::marker::{Brand, PhantomData};

/// What a lock was begun with.
#[derive(Drop)]
pub struct Origin<T> {
    pub value: T,
    pub callers: Vec<u32>,
}

/// What was seen: the value at the start and the newest, and what was known before two seats met.
pub struct Known<T> {
    pub start: T,
    pub seen: T,
    pub one: T,
    pub two: T,
}

/// A caller, and its own calls so far.
pub struct Hand<Q> {
    pub caller: u32,
    pub mine: LinkedList<Call<Q>>,
}

/// What a seat knows. No value of it is made.
pub struct View<T, Q> {
    pub known: Option<Known<T>>,
    pub hands: LinkedList<Hand<Q>>,
    /// Whether it holds the turn.
    pub turn: bool,
    /// Whether the lock was only just made, and the slot was never taken.
    pub first: bool,
}

/// The request of a turn, for the proof alone.
pub trait Telling<Q> {
    ghost requests: { List Q };
}

impl<Q> Telling<Q> for Brand {
    ghost requests = { [] };
}

/// The rule of the lock, which each step keeps.
pub struct Law<A> {
    marker: PhantomData<A>,
}

impl<T: Served<Q, A>, Q, A> TableRule<Option<T>, View<T, Q>, Origin<T>> for Law<A> {
    ghost use Rattle.lane_lock.specs.Turns.{Kept, newcomer};

    ghost holds = { λ o. Kept T.ways o };

    ghost first = { λ o. newcomer o };
}

/// The turn is taken, with the value; or nothing is done, where the word was not the one expected.
pub struct Take<A> {
    marker: PhantomData<A>,
}

impl<T: Served<Q, A>, Q, A> Play<Option<T>, View<T, Q>> for Take<A> {
    ghost use Rattle.lane_lock.specs.Turns.{Takes};

    ghost then = { Takes T.ways };
}

/// The turn ends: the value is back, and the seat has seen its whole history.
pub struct Release<A, J> {
    marker: PhantomData<(A, J)>,
}

impl<T: Served<Q, A>, Q, A, J: Telling<Q>> Play<Option<T>, View<T, Q>> for Release<A, J> {
    ghost use Rattle.lane_lock.specs.Turns.{Releases};

    ghost then = { Releases T.ways J.requests };
}

/// The first turn, which begins with the slot empty.
pub struct Start<A> {
    marker: PhantomData<A>,
}

impl<T: Served<Q, A>, Q, A> Play<Option<T>, View<T, Q>> for Start<A> {
    ghost use Rattle.lane_lock.specs.Turns.{Starts};

    ghost then = { Starts T.ways };
}

/// Nothing is done. It tells that what two seats had seen before they met begins what is seen now.
pub struct Learn<A> {
    marker: PhantomData<A>,
}

impl<T: Served<Q, A>, Q, A> Play<Option<T>, View<T, Q>> for Learn<A> {
    ghost use Rattle.lane_lock.specs.Turns.{Learns};

    ghost then = { Learns T.ways };
}

/// The first caller of a seat gets a seat of its own.
pub struct Cut;

impl<T, Q> Split<View<T, Q>> for Cut {
    ghost use Rattle.lane_lock.specs.Turns.{cut_left, cut_right};

    ghost left = { cut_left };

    ghost right = { cut_right };
}

/// A copy that stands for no caller.
pub struct Copied;

impl<T, Q> Split<View<T, Q>> for Copied {
    ghost use Rattle.lane_lock.specs.Turns.{calm, copied};

    ghost left = { calm };

    ghost right = { copied };
}

/// Two seats made one, which has seen what either had seen.
pub struct Union<A> {
    marker: PhantomData<A>,
}

impl<T: Served<Q, A>, Q, A> Join<View<T, Q>> for Union<A> {
    ghost use Rattle.lane_lock.specs.Turns.{joined, spent};

    ghost both = { joined T.ways };

    ghost spent = { spent };
}

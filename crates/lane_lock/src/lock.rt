//! The lock, and the passes by which callers use it.
ghost use Rattle.std.specs.Prelude.{◌≡◌, ◌+◌, ◌<◌, ◌≤◌, ◌^◌, ◌++◌, [], ◌∷◌, true, false, None, Some, length, List, IsSome, IfOk, IfErr};
ghost use mathlib.Core.Option.{none};
ghost use Rattle.atomic_table.specs.Table.{Me, step};
ghost use Rattle.lane_lock.specs.Turns.{OnKnown, OnSeen, holding, callers_of, mine_of, Took, Turned, Releases, Called, Met, AreDistinct, fresh, resting, cut_left, cut_right, Gathered, Closed};
ghost use Rattle.lane_lock.specs.declared.call.Call.{Call};
ghost use Rattle.lane_lock.specs.declared.view.Hand.{Hand};

use crate::served::Served;
use crate::view::{Copied, Cut, Law, Learn, Origin, Release, Start, Take, Telling, Union, View};
use atomic_table::{Seat, Table};
use std::alloc::Global;
use std::marker::Brand;
use std::sync::Wait;

/// A value that several callers share, one at a time.
#[derive(Drop)]
pub struct Lock<T: Served<Q, A>, Q, A> {
    table: Table<Option<T>, View<T, Q>, Origin<T>, Law<A>, Global>,
    alloc: Global,
    ghost one: { (table.shared.table_id.words ≡ 1) × (table.shared.table_id.slots ≡ 1) },
    ghost some: { 0 < length table.shared.key.callers.items },
}

/// What a caller carries: all that it has seen, and its own calls.
#[derive(Drop)]
pub struct Pass<T, Q> {
    caller: u32,
    seat: Seat<Option<T>, View<T, Q>>,
    ghost idle: { (seat.me.1 ≡ []) × (seat.me.0.turn ≡ false) × (seat.me.0.first ≡ false) },
    ghost live: { IsSome seat.me.0.known },
    ghost whose: { callers_of seat.me.0.hands ≡ caller ∷ [] },
}

// Several callers at one seat, at the start and at the end. It makes no calls.
#[derive(Drop)]
pub(crate) struct Group<T, Q> {
    seat: Seat<Option<T>, View<T, Q>>,
    ghost idle: { (seat.me.1 ≡ []) × (seat.me.0.turn ≡ false) × (seat.me.0.first ≡ false) },
    ghost live: { IsSome seat.me.0.known },
}

impl<T: Served<Q, A> + Drop, Q, A> Lock<T, Q, A> {
    // A lock whose first seat stands for all callers.
    fn opened(
        alloc: Global,
        value: T,
        callers: Vec<u32>,
    ) -> Result<(Lock<T, Q, A>, Seat<Option<T>, View<T, Q>>), T>
        requires sound { T.ways.IsSound value }
        requires some { 0 < length callers.items }
        requires distinct { AreDistinct callers.items }
        ensures lock { IfOk result (λ t. (t.1.table_id ≡ t.0.table.shared.table_id) × (t.0.table.shared.key.value ≡ value) × (t.0.table.shared.key.callers.items ≡ callers.items)) }
        ensures seat { IfOk result (λ t. t.1.me ≡ (resting value value (fresh callers.items), [])) }
        ensures back { IfErr result (λ v. v ≡ value) }
    {
        let size = value.size();
        let origin = Origin { value, callers };
        let made = Table::vacant(alloc, &[2 * size + 1], 1, &origin);
        let Origin { value, callers: _ } = origin;
        let Ok((table, mut seat)) = made else {
            return Err(value);
        };
        table.shared.load::<Start<A>>(&mut seat, 0);
        let lock = Lock { table, alloc };
        lock.give::<Brand>(&mut seat, value);
        Ok((lock, seat))
    }

    // A lock round a value, and a group of all callers. It has seen the value as it is, and no call was made.
    pub(crate) fn start_group(
        alloc: Global,
        value: T,
        callers: Vec<u32>,
    ) -> Result<(Lock<T, Q, A>, Group<T, Q>), T>
        requires sound { T.ways.IsSound value }
        requires some { 0 < length callers.items }
        requires distinct { AreDistinct callers.items }
        ensures lock { IfOk result (λ t. (t.1.seat.table_id ≡ t.0.table.shared.table_id) × (t.0.table.shared.key.value ≡ value) × (t.0.table.shared.key.callers.items ≡ callers.items)) }
        ensures group { IfOk result (λ t. t.1.seat.me.0 ≡ resting value value (fresh callers.items)) }
        ensures back { IfErr result (λ v. v ≡ value) }
    {
        let (lock, seat) = Lock::opened(alloc, value, callers)?;
        Ok((lock, Group { seat }))
    }

    // The first caller of the group gets a pass. It has seen what the group had seen.
    pub(crate) fn deal(&self, group: Group<T, Q>, caller: u32) -> (Pass<T, Q>, Group<T, Q>)
        requires lock { group.seat.table_id ≡ self.now.table.shared.table_id }
        requires caller { (rest : List (Hand Q)) × (mine : List (Call Q)) × (group.seat.me.0.hands ≡ record { caller = caller; mine = mine } ∷ rest) }
        ensures same { (result.0.seat.table_id ≡ group.seat.table_id) × (result.1.seat.table_id ≡ group.seat.table_id) }
        ensures caller { result.0.caller ≡ caller }
        ensures pass { result.0.seat.me.0 ≡ cut_right group.seat.me.0 }
        ensures group { result.1.seat.me.0 ≡ cut_left group.seat.me.0 }
    {
        let Group { mut seat } = group;
        let own = self.table.shared.split_seat::<Cut>(&mut seat);
        (Pass { caller, seat: own }, Group { seat })
    }

    // The pass's caller stands at the group, which has then seen all that both had seen. It never waits.
    pub(crate) fn gather(&self, group: Group<T, Q>, pass: Pass<T, Q>) -> Group<T, Q>
        requires locks { (group.seat.table_id ≡ self.now.table.shared.table_id) × (pass.seat.table_id ≡ self.now.table.shared.table_id) }
        ensures same { result.seat.table_id ≡ group.seat.table_id }
        ensures hands { result.seat.me.0.hands ≡ pass.seat.me.0.hands ++ group.seat.me.0.hands }
        ensures gathered { Gathered T.ways group.seat.me.0 pass.seat.me.0 result.seat.me.0 }
    {
        let Group { mut seat } = group;
        let Pass {
            caller: _,
            seat: other,
        } = pass;
        self.table.shared.join_seat::<Union<A>>(&mut seat, other);
        self.table.shared.load::<Learn<A>>(&mut seat, 0);
        Group { seat }
    }

    // The value, once the group stands for all callers. Its history begins with all that the group has seen, and since the start
    // it has just the calls of each caller that were made, and none of anybody else.
    pub(crate) fn close_group(self, group: Group<T, Q>) -> T
        requires lock { group.seat.table_id ≡ self.table.shared.table_id }
        requires all { length group.seat.me.0.hands ≡ length self.table.shared.key.callers.items }
        ensures closed { Closed T.ways self.table.shared.key.value group.seat.me.0 result }
    {
        let Group { seat } = group;
        let Lock { table, alloc: _ } = self;
        let mut closed = table.close_with(seat);
        let slot = closed.take(0);
        closed.free();
        match slot {
            Some(value) => value,
            None => unreachable!(),
        }
    }

    // The pass's caller, alone in a group.
    pub(crate) fn alone(pass: Pass<T, Q>) -> Group<T, Q>
        ensures same { (result.seat.table_id ≡ pass.seat.table_id) × (result.seat.me.0 ≡ pass.seat.me.0) }
    {
        let Pass { caller: _, seat } = pass;
        Group { seat }
    }

    // Waits until the turn is this seat's.
    fn take<R: Wait>(
        &self,
        rt: &R,
        mut seat: Seat<Option<T>, View<T, Q>>,
    ) -> Seat<Option<T>, View<T, Q>>
        requires lock { seat.table_id ≡ self.now.table.shared.table_id }
        requires hands { 0 < length seat.me.0.hands }
        requires live { IsSome seat.me.0.known }
        ensures same { (result.table_id ≡ seat.table_id) × (result.id ≡ seat.id) }
        ensures took { Took T.ways seat.me result.me }
    {
        for _ in rt.forever() {
            let word = self.table.shared.peek(0);
            if word % 2 == 0 {
                let found = self
                    .table
                    .shared
                    .compare_exchange::<Take<A>>(&mut seat, 0, word, word + 1);
                if found == word {
                    break;
                }
            }
            self.table.shared.park(rt, 0, (word & 0xffff_ffff) as u32);
        }
        seat
    }

    // The value, out of the slot that was taken.
    fn lift(&self, seat: &mut Seat<Option<T>, View<T, Q>>) -> T
        requires lock { seat.old.table_id ≡ self.now.table.shared.table_id }
        requires taken { (x : T) × (seat.old.me.1 ≡ (0, Some x) ∷ []) }
        ensures same { (seat.new.table_id ≡ seat.old.table_id) × (seat.new.id ≡ seat.old.id) }
        ensures value { seat.old.me.1 ≡ (0, Some result) ∷ [] }
        ensures left { seat.new.me ≡ (seat.old.me.0, (0, None) ∷ []) }
    {
        match self.table.shared.exchange(seat, 0, None) {
            Some(value) => value,
            None => unreachable!(),
        }
    }

    // Puts the value back, and ends the turn.
    fn give<J: Telling<Q>>(&self, seat: &mut Seat<Option<T>, View<T, Q>>, value: T)
        requires lock { seat.old.table_id ≡ self.now.table.shared.table_id }
        requires taken { seat.old.me.1 ≡ (0, None) ∷ [] }
        requires turned { (start : T) × (found : T) × (seat.old.me.0 ≡ holding start found seat.old.me.0.hands) × Turned T.ways found value seat.old.me.0.hands J.requests }
        ensures same { (seat.new.table_id ≡ seat.old.table_id) × (seat.new.id ≡ seat.old.id) }
        ensures gave { Releases T.ways J.requests (step 0 0 0 0 none) (seat.old.me.0, (0, Some value) ∷ []) 0 seat.new.me }
    {
        let size = value.size();
        let None = self.table.shared.exchange(seat, 0, Some(value)) else {
            unreachable!()
        };
        self.table.shared.store::<Release<A, J>>(seat, 0, 2 * size);
    }

    // One request, of which `J` tells the proof.
    fn call_as<J: Telling<Q>, R: Wait>(
        &self,
        rt: &R,
        pass: Pass<T, Q>,
        request: Q,
    ) -> (Pass<T, Q>, A)
        requires lock { pass.seat.table_id ≡ self.now.table.shared.table_id }
        requires askable { T.ways.IsAskable pass.caller request }
        requires told { J.requests ≡ request ∷ [] }
        ensures same { (result.0.seat.table_id ≡ pass.seat.table_id) × (result.0.caller ≡ pass.caller) }
        ensures called { Called T.ways pass.seat.me.0 pass.caller request result.1 result.0.seat.me.0 }
    {
        let Pass { caller, seat } = pass;
        let mut seat = self.take(rt, seat);
        let mut value = self.lift(&mut seat);
        let reply = value.serve(self.alloc, caller, request);
        self.give::<J>(&mut seat, value);
        self.table.shared.wake_one(0);
        (Pass { caller, seat }, reply)
    }

    /// Takes the turn, has the request answered, and ends the turn. It may wait. Where memory is short for the answer, the value
    /// is left as it was.
    pub fn call<R: Wait>(&self, rt: &R, pass: Pass<T, Q>, request: Q) -> (Pass<T, Q>, A)
        requires lock { pass.seat.table_id ≡ self.now.table.shared.table_id }
        requires askable { T.ways.IsAskable pass.caller request }
        ensures same { (result.0.seat.table_id ≡ pass.seat.table_id) × (result.0.caller ≡ pass.caller) }
        ensures called { Called T.ways pass.seat.me.0 pass.caller request result.1 result.0.seat.me.0 }
    {
        self.call_as::<Brand, R>(rt, pass, request)
    }

    /// Both have then seen what either had seen, and stay what they were else. It never waits and takes no memory.
    pub fn meet(&self, first: Pass<T, Q>, second: Pass<T, Q>) -> (Pass<T, Q>, Pass<T, Q>)
        requires locks { (first.seat.table_id ≡ self.now.table.shared.table_id) × (second.seat.table_id ≡ self.now.table.shared.table_id) }
        ensures first { (result.0.seat.table_id ≡ first.seat.table_id) × (result.0.caller ≡ first.caller) × (result.0.seat.me.0.hands ≡ first.seat.me.0.hands) }
        ensures second { (result.1.seat.table_id ≡ second.seat.table_id) × (result.1.caller ≡ second.caller) × (result.1.seat.me.0.hands ≡ second.seat.me.0.hands) }
        ensures met { Met T.ways first.seat.me.0 second.seat.me.0 result.0.seat.me.0 result.1.seat.me.0 }
    {
        let Pass { caller, mut seat } = first;
        let Pass {
            caller: other_caller,
            seat: mut other,
        } = second;
        let copy = self.table.shared.split_seat::<Copied>(&mut other);
        self.table.shared.join_seat::<Union<A>>(&mut seat, copy);
        self.table.shared.load::<Learn<A>>(&mut seat, 0);
        let mut both = self.table.shared.split_seat::<Copied>(&mut seat);
        self.table.shared.join_seat::<Union<A>>(&mut both, other);
        (
            Pass { caller, seat },
            Pass {
                caller: other_caller,
                seat: both,
            },
        )
    }
}

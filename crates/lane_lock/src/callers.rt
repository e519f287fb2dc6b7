//! A lock from its first call to its last: a pass for each caller, and the value once all are back.
ghost use Rattle.std.specs.Prelude.{◌≡◌, ◌<◌, length, IfOk, IfErr};
ghost use Rattle.lane_lock.specs.Turns.{AreDistinct};
ghost use Rattle.lane_lock.specs.Passes.{AreNew, EachPass, Ended};

use crate::lock::{Lock, Pass};
use crate::served::Served;
use std::alloc::Global;

impl<T: Served<Q, A> + Drop, Q, A> Lock<T, Q, A> {
    /// A lock round a value, and a pass for each caller, in their order. Each has seen the value as it is, and has made no call.
    /// Where memory is short the value comes back as it was.
    pub fn start(
        alloc: Global,
        value: T,
        callers: &[u32],
    ) -> Result<(Lock<T, Q, A>, Vec<Pass<T, Q>>), T>
        requires sound { T.ways.IsSound value }
        requires some { 0 < length callers.now }
        requires distinct { AreDistinct callers.now }
        ensures lock { IfOk result (λ t. (t.0.table.shared.key.value ≡ value) × (t.0.table.shared.key.callers.items ≡ callers.now)) }
        ensures passes { IfOk result (λ t. AreNew t.0.table.shared.table_id value callers.now t.1.items) }
        ensures back { IfErr result (λ v. v ≡ value) }
    {
        let Ok(list) = Vec::from_slice(alloc, callers) else {
            return Err(value);
        };
        let Ok(mut passes) = Vec::with_capacity(alloc, callers.len()) else {
            return Err(value);
        };
        let (lock, mut group) = Lock::start_group(alloc, value, list)?;
        let mut dealt = 0;
        while dealt < callers.len() {
            let (pass, others) = lock.deal(group, callers[dealt]);
            group = others;
            let _ = passes.push(pass);
            dealt += 1;
        }
        Ok((lock, passes))
    }

    /// The value, once all passes are back. Its history begins with all that each pass has seen, and since the start it has just
    /// the calls that the passes tell: each caller's own, once and in its order, and none of anybody else.
    pub fn close(self, passes: Vec<Pass<T, Q>>) -> T
        requires lock { EachPass (λ p. p.seat.table_id ≡ self.table.shared.table_id) passes.items }
        requires all { length passes.items ≡ length self.table.shared.key.callers.items }
        ensures ended { Ended T.ways self.table.shared.key.value passes.items result }
    {
        let mut passes = passes;
        let Some(last) = passes.pop() else {
            unreachable!()
        };
        let mut group = Lock::alone(last);
        while let Some(pass) = passes.pop() {
            group = self.gather(group, pass);
        }
        self.close_group(group)
    }
}

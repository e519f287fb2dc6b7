//! What a lock may keep.
ghost use Rattle.std.specs.Prelude.{◌≡◌, ◌<◌, ◌^◌, MatchBool};
ghost use Rattle.lane_lock.specs.Ways.{Ways, IsLawful};

use std::alloc::Global;

/// A value with a history, which answers the requests of numbered callers.
pub trait Served<Q, A> {
    /// How its values and histories are told apart.
    ghost ways: { Ways Self Q A };

    /// The length of the history.
    fn size(&self) -> u64
        ensures size { result ≡ ways.size self.now }
        ensures small { result < 2 ^ 62 };

    /// Answers a request. Either it stands in the history afterwards, or nothing has changed.
    fn serve(&mut self, alloc: Global, caller: u32, request: Q) -> A
        requires sound { ways.IsSound self.old }
        requires askable { ways.IsAskable caller request }
        ensures served { MatchBool (ways.is_done result) (ways.Adds self.old self.new caller request result) (self.new ≡ self.old) };

    ghost lawful: { IsLawful ways };
}

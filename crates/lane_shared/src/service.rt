//! What answers the requests of callers that share an array.
ghost use Rattle.std.specs.Prelude.{◌≡◌, ◌≢◌};
ghost use Rattle.history_caller_laws.specs.history_the_Request.{Request};
ghost use Rattle.array_requests.specs.declared.reply.Reply.{Reply};
ghost use Rattle.array_requests.specs.Replies.{IsAskable};
ghost use Rattle.lane_shared.specs.Carried.{Carried, GoesOn, IsOwn, IsAnswered};

use array_requests::Reply;
use history_caller_laws::Request;
use std::sync::Wait;

/// An array that answers callers, one at a time. Each has a pass.
pub trait Service {
    type Pass;

    /// Holds where the bank beneath tells its contents.
    ghost tells: { Type 0 };

    /// The names of locks.
    ghost LockName: { Type 0 };

    /// Its lock.
    ghost lock: { Self → LockName };

    /// The lock that a pass is of.
    ghost lock_of: { Self.Pass → LockName };

    /// What a pass carries.
    ghost carried: { Self.Pass → Carried };

    /// A call with the first pass has answered this request by this reply, and has given back the second pass.
    ghost answered: { Self.Pass → Request → Reply → Self.Pass → Type 0 };

    /// Has the request done in the caller's next call. It may wait. Where memory is short nothing is done.
    fn call<R: Wait>(&self, rt: &R, pass: Self::Pass, request: Request) -> (Self::Pass, Reply)
        requires lock { lock_of pass ≡ lock self.now }
        requires caller { (carried pass).caller ≢ 254 }
        requires askable { IsAskable request }
        ensures answered { answered pass request result.1 result.0 }
        ensures lock { lock_of result.0 ≡ lock_of pass }
        ensures later { GoesOn tells (carried pass) (carried result.0) }
        ensures entered { IsAnswered tells (carried pass) request result.1 (carried result.0) }
        ensures own { IsOwn (carried result.0) };
}

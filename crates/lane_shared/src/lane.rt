//! A lane: requests of one caller, one after another.
ghost use Rattle.std.specs.Prelude.{◌≡◌, ◌≢◌, ◌+◌, ◌<◌, ◌≤◌, ◌++◌, [], ◌∷◌, List, vec_len, vec_capacity};
ghost use Rattle.std.specs.List.{All};
ghost use Rattle.array_requests.specs.declared.reply.Reply.{Reply};
ghost use Rattle.array_requests.specs.Replies.{IsAskable};
ghost use Rattle.lane_shared.specs.Carried.{GoesOn, IsOwn, IsAnswered};
ghost use Rattle.lane_shared.specs.Lane.{AreCalls, AreDone, is_short};

use crate::service::Service;
use array_requests::Reply;
use history_caller_laws::Request;
use std::sync::Wait;

// Whether the reply tells that memory was short.
fn was_short(reply: &Reply) -> bool
    ensures { result ≡ is_short reply.now }
{
    matches!(reply, Reply::NoMemory)
}

// Appends a reply, for which there is room.
fn put(replies: &mut Vec<Reply>, reply: Reply)
    requires room { vec_len replies.old < vec_capacity replies.old }
    ensures items { replies.new.items ≡ replies.old.items ++ reply ∷ [] }
    ensures len { vec_len replies.new ≡ vec_len replies.old + 1 }
    ensures capacity { vec_capacity replies.old ≤ vec_capacity replies.new }
{
    let _ = replies.push(reply);
}

// Makes one request, appends its reply, and tells whether memory was short.
fn make<R: Wait, S: Service>(
    rt: &R,
    service: &S,
    pass: S::Pass,
    request: Request,
    replies: &mut Vec<Reply>,
) -> (S::Pass, bool)
    requires lock { S.lock_of pass ≡ S.lock service.now }
    requires caller { (S.carried pass).caller ≢ 254 }
    requires askable { IsAskable request }
    requires room { vec_len replies.old < vec_capacity replies.old }
    ensures lock { S.lock_of result.0 ≡ S.lock_of pass }
    ensures later { GoesOn S.tells (S.carried pass) (S.carried result.0) }
    ensures own { IsOwn (S.carried result.0) }
    ensures answered { (reply : Reply) × (replies.new.items ≡ replies.old.items ++ reply ∷ []) × (result.1 ≡ is_short reply) × S.answered pass request reply result.0 × IsAnswered S.tells (S.carried pass) request reply (S.carried result.0) }
    ensures len { vec_len replies.new ≡ vec_len replies.old + 1 }
    ensures capacity { vec_capacity replies.old ≤ vec_capacity replies.new }
{
    let (pass, reply) = service.call(rt, pass, request);
    let short = was_short(&reply);
    put(replies, reply);
    (pass, short)
}

/// Makes the requests in their order, and appends a reply for each; it stops behind one that tells that memory was short. `replies`
/// has room for as many as there are requests.
pub fn run_lane<R: Wait, S: Service>(
    rt: &R,
    service: &S,
    pass: S::Pass,
    requests: Vec<Request>,
    replies: &mut Vec<Reply>,
) -> S::Pass
    requires lock { S.lock_of pass ≡ S.lock service.now }
    requires caller { (S.carried pass).caller ≢ 254 }
    requires askable { All IsAskable requests.items }
    requires room { vec_len replies.old + vec_len requests ≤ vec_capacity replies.old }
    ensures lock { S.lock_of result ≡ S.lock_of pass }
    ensures later { GoesOn S.tells (S.carried pass) (S.carried result) }
    ensures own { IsOwn (S.carried pass) → IsOwn (S.carried result) }
    ensures done { (made : List Reply) × (replies.new.items ≡ replies.old.items ++ made) × AreCalls S.answered pass requests.items made result × AreDone (S.carried pass) (S.carried result) requests.items made }
{
    let mut pass = pass;
    for request in requests {
        let (next, short) = make(rt, service, pass, request, replies);
        pass = next;
        if short {
            return pass;
        }
    }
    pass
}

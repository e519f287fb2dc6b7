//! A service for which memory is always short.
ghost use Rattle.std.specs.Prelude.{⊤};

use history::Request;
use lane_shared::{Reply, Service};
use std::sync::Wait;

#[derive(Drop)]
pub(crate) struct Full {}

/// The pass of a caller that is never served.
#[derive(Drop)]
pub(crate) struct Ticket {
    pub(crate) caller: u32,
}

impl Service for Full {
    ghost use Rattle.std.specs.Prelude.{⊤, []};
    ghost use Rattle.test_lanes.specs.Tickets.{nothing_seen};

    type Pass = Ticket;

    ghost tells = { ⊤ };

    ghost LockName = { ⊤ };

    ghost lock = { λ service. tt };

    ghost lock_of = { λ ticket. tt };

    ghost carried = { λ ticket. record { caller = ticket.caller; sectors = 0; start = []; seen = nothing_seen; mine = [] } };

    ghost answered = { λ ticket request reply ticket'. ⊤ };

    fn call<R: Wait>(&self, _rt: &R, pass: Ticket, _request: Request) -> (Ticket, Reply) {
        (pass, Reply::NoMemory)
    }
}

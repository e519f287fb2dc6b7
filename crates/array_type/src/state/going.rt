//! A call that goes on.

ghost use Rattle.std.specs.Prelude.{◌≤◌, length};
ghost use Rattle.array_reshaping_laws.specs.history_invariant_Recorded.{IsCallGoing};

use array_parts::Entries;
use array_state::Who;

/// The number of a call that goes on is at most the number of entries.
pub fn check_going(entries: &Entries, who: Who)
    requires { IsCallGoing entries.now.items who }
    ensures { who.number ≤ length entries.now.items }
{
    let _ = entries.next_number(who.caller);
}

//! The entries of a call.

ghost use Rattle.std.specs.Prelude.{◌≡◌, ◌++◌, [], ◌∷◌, ◌+◌, ◌<◌, ◌≤◌, ℕ, length};
ghost use Rattle.array_members.specs.history_Flat.{next_number};
ghost use Rattle.array_members.specs.history_OneShape.{IsCallOpen};
ghost use Rattle.array_members.specs.history_Plain.{entries_of};
ghost use Rattle.history_append.specs.Losing.{losses_of, failure_events};
ghost use Rattle.array_members.specs.history_the_Event_TheVariants.{Refused as Refuses};

use crate::losses::append_losses;
use history_laws::{Entries, Entry, Epoch, Event, Refusal, Sectors, Who};

/// The caller's next number, which is at most the number of entries.
pub fn check_number(entries: &Entries, who: Who)
    requires { who.number ≡ next_number who.caller entries.now.items }
    ensures { who.number ≤ length entries.now.items }
{
    let _ = entries.next_number(who.caller);
}

/// The number of a call that is open is at most the number of entries.
pub fn check_open(entries: &Entries, who: Who)
    requires { IsCallOpen entries.now.items who }
    ensures { who.number ≤ length entries.now.items }
{
    let _ = entries.next_number(who.caller);
}

/// One entry of a call, for which there is room.
pub fn append_entry(epoch: &mut Epoch, who: Who, end: u64, event: Event)
    requires room { 0 < epoch.old.entries.room }
    requires number { who.number ≤ length epoch.old.entries.items }
    ensures items { epoch.new.entries.items ≡ epoch.old.entries.items ++ entries_of who end (event ∷ []) }
    ensures room { epoch.old.entries.room ≤ epoch.new.entries.room + 1 }
    ensures uuid { epoch.new.uuid ≡ epoch.old.uuid }
    ensures given { epoch.new.given ≡ epoch.old.given }
    ensures first { epoch.new.first ≡ epoch.old.first }
    ensures last { epoch.new.last ≡ end }
{
    epoch.last = end;
    epoch.entries.put(Entry {
        caller: who.caller,
        number: who.number,
        end,
        event,
    });
}

/// An event behind the losses of these roles and spares.
pub fn append_after_losses(
    epoch: &mut Epoch,
    who: Who,
    end: u64,
    roles: u32,
    spares: u32,
    event: Event,
)
    requires room { 49 ≤ epoch.old.entries.room }
    requires number { who.number ≤ length epoch.old.entries.items }
    ensures items { epoch.new.entries.items ≡ epoch.old.entries.items ++ entries_of who end (losses_of roles spares ++ event ∷ []) }
    ensures room { epoch.old.entries.room ≤ epoch.new.entries.room + 49 }
    ensures uuid { epoch.new.uuid ≡ epoch.old.uuid }
    ensures given { epoch.new.given ≡ epoch.old.given }
    ensures first { epoch.new.first ≡ epoch.old.first }
    ensures last { epoch.new.last ≡ end }
{
    append_losses(epoch, who, end, roles, spares);
    append_entry(epoch, who, end, event);
}

/// The losses of these roles and spares alone.
pub fn append_lost(epoch: &mut Epoch, who: Who, end: u64, roles: u32, spares: u32)
    requires room { 48 ≤ epoch.old.entries.room }
    requires number { who.number ≤ length epoch.old.entries.items }
    ensures items { epoch.new.entries.items ≡ epoch.old.entries.items ++ entries_of who end (losses_of roles spares) }
    ensures room { epoch.old.entries.room ≤ epoch.new.entries.room + 48 }
    ensures uuid { epoch.new.uuid ≡ epoch.old.uuid }
    ensures given { epoch.new.given ≡ epoch.old.given }
    ensures first { epoch.new.first ≡ epoch.old.first }
    ensures last { epoch.new.last ≡ end }
{
    append_losses(epoch, who, end, roles, spares);
    epoch.last = end;
}

/// A write that lost these roles and spares, and is refused: what it may have left counts where its rows had begun to be
/// written.
pub fn append_failure(
    epoch: &mut Epoch,
    who: Who,
    end: u64,
    roles: u32,
    spares: u32,
    torn: bool,
    at: u64,
    body: Sectors,
    refusal: Refusal,
)
    requires room { 50 ≤ epoch.old.entries.room }
    requires number { who.number ≤ length epoch.old.entries.items }
    ensures items { epoch.new.entries.items ≡ epoch.old.entries.items ++ entries_of who end (failure_events roles spares torn at body refusal) }
    ensures room { epoch.old.entries.room ≤ epoch.new.entries.room + 50 }
    ensures uuid { epoch.new.uuid ≡ epoch.old.uuid }
    ensures given { epoch.new.given ≡ epoch.old.given }
    ensures first { epoch.new.first ≡ epoch.old.first }
    ensures last { epoch.new.last ≡ end }
{
    if !torn {
        append_after_losses(epoch, who, end, roles, spares, Event::Refused { refusal });
        return;
    }
    append_after_losses(epoch, who, end, roles, spares, Event::Torn { at, body });
    append_entry(epoch, who, end, Event::Refused { refusal });
}

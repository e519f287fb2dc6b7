//! Whether an array's backup can serve a reshape.

ghost use Rattle.array_transition.specs.sb_specs_Reading.{is_reshaping};
ghost use Rattle.std.specs.Prelude.{◌≡◌, ◌<◌, ◌≤◌, ℕ, true, false, length, Some, IfSome};
ghost use Rattle.array_grow.specs.Plans.{IsAside};

use array_reply_specs::{Bank, is_spare};
use array_transition::{Array, Members, contains, holds_role};

// Whether the slot was found sound, holds no role and is no spare.
fn is_aside(members: &Members, given: u32, slot: u32) -> bool
    requires few { length members.now.roles ≤ 16 }
    ensures yes { result ≡ true → IsAside given members.now slot }
    ensures no { result ≡ false → slot < 32 → IsAside given members.now slot → ⊥ }
{
    if slot >= 32 {
        return false;
    }
    if !contains(given, slot) {
        return false;
    }
    if is_spare(members, slot) {
        return false;
    }
    !holds_role(members, slot)
}

/// Whether the array's backup, if there is one, was found sound, holds no role and is no spare; the array is as it was.
pub fn can_back<B: Bank>(still: Array<B>) -> (Array<B>, bool)
    requires still { is_reshaping still.parts.members.newest ≡ false }
    ensures same { result.0 ≡ still }
    ensures yes { result.1 ≡ true → IfSome still.parts.backup (λ slot. IsAside still.parts.given still.parts.members slot) }
    ensures no { result.1 ≡ false → (slot : ℕ) × (still.parts.backup ≡ Some slot) × (slot < 32 → IsAside still.parts.given still.parts.members slot → ⊥) }
    ensures still { is_reshaping result.0.parts.members.newest ≡ false }
{
    let pieces = still.part_fixed();
    let can = match pieces.backup {
        None => true,
        Some(slot) => is_aside(&pieces.members, pieces.epoch.given, slot),
    };
    (Array::of_fixed(pieces), can)
}

//! Sets of slots, one bit for each.

ghost use Rattle.std.specs.Prelude.{◌≡◌, ◌<◌, ◌==◌, ◌||◌, ◌&&◌, ℕ, not};
ghost use Rattle.reshape_geometry.specs.raid_types_Shapes.{has_slot};

/// Whether the slot is in the set.
pub fn contains(set: u32, slot: u32) -> bool
    requires { slot < 32 }
    ensures { result ≡ has_slot set slot }
{
    (set >> slot) % 2 == 1
}

/// The set with this slot.
pub fn with(set: u32, slot: u32) -> u32
    requires { slot < 32 }
    ensures { (s : ℕ) → has_slot result s ≡ (has_slot set s || (slot == s)) }
{
    set | 1 << slot
}

/// The slots of the one set that are not in the other.
pub fn without(set: u32, other: u32) -> u32
    ensures { (s : ℕ) → s < 32 → has_slot result s ≡ (has_slot set s && not (has_slot other s)) }
{
    set & !other
}

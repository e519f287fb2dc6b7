//! Which spare takes the next role that is rebuilt.

ghost use Rattle.std.specs.Prelude.{◌≡◌};
ghost use Rattle.array_type.specs.Rebuilding.{first_spare};

use array_reshaping_laws::is_spare;
use sb_election::Members;

/// The lowest spare.
pub fn first_spare(members: &Members) -> Option<u32>
    ensures { result ≡ first_spare members.now }
{
    for slot in 0..32u32 {
        if is_spare(members, slot) {
            return Some(slot);
        }
    }
    None
}

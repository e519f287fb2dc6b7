//! The first bytes of a file.

ghost use Rattle.std.specs.Prelude.{◌≡◌};
ghost use Rattle.tool_warnings.specs.Fronts.{superblock_at};

use sb_codec::{Sb, decode};

/// The superblock in a file's first bytes; `None` where there is no valid one, or the file is too short for one.
#[tactic(auto, unfolding(crate::specs::Fronts::superblock_at))]
pub fn superblock_in(front: &[u8]) -> Option<Sb>
    ensures { result ≡ superblock_at front.now }
{
    if front.len() < 5120 {
        return None;
    }
    let mut sectors = [0u8; 1024];
    sectors.copy_from_slice(&front[4096..5120]);
    decode(&sectors)
}

//! Refused feature bits.

ghost use Rattle.std.specs.Prelude.{◌≡◌};
ghost use Rattle.sb_specs.specs.Verdict.{unsupported};

use sb_specs::{Features, Refusal, Sb};

/// The refused bits of the first fresh slot that has some.
pub fn unsupported(fresh: &[(Sb, u64)]) -> Option<Refusal>
    ensures { result ≡ unsupported fresh.now }
{
    for (sb, _) in fresh {
        let bits = Features::of(sb).refused().0;
        if bits != 0 {
            return Some(Refusal::Unsupported(bits.into()));
        }
    }
    None
}

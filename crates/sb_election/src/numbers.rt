//! Device numbers that two slots have.

ghost use Rattle.std.specs.Prelude.{◌≡◌};
ghost use Rattle.sb_specs.specs.Verdict.{has_dev, lower, shared_dev, two_holders};

use sb_specs::{Refusal, Sb};

/// The lowest device number that two fresh slots have.
pub fn two_holders(fresh: &[(Sb, u64)]) -> Option<Refusal>
    ensures { result ≡ two_holders fresh.now }
{
    match shared_dev(fresh) {
        None => None,
        Some(dev) => Some(Refusal::TwoHolders(dev)),
    }
}

fn shared_dev(fresh: &[(Sb, u64)]) -> Option<u32>
    ensures { result ≡ shared_dev fresh.now }
{
    let mut least: Option<u32> = None;
    for slot in (0..fresh.len()).rev() {
        let dev = fresh[slot].0.dev_number;
        if has_dev(dev, &fresh[slot + 1..]) {
            least = Some(lower(dev, least));
        }
    }
    least
}

fn has_dev(dev: u32, fresh: &[(Sb, u64)]) -> bool
    ensures { result ≡ has_dev dev fresh.now }
{
    fresh.iter().any(|(sb, _)| sb.dev_number == dev)
}

fn lower(dev: u32, other: Option<u32>) -> u32
    ensures { result ≡ lower dev other }
{
    match other {
        None => dev,
        Some(other) => dev.min(other),
    }
}

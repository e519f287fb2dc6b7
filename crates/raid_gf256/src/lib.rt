//! The field of 256 elements: bytes with the exclusive or as their sum, and products modulo 11d.
#![tactic(auto)]

ghost use Rattle.std.specs.Prelude.{◌≡◌, ◌<◌};
ghost use Rattle.raid_gf256.specs.Field.{double, product, power_of_two, IsField};

mod tables;

use tables::{LOGS, POWERS};

/// Two times an element.
pub fn double_of(a: u8) -> u8
    ensures { result ≡ double a }
{
    ((a & 127) << 1) ^ ((a >> 7) * 0x1d)
}

/// The product of two elements.
pub fn mul(a: u8, b: u8) -> u8
    ensures { result ≡ product a b }
{
    if a == 0 || b == 0 {
        0
    } else {
        pow_g(log_g(a) + log_g(b))
    }
}

/// Two to the k.
pub fn pow_g(k: u32) -> u8
    ensures { result ≡ power_of_two k }
{
    POWERS[(k % 255) as usize]
}

/// The logarithm to the base two of an element that is not zero.
pub fn log_g(a: u8) -> u32
    requires { 0 < a }
    ensures below { result < 255 }
    ensures value { power_of_two result ≡ a }
{
    LOGS[a as usize] as u32
}

/// The inverse of an element that is not zero.
pub fn inv(a: u8) -> u8
    requires { 0 < a }
    ensures { product a result ≡ 1 }
{
    pow_g(255 - log_g(a))
}

/// The laws of the field.
pub fn field_laws()
    ensures { IsField }
{}

#[cfg(test)]
mod tests {
    use super::*;

    // Products that H. P. Anvin's paper on the mathematics of RAID-6 and the kernel's tables have.
    #[test]
    fn known_products(rt: HostRuntime) {
        assert_eq!(rt; mul(2, 0x80), 0x1d);
        assert_eq!(rt; mul(0, 7), 0);
        assert_eq!(rt; pow_g(8), 0x1d);
        assert_eq!(rt; pow_g(255), 1);
        assert_eq!(rt; log_g(0x1d), 8);
        assert_eq!(rt; inv(2), 0x8e);
    }
}

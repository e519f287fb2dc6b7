//! Words with numbers.

ghost use Rattle.std.specs.Prelude.{◌≡◌, ◌++◌, ◌∷◌, [], decimal, OnOk};

use std::alloc::AllocError;

/// Appends words and a number.
pub(crate) fn push_numbered(into: &mut Vec<u8>, front: &str, number: u64) -> Result<(), AllocError>
    ensures { OnOk result (into.new.items ≡ into.old.items ++ (front.now ++ decimal number)) }
{
    let mut buffer = itoa::Buffer::new();
    into.extend_from_slice(front.as_bytes())?;
    into.extend_from_slice(buffer.format(number).as_bytes())?;
    Ok(())
}

/// Appends words around a number.
pub(crate) fn push_around(
    into: &mut Vec<u8>,
    front: &str,
    number: u64,
    back: &str,
) -> Result<(), AllocError>
    ensures { OnOk result (into.new.items ≡ into.old.items ++ (front.now ++ decimal number ++ back.now)) }
{
    let mut buffer = itoa::Buffer::new();
    into.extend_from_slice(front.as_bytes())?;
    into.extend_from_slice(buffer.format(number).as_bytes())?;
    into.extend_from_slice(back.as_bytes())?;
    Ok(())
}

/// Appends a line with a number in it.
pub(crate) fn push_line(
    into: &mut Vec<u8>,
    front: &str,
    number: u64,
    back: &str,
) -> Result<(), AllocError>
    ensures { OnOk result (into.new.items ≡ into.old.items ++ (front.now ++ decimal number ++ back.now ++ 10 ∷ [])) }
{
    let mut buffer = itoa::Buffer::new();
    into.extend_from_slice(front.as_bytes())?;
    into.extend_from_slice(buffer.format(number).as_bytes())?;
    into.extend_from_slice(back.as_bytes())?;
    into.push(b'\n')?;
    Ok(())
}

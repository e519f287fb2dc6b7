//! The shape that words ask for.

ghost use Rattle.std.specs.Prelude.{◌≡◌, ◌++◌, ◌∷◌, map, string_bytes, IfOk, IfSome, IsTrue, OnOk};
ghost use Rattle.raid_types.specs.Shapes.{is_valid_shape};
ghost use Rattle.std.specs.List.{flat_map};
ghost use Rattle.tool_layout.specs.Asked.{create_line, shape_meant, shape_in};

use raid_layout::Shape;
use reshape_geometry::limits::is_valid_shape;
use script::{Line, Meaning, read_line};
use std::alloc::{AllocError, Global};

// Appends the words, each behind a space.
fn push_words(line: &mut Vec<u8>, words: &[String]) -> Result<(), AllocError>
    ensures { OnOk result (line.new.items ≡ line.old.items ++ flat_map (λ word. 32 ∷ word) (map string_bytes words.now)) }
{
    for i in 0..words.len() {
        line.push(b' ')?;
        line.extend_from_slice(words[i].as_bytes())?;
    }
    Ok(())
}

// The shape of the array that a line asks for, if it is one that there is.
fn shape_meant(meaning: &Meaning) -> Option<Shape>
    ensures meant { result ≡ shape_meant meaning.now }
    ensures valid { IfSome result (λ shape. IsTrue (is_valid_shape shape)) }
{
    match meaning {
        Meaning::Asks(_, Line::Create(asked)) => {
            if is_valid_shape(&asked.shape) {
                Some(asked.shape)
            } else {
                None
            }
        }
        _ => None,
    }
}

/// The shape that these words ask for, by the keys `level`, `disks`, `chunk` and `layout` of a `create` line; `None` where they are no such
/// keys, or no array has that shape.
pub fn shape_of(alloc: Global, words: &[String]) -> Result<Option<Shape>, AllocError>
    ensures asked { IfOk result (λ found. found ≡ shape_in (map string_bytes words.now)) }
    ensures valid { IfOk result (λ found. IfSome found (λ shape. IsTrue (is_valid_shape shape))) }
{
    let mut line = Vec::new(alloc);
    line.extend_from_slice(b"create 00000000-0000-0000-0000-000000000000 size=8")?;
    push_words(&mut line, words)?;
    match read_line(false, &line) {
        Ok(meaning) => Ok(shape_meant(&meaning)),
        Err(_) => Ok(None),
    }
}

//! The layouts by their names.

ghost use Rattle.std.specs.Prelude.{◌≡◌, ◌≤◌, length, IfSome};
ghost use Rattle.std.specs.Option.{option_copied};
ghost use Rattle.script_words.specs.Layouts.{layout_name, is_name, layout_named};

/// The name of a layout number, where it has one.
pub fn layout_name(layout: u32) -> Option<&'static str>
    ensures name { option_copied result ≡ layout_name layout }
    ensures short { IfSome result (λ name. length name.now ≤ 30) }
{
    match layout {
        0 => Some("left-asymmetric"),
        1 => Some("right-asymmetric"),
        2 => Some("left-symmetric"),
        3 => Some("right-symmetric"),
        4 => Some("parity-first"),
        5 => Some("parity-last"),
        16 => Some("left-asymmetric-6"),
        17 => Some("right-asymmetric-6"),
        18 => Some("left-symmetric-6"),
        19 => Some("right-symmetric-6"),
        20 => Some("parity-first-6"),
        _ => None,
    }
}

/// The number of the layout of this name.
pub fn layout_named(name: &[u8]) -> Option<u32>
    ensures { result ≡ layout_named name.now }
{
    for layout in 0..21 {
        if is_name_of(layout, name) {
            return Some(layout);
        }
    }
    None
}

fn is_name_of(layout: u32, name: &[u8]) -> bool
    ensures { result ≡ is_name (layout_name layout) name.now }
{
    match layout_name(layout) {
        Some(known) => known.as_bytes() == name,
        None => false,
    }
}

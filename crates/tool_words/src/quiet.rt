//! The option that stands before `run`.

ghost use Rattle.std.specs.Prelude.{◌≡◌, map, string_bytes, true};
ghost use Rattle.tool_words.specs.Tools.{is_quiet, without_quiet};

// Whether `--quiet` stands before `run`.
fn is_quiet(words: &[String]) -> bool
    ensures { result ≡ is_quiet (map string_bytes words.now) }
{
    match words {
        [first, second, ..] => first.as_str() == "--quiet" && second.as_str() == "run",
        _ => false,
    }
}

/// Takes `--quiet` off where it stands before `run`, and says whether it did.
pub fn take_quiet(words: &mut Vec<String>) -> bool
    ensures quiet { result ≡ is_quiet (map string_bytes words.old.items) }
    ensures rest { map string_bytes words.new.items ≡ without_quiet (map string_bytes words.old.items) }
{
    let quiet = is_quiet(words.as_slice());
    if quiet {
        words.remove(0);
    }
    quiet
}

//! What words ask for that is no run.

ghost use Rattle.std.specs.Prelude.{◌≡◌, map, string_bytes};
ghost use Rattle.tool_words.specs.Tools.{tool_in, help_in, topic_in};

/// What the program tells of itself.
#[derive(Clone, Copy, Debug, PartialEq, Eq)]
pub enum Topic {
    All,
    Memory,
    Run,
    Demo,
    Examine,
    Detail,
    Layout,
}

/// What words ask for that is no run of a script.
#[derive(Clone, Copy, Debug, PartialEq, Eq)]
pub enum Tool {
    /// How to use the program, or a command of it.
    Help(Topic),
    Version,
    /// The superblocks of image files.
    Examine,
    /// The state of the array on image files.
    Detail,
    /// A picture of an array's first stripes.
    Layout,
}

// The command that a word names.
fn topic_of(word: &str) -> Option<Topic>
    ensures { result ≡ topic_in word.now }
{
    match word {
        "memory" => Some(Topic::Memory),
        "run" => Some(Topic::Run),
        "demo" => Some(Topic::Demo),
        "examine" => Some(Topic::Examine),
        "detail" => Some(Topic::Detail),
        "layout" => Some(Topic::Layout),
        _ => None,
    }
}

// What words behind `help` ask for.
fn help_of(words: &[String]) -> Option<Tool>
    ensures { result ≡ help_in (map string_bytes words.now) }
{
    match words {
        [] => Some(Tool::Help(Topic::All)),
        [word] => match topic_of(word.as_str()) {
            Some(topic) => Some(Tool::Help(topic)),
            None => None,
        },
        _ => None,
    }
}

/// What the words ask for that is no run, and `None` where they ask for nothing of that kind.
pub fn tool_of(words: &[String]) -> Option<Tool>
    ensures { result ≡ tool_in (map string_bytes words.now) }
{
    let [first, more @ ..] = words else {
        return None;
    };
    match first.as_str() {
        "--help" | "-h" if more.is_empty() => Some(Tool::Help(Topic::All)),
        "--version" if more.is_empty() => Some(Tool::Version),
        "help" => help_of(more),
        "examine" => Some(Tool::Examine),
        "detail" => Some(Tool::Detail),
        "layout" => Some(Tool::Layout),
        _ => None,
    }
}

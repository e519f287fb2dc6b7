//! The words that a line knows: what it asks, what stands around a block, and the keys behind `create` and `grow`.
//! A new line is a row here, and what it reads in `reader`.

ghost use Rattle.std.specs.Prelude.{◌≡◌, ◌≤◌, length};
ghost use Rattle.script.specs.Tables.{all_verbs, verb_name, verb_in, all_block_words, block_word_name, block_word_in, keys_of, key_name, key_in};

/// The first word of what a line asks.
#[derive(Clone, Copy, Debug, PartialEq, Eq)]
pub enum Verb {
    Create,
    Assemble,
    Read,
    Write,
    Flush,
    Fail,
    Add,
    Step,
    Wait,
    ArraySize,
    Grow,
    Stop,
    Halt,
    Detail,
    Mdstat,
    Examine,
    Alerts,
}

/// A word that opens a block, closes one, or names a lane in it.
#[derive(Clone, Copy, Debug, PartialEq, Eq)]
pub enum BlockWord {
    Together,
    A,
    B,
    End,
}

/// A key. Behind `grow` a layout may also be `preserve` or `normalise`, which is a key of its own here.
#[derive(Clone, Copy, Debug, PartialEq, Eq)]
pub enum Key {
    Level,
    Disks,
    Chunk,
    Layout,
    LayoutWish,
    Size,
    Offset,
}

pub const VERBS: [Verb; 17] = [
    Verb::Create,
    Verb::Assemble,
    Verb::Read,
    Verb::Write,
    Verb::Flush,
    Verb::Fail,
    Verb::Add,
    Verb::Step,
    Verb::Wait,
    Verb::ArraySize,
    Verb::Grow,
    Verb::Stop,
    Verb::Halt,
    Verb::Detail,
    Verb::Mdstat,
    Verb::Examine,
    Verb::Alerts,
];

pub const BLOCK_WORDS: [BlockWord; 4] = [
    BlockWord::Together,
    BlockWord::A,
    BlockWord::B,
    BlockWord::End,
];

impl Verb {
    /// The word.
    pub fn name(self) -> &'static str
        ensures { result.now ≡ verb_name self }
    {
        match self {
            Verb::Create => "create",
            Verb::Assemble => "assemble",
            Verb::Read => "read",
            Verb::Write => "write",
            Verb::Flush => "flush",
            Verb::Fail => "fail",
            Verb::Add => "add",
            Verb::Step => "step",
            Verb::Wait => "wait",
            Verb::ArraySize => "array-size",
            Verb::Grow => "grow",
            Verb::Stop => "stop",
            Verb::Halt => "halt",
            Verb::Detail => "detail",
            Verb::Mdstat => "mdstat",
            Verb::Examine => "examine",
            Verb::Alerts => "alerts",
        }
    }

    /// The keys that may stand behind it.
    pub fn keys(self) -> &'static [Key]
        ensures { result.now ≡ keys_of self }
    {
        match self {
            Verb::Create => &[
                Key::Level,
                Key::Disks,
                Key::Chunk,
                Key::Layout,
                Key::Size,
                Key::Offset,
            ],
            Verb::Grow => &[Key::Level, Key::Disks, Key::Chunk, Key::LayoutWish],
            _ => &[],
        }
    }
}

impl BlockWord {
    /// The word.
    pub fn name(self) -> &'static str
        ensures { result.now ≡ block_word_name self }
    {
        match self {
            BlockWord::Together => "together",
            BlockWord::A => "a:",
            BlockWord::B => "b:",
            BlockWord::End => "end",
        }
    }
}

impl Key {
    /// The key with its `=`.
    pub fn name(self) -> &'static str
        ensures name { result.now ≡ key_name self }
        ensures short { length result.now ≤ 7 }
    {
        match self {
            Key::Level => "level=",
            Key::Disks => "disks=",
            Key::Chunk => "chunk=",
            Key::Layout | Key::LayoutWish => "layout=",
            Key::Size => "size=",
            Key::Offset => "offset=",
        }
    }
}

// The first of these verbs that a word is.
fn verb_in(verbs: &[Verb], word: &[u8]) -> Option<Verb>
    ensures { result ≡ verb_in verbs.now word.now }
{
    for verb in verbs {
        if word == verb.name().as_bytes() {
            return Some(*verb);
        }
    }
    None
}

/// What this word asks, if it begins a line.
pub fn verb_named(word: &[u8]) -> Option<Verb>
    ensures { result ≡ verb_in all_verbs word.now }
{
    verb_in(&VERBS, word)
}

// The first of these words of a block that a word is.
fn block_word_in(known: &[BlockWord], word: &[u8]) -> Option<BlockWord>
    ensures { result ≡ block_word_in known.now word.now }
{
    for block_word in known {
        if word == block_word.name().as_bytes() {
            return Some(*block_word);
        }
    }
    None
}

/// What this word is to a block, if it is anything.
pub fn block_word_named(word: &[u8]) -> Option<BlockWord>
    ensures { result ≡ block_word_in all_block_words word.now }
{
    block_word_in(&BLOCK_WORDS, word)
}

/// The first of these keys with which a word begins.
pub fn key_in(keys: &[Key], word: &[u8]) -> Option<Key>
    ensures { result ≡ key_in keys.now word.now }
{
    for key in keys {
        if word.strip_prefix(key.name().as_bytes()).is_some() {
            return Some(*key);
        }
    }
    None
}

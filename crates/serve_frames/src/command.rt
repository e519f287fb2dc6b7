ghost use Rattle.std.specs.Prelude.{◌≡◌};

/// What a request is for, by its number.
#[derive(Clone, Copy, Debug, PartialEq, Eq)]
pub enum Command {
    /// 0
    Read,
    /// 1
    Write,
    /// 2: the client ends the session. It has no reply.
    Disconnect,
    /// 3
    Flush,
    /// Any other number: the server offers none of these.
    Other(u16),
}

impl Command {
    ghost use Rattle.serve_frames.specs.Commands.{number_of, IsCommand};

    pub fn of(number: u16) -> Command
        ensures number { number_of result ≡ number }
        ensures named { IsCommand result }
    {
        match number {
            0 => Command::Read,
            1 => Command::Write,
            2 => Command::Disconnect,
            3 => Command::Flush,
            _ => Command::Other(number),
        }
    }

    pub fn number(self) -> u16
        ensures { result ≡ number_of self }
    {
        match self {
            Command::Read => 0,
            Command::Write => 1,
            Command::Disconnect => 2,
            Command::Flush => 3,
            Command::Other(number) => number,
        }
    }
}

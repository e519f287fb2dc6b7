ghost use Rattle.std.specs.Prelude.{◌≡◌, List, ℕ};
ghost use Rattle.script_io.specs.Causes.{HasCause};
ghost use Rattle.script_io.specs.Moves.{Pushed};

use thiserror::Error;

#[derive(Clone, Copy, Debug, PartialEq, Eq, Error)]
pub enum SinkFault {
    #[error("the sink failed")]
    Failed,
}

/// Where bytes are written, in order.
pub trait Sink {
    /// Holds where the sink tells what it has taken.
    ghost tells: { Type 0 };

    /// The bytes that it has taken.
    ghost taken: { Self → List ℕ };

    /// How often a push has failed.
    ghost faults_of: { Self → ℕ };

    fn faults(&self) -> u64
        ensures { result ≡ faults_of self.now };

    /// Takes the whole piece, or at an `Err` the first few bytes of it.
    fn push(&mut self, from: &[u8]) -> Result<(), SinkFault>
        ensures pushed { Pushed tells result (taken self.old) (taken self.new) from.now }
        ensures cause { HasCause (faults_of self.old) (faults_of self.new) result };
}

ghost use Rattle.std.specs.Prelude.{◌≡◌, ◌<◌, ◌≤◌, List, ℕ, length, IfOk};
ghost use Rattle.script_io.specs.Causes.{HasCause};
ghost use Rattle.script_io.specs.Moves.{Pulled};

use thiserror::Error;

#[derive(Clone, Copy, Debug, PartialEq, Eq, Error)]
pub enum SourceFault {
    #[error("the source failed")]
    Failed,
}

/// Bytes to read, in order.
pub trait Source {
    /// Holds where the source tells what it has left.
    ghost tells: { Type 0 };

    /// The bytes that are left.
    ghost left: { Self → List ℕ };

    /// How often a pull has failed.
    ghost faults_of: { Self → ℕ };

    fn faults(&self) -> u64
        ensures { result ≡ faults_of self.now };

    /// Moves some of the bytes that are left into the front of the buffer, and answers how many: 0 means the end.
    /// What the buffer holds behind them is left open.
    fn pull(&mut self, into: &mut [u8]) -> Result<usize, SourceFault>
        requires { 0 < length into.old }
        ensures within { IfOk result (λ n. n ≤ length into.old) }
        ensures pulled { Pulled tells result (left self.old) (left self.new) into.new }
        ensures cause { HasCause (faults_of self.old) (faults_of self.new) result };
}

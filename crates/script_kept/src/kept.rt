//! What a script's source has given.

ghost use Rattle.std.specs.Prelude.{◌≡◌, ◌⊎◌, ◌<◌, ◌≤◌, ◌++◌, [], length, option_map, Some, None, MatchOption, IfOk};
ghost use Rattle.script_io.specs.Causes.{HasCause};
ghost use Rattle.script_io.specs.Moves.{Pulled};
ghost use Rattle.script_kept.specs.Kept.{IsKept, source_of, kept_by};

use script_io::{Source, SourceFault};
use std::alloc::Global;

/// A source that hands on what another one gives, and keeps a copy of it as long as there is memory for it.
#[derive(Drop)]
pub struct KeptSource<S> {
    source: S,
    text: Vec<u8>,
    is_whole: bool,
}

impl<S: Source> KeptSource<S> {
    /// A source of what this one has left. Nothing is kept yet.
    pub fn new(alloc: Global, source: S) -> KeptSource<S>
        ensures source { source_of result ≡ source }
        ensures kept { kept_by result ≡ Some [] }
    {
        KeptSource {
            source,
            text: Vec::new(alloc),
            is_whole: true,
        }
    }

    /// All bytes that were read of it, in order; `None` where memory was short.
    pub fn text(&self) -> Option<&[u8]>
        ensures { MatchOption result (kept_by self.now ≡ None) (λ text. kept_by self.now ≡ Some text.now) }
    {
        if self.is_whole {
            Some(self.text.as_slice())
        } else {
            None
        }
    }

    // Keeps these bytes too.
    fn keep(&mut self, bytes: &[u8])
        ensures kept { (kept_by self.new ≡ option_map (λ text. text ++ bytes.now) (kept_by self.old)) ⊎ (kept_by self.new ≡ None) }
        ensures source { source_of self.new ≡ source_of self.old }
    {
        if self.is_whole && self.text.extend_from_slice(bytes).is_err() {
            self.is_whole = false;
        }
    }
}

impl<S: Source> Source for KeptSource<S> {
    ghost use Rattle.script_kept.specs.Kept.{source_of};

    ghost tells = { S.tells };

    ghost left = { λ s. S.left (source_of s) };

    ghost faults_of = { λ s. S.faults_of (source_of s) };

    fn faults(&self) -> u64 {
        self.source.faults()
    }

    fn pull(&mut self, into: &mut [u8]) -> Result<usize, SourceFault>
        requires { 0 < length into.old }
        ensures within { IfOk result (λ n. n ≤ length into.old) }
        ensures pulled { Pulled S.tells result (S.left (source_of self.old)) (S.left (source_of self.new)) into.new }
        ensures cause { HasCause (S.faults_of (source_of self.old)) (S.faults_of (source_of self.new)) result }
        ensures kept { IsKept result (kept_by self.old) (kept_by self.new) into.new }
    {
        match self.source.pull(into) {
            Ok(count) => {
                self.keep(&into[..count]);
                Ok(count)
            }
            Err(fault) => Err(fault),
        }
    }
}

// A source and a sink in memory, which tell their bytes and fail on demand.
ghost use Rattle.std.specs.Prelude.{◌≡◌, ◌+◌, ◌-◌, ◌^◌, ◌<◌, ◌≤◌, ◌↔◌, ◌++◌, [], List, ℕ, length, min, take, drop, IfOk, OnErr, IsErr, is_err, if◌then◌else◌, IsTrue, Contains, vec_capacity};
ghost use Rattle.script_io.specs.Causes.{HasCause};
ghost use Rattle.script_io.specs.Moves.{Pulled, Pushed};

use crate::{Sink, SinkFault, Source, SourceFault};
use std::alloc::{AllocError, Global};

// Whether the call of this number is to fail.
fn is_listed(failing: &[u64], number: u64) -> bool
    ensures { IsTrue result ↔ Contains failing.now number }
{
    failing.contains(&number)
}

// Copies as much as fits into the buffer's front.
fn copy_front(from: &[u8], into: &mut [u8]) -> usize
    ensures count { result ≡ min (length from.now) (length into.old) }
    ensures after { into.new ≡ take result from.now ++ drop result into.old }
{
    let count = from.len().min(into.len());
    into[..count].copy_from_slice(&from[..count]);
    count
}

#[derive(Drop)]
pub struct MemorySource {
    bytes: Vec<u8>,
    position: usize,
    failing: Vec<u64>,
    calls: u64,
    faults: u64,
    ghost within: { position ≤ length bytes.items },
}

impl MemorySource {
    ghost use Rattle.script_io.specs.Memory.{left_in, pulls_of, failing_pulls, faults_of_source};

    /// A source of these bytes. The pulls of these numbers, from 0, are to fail.
    pub fn new(bytes: Vec<u8>, failing: Vec<u64>) -> MemorySource
        ensures left { left_in result ≡ bytes.items }
        ensures failing { failing_pulls result ≡ failing.items }
        ensures pulls { pulls_of result ≡ 0 }
        ensures faults { faults_of_source result ≡ 0 }
    {
        MemorySource {
            bytes,
            position: 0,
            failing,
            calls: 0,
            faults: 0,
        }
    }
}

impl Source for MemorySource {
    ghost use Rattle.script_io.specs.Memory.{left_in, pulls_of, failing_pulls, faults_of_source};

    ghost tells = { Unit {0} };

    ghost left = { left_in };

    ghost faults_of = { faults_of_source };

    fn faults(&self) -> u64 {
        self.faults
    }

    fn pull(&mut self, into: &mut [u8]) -> Result<usize, SourceFault>
        requires { 0 < length into.old }
        ensures within { IfOk result (λ n. n ≤ length into.old) }
        ensures pulled { Pulled (Unit {0}) result (left_in self.old) (left_in self.new) into.new }
        ensures cause { HasCause (faults_of_source self.old) (faults_of_source self.new) result }
        // Which call fails, and how much the others move.
        ensures fails { IsErr result ↔ Contains (failing_pulls self.old) (pulls_of self.old) }
        ensures count { IfOk result (λ n. n ≡ min (length (left_in self.old)) (length into.old)) }
        ensures behind { IfOk result (λ n. drop n into.new ≡ drop n into.old) }
        ensures untouched { OnErr result (into.new ≡ into.old) }
        ensures faults { faults_of_source self.new ≡ (if is_err result then min (faults_of_source self.old + 1) (2 ^ 64 - 1) else faults_of_source self.old) }
        ensures failing { failing_pulls self.new ≡ failing_pulls self.old }
        ensures pulls { pulls_of self.new ≡ min (pulls_of self.old + 1) (2 ^ 64 - 1) }
    {
        let number = self.calls;
        self.calls = number.saturating_add(1);
        if is_listed(&self.failing, number) {
            self.faults = self.faults.saturating_add(1);
            return Err(SourceFault::Failed);
        }
        let count = copy_front(&self.bytes[self.position..], into);
        self.position += count;
        Ok(count)
    }
}

#[derive(Drop)]
pub struct MemorySink {
    bytes: Vec<u8>,
    room: u64,
    failing: Vec<u64>,
    calls: u64,
    faults: u64,
    ghost reserved: { room ≤ vec_capacity bytes },
    ghost within: { length bytes.items ≤ room },
}

impl MemorySink {
    ghost use Rattle.script_io.specs.Memory.{taken_by, room_of, pushes_of, failing_pushes, faults_of_sink};

    /// A sink that has taken nothing, with room for so many bytes. The pushes of these numbers, from 0, are to fail.
    pub fn new(alloc: Global, room: u64, failing: Vec<u64>) -> Result<MemorySink, AllocError>
        ensures taken { IfOk result (λ s. taken_by s ≡ []) }
        ensures room { IfOk result (λ s. room_of s ≡ room) }
        ensures failing { IfOk result (λ s. failing_pushes s ≡ failing.items) }
        ensures pushes { IfOk result (λ s. pushes_of s ≡ 0) }
        ensures faults { IfOk result (λ s. faults_of_sink s ≡ 0) }
    {
        let bytes = Vec::with_capacity(alloc, room as usize)?;
        Ok(MemorySink {
            bytes,
            room,
            failing,
            calls: 0,
            faults: 0,
        })
    }

    /// What was taken so far.
    pub fn bytes(&self) -> &[u8]
        ensures { result.now ≡ taken_by self.now }
    {
        self.bytes.as_slice()
    }
}

impl Sink for MemorySink {
    ghost use Rattle.script_io.specs.Memory.{taken_by, room_of, pushes_of, failing_pushes, faults_of_sink};

    ghost tells = { Unit {0} };

    ghost taken = { taken_by };

    ghost faults_of = { faults_of_sink };

    fn faults(&self) -> u64 {
        self.faults
    }

    fn push(&mut self, from: &[u8]) -> Result<(), SinkFault>
        ensures pushed { Pushed (Unit {0}) result (taken_by self.old) (taken_by self.new) from.now }
        ensures cause { HasCause (faults_of_sink self.old) (faults_of_sink self.new) result }
        // Which call takes nothing, and what the others take.
        ensures listed { Contains (failing_pushes self.old) (pushes_of self.old) → IsErr result × (taken_by self.new ≡ taken_by self.old) }
        ensures fits { ¬ Contains (failing_pushes self.old) (pushes_of self.old) → IsErr result ↔ (room_of self.old < length (taken_by self.old) + length from.now) }
        ensures taken { ¬ Contains (failing_pushes self.old) (pushes_of self.old) →
            taken_by self.new ≡ taken_by self.old ++ take (room_of self.old - length (taken_by self.old)) from.now }
        ensures faults { faults_of_sink self.new ≡ (if is_err result then min (faults_of_sink self.old + 1) (2 ^ 64 - 1) else faults_of_sink self.old) }
        ensures failing { failing_pushes self.new ≡ failing_pushes self.old }
        ensures pushes { pushes_of self.new ≡ min (pushes_of self.old + 1) (2 ^ 64 - 1) }
        ensures room { room_of self.new ≡ room_of self.old }
    {
        let number = self.calls;
        self.calls = number.saturating_add(1);
        if is_listed(&self.failing, number) {
            self.faults = self.faults.saturating_add(1);
            return Err(SinkFault::Failed);
        }
        let room = self.room as usize - self.bytes.len();
        let fitting = room.min(from.len());
        match self.bytes.extend_from_slice(&from[..fitting]) {
            Err(_) => unreachable!(),
            Ok(()) => {}
        }
        if fitting < from.len() {
            self.faults = self.faults.saturating_add(1);
            return Err(SinkFault::Failed);
        }
        Ok(())
    }
}

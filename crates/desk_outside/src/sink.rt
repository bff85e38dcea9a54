//! Where bytes go.
ghost use Rattle.std.specs.Prelude.{◌≡◌, ◌≤◌, ◌<◌, ℕ, List, length, take, Some, None, Option, IfOk, IsOk, OnErr, OnOk, [], false};
ghost use Rattle.desk_outside.specs.Schedule.{fresh_calls, fails_next, after_call, after_failure};
ghost use Rattle.std.specs.Io.KnownBytes.{append_known};
ghost use Rattle.desk_outside.specs.Faults.{Rose};
ghost use Rattle.desk_outside.specs.Bytes.{AddsPart};

use crate::calls::{Calls, Failed};
use scan_model::{NoMemory, Rows};
use std::alloc::Global;

/// Where bytes are written.
pub trait Sink: Drop {
    /// The bytes that were written, where the sink tells them.
    ghost written: { Self → Option (List ℕ) };

    /// How often it has failed. The count never falls, and stays at 2^64 - 1 once it is there.
    ghost faults: { Self → ℕ };

    /// Takes bytes from the front of `bytes`, and answers how many: one or more where there are any.
    fn write(&mut self, bytes: &[u8]) -> Result<usize, Failed>
        ensures within { IfOk result (λ n. n ≤ length bytes.now) }
        ensures some { 0 < length bytes.now → IfOk result (λ n. 0 < n) }
        ensures added { IfOk result (λ n. written self.new ≡ append_known (written self.old) (take n bytes.now)) }
        ensures same { OnErr result (written self.new ≡ written self.old) }
        ensures later { faults self.old ≤ faults self.new }
        ensures failed { OnErr result (Rose (faults self.old) (faults self.new)) };
}

/// Writes all the bytes. Where the sink fails, some from the front may have been written.
pub fn write_all<O: Sink>(out: &mut O, bytes: &[u8]) -> Result<(), Failed>
    ensures all { OnOk result (O.written out.new ≡ append_known (O.written out.old) bytes.now) }
    ensures part { OnErr result (AddsPart (O.written out.old) (O.written out.new) bytes.now) }
    ensures later { O.faults out.old ≤ O.faults out.new }
    ensures failed { OnErr result (Rose (O.faults out.old) (O.faults out.new)) }
{
    let mut rest = bytes;
    while !rest.is_empty() {
        let taken = out.write(rest)?;
        rest = &rest[taken..];
    }
    Ok(())
}

/// Bytes in memory. The writes that are listed fail, and so does one for which there is no memory.
#[derive(Drop)]
pub struct MemSink {
    written: Rows<u8>,
    calls: Calls,
}

impl MemSink {
    ghost use Rattle.desk_outside.specs.Memory.{sink_written, sink_calls};

    /// A sink that has these bytes already, and of which no write is listed.
    pub fn make(alloc: Global, written: Rows<u8>) -> Result<MemSink, NoMemory>
        ensures ok { IsOk result }
        ensures written { IfOk result (λ s. sink_written s ≡ written) }
        ensures calls { IfOk result (λ s. sink_calls s ≡ fresh_calls []) }
    {
        Ok(MemSink {
            written,
            calls: Calls::sure(alloc),
        })
    }

    /// A sink that has these bytes already, and of which the writes with these numbers fail, counted from 1.
    pub fn make_failing(
        _alloc: Global,
        written: Rows<u8>,
        calls: Rows<u64>,
    ) -> Result<MemSink, NoMemory>
        ensures ok { IsOk result }
        ensures written { IfOk result (λ s. sink_written s ≡ written) }
        ensures calls { IfOk result (λ s. sink_calls s ≡ fresh_calls calls) }
    {
        Ok(MemSink {
            written,
            calls: Calls::failing(calls),
        })
    }

    /// All bytes that were written so far.
    pub fn bytes(&self) -> &[u8]
        ensures { result.now ≡ sink_written self.now }
    {
        self.written.as_slice()
    }
}

impl Sink for MemSink {
    ghost use Rattle.desk_outside.specs.Memory.{sink_written, sink_calls};

    ghost written = { λ s. Some (sink_written s) };

    ghost faults = { λ s. (sink_calls s).faults };

    fn write(&mut self, bytes: &[u8]) -> Result<usize, Failed>
        ensures within { IfOk result (λ n. n ≤ length bytes.now) }
        ensures some { 0 < length bytes.now → IfOk result (λ n. 0 < n) }
        ensures added { IfOk result (λ n. Some (sink_written self.new) ≡ append_known (Some (sink_written self.old)) (take n bytes.now)) }
        ensures same { OnErr result (Some (sink_written self.new) ≡ Some (sink_written self.old)) }
        ensures later { (sink_calls self.old).faults ≤ (sink_calls self.new).faults }
        ensures failed { OnErr result (Rose (sink_calls self.old).faults (sink_calls self.new).faults) }

        // It takes all, and its count rises in a call that is listed, or that finds no memory, and in no other.
        ensures all { IfOk result (λ n. n ≡ length bytes.now) }
        ensures listed { OnOk result (fails_next (sink_calls self.old) ≡ false) }
        ensures counted { OnOk result (sink_calls self.new ≡ after_call (sink_calls self.old)) }
        ensures refused { OnErr result (sink_calls self.new ≡ after_failure (sink_calls self.old)) }
    {
        if self.calls.fails() {
            return Err(Failed);
        }
        match self.written.append(bytes) {
            Ok(()) => Ok(bytes.len()),
            Err(NoMemory) => {
                self.calls.fault();
                Err(Failed)
            }
        }
    }
}

/// Takes all bytes, and keeps none. No write fails.
#[derive(Drop)]
pub struct SureSink {}

impl SureSink {
    /// A sink that tells nothing of what is written.
    pub fn make(_alloc: Global) -> Result<SureSink, NoMemory>
        ensures { IsOk result }
    {
        Ok(SureSink {})
    }
}

impl Sink for SureSink {
    ghost written = { λ _. None };

    ghost faults = { λ _. 0 };

    fn write(&mut self, bytes: &[u8]) -> Result<usize, Failed> {
        Ok(bytes.len())
    }
}

//! The lines that wait to be written.

ghost use Rattle.std.specs.Prelude.{◌≡◌, ◌≤◌, ◌++◌, [], ℕ, List, IsTrue, IfErr, MatchResult, length};
ghost use Rattle.ds_base.specs.Outside.{SinkStays};
ghost use Rattle.pcap_reader.specs.Lent.{captured};
ghost use Rattle.stack_lines.specs.Stacks.{stack_line, last_line};
ghost use Rattle.stack_lines.specs.declared.fault.PrintFault.TheVariants.{Unwritten};

use crate::fault::PrintFault;
use crate::line::{Asking, push_last_line, push_line};
use ds_base::Sink;
use output_text::write_all;
use pcap_reader::RecordRef;
use std::alloc::Global;

/// From how many bytes on the lines that wait are written.
const MANY: usize = 65_536;

/// Prints the lines of `stack`. They wait in memory until there are many of them, at most `MANY` bytes
/// and a line.
#[derive(Drop)]
pub struct Printer {
    alloc: Global,
    asking: Asking,
    /// The lines that wait to be written.
    text: Vec<u8>,
}

impl Printer {
    ghost use Rattle.stack_lines.specs.Printing.{HasPrinted, HasBegun, IsPrinted, IsWritten, StopsPrint};

    /// Nothing waits. It takes no memory.
    pub fn new(alloc: Global, asking: Asking) -> Self
        ensures asking { result.asking ≡ asking }
        ensures empty { result.text.items ≡ [] }
    {
        Printer {
            alloc,
            asking,
            text: Vec::new(alloc),
        }
    }

    /// Prints the line of a record.
    pub fn print<O: Sink>(&mut self, r: &RecordRef<'_>, out: &mut O) -> Result<(), PrintFault>
        requires { length r.now.bytes.now ≤ 262144 }
        ensures stays { SinkStays (O.seen out.old) (O.seen out.new) }
        ensures prefix { (start text : List ℕ) → HasPrinted start (O.seen out.old) self.old.text.items text →
            HasBegun start (O.seen out.new) (text ++ stack_line self.old.asking.port self.old.asking.field (captured r.now)) }
        ensures ends { MatchResult result
            (λ _. IsPrinted self.old self.new (O.seen out.old) (O.seen out.new) (stack_line self.old.asking.port self.old.asking.field (captured r.now)))
            (StopsPrint (O.seen out.old) (O.seen out.new)) }
    {
        let Ok(()) = push_line(self.alloc, &mut self.text, &self.asking, r) else {
            return Err(PrintFault::OutOfMemory);
        };
        if self.text.len() < MANY {
            return Ok(());
        }
        self.write(out)?;
        self.text.clear();
        Ok(())
    }

    /// Prints the last line, and writes all that waits.
    pub fn end<O: Sink>(&mut self, cut: bool, out: &mut O) -> Result<(), PrintFault>
        ensures stays { SinkStays (O.seen out.old) (O.seen out.new) }
        ensures prefix { (start text : List ℕ) → HasPrinted start (O.seen out.old) self.old.text.items text → HasBegun start (O.seen out.new) (text ++ last_line cut) }
        ensures ends { MatchResult result
            (λ _. IsWritten self.old (O.seen out.old) (O.seen out.new) (last_line cut))
            (StopsPrint (O.seen out.old) (O.seen out.new)) }
    {
        let Ok(()) = push_last_line(&mut self.text, cut) else {
            return Err(PrintFault::OutOfMemory);
        };
        self.write(out)?;
        Ok(())
    }

    /// Writes all that waits. It takes no memory.
    pub fn write<O: Sink>(&self, out: &mut O) -> Result<(), PrintFault>
        ensures refused { IfErr result (λ fault. fault ≡ Unwritten) }
        ensures stays { SinkStays (O.seen out.old) (O.seen out.new) }
        ensures prefix { (start text : List ℕ) → HasPrinted start (O.seen out.old) self.now.text.items text → HasBegun start (O.seen out.new) text }
        ensures ends { MatchResult result
            (λ _. IsWritten self.now (O.seen out.old) (O.seen out.new) [])
            (StopsPrint (O.seen out.old) (O.seen out.new)) }
    {
        match write_all(out, self.text.as_slice()) {
            Ok(()) => Ok(()),
            Err(_) => Err(PrintFault::Unwritten),
        }
    }
}

//! The reader: what was fed, what was read of it, and what is known there.
ghost use Rattle.std.specs.Prelude.{◌≡◌, ◌+◌, ◌*◌, ◌≤◌, ◌<◌, ◌^◌, ℕ, List, [], ◌++◌, ⊤, length, take, Option, Some, None, OnOk, OnErr, IfOk, IfErr, IfSome, IfNone, true, false};
ghost use Rattle.std.specs.Borrow.{sem};
ghost use Rattle.pcapng_reader.specs.Packet.{Packet};
ghost use Rattle.pcapng_reader.specs.Good.{most_blocks, ng_packets, ng_bad, ng_cut};
ghost use Rattle.pcapng_reader.specs.Reader.{Reader, StandsFor, IsWaiting, IsLawful, Gives, Passes, Advances, last_block, lent, is_short_header, bytes_fed, bytes_held, packets_given};

use crate::packet::{InBlock, NgRecord, Passed};
use crate::state::State;
use crate::step::{find_block, take_block};
use capture_bytes::Buffer;
use ds_base::{Bad, OutOfMemory, PcapFault, Tail};
use std::alloc::Global;
use std::marker::Model;

/// How many blocks a file has at most, 2^36.
const MOST_BLOCKS: u64 = 1 << 36;

/// Reads a pcapng file that is fed in pieces of any length.
///
/// Feed a piece, call `next` until it answers None, feed the next piece, and so on; at the end of the file call
/// `finish`. Bytes leave memory once their packet was given. The packets of all interfaces are given, in the order
/// of the file.
#[derive(Drop)]
pub struct NgReader {
    /// The bytes that were fed and not yet read, after those of the block that was read last.
    bytes: Buffer,
    /// What is known where the bytes begin that were not yet read.
    state: State,
    /// How many blocks were read, at most 2^36.
    blocks: u64,
}

impl Model for NgReader {
    ghost use Rattle.std.specs.Prelude.{◌<◌, ◌≤◌, ◌+◌, ◌*◌, ◌^◌, length};
    ghost use Rattle.pcapng_reader.specs.Reader.{Reader};
    ghost use Rattle.pcapng_reader.specs.Good.{most_blocks};

    ghost Value = { Reader };

    ghost view = { λ r. record { state = r.state.state; blocks = r.blocks; rest = r.bytes.rest; spent = r.bytes.spent } };

    // The last is room for the interfaces that the bytes may describe, each of 12 bytes at least.
    ghost invariant = { λ r. (r.state.state.place + length r.bytes.rest < 2 ^ 62)
        × (r.state.state.place ≤ 16777216 * r.blocks) × (r.blocks ≤ most_blocks) × (r.state.state.packets ≤ r.blocks)
        × (length r.bytes.rest ≤ 12 * r.state.spare + 11) };
}

impl NgReader {
    ghost use Rattle.pcapng_reader.specs.contracts.reader.NgReader.{the_row};
    ghost use mathlib.Core.Option.{none};
    ghost use denote.Follow.{follows_so};

    /// A reader that was fed nothing. It takes no memory; `feed` takes it from `alloc`.
    pub fn new(alloc: Global) -> Self
        ensures stands { StandsFor result [] [] }
        ensures waiting { IsWaiting result }
        ensures given { packets_given result ≡ 0 }
        ensures fed { bytes_fed result ≡ 0 }
        ensures held { bytes_held result ≡ 0 }
    {
        NgReader {
            bytes: Buffer::new(alloc),
            state: State::new(alloc),
            blocks: 0,
        }
    }

    /// Takes the next piece of the file. Where there is no memory for it, nothing changes.
    pub fn feed(&mut self, piece: &[u8]) -> Result<(), OutOfMemory>
        requires { bytes_fed self.old + length piece.now < 2 ^ 62 }
        ensures stands { OnOk result ((fed : List ℕ) (given : List Packet) →
            StandsFor self.old fed given → StandsFor self.new (fed ++ piece.now) given) }
        ensures given { packets_given self.new ≡ packets_given self.old }
        ensures fed { OnOk result (bytes_fed self.new ≡ bytes_fed self.old + length piece.now) }
        ensures held { OnOk result (bytes_held self.new ≤ bytes_held self.old + length piece.now) }
        ensures refused { OnErr result (self.new ≡ self.old) }
    {
        let waiting = self.bytes.rest().len() + piece.len();
        self.state.reserve(waiting as u64 / 12)?;
        self.bytes.append(piece)
    }

    /// The next packet of the bytes fed, with its bytes lent. None: they hold no further whole block with a packet,
    /// and no malformed place, or end inside the first section block; feed more, or call `finish`. `Bad` is the first
    /// malformed place, once the packets before it were given; it comes again at each later call.
    pub fn next(&mut self) -> Result<Option<NgRecord<'_>>, Bad>
        ensures lawful { IfOk result (λ o. IfSome o (λ r. IsLawful (lent r))) }
        ensures long { IfErr result (λ b. is_short_header b.what ≡ false) }
        ensures bounded { IfOk result (λ o. IfNone o (bytes_fed self.old < 2 ^ 61)) }
        ensures* after { sem 𝓛 (follows_so the_row the_row self.entry.ghost_name none (λ _ _. ⊤) (λ after. Gives self.old result after)) }
    {
        match self.advance()? {
            Some(found) => {
                let block = self.bytes.last_spent(found.len);
                Ok(Some(found.packet.lend(block)))
            }
            None => Ok(None),
        }
    }

    /// Goes on to the next packet as `next` does, and tells where it lies in the block that was read last, which
    /// `last_block` lends. A caller that passes over packets calls this one, since no bytes are lent meanwhile.
    pub fn advance(&mut self) -> Result<Option<InBlock>, Bad>
        ensures { Advances self.old result self.new }
    {
        'blocks: loop {
            let Some(passed) = self.pass_block()? else {
                self.drop_spent();
                return Ok(None);
            };
            if let Some(packet) = passed.found {
                return Ok(Some(InBlock {
                    len: passed.len,
                    packet,
                }));
            }
        }
    }

    /// The last `len` bytes that were read: the block that was read last, if it has that length. They stay until the
    /// next call that takes the reader as `&mut`.
    pub fn last_block(&self, len: usize) -> &[u8]
        requires { len ≤ length self.now.spent }
        ensures { result.now ≡ last_block len self.now }
    {
        self.bytes.last_spent(len)
    }

    /// Reads the block at the front of the bytes that were not yet read. None: no whole one is there.
    fn pass_block(&mut self) -> Result<Option<Passed>, Bad>
        ensures { Passes self.old result self.new }
    {
        if self.blocks == MOST_BLOCKS {
            if self.bytes.rest().is_empty() {
                return Ok(None);
            }
            return Err(Bad {
                at: self.state.place(),
                what: PcapFault::TooMany,
            });
        }
        let Some(head) = find_block(&self.state, self.bytes.rest())? else {
            return Ok(None);
        };
        let len = head.total as usize;
        let found = take_block(&mut self.state, head, front(self.bytes.rest(), len))?;
        self.bytes.spend(len);
        self.blocks += 1;
        Ok(Some(Passed { len, found }))
    }

    /// Takes the bytes that were used up out of memory.
    fn drop_spent(&mut self)
        ensures state { self.new.state ≡ self.old.state }
        ensures blocks { self.new.blocks ≡ self.old.blocks }
        ensures rest { self.new.rest ≡ self.old.rest }
        ensures spent { self.new.spent ≡ [] }
        ensures bounds { (self.new.state.place ≤ 16777216 * self.new.blocks) × (self.new.blocks ≤ most_blocks) }
    {
        self.bytes.drop_spent();
    }

    /// What is known at the end of the file: how many packets it has, and whether it ends inside a block; or that it
    /// is shorter than its first section block.
    pub fn finish(&self) -> Result<Tail, Bad>
        requires { IsWaiting self.now }
        ensures whole { IfOk result (λ t. (fed : List ℕ) (given : List Packet) → StandsFor self.now fed given →
            (ng_bad fed ≡ None) × (t.records ≡ length (ng_packets fed)) × (t.cut ≡ ng_cut fed)) }
        ensures short { IfErr result (λ b. (fed : List ℕ) (given : List Packet) → StandsFor self.now fed given →
            (ng_bad fed ≡ Some b) × (is_short_header b.what ≡ true)) }
    {
        let rest = self.bytes.rest().len() as u64;
        let len = self.state.place() + rest;
        if len < 28 {
            return Err(Bad {
                at: len,
                what: PcapFault::ShortHeader { len },
            });
        }
        Ok(Tail {
            records: self.state.packets(),
            cut: rest > 0,
        })
    }

    /// How many bytes are kept in memory: at most 16,777,215 after `next` answered None.
    pub fn held(&self) -> u64
        ensures { result ≡ bytes_held self.now }
    {
        self.bytes.len() as u64
    }
}

/// The first `len` bytes.
fn front(bytes: &[u8], len: usize) -> &[u8]
    requires { len ≤ length bytes.now }
    ensures { result.now ≡ take len bytes.now }
{
    &bytes[..len]
}

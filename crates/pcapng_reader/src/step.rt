//! One block of a pcapng file (pcapng specification section 3): the block at the front of the bytes, and the table
//! of the kinds of block.
ghost use Rattle.std.specs.Prelude.{◌≡◌, ◌+◌, ◌≤◌, ◌<◌, ◌^◌, length, take, Option, Some, None, IfOk, IfSome, IfNone, true, IfErr, false, OnOk, option_to_list};
ghost use Rattle.pcapng_reader.specs.Blocks.{is_lawful_length};
ghost use Rattle.pcapng_reader.specs.Steps.{Finds, Takes};
ghost use Rattle.pcapng_reader.specs.Times.{latest};
ghost use Rattle.pcapng_reader.specs.Reader.{is_short_header};

use crate::enhanced::read_enhanced;
use crate::head::{Head, SECTION, read_head};
use crate::interface::read_interface;
use crate::packet::Found;
use crate::section::check_section;
use crate::simple::read_simple;
use crate::state::State;
use capture_bytes::read_word;
use ds_base::{Bad, PcapFault};

/// The head of the block at the front of the bytes. None: the block is not whole, and its first 12 bytes show
/// nothing malformed.
#[tactic(auto, unfolding(crate::specs::Steps::step))]
pub(crate) fn find_block(state: &State, bytes: &[u8]) -> Result<Option<Head>, Bad>
    requires { state.now.state.place < 2 ^ 62 }
    ensures found { Finds state.now.state bytes.now result }
    ensures bounds { IfOk result (λ o. IfSome o (λ head. (12 ≤ head.total) × (head.total ≤ 16777216) × (head.total ≤ length bytes.now))) }
    ensures short { IfOk result (λ o. IfNone o (length bytes.now ≤ 16777215)) }
    ensures lawful { IfOk result (λ o. IfSome o (λ head. is_lawful_length head.kind head.total ≡ true)) }
    ensures long { IfErr result (λ b. is_short_header b.what ≡ false) }
{
    if bytes.len() < 12 {
        return Ok(None);
    }
    let head = read_head(state.order(), state.place(), &bytes[..12])?;
    if bytes.len() < head.total as usize {
        return Ok(None);
    }
    Ok(Some(head))
}

/// Takes up a whole block: answers its packet, where it holds one, or what is malformed.
#[tactic(auto, unfolding(crate::specs::Steps::whole_block))]
pub(crate) fn take_block(state: &mut State, head: Head, block: &[u8]) -> Result<Option<Found>, Bad>
    requires whole { (length block.now ≡ head.total) × (is_lawful_length head.kind head.total ≡ true) }
    requires known { (state.old.state.place < 2 ^ 62) × (state.old.state.packets < 2 ^ 40) × (0 < state.old.spare) }
    ensures takes { Takes state.old head block.now result state.new }
    ensures within { IfOk result (λ o. IfSome o (λ f. (f.from + f.len ≤ head.total) × (f.len ≤ 262144))) }
    ensures bounds { IfOk result (λ o. IfSome o (λ f. (f.time < latest) × (f.number ≡ state.old.state.packets))) }
    ensures long { IfErr result (λ b. is_short_header b.what ≡ false) }
    ensures packets { IfOk result (λ o. state.new.state.packets ≡ state.old.state.packets + length (option_to_list o)) }
    ensures place { OnOk result (state.new.state.place ≡ state.old.state.place + head.total) }
    ensures spare { OnOk result (state.old.spare ≤ state.new.spare + 1) }
{
    let end = head.total as usize - 4;
    let tail = read_word(head.order, block, end);
    if tail != head.total {
        return Err(Bad {
            at: state.place() + end as u64,
            what: PcapFault::NgTail { tail },
        });
    }
    match head.kind {
        SECTION => {
            check_section(head, state.place(), block)?;
            state.begin_section(head.total, head.order);
            Ok(None)
        }
        1 => {
            let interface = read_interface(head, state.place(), block)?;
            state.add_interface(head.total, interface);
            Ok(None)
        }
        6 => {
            let found = read_enhanced(state, head, block)?;
            state.add_packet(head.total, &found);
            Ok(Some(found))
        }
        3 => {
            let found = read_simple(state, head, block)?;
            state.add_packet(head.total, &found);
            Ok(Some(found))
        }
        _ => {
            state.pass(head.total);
            Ok(None)
        }
    }
}

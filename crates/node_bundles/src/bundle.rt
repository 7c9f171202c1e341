//! The nodes of one worker, and their rounds.
ghost use Rattle.node_bundles.specs.Going.{Each, Went};
ghost use Rattle.node_bundles.specs.Bundles.{AnyWent};

use crate::any_node::{AnyList, moved_with, turn_each, turn_of};
use crate::turning::TakesTurn;
use credit_link::NodeFault;
use ds_base::{Gate, Source};
use std::thread::yield_now;

/// The most rounds of a phase.
pub const PHASE_ROUNDS: u32 = 65536;

/// The idle rounds in a row after which a bundle ends its phase.
pub const IDLE_ROUNDS: u32 = 1024;

/// Passes the gate once, with the worker's number, and then takes at most 65,536 rounds of a bundle: of its nodes in the
/// order of their numbers, and of the last one that is lent to it. It ends earlier after 1,024 idle rounds in a row, or a
/// fault.
pub fn run_bundle<S: Source, L: TakesTurn, G: Gate>(
    nodes: &mut AnyList<'_, S>,
    last: &mut L,
    worker: u32,
    gate: &G,
)
    ensures nodes { Each (AnyWent S) nodes.old.items nodes.new.items }
    ensures last { Went L L.Stands L.Goes L.Meets L.fault L.Tells L.shown last.old last.new }
{
    gate.pass(worker);
    let mut idle: u32 = 0;
    'rounds: for _ in 0..PHASE_ROUNDS {
        let Ok(moved) = round(nodes, last) else {
            return;
        };
        idle = idle_after(moved, idle);
        if idle >= IDLE_ROUNDS {
            return;
        }
    }
}

// A round of the nodes and the last one, up to the first fault.
fn round<S: Source, L: TakesTurn>(
    nodes: &mut AnyList<'_, S>,
    last: &mut L,
) -> Result<bool, NodeFault>
    ensures nodes { Each (AnyWent S) nodes.old.items nodes.new.items }
    ensures last { Went L L.Stands L.Goes L.Meets L.fault L.Tells L.shown last.old last.new }
{
    let own = turn_each(nodes)?;
    let turn = turn_of(last)?;
    Ok(moved_with(turn, own))
}

// How many idle rounds were taken in a row, after one round more. After an idle one the thread lets others run, which may
// have to move something first.
fn idle_after(moved: bool, idle: u32) -> u32 {
    if moved {
        return 0;
    }
    yield_now();
    idle.saturating_add(1)
}

//! A whole run.
ghost use Rattle.std.specs.Prelude.{◌≡◌, ◌%◌, ◌<◌, ℕ, List, true, false, Some, IsNone, IfOk, IfErr, IfSome};
ghost use Rattle.credit_link.specs.declared.turn.Turn.{Turn};
ghost use Rattle.round_law.specs.Measure.{NoneFalls};
ghost use Rattle.round_law.specs.Turns.{IsTurn};
ghost use Rattle.run_law.specs.Snapshot.{AreDone};
ghost use Rattle.net_law.specs.Nets.{NetStands, lists_of};
ghost use Rattle.net_law.specs.Turned.{IsAlike};
ghost use Rattle.net_law.specs.Rounds.{view, NoneHasFault, RowOf};
ghost use Rattle.run_rounds.specs.Faults.{node_count, fault_at};
ghost use Rattle.run_rounds.specs.Runs.{AllAreDone, MeetsFirst, HadOrMeets};

use crate::node_at::NodeAt;
use crate::rounds::{round, turn_at};
use crate::turning::TakesTurns;
use ds_base::{Choice, Chooser};

/// The most turns that are chosen before a round of all nodes.
pub const CHOSEN_TURNS: u32 = 1024;

/// Runs the nodes to their end. It takes the turns that the chooser asks for, and after each 1,024 of them a round of all
/// nodes; once the chooser has answered None it is not asked again, and only rounds are taken. Before the first choice and
/// after each round it sees whether all nodes are done, which ends it; so does the first fault of a turn, be it one from
/// before. It always ends.
pub fn run_over<N: TakesTurns, C: Chooser>(nodes: &mut N, chooser: &mut C) -> Result<(), NodeAt>
    ensures goes { N.Goes nodes.old nodes.new }
    ensures done { IfOk result (λ _. AllAreDone (N.net nodes.new)) }
    ensures over { IfOk result (λ _. (start : List ℕ) → AreDone (N.net nodes.new).job (N.net nodes.new).shape start (lists_of (N.net nodes.new) start)) }
    ensures meets { IfErr result (HadOrMeets N N.net N.Goes N.Meets nodes.old nodes.new) }
    ensures fault { IfErr result (λ at. fault_at (N.net nodes.new) at.node ≡ Some at.fault) }
{
    if let Some(at) = nodes.fault() {
        return Err(at);
    }
    let mut chooses = true;
    'rounds: while !nodes.done() {
        chosen_turns(nodes, chooser, &mut chooses)?;
        let moved = round(nodes)?;
        if !moved {
            return Ok(());
        }
    }
    Ok(())
}

// At most 1,024 turns that the chooser asks for, as long as it chooses.
fn chosen_turns<N: TakesTurns, C: Chooser>(
    nodes: &mut N,
    chooser: &mut C,
    chooses: &mut bool,
) -> Result<(), NodeAt>
    requires quiet { NoneHasFault (N.net nodes.old) }
    ensures goes { N.Goes nodes.old nodes.new }
    ensures alike { IsAlike (N.net nodes.old) (N.net nodes.new) }
    ensures quiet { IfOk result (λ _. NoneHasFault (N.net nodes.new)) }
    ensures none_falls { IfOk result (λ _. NoneFalls (view (N.net nodes.old)) (view (N.net nodes.new))) }
    ensures over { chooses.old ≡ false → (chooses.new ≡ false) × (chooser.new ≡ chooser.old) × (nodes.new ≡ nodes.old) }
    ensures meets { IfErr result (MeetsFirst N N.net N.Goes N.Meets nodes.old nodes.new) }
    ensures fault { IfErr result (λ at. fault_at (N.net nodes.new) at.node ≡ Some at.fault) }
{
    'choices: for _ in 0..CHOSEN_TURNS {
        let Some(choice) = next_choice(chooser, chooses) else {
            return Ok(());
        };
        chosen_turn(nodes, choice)?;
    }
    Ok(())
}

// The chooser's next choice. Once it has answered None it chooses no more, and is not asked again.
fn next_choice<C: Chooser>(chooser: &mut C, chooses: &mut bool) -> Option<Choice>
    ensures none { IsNone result → chooses.new ≡ false }
    ensures some { IfSome result (λ _. chooses.new ≡ true) }
    ensures over { chooses.old ≡ false → IsNone result × (chooses.new ≡ false) × (chooser.new ≡ chooser.old) }
{
    if !*chooses {
        return None;
    }
    match chooser.next() {
        Some(choice) => Some(choice),
        None => {
            *chooses = false;
            None
        }
    }
}

// The turn that a choice stands for: its node is taken modulo the number of nodes, and a cut of 0 counts as 1.
fn chosen_turn<N: TakesTurns>(nodes: &mut N, choice: Choice) -> Result<(), NodeAt>
    requires quiet { NoneHasFault (N.net nodes.old) }
    ensures goes { N.Goes nodes.old nodes.new }
    ensures alike { IsAlike (N.net nodes.old) (N.net nodes.new) }
    ensures quiet { IfOk result (λ _. NoneHasFault (N.net nodes.new)) }
    ensures turns { IfOk result (λ _. (turn : Turn) × IsTurn (RowOf (N.net nodes.old).credits turn) (choice.node % node_count (N.net nodes.old)) (view (N.net nodes.old)) (view (N.net nodes.new))) }
    ensures named { IfErr result (λ at. at.node ≡ choice.node % node_count (N.net nodes.old)) }
    ensures meets { IfErr result (λ at. N.Meets nodes.old nodes.new at.node at.fault) }
    ensures fault { IfErr result (λ at. fault_at (N.net nodes.new) at.node ≡ Some at.fault) }
{
    let node = choice.node % nodes.node_count();
    turn_at(nodes, node, cut_of(choice))?;
    Ok(())
}

// The cut of a choice, of which 0 counts as 1.
fn cut_of(choice: Choice) -> u32
    ensures zero { choice.cut ≡ 0 → result ≡ 1 }
    ensures other { 0 < choice.cut → result ≡ choice.cut }
{
    if choice.cut == 0 { 1 } else { choice.cut }
}

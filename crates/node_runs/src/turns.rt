//! The turns of a node between its neighbours.
ghost use Rattle.std.specs.Prelude.{◌<◌};

use crate::draws::{cut_of, draw};
use crate::links::Neighbours;
use credit_link::{NodeFault, Turn};
use std::test::Fail;

/// What a turn tells.
pub(crate) type Told = Result<Turn, NodeFault>;

/// A node, whose turns move at most `cut` bytes at once through each pipe.
pub(crate) trait Node {
    fn step(&mut self, cut: u32) -> Told
        requires { 0 < cut };
}

// Whether a node goes on behind a turn that told this.
fn goes_on(told: &Told) -> bool {
    match told {
        Ok(Turn::Done) => false,
        Ok(_) => true,
        Err(_) => false,
    }
}

/// Turns a node between its neighbours, which feed it and take from it, until it is done or meets a fault: what it tells
/// then, and what it tells by the turn behind that.
pub(crate) fn turn_to_end<N: Node>(
    node: &mut N,
    neighbours: &mut Neighbours,
    seed: u64,
) -> Result<(Told, Told), Fail> {
    let mut drawn = seed;
    for _ in 0..100_000 {
        drawn = draw(drawn);
        let cut = cut_of(drawn);
        neighbours.feed(drawn, cut);
        let told = node.step(cut);
        neighbours.take(cut)?;
        if !goes_on(&told) {
            return Ok((told, node.step(cut)));
        }
    }
    Err(Fail::from("the node goes on"))
}

//! A pipeline takes turns, as rounds and runs ask.
ghost use Rattle.pipeline_nodes.specs.Turns.{HasMet};
ghost use Rattle.pipeline_core.specs.Pipelines.{PipelineGoes};
ghost use Rattle.pipeline_core.specs.Going.{pipeline_stays, pipeline_then};

use crate::Pipeline;
use credit_link::{NodeFault, Turn};
use ds_base::{Sink, Source};
use run_rounds::{NodeAt, TakesTurns};

impl<'a, S: Source, O: Sink> TakesTurns for Pipeline<'a, S, O> {
    ghost net = { λ p. p.net };

    ghost Goes = { PipelineGoes };

    ghost Meets = { λ before after node bad. HasMet node before.net after.net bad };

    fn node_count(&self) -> u32 {
        Pipeline::node_count(self)
    }

    fn fault(&self) -> Option<NodeAt> {
        Pipeline::fault(self)
    }

    fn done(&self) -> bool {
        Pipeline::done(self)
    }

    fn look(&mut self) {
        Pipeline::look(self);
    }

    fn turn(&mut self, node: u32, cut: u32) -> Result<Turn, NodeFault> {
        Pipeline::turn(self, node, cut)
    }

    ghost stays = { pipeline_stays };

    ghost goes_on = { pipeline_then };
}

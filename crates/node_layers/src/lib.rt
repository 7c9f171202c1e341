//! The new nodes of each layer of a pipeline, made from the lists of their new links: a layer is refused for
//! want of memory alone. A layer of parsers takes its sources out of their lists, and puts them back there when
//! it is refused or closed, so no source is ever lost.
#![tactic(auto)]

mod groupers;
mod parsers;
mod processors;

pub use groupers::{GrouperList, grouper_layer};
pub use parsers::{ParserList, close_parsers, parser_layer};
pub use processors::{ProcessorList, processor_layer};

//! Query processors that are fed by groupers in orders and cuts that are drawn.
mod answers;
mod runs;

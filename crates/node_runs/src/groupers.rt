//! Groupers that are fed by parsers in orders and cuts that are drawn.
mod runs;
mod scripts;

//! Parsers of two captures in memory, whose links lead to two groupers and to the merge.
mod captures;
mod runs;

//! The words of the command line: which command they ask for, with its values, or the exact place
//! of the first word that no accepted command line has. The commands, with the words that each
//! needs and the options that each has, stand in one table; whoever adds one adds its row there.
#![tactic(auto)]

// What a word may be, and the table of commands.
mod kind;
mod number;
mod table;

// Words are read one by one, and the command is made of them.
mod command;
mod reading;
mod shape;
mod words;

// What is printed for people.
mod help;

pub use command::{Command, Sizes};
pub use help::{HELP, VERSION_LINE};
pub use words::{Misplaced, read_words};

#[cfg(test)]
mod tests;

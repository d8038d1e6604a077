// The text form of calls and answers: the lines of an input are gathered, a line of a script is parsed, an answer is
// printed, and output is gathered. docs/console.md has the form.
#![tactic(auto)]

pub mod answers;
mod commands;
pub mod input;
pub mod lines;
pub mod output;
mod texts;
mod words;

// The lines of `calls`: the call that a line asks for, and the text of an answer. docs/CALLS.md has the words.
#![tactic(auto)]

pub mod answer;
pub mod call;
pub mod text;

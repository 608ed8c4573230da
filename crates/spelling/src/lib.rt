//! How files are spelled: bytes cut into lines, lines into words, words read as numbers.
#![tactic(auto)]

mod cut;
pub mod fault;
pub mod lines;
pub mod word;
pub mod words;

//! What the program prints: every byte of it is made here, from the bytes of the market file.
#![tactic(auto)]

mod fault_text;
mod market_text;
mod page;
pub mod reply;
#[cfg(test)]
mod tests;

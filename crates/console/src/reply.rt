// The program's answer: the bytes that it prints, made in room that was reserved beforehand.
use crate::page::Page;
use market_file::ledger::Ledger;

mod answer;
pub mod owners;

/// Room for any answer and for the check of a file, and the last answer in it.
#[derive(Drop)]
pub struct Reply {
    page: Page,
    ledger: Ledger,
}

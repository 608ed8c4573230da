// Making room for answers, answering, and what was answered.
ghost use Rattle.std.specs.Prelude.{◌≡◌, [], IfOk};
ghost use Rattle.console.specs.Printed.{verdict};
ghost use Rattle.console.specs.Replies.{replied};
ghost use Rattle.console.specs.Verdicts.{Tells};

use super::Reply;
use crate::page::Page;
use market_file::file::check_form;
use market_file::ledger::Ledger;
use market_lines::report::{Fault, Source};
use std::alloc::{AllocError, Global};

impl Reply {
    /// Makes the room. This alone can fail, and only for want of memory.
    pub fn with_room(heap: Global) -> Result<Reply, AllocError>
        ensures { IfOk result (λ reply. replied reply ≡ []) }
    {
        let page = Page::with_room(heap)?;
        let ledger = Ledger::with_room(heap)?;
        Ok(Reply { page, ledger })
    }

    /// Answers a market file: with its first fault, or with `ok` and its sizes.
    #[tactic(auto, using(crate::proofs::Judging::judged))]
    pub fn answer(&mut self, market: &[u8])
        ensures text { replied self.new ≡ verdict market.now }
        ensures law { Tells market.now (replied self.new) }
    {
        self.page.clear();
        match check_form(&mut self.ledger, market) {
            Ok(form) => self.page.put_sizes(form.sizes),
            Err(fault) => {
                let source = Source::Market;
                self.page.put_fault(market, &[], &Fault { source, fault });
            }
        }
    }

    /// The bytes of the last answer.
    pub fn bytes(&self) -> &[u8]
        ensures { result.now ≡ replied self.now }
    {
        self.page.bytes()
    }
}

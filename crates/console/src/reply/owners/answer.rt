// Making room for answers with owners, answering, and what was answered.
ghost use Rattle.std.specs.Prelude.{◌≡◌, [], IfOk};
ghost use Rattle.market_file.specs.Ledgers.{blank};
ghost use Rattle.market_reader.specs.Held.{nothing};
ghost use Rattle.market_reader.specs.Markets.{market_read, left};
ghost use Rattle.console.specs.Printed.{owners_verdict};
ghost use Rattle.console.specs.OwnersReplies.{owners_replied, last_market, ledger_of};
ghost use Rattle.console.specs.Verdicts.{TellsOwners};

use super::OwnersReply;
use crate::reply::Reply;
use market::sizes::MOST_AGENTS;
use market_lines::report::{Fault, Source};
use market_reader::reader::read_market;
use market_reader::record::Market;
use std::alloc::{AllocError, Global};

impl OwnersReply {
    /// Makes the room. This alone can fail, and only for want of memory.
    pub fn with_room(heap: Global) -> Result<OwnersReply, AllocError>
        ensures text { IfOk result (λ reply. owners_replied reply ≡ []) }
        ensures market { IfOk result (λ reply. last_market reply ≡ nothing) }
    {
        let reply = Reply::with_room(heap)?;
        let market = Market::with_room(heap)?;
        let row = Vec::with_capacity(heap, usize::from(MOST_AGENTS))?;
        Ok(OwnersReply { reply, market, row })
    }

    /// Reads a market file, and answers with its first fault, or with `ok`, its numbers of agents and places, and who
    /// owns each place while everybody waits.
    #[tactic(auto, using(crate::proofs::Judging::owners_judged))]
    pub fn answer(&mut self, market: &[u8])
        ensures text { owners_replied self.new ≡ owners_verdict market.now }
        ensures market { last_market self.new ≡ left (market_read market.now) (last_market self.old) }
        ensures ledger { ledger_of self.new ≡ blank }
        ensures law { TellsOwners market.now (owners_replied self.new) }
    {
        self.reply.page.clear();
        match read_market(&mut self.reply.ledger, &mut self.market, market) {
            Ok(()) => self.reply.page.put_market(&mut self.row, &self.market),
            Err(fault) => {
                let source = Source::Market;
                self.reply
                    .page
                    .put_fault(market, &[], &Fault { source, fault });
            }
        }
    }

    /// The bytes of the last answer.
    pub fn bytes(&self) -> &[u8]
        ensures { result.now ≡ owners_replied self.now }
    {
        self.reply.bytes()
    }
}

// What is printed of a market: its numbers of agents and places, and who owns each place while everybody waits.
ghost use Rattle.std.specs.Prelude.{◌≡◌, ◌+◌, ◌*◌, ◌≤◌, ◌++◌, length, replicate, vec_capacity};
ghost use Rattle.market.specs.declared.standing.Standing.TheVariants.{Waiting};
ghost use Rattle.market_reader.specs.Held.{held};
ghost use Rattle.market_reader.specs.Keeping.{SoundMarket};
ghost use Rattle.console.specs.Printed.{ok_text, owners_text, market_text};

use crate::page::{Page, ROOM};
use inheritance::rule::Rule;
use market::place::Place;
use market::sizes::Sizes;
use market::standing::Standing;
use market_reader::record::Market;
use piles::pile::pile_of;

/// Makes of a row one in which so many agents wait.
fn all_wait(row: &mut Vec<Standing>, agents: u16)
    requires { agents ≤ vec_capacity row.old }
    ensures items { row.new.items ≡ replicate agents Waiting }
    ensures capacity { vec_capacity row.old ≤ vec_capacity row.new }
{
    row.clear();
    let _ = row.resize(usize::from(agents), Standing::Waiting);
}

impl Page {
    /// Puts `ok` and the sizes of a market.
    pub(crate) fn put_sizes(&mut self, sizes: Sizes)
        requires { length self.old + 45 ≤ ROOM }
        ensures text { self.new ≡ self.old ++ ok_text sizes }
        ensures len { length self.new ≤ length self.old + 45 }
    {
        self.put_pair(b"ok", sizes.agents, sizes.places);
    }

    /// Puts the owner of each place in a row.
    #[tactic(auto, using(crate::proofs::Owners::owner_more))]
    fn put_owners<R: Rule>(&mut self, rule: &R, row: &[Standing])
        requires { length self.old + 48 * (R.Rule.terms rule.now).places ≤ ROOM }
        ensures { self.new ≡ self.old ++ owners_text (R.Rule.terms rule.now) row.now }
    {
        for number in 1..=rule.sizes().places {
            let owner = rule.owner(row, Place { number });
            self.put_pair(b"owner", number, owner.number);
        }
    }

    /// Puts a market that a file says: `ok`, its numbers of agents and places, and the owner of each place while
    /// everybody waits.
    pub(crate) fn put_market(&mut self, row: &mut Vec<Standing>, market: &Market)
        requires sound { SoundMarket (held market.now) }
        requires room { length self.old + 1965 ≤ ROOM }
        requires agents { 200 ≤ vec_capacity row.old }
        ensures text { self.new ≡ self.old ++ market_text (held market.now) }
        ensures room { vec_capacity row.old ≤ vec_capacity row.new }
    {
        let pile = pile_of(market).unwrap();
        all_wait(row, market.sizes().agents);
        self.put_sizes(market.sizes());
        self.put_owners(&pile, row.as_slice());
    }
}

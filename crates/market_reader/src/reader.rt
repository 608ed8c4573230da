// The reader of market files.
ghost use Rattle.std.specs.Prelude.{◌≡◌, ◌≤◌, length, drop};
ghost use Rattle.std.specs.List.{AllByRecursion};
ghost use Rattle.spelling.specs.Lines.{lines};
ghost use Rattle.market_file.specs.Contents.{kinds_of};
ghost use Rattle.market_file.specs.Files.{numbers_at};
ghost use Rattle.market_file.specs.Ledgers.{known, blank};
ghost use Rattle.market_reader.specs.Filling.{entries_of, after};
ghost use Rattle.market_reader.specs.Held.{held};
ghost use Rattle.market_reader.specs.Keeping.{MarketLaw};
ghost use Rattle.market_reader.specs.Markets.{market_read, verdict_of, left, answered};

use crate::record::Market;
use market_file::file::check_form;
use market_file::form::Contents;
use market_file::ledger::Ledger;
use market_lines::fault::MarketFault;
use spelling::lines::Lines;
use spelling::words::Words;

/// Enters the lines of the sections, each as a record of the kind that the contents say.
fn enter_all(market: &mut Market, contents: Contents, file: &[u8])
    requires nodes { length (held market.old).nodes ≤ 0 }
    requires tenants { length (held market.old).tenants ≤ 0 }
    requires kinds { length (kinds_of contents) ≤ 621 }
    requires few { AllByRecursion (λ l. length (numbers_at l) ≤ 201) (drop 2 (lines file.now)) }
    ensures { held market.new ≡ after (held market.old) (entries_of (kinds_of contents) (drop 2 (lines file.now))) }
{
    for (kind, text) in contents.kinds().zip(Lines::new(file).skip(2)) {
        market.enter(kind, Words::after_letter(text));
    }
}

/// Reads a file: the market that it says, or the first of its faults; then the market stays as it was. The ledger is
/// room for the check, and blank after it.
#[tactic(auto, using(crate::proofs::Lawful::reading))]
pub fn read_market(ledger: &mut Ledger, market: &mut Market, file: &[u8]) -> Result<(), MarketFault>
    ensures value { result ≡ verdict_of (market_read file.now) }
    ensures market { held market.new ≡ left (market_read file.now) (held market.old) }
    ensures law { MarketLaw file.now (answered result (held market.new)) }
    ensures ledger { known ledger.new ≡ blank }
{
    let form = check_form(ledger, file)?;
    market.start(form);
    enter_all(market, form.contents, file);
    Ok(())
}

// A whole file: its size, its first two lines, and its sections.
ghost use Rattle.std.specs.Prelude.{◌≡◌};
ghost use Rattle.market_file.specs.Files.{file_form};
ghost use Rattle.market_file.specs.Keeping.{FormLaw};
ghost use Rattle.market_file.specs.Ledgers.{known, blank};

use crate::form::Form;
use crate::head::{read_contents, read_sizes};
use crate::ledger::Ledger;
use crate::sections::check_sections;
use market_lines::fault::MarketFault;
use spelling::lines::Lines;

/// The most bytes that a file may have.
// Kept: `exchange` has a number of its own for its room, one byte more, since it stands on `console` alone.
const MOST_BYTES: usize = 65_535;

/// The form of a file, or the first of its faults, by a ledger that is blank.
fn form_of(ledger: &mut Ledger, file: &[u8]) -> Result<Form, MarketFault>
    requires { known ledger.old ≡ blank }
    ensures { result ≡ file_form file.now }
{
    if file.is_empty() || file.len() > MOST_BYTES {
        return Err(MarketFault::Size);
    }
    let mut lines = Lines::new(file);
    let sizes = read_sizes(lines.next())?;
    let contents = read_contents(sizes, lines.next())?;
    check_sections(ledger, sizes, contents, lines)?;
    Ok(Form { sizes, contents })
}

/// The form of a file, or the first of its faults. The ledger is room for the check, and blank after it.
#[tactic(auto, using(crate::proofs::Lawful::form_law))]
pub fn check_form(ledger: &mut Ledger, file: &[u8]) -> Result<Form, MarketFault>
    ensures value { result ≡ file_form file.now }
    ensures law { FormLaw file.now result }
    ensures after { known ledger.new ≡ blank }
{
    ledger.clear();
    let answer = form_of(ledger, file);
    ledger.clear();
    answer
}

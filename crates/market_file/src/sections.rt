// The lines of the sections: of the kinds that the contents say, and as many.
ghost use Rattle.std.specs.Prelude.{◌≡◌, ◌+◌, ◌<◌, ◌≤◌, length, IfOk};
ghost use Rattle.spelling.specs.Views.{lines_of};
ghost use Rattle.market_file.specs.Contents.{kinds_of};
ghost use Rattle.market_file.specs.Files.{broken as broken_at, wrong_at, line_checked, sections_checked, numbers_at};
ghost use Rattle.market_file.specs.Ledgers.{known, blank, noted};

use crate::due::Due;
use crate::form::Contents;
use crate::ledger::Ledger;
use market::sizes::Sizes;
use market_lines::fault::{MarketFault, Spot};
use naming::fault::NameFault;
use spelling::lines::Lines;

/// What a line names wrongly, and the line's number.
#[derive(Clone, Copy)]
struct Misnamed {
    line: usize,
    fault: NameFault,
}

impl From<Misnamed> for MarketFault {
    ghost from_gives = { λ e r. r ≡ wrong_at e.line e.fault };

    /// The file's fault: a parent is word 2 of its line.
    fn from(e: Misnamed) -> MarketFault {
        let Misnamed { line, fault } = e;
        match fault {
            NameFault::Parent => MarketFault::Parent(Spot { line, word: 2 }),
            NameFault::Twice(word) => MarketFault::Twice(Spot { line, word }),
        }
    }
}

/// A line is missing or extra.
pub(crate) fn broken(line: usize) -> MarketFault
    ensures { result ≡ broken_at line 0 }
{
    MarketFault::Contents(Spot { line, word: 0 })
}

/// Checks a line of the sections, and notes what it names.
fn check_line(ledger: &mut Ledger, due: Due, number: usize, text: &[u8]) -> Result<(), MarketFault>
    requires sizes { (due.sizes.agents ≤ 200) × (due.sizes.places ≤ 40) }
    requires room { length (known ledger.old).names + length (known ledger.old).nodes < 700 }
    ensures value { result ≡ line_checked due.sizes number (known ledger.old) due.kind text.now }
    ensures after { IfOk result (λ _. known ledger.new ≡ noted due.kind (numbers_at text.now) (known ledger.old)) }
{
    let line = due.read_numbered(number, text)?;
    ledger.take(line).map_err(|fault| Misnamed {
        line: number,
        fault,
    })?;
    Ok(())
}

/// Checks the lines after the first two, by a ledger of what they name.
// Kept: a second type of sizes, for bounds that three functions name, is no plainer; a `Sizes` may be any two numbers,
// since the makers of rules refuse larger ones.
pub(crate) fn check_sections(
    ledger: &mut Ledger,
    sizes: Sizes,
    contents: Contents,
    others: Lines<'_>,
) -> Result<(), MarketFault>
    requires blank { known ledger.old ≡ blank }
    requires sizes { (sizes.agents ≤ 200) × (sizes.places ≤ 40) }
    requires few { length (kinds_of contents) ≤ 621 }
    ensures { result ≡ sections_checked sizes 2 blank (kinds_of contents) (lines_of others.entry) }
{
    let mut lines = others;
    for (after, kind) in contents.kinds().enumerate() {
        let number = after + 3;
        let text = lines.next().ok_or(broken(number))?;
        check_line(ledger, Due { kind, sizes }, number, text)?;
    }
    match lines.next() {
        Some(_) => Err(broken(contents.kinds().count() + 3)),
        None => Ok(()),
    }
}

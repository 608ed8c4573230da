// Where a fault stands: in which of the two files of a run, and on which line.
ghost use Rattle.std.specs.Prelude.{◌≡◌};
ghost use Rattle.market_lines.specs.Reports.{faulty_line};

use crate::fault::MarketFault;
use spelling::lines::line_at;

/// One of the two files of a run.
#[derive(Clone, Copy, Debug, PartialEq, Eq)]
pub enum Source {
    Market,
    Session,
}

/// A fault, and the file that has it.
#[derive(Clone, Copy, Debug, PartialEq, Eq)]
pub struct Fault {
    pub source: Source,
    pub fault: MarketFault,
}

/// The faulty line as it stands in the market's bytes or in the session's; empty where there is none.
pub fn faulty_line<'a>(market: &'a [u8], session: &'a [u8], fault: &Fault) -> &'a [u8]
    ensures { result.now ≡ faulty_line market.now session.now fault.now }
{
    let file = match fault.source {
        Source::Market => market,
        Source::Session => session,
    };
    let spot = fault.fault.spot();
    spot.and_then(|spot| line_at(file, spot.line))
        .unwrap_or(&file[..0])
}

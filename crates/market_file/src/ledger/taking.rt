// Making room for a ledger, and taking one line after another into it.
ghost use Rattle.std.specs.Prelude.{◌≡◌, ◌<◌, ◌≤◌, length, IfOk};
ghost use Rattle.std.specs.Result.{result_err};
ghost use Rattle.naming.specs.Faults.{name_fault};
ghost use Rattle.market_lines.specs.Records.{seen};
ghost use Rattle.market_file.specs.Ledgers.{known, blank, name_in, noted, afterwards};

use super::Ledger;
use crate::form::{MOST_LINES, MOST_WORDS};
use crate::node::node_in;
use crate::numbered::gather;
use market_lines::line::Line;
use naming::fault::{Name, NameFault};
use naming::noted::Noted;
use std::alloc::{AllocError, Global};

/// The name that the first word of a line says.
fn name_in(line: Line<'_>) -> Name
    ensures { result ≡ name_in (seen line.entry).kind (seen line.entry).numbers }
{
    Name {
        kind: line.kind(),
        number: line.words().take_next(),
    }
}

impl Ledger {
    /// Makes the room. This alone can fail, and only for want of memory.
    pub fn with_room(heap: Global) -> Result<Ledger, AllocError>
        ensures { IfOk result (λ ledger. known ledger ≡ blank) }
    {
        let names = Vec::with_capacity(heap, MOST_LINES)?;
        let nodes = Vec::with_capacity(heap, MOST_LINES)?;
        let numbers = Vec::with_capacity(heap, MOST_WORDS)?;
        Ok(Ledger {
            names,
            nodes,
            numbers,
        })
    }

    /// Forgets all lines.
    pub(crate) fn clear(&mut self)
        ensures { known self.new ≡ blank }
    {
        self.names.clear();
        self.nodes.clear();
    }

    /// Notes a line that names nothing wrongly.
    fn note(&mut self, line: Line<'_>)
        requires names { length (known self.old).names < 700 }
        requires nodes { length (known self.old).nodes < 700 }
        ensures { known self.new ≡ noted (seen line.entry).kind (seen line.entry).numbers (known self.old) }
    {
        match line {
            Line::Market(..) | Line::Contents(..) | Line::Queue(..) => {}
            Line::Heir(_, words) => self.nodes.push_reserved(node_in(words)),
            Line::Seats(..) | Line::Priorities(..) | Line::Tenant(..) | Line::Ranking(..) => {
                self.names.push_reserved(name_in(line));
            }
        }
    }

    /// Checks what a line names, after the lines so far; where nothing is wrong, the line is noted.
    pub(crate) fn take(&mut self, line: Line<'_>) -> Result<(), NameFault>
        requires names { length (known self.old).names < 700 }
        requires nodes { length (known self.old).nodes < 700 }
        requires few { length (seen line).numbers ≤ 201 }
        ensures value { result_err result ≡ name_fault (known self.old).names (known self.old).nodes (seen line.entry).kind (seen line.entry).numbers }
        ensures after { known self.new ≡ afterwards (result_err result) (seen line.entry).kind (seen line.entry).numbers (known self.old) }
    {
        gather(&mut self.numbers, line.words());
        let noted = Noted {
            names: self.names.as_slice(),
            nodes: self.nodes.as_slice(),
        };
        noted.check(line.kind(), self.numbers.as_slice())?;
        self.note(line);
        Ok(())
    }
}

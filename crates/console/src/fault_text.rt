// A fault as it is printed.
ghost use Rattle.std.specs.Prelude.{◌≡◌, ◌+◌, ◌≤◌, ◌++◌, length};
ghost use Rattle.market_lines.specs.Reports.{faulty_line};
ghost use Rattle.console.specs.Printed.{source_letter, layer_name, fault_head, fault_text};

use crate::page::{Page, ROOM};
use market_lines::fault::Layer;
use market_lines::report::{Fault, Source, faulty_line};

/// The letter of the file that has a fault.
// Kept, as is the name of a layer below: bytes for `Page`, where a `Display` would need `write!`.
fn source_letter(source: Source) -> u8
    ensures { result ≡ source_letter source }
{
    match source {
        Source::Market => b'm',
        Source::Session => b's',
    }
}

/// The name of a layer.
fn layer_name(layer: Layer) -> &'static [u8]
    ensures name { result.now ≡ layer_name layer }
    ensures len { length result.now ≤ 6 }
{
    match layer {
        Layer::Word => b"word",
        Layer::Line => b"line",
        Layer::Market => b"market",
    }
}

impl Page {
    /// Puts a fault's own line: the file, the layer, the cause, the line and the word.
    fn put_head(&mut self, fault: &Fault)
        requires { length self.old + 80 ≤ ROOM }
        ensures text { self.new ≡ self.old ++ fault_head fault.now }
        ensures len { length self.new ≤ length self.old + 80 }
    {
        let found = fault.fault;
        self.put(b"E ");
        self.put(&[source_letter(fault.source), b' ']);
        self.put(layer_name(found.layer()));
        self.put_words(&[usize::from(found.cause()), found.line(), found.word()]);
        self.put(b"\n");
    }

    /// Puts a fault and, below it, the faulty line.
    pub(crate) fn put_fault(&mut self, market: &[u8], session: &[u8], fault: &Fault)
        requires { length self.old + length (faulty_line market.now session.now fault.now) + 81 ≤ ROOM }
        ensures { self.new ≡ self.old ++ fault_text market.now session.now fault.now }
    {
        self.put_head(fault);
        self.put(faulty_line(market, session, fault));
        self.put(b"\n");
    }
}

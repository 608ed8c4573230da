// The text of an answer, in room that was reserved beforehand.
ghost use Rattle.std.specs.Prelude.{◌≡◌, ◌+◌, ◌*◌, ◌≤◌, [], ◌++◌, length, IfOk};
ghost use Rattle.spelling.specs.Grammar.{spell};
ghost use Rattle.console.specs.Printed.{pair_text};

use itoa::Buffer;
use std::alloc::{AllocError, Global};
use std::marker::Model;

/// Enough for the longest answer: a fault's line of at most 80 bytes, a faulty line of at most 65,535, a line feed.
pub(crate) const ROOM: usize = 65_700;

/// The bytes of an answer.
#[derive(Drop)]
pub(crate) struct Page {
    bytes: Vec<u8>,
}

impl Model for Page {
    ghost use Rattle.std.specs.Prelude.{ℕ, ◌≤◌, List, vec_capacity};

    ghost Value = { List ℕ };

    ghost view = { λ page. page.bytes.items };

    ghost invariant = { λ page. 65700 ≤ vec_capacity page.bytes };
}

// Kept: bytes are put by methods that cannot fail. Of `write!` a clause says what was written at `Ok` alone, and none
// says when it is `Ok`.
impl Page {
    /// Makes the room. This alone can fail, and only for want of memory.
    pub(crate) fn with_room(heap: Global) -> Result<Page, AllocError>
        ensures { IfOk result (λ page. page ≡ []) }
    {
        let bytes = Vec::with_capacity(heap, ROOM)?;
        Ok(Page { bytes })
    }

    /// Takes all bytes away.
    pub(crate) fn clear(&mut self)
        ensures { self.new ≡ [] }
    {
        self.bytes.clear();
    }

    /// The bytes.
    pub(crate) fn bytes(&self) -> &[u8]
        ensures { result.now ≡ self.now }
    {
        self.bytes.as_slice()
    }

    /// Puts bytes.
    pub(crate) fn put(&mut self, bytes: &[u8])
        requires { length self.old + length bytes.now ≤ ROOM }
        ensures { self.new ≡ self.old ++ bytes.now }
    {
        let _ = self.bytes.extend_from_slice(bytes);
    }

    /// Puts numbers, each with a space before it, as words of a line are spelled.
    pub(crate) fn put_words(&mut self, numbers: &[usize])
        requires { length self.old + 21 * length numbers.now ≤ ROOM }
        ensures text { self.new ≡ self.old ++ spell numbers.now }
        ensures len { length self.new ≤ length self.old + 21 * length numbers.now }
    {
        for number in numbers {
            self.put(b" ");
            self.put(Buffer::new().format(*number).as_bytes());
        }
    }

    /// Puts a line: a name and two numbers.
    pub(crate) fn put_pair(&mut self, name: &[u8], first: u16, second: u16)
        requires { length self.old + length name.now + 43 ≤ ROOM }
        ensures text { self.new ≡ self.old ++ pair_text name.now first second }
        ensures len { length self.new ≤ length self.old + length name.now + 43 }
    {
        self.put(name);
        self.put_words(&[usize::from(first), usize::from(second)]);
        self.put(b"\n");
    }
}

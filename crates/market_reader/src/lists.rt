// Lists of agents or places by number, in room that was reserved beforehand.
ghost use Rattle.std.specs.Prelude.{◌≡◌, ◌-◌, ◌≤◌, [], map, take, length, replicate, IfOk, vec_items, vec_capacity};
ghost use Rattle.std.specs.Borrow.{sem};
ghost use Rattle.std.specs.Option.{option_copied_mut};
ghost use Rattle.spelling.specs.Views.{numbers_of};
ghost use Rattle.market_reader.specs.Tables.{set_at, entry_at};
ghost use Rattle.std.specs.Vec.{vec_follows_get};

use market_file::form::MOST_WORDS;
use market_file::numbered::{Numbered, gather};
use spelling::words::Words;
use std::alloc::{AllocError, Allocator, Global};
use std::marker::Model;

/// Lists by number, each in room for what a line can say.
#[derive(Drop)]
pub(crate) struct Lists<T> {
    lists: Vec<Vec<T>>,
}

impl<T> Model for Lists<T> {
    ghost use Rattle.std.specs.Prelude.{◌≡◌, true, List, map, vec_items, vec_capacity};
    ghost use Rattle.market_reader.specs.Rooms.{room_for};

    ghost Value = { List (List T) };

    ghost view = { λ l. map vec_items l.lists.items };

    ghost invariant = { λ l. room_for 201 (map vec_capacity l.lists.items) ≡ true };
}

/// The entry of a list with a number, counted from 1, where there is one.
fn entry_at<T, A: Allocator>(list: &mut Vec<T, A>, number: u16) -> Option<&mut T>
    ensures* writes_back { sem 𝓛 (vec_follows_get T.row A.row A.Allocator list.entry (number - 1) result) }
    ensures value { option_copied_mut result ≡ entry_at list.old.items number }
{
    list.get_mut(usize::from(number).checked_sub(1)?)
}

impl<T> Lists<T> {
    /// Lists that are empty, so many.
    pub(crate) fn with_room(heap: Global, count: usize) -> Result<Lists<T>, AllocError>
    where
        T: Drop,
        ensures { IfOk result (λ made. made ≡ replicate count []) }
    {
        // Kept: tried `(0..count).map(..).try_collect(heap)`; the proof that each list then has its room did not close.
        let mut lists = Vec::with_capacity(heap, count)?;
        for _ in 0..count {
            let list = Vec::with_capacity(heap, MOST_WORDS)?;
            lists.push_reserved(list);
        }
        Ok(Lists { lists })
    }

    /// The first lists, so many.
    #[tactic(auto, using(crate::proofs::Tabling::first_read))]
    pub(crate) fn first(&self, count: usize) -> &[Vec<T>]
        requires { count ≤ length self.now }
        ensures { map vec_items result.now ≡ take count self.now }
    {
        &self.lists[..count]
    }

    /// Empties all lists.
    #[tactic(auto, using(crate::proofs::Tabling::emptied))]
    pub(crate) fn clear(&mut self)
    where
        T: Drop,
        ensures { self.new ≡ replicate (length self.old) [] }
    {
        for list in self.lists.iter_mut() {
            list.clear();
        }
    }
}

impl<T: Numbered> Lists<T> {
    /// Gathers what the words stand for in the list with a number, where there is one.
    #[tactic(auto, using(crate::proofs::Tabling::another_entry))]
    pub(crate) fn gather_at(&mut self, number: u16, words: Words<'_>)
        requires { length (numbers_of words) ≤ 201 }
        ensures { self.new ≡ set_at self.old number (map T.Numbered.stands (numbers_of words.entry)) }
    {
        if let Some(list) = entry_at(&mut self.lists, number) {
            gather(list, words);
        }
    }
}

/// Puts a value at a number, where there is such an entry.
// Kept: over a slice, without the clause on the room, the goal `returns` did not close, since `get_mut` of a slice does
// not say what it lends back.
pub(crate) fn put_at(list: &mut Vec<u16>, number: u16, value: u16)
    ensures items { list.new.items ≡ set_at list.old.items number value }
    ensures capacity { vec_capacity list.new ≡ vec_capacity list.old }
{
    if let Some(entry) = entry_at(list, number) {
        *entry = value;
    }
}

//! Lists of numbers as rings: each is closed by an end of its own, so that taking a number out and putting one in has no
//! case of its own for the first and the last.
use crate::links::{Link, before, join, next_of, number_after, previous_of};
use arrayvec::ArrayVec;
use std::marker::Model;

/// A list of free numbers, and further lists of numbers, where no number stands twice. Each is closed by an end: the ends' numbers follow those that may stand in lists.
#[derive(Drop)]
pub struct LinkedLists<const LINKS: usize> {
    /// How many numbers may stand in lists: those from 0 on.
    numbers: u16,
    /// What stands beside each number, then beside the end of the free ones, then beside the end of each list.
    links: ArrayVec<Link, LINKS>,
}

impl<const LINKS: usize> Model for LinkedLists<LINKS> {
    ghost use Rattle.linked_lists.specs.Lists.{Lists};

    ghost Value = { Lists };

    ghost use Rattle.linked_lists.specs.Links.{lists_of, AreLists};

    ghost view = { lists_of };

    ghost invariant = { AreLists };
}

impl<const LINKS: usize> LinkedLists<LINKS> {
    ghost use Rattle.std.specs.Prelude.{◌≡◌, ◌≤◌, ◌<◌, ◌+◌, ◌^◌, ◌++◌, ◌∷◌, [], length};
    ghost use Rattle.linked_lists.specs.Lists.{all_numbers, count_up, first_listed, last_list, list_at, lists_before, lists_without, times, with_end, with_free, with_lists, IsAfter};

    /// So many numbers, all of which are free, in order, and no further list.
    #[inline(always)]
    pub fn new(numbers: u16) -> LinkedLists<LINKS>
        requires room { numbers < LINKS }
        requires small { LINKS ≤ 2 ^ 16 }
        ensures { result ≡ record { numbers = numbers; free = count_up 0 numbers; lists = [] } }
    {
        let mut links = ArrayVec::new();
        for number in 0..numbers {
            links.push(Link {
                previous: before(number, numbers),
                next: number + 1,
            });
        }
        links.push(Link {
            previous: before(numbers, numbers),
            next: 0,
        });
        LinkedLists { numbers, links }
    }

    /// How many lists there are beside the free numbers.
    #[inline]
    pub fn len(&self) -> usize
        ensures { result ≡ length self.now.lists }
    {
        self.links.len() - usize::from(self.numbers) - 1
    }

    /// The first of the free numbers, if there is one.
    #[inline]
    pub fn first_free(&self) -> Option<u16>
        ensures { result ≡ first_listed self.now.free }
    {
        number_after(&self.links, self.numbers, self.numbers)
    }

    /// The first number of a list, if it has one.
    #[inline]
    pub fn first(&self, list: usize) -> Option<u16>
        requires { list < length self.now.lists }
        ensures { result ≡ first_listed (list_at self.now.lists list) }
    {
        let end = self.numbers + 1 + list as u16;
        number_after(&self.links, end, self.numbers)
    }

    /// The number that stands after another in its list, if that is not the last.
    #[inline]
    pub fn after(&self, number: u16) -> Option<u16>
        requires { 1 ≤ times number (all_numbers self.now) }
        ensures { IsAfter self.now number result }
    {
        number_after(&self.links, number, self.numbers)
    }

    /// Takes a number out of the list in which it stands.
    #[inline]
    pub fn take_out(&mut self, number: u16)
        requires { 1 ≤ times number (all_numbers self.old) }
        ensures { self.new ≡ lists_without self.old number }
    {
        let previous = previous_of(&self.links, number);
        let next = next_of(&self.links, number);
        join(&mut self.links, previous, next);
    }

    /// Puts a number, which stands in no list, before all free ones.
    #[inline]
    pub fn put_free(&mut self, number: u16)
        requires number { number < self.old.numbers }
        requires none { times number (all_numbers self.old) ≡ 0 }
        ensures { self.new ≡ with_free self.old (number ∷ self.old.free) }
    {
        let end = self.numbers;
        let next = next_of(&self.links, end);
        join(&mut self.links, end, number);
        join(&mut self.links, number, next);
    }

    /// Puts a number, which stands in no list, at the end of the last list.
    #[inline]
    pub fn put_last(&mut self, number: u16)
        requires number { number < self.old.numbers }
        requires none { times number (all_numbers self.old) ≡ 0 }
        requires some { 1 ≤ length self.old.lists }
        ensures { self.new ≡ with_lists self.old (with_end self.old.lists number) }
    {
        let end = (self.links.len() - 1) as u16;
        let previous = previous_of(&self.links, end);
        join(&mut self.links, previous, number);
        join(&mut self.links, number, end);
    }

    /// Adds an empty list behind the others.
    pub fn push(&mut self)
        requires { self.old.numbers + 1 + length self.old.lists < LINKS }
        ensures { self.new ≡ with_lists self.old (self.old.lists ++ [] ∷ []) }
    {
        let end = self.links.len() as u16;
        self.links.push(Link {
            previous: end,
            next: end,
        });
    }

    /// Takes the last list away, which is empty.
    pub fn pop(&mut self)
        requires some { 1 ≤ length self.old.lists }
        requires empty { last_list self.old.lists ≡ [] }
        ensures { self.new ≡ with_lists self.old (lists_before self.old.lists) }
    {
        self.links.pop();
    }
}

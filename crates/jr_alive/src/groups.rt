//! The objects of a dump by kind, and the largest.
ghost use Rattle.std.specs.Prelude.{◌≡◌};
ghost use Rattle.jr_alive.specs.Groups.{is_noted_as};

use crate::dump::Dump;
use crate::retaining::length_in;
use jr_word::{HeaderParts, Kind};
use std::alloc::{AllocError, Global};

/// The objects of a kind.
#[derive(Clone, Copy, Debug, PartialEq, Eq)]
pub struct Group {
    /// Their kind, which says the type of their elements.
    pub kind: Kind,
    /// How many there are.
    pub count: u32,
    /// How many words of array space they have.
    pub words: u64,
}

/// Whether an object of the kind has the header.
fn is_noted_as(header: Option<HeaderParts>, kind: Kind) -> bool
    ensures { result ≡ is_noted_as kind header }
{
    match header {
        None => false,
        Some(header) => header.kind.code() == kind.code(),
    }
}

impl Dump {
    ghost use Rattle.std.specs.Prelude.{◌≡◌, IfOk, length, map};
    ghost use Rattle.std.specs.List.Sorted.{IsPermutation};
    ghost use Rattle.jr_census.specs.Printed.{all_kinds};
    ghost use Rattle.jr_alive.specs.Groups.{AreLargest, FallsBy, group_of, present_to, noted_size};

    /// The objects of each kind, those with the most words first.
    ///
    /// # Time
    ///
    /// It grows with how many objects the dump has notes of.
    pub fn groups(&self) -> [Group; 9]
        ensures each { IsPermutation (map (group_of self.now) all_kinds) result }
        ensures largest { FallsBy (λ g. g.words) result }
    {
        let mut groups = [
            self.group(Kind::Plain),
            self.group(Kind::Boolean),
            self.group(Kind::Byte),
            self.group(Kind::Char),
            self.group(Kind::Short),
            self.group(Kind::Int),
            self.group(Kind::Long),
            self.group(Kind::Objects),
            self.group(Kind::Text),
        ];
        groups.sort_unstable_by_key(|group| group.words);
        groups.reverse();
        groups
    }

    /// The objects of a kind.
    fn group(&self, kind: Kind) -> Group
        ensures { result ≡ group_of self.now kind }
    {
        let mut count = 0;
        let mut words = 0;
        for header in &self.headers {
            if is_noted_as(*header, kind) {
                count += 1;
                words += u64::from(length_in(*header));
            }
        }
        Group { kind, count, words }
    }

    /// The numbers of the objects with the most words, those with more first: so many, or all where there are fewer.
    ///
    /// # Errors
    ///
    /// Where memory was refused.
    ///
    /// # Time
    ///
    /// That of a sort of the objects that the dump has.
    pub fn largest(&self, alloc: Global, most: usize) -> Result<Vec<u16>, AllocError>
        ensures { IfOk result (λ numbers. AreLargest self.now most numbers.items) }
    {
        let mut numbers = self.present(alloc)?;
        numbers.sort_unstable_by_key(|object| self.size(*object));
        numbers.reverse();
        numbers.truncate(most);
        Ok(numbers)
    }

    /// The numbers of the objects that the dump has.
    fn present(&self, alloc: Global) -> Result<Vec<u16>, AllocError>
        ensures { IfOk result (λ numbers. numbers.items ≡ present_to self.now (length self.now.headers.items)) }
    {
        let mut numbers = Vec::new(alloc);
        for index in 0..self.headers.len() {
            if self.headers[index].is_some() {
                numbers.push((index + 1) as u16)?;
            }
        }
        Ok(numbers)
    }

    /// How many words an object has, by its number.
    pub(crate) fn size(&self, object: u16) -> u32
        ensures { result ≡ noted_size self.now object }
    {
        length_in(self.header(object, 0))
    }
}

//! What one thread posts and sees on a board that it shares.

ghost use Rattle.std.specs.Prelude.{◌≡◌, ◌⊎◌, ◌+◌, ◌≤◌, ◌<◌, suc, true, Some, None, get_or, length, IfOk, IfSome};
ghost use Rattle.jr_scripts.specs.NotedWords.{account_noted, cell_at, posted_in, AreOfCells, HasAllOf, IsBlank, HasNoted, StaysNoted, words_noted};
ghost use Rattle.jr_scripts.specs.Layouts.{cell_number, layout_of};

use crate::board::{Board, Posts};
use crate::sighting::{Posted, Sighting};
use jr_steps::Steps;
use jr_syntax::Name;
use std::alloc::{AllocError, Global};

/// What one thread posts and sees on a board that it shares: it keeps what shows that each word stays where it was posted. To post or to look takes neither memory nor a lock.
#[derive(Drop)]
pub struct Sightings<'a, T> {
    pub(crate) posts: &'a Posts<T>,
    pub(crate) notes: Vec<Option<Sighting<'a, T>>>,
    pub(crate) is_lost: bool,
    pub(crate) heard: u64,
    ghost of: { AreOfCells posts.now.cells.items notes.items },
}

/// A place for each of so many notes.
fn blank<'a, T>(alloc: Global, count: usize) -> Result<Vec<Option<Sighting<'a, T>>>, AllocError>
    ensures { IfOk result (λ v. IsBlank v.items) }
{
    let mut notes = Vec::new(alloc);
    for _ in 0..count {
        notes.push(None)?;
    }
    Ok(notes)
}

/// The note of what is posted now at a number; none where it isn't, as where something stands there.
fn posted<'a, T: Drop>(
    posts: &'a Posts<T>,
    number: usize,
    what: Posted<T>,
) -> Option<Sighting<'a, T>>
    requires { number < length posts.now.cells.items }
    ensures { IfSome result (λ note. (note.token.of ≡ cell_at posts.now.cells.items number) × (note.token.value ≡ what)) }
{
    match posts.cells[number].try_set(what) {
        Ok(token) => Some(Sighting { token }),
        Err(_) => None,
    }
}

/// The note of what was posted at a number, if it is seen.
fn seen<'a, T>(posts: &'a Posts<T>, number: usize) -> Option<Sighting<'a, T>>
    requires { number < length posts.now.cells.items }
    ensures { IfSome result (λ note. note.token.of ≡ cell_at posts.now.cells.items number) }
{
    let token = posts.cells[number].witness()?;
    Some(Sighting { token })
}

/// What was noted of a cell is what another note of it has.
fn has_same<'a, T>(noted: &Option<Sighting<'a, T>>, note: &Sighting<'a, T>)
    requires { (n : _) → noted.now ≡ Some n → n.token.of ≡ note.now.token.of }
    ensures { (p : _) → posted_in noted.now ≡ Some p → note.now.token.value ≡ p }
{
    match noted {
        Some(earlier) => earlier.agrees(note),
        None => (),
    }
}

/// Whether what the others noted of a cell is noted here too.
fn has_note<'a, T>(ours: &Option<Sighting<'a, T>>, theirs: &Option<Sighting<'a, T>>) -> bool
    requires { (m n : _) → ours.now ≡ Some m → theirs.now ≡ Some n → m.token.of ≡ n.token.of }
    ensures { result ≡ true → (p : _) → posted_in theirs.now ≡ Some p → posted_in ours.now ≡ Some p }
{
    match theirs {
        None => true,
        Some(theirs) => match ours {
            None => false,
            Some(ours) => {
                ours.agrees(theirs);
                true
            }
        },
    }
}

impl<'a, T: Drop> Sightings<'a, T> {
    /// The notes of a thread that has posted and seen nothing. Where memory is refused for them they are lost.
    pub fn new(alloc: Global, posts: &'a Posts<T>) -> Sightings<'a, T>
        ensures { result.posts.now ≡ posts.now }
    {
        match blank(alloc, posts.cells.len()) {
            Ok(notes) => Sightings {
                posts,
                notes,
                is_lost: false,
                heard: 0,
            },
            Err(_) => Sightings {
                posts,
                notes: Vec::new(alloc),
                is_lost: true,
                heard: 0,
            },
        }
    }

    /// The notes of who has seen all that was posted until now.
    pub(crate) fn of_all(alloc: Global, posts: &'a Posts<T>) -> Sightings<'a, T>
        ensures { result.posts.now ≡ posts.now }
    {
        let mut all = Sightings::new(alloc, posts);
        for number in 0..posts.cells.len() {
            if let Some(note) = seen(posts, number) {
                all.keep(number, note);
            }
        }
        all
    }

    /// Keeps the note of a word at a number.
    pub(crate) fn keep(&mut self, number: usize, note: Sighting<'a, T>)
        requires { note.token.of ≡ cell_at self.old.posts.now.cells.items number }
        ensures same { self.new.posts.now ≡ self.old.posts.now }
        ensures noted { (self.new.is_lost ≡ true) ⊎ (posted_in (get_or self.new.notes.items number None) ≡ Some note.entry.token.value) }
        ensures kept { StaysNoted self.old.notes.items self.new.notes.items }
        ensures lost { self.old.is_lost ≡ true → self.new.is_lost ≡ true }
        ensures heard { self.new.heard ≡ self.old.heard }
    {
        if number >= self.notes.len() {
            self.is_lost = true;
            return;
        }
        has_same(&self.notes[number], &note);
        self.notes[number] = Some(note);
    }

    /// The same of a word that was posted or heard, with its stamp.
    pub(crate) fn hear(&mut self, number: usize, note: Sighting<'a, T>, stamp: u64)
        requires { note.token.of ≡ cell_at self.old.posts.now.cells.items number }
        ensures same { self.new.posts.now ≡ self.old.posts.now }
        ensures noted { (self.new.is_lost ≡ true) ⊎ (posted_in (get_or self.new.notes.items number None) ≡ Some note.entry.token.value) }
        ensures kept { StaysNoted self.old.notes.items self.new.notes.items }
        ensures lost { self.old.is_lost ≡ true → self.new.is_lost ≡ true }
        ensures heard { self.old.heard ≤ self.new.heard }
        ensures stamp { stamp ≤ self.new.heard }
    {
        self.keep(number, note);
        self.heard = self.heard.max(stamp);
    }

    /// Whether all that another thread noted, on the same board, is noted here too. It never is where the other's notes were lost.
    pub(crate) fn has_all_of(&self, other: &Sightings<'a, T>) -> bool
        requires { layout_of other.now.posts.now ≡ layout_of self.now.posts.now }
        ensures { result ≡ true → HasAllOf self.now.notes.items other.now.is_lost other.now.notes.items }
    {
        if other.is_lost || self.notes.len() < other.notes.len() {
            return false;
        }
        for number in 0..other.notes.len() {
            if !has_note(&self.notes[number], &other.notes[number]) {
                return false;
            }
        }
        true
    }

    /// Posts a word under a name, with what is told, and with the least stamp above all that its thread has heard.
    pub(crate) fn put(&mut self, name: &Name, word: u64, told: T)
        ensures same { self.new.posts.now ≡ self.old.posts.now }
        ensures noted { (self.new.is_lost ≡ true) ⊎ HasNoted self.old.posts.now.numbers.entries self.new.notes.items name.now word (λ p. (p.told ≡ told) × (p.stamp ≡ suc self.old.heard)) }
        ensures kept { StaysNoted self.old.notes.items self.new.notes.items }
        ensures lost { self.old.is_lost ≡ true → self.new.is_lost ≡ true }
        ensures heard { (self.new.is_lost ≡ true) ⊎ (suc self.old.heard ≤ self.new.heard) }
    {
        let Some(stamp) = self.heard.checked_add(1) else {
            self.is_lost = true;
            return;
        };
        let Some(number) = self.posts.number(name) else {
            self.is_lost = true;
            return;
        };
        match posted(self.posts, number, Posted { word, told, stamp }) {
            Some(note) => self.hear(number, note, stamp),
            None => self.is_lost = true,
        }
    }

    /// The number of the cell of a name, and the note of what was posted there, if it is seen.
    pub(crate) fn find(&self, name: &Name) -> Option<(usize, Sighting<'a, T>)>
        ensures number { IfSome result (λ r. cell_number self.now.posts.now.numbers.entries name.now ≡ Some r.0) }
        ensures few { IfSome result (λ r. r.0 < length self.now.posts.now.cells.items) }
        ensures of { IfSome result (λ r. r.1.token.of ≡ cell_at self.now.posts.now.cells.items r.0) }
    {
        let number = self.posts.number(name)?;
        let note = seen(self.posts, number)?;
        Some((number, note))
    }

    /// What was posted, by a note of it.
    pub(crate) fn posted(&self, number: usize, note: &Sighting<'a, T>) -> &'a Posted<T>
        requires few { number < length self.now.posts.now.cells.items }
        requires of { note.now.token.of ≡ cell_at self.now.posts.now.cells.items number }
        ensures { result.now ≡ note.now.token.value }
    {
        self.posts.cells[number].value(&note.token)
    }
}

/// Over any steps, a board of words alone: of what a thread has seen it tells nothing.
impl<S: Steps> Board<S> for Sightings<'_, ()> {
    ghost layout = { λ board. layout_of board.posts.now };

    ghost tells = { λ board. account_noted (λ room. Unit {0}) (λ t seen. Unit {0}) (λ t seen. Unit {0}) board.is_lost board.posts.now.numbers.entries board.notes.items };

    ghost follows = { λ board words. words_noted board.is_lost board.posts.now.numbers.entries board.notes.items board.heard words };

    ghost looked = { λ first n found last. Unit {0} };

    fn post(&mut self, _steps: &mut S, name: &Name, word: u64) {
        self.put(name, word, ());
    }

    fn look(&mut self, _steps: &mut S, name: &Name) -> Option<u64> {
        let (number, note) = self.find(name)?;
        let posted = self.posted(number, &note);
        self.hear(number, note, posted.stamp);
        Some(posted.word)
    }
}

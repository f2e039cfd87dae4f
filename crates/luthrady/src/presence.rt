//! The place of a thread's env, by where the env is: what changes that, and what is done in a critical region that stands there.
ghost use Rattle.std.specs.Prelude.{◌≡◌, IfErr, IfNone, IfSome, length, map};
ghost use Rattle.jr_critical.specs.Levels.{in_words};
ghost use Rattle.jr_critical.specs.LevelParts.{part_read};
ghost use Rattle.jr_env.specs.Retried.{first_call, first_word};
ghost use Rattle.luthrady.specs.declared.held.Presence.TheVariants.{Detached};
ghost use Rattle.luthrady.specs.Behind.{is_attached};
ghost use Rattle.luthrady.specs.KeptRegions.{adding_first, GivesUpLevel, InItsRegion, OpensLevel, ReadsLevelElement, ReadsLevelPart, TellsLevelLength, WritesLevelElement, WritesLevelPart};
ghost use Rattle.luthrady.specs.Places.{ready_in};

use crate::held::{EnvPlace, Native, Presence};
use crate::in_region::entered;
use jr_env::levels_beside::First;
use jr_word::{Elem, Fault};
use std::mem;

/// Opens a level, and tells its number, and where the env is then.
///
/// # Errors
///
/// E21 where the thread was detached; else those of `entered` where the env is ready, and of `nested` in a region.
fn opened(presence: Presence, first: First) -> (Presence, Result<usize, Fault>)
    ensures { OpensLevel (first_call first) (adding_first first) (first_word first) presence result.0 result.1 }
{
    match presence {
        Presence::Ready(native) => entered(native, first),
        Presence::Critical(region) => region.nested(first),
        Presence::Detached => (Presence::Detached, Err(Fault::NotFresh)),
    }
}

/// Gives up the last level, and tells how many are left, and where the env is then.
///
/// # Errors
///
/// E19 where no region stands; E21 where the thread was detached.
fn released(presence: Presence) -> (Presence, Result<usize, Fault>)
    ensures { GivesUpLevel presence result.0 result.1 }
{
    match presence {
        Presence::Critical(region) => {
            let (presence, left) = region.given_up();
            (presence, Ok(left))
        }
        Presence::Ready(native) => (Presence::Ready(native), Err(Fault::InCritical)),
        Presence::Detached => (Presence::Detached, Err(Fault::NotFresh)),
    }
}

impl EnvPlace {
    /// Takes the env out that is ready, and leaves none; where none is ready, all is as it was.
    pub(crate) fn leave(&mut self) -> Option<Box<Native>>
        ensures ready { result ≡ ready_in self.old.presence }
        ensures gone { IfSome result (λ _. self.new.presence ≡ Detached) }
        ensures none { IfNone result (self.new ≡ self.old) }
        ensures mark { self.new.mark ≡ self.old.mark }
    {
        match mem::replace(&mut self.presence, Presence::Detached) {
            Presence::Ready(native) => Some(native),
            Presence::Critical(region) => {
                self.presence = Presence::Critical(region);
                None
            }
            Presence::Detached => None,
        }
    }

    /// Whether the thread is attached.
    pub(crate) fn is_attached(&self) -> bool
        ensures { result ≡ is_attached self.now.presence }
    {
        match &self.presence {
            Presence::Ready(_) => true,
            Presence::Critical(_) => true,
            Presence::Detached => false,
        }
    }

    /// Opens a level of a critical region, and tells its number.
    ///
    /// # Errors
    ///
    /// Those of `opened`.
    pub(crate) fn open_level(&mut self, first: First) -> Result<usize, Fault>
        ensures opens { OpensLevel (first_call first) (adding_first first) (first_word first) self.old.presence self.new.presence result }
        ensures mark { self.new.mark ≡ self.old.mark }
    {
        let (presence, answer) = opened(
            mem::replace(&mut self.presence, Presence::Detached),
            first,
        );
        self.presence = presence;
        answer
    }

    /// Gives up the last level of a critical region, and tells how many are left.
    ///
    /// # Errors
    ///
    /// Those of `released`.
    pub(crate) fn give_up_level(&mut self) -> Result<usize, Fault>
        ensures gives { GivesUpLevel self.old.presence self.new.presence result }
        ensures mark { self.new.mark ≡ self.old.mark }
    {
        let (presence, answer) = released(mem::replace(&mut self.presence, Presence::Detached));
        self.presence = presence;
        answer
    }

    /// Copies a part of a level out.
    ///
    /// # Errors
    ///
    /// E19 where no region stands; E21 where the thread was detached; else those of `InRegion::get_part`.
    pub(crate) fn get_part<E: Elem>(
        &mut self,
        level: usize,
        start: u32,
        elements: &mut [E],
    ) -> Result<(), Fault>
        ensures call { InItsRegion (ReadsLevelPart level E.KIND start (length elements.old)) self.old.presence self.new.presence (part_read result (map E.word_of elements.new)) }
        ensures mark { self.new.mark ≡ self.old.mark }
        ensures size { length elements.new ≡ length elements.old }
        ensures err { IfErr result (λ _. elements.new ≡ elements.old) }
    {
        match &mut self.presence {
            Presence::Critical(region) => region.get_part(level, start, elements),
            Presence::Ready(_) => Err(Fault::InCritical),
            Presence::Detached => Err(Fault::NotFresh),
        }
    }

    /// Copies elements into a part of a level.
    ///
    /// # Errors
    ///
    /// E19 where no region stands; E21 where the thread was detached; else those of `InRegion::set_part`.
    pub(crate) fn set_part<E: Elem>(
        &mut self,
        level: usize,
        start: u32,
        elements: &[E],
    ) -> Result<(), Fault>
        ensures call { InItsRegion (WritesLevelPart level E.KIND start (map E.word_of elements.now)) self.old.presence self.new.presence result }
        ensures mark { self.new.mark ≡ self.old.mark }
    {
        match &mut self.presence {
            Presence::Critical(region) => region.set_part(level, start, elements),
            Presence::Ready(_) => Err(Fault::InCritical),
            Presence::Detached => Err(Fault::NotFresh),
        }
    }

    /// An element of a level.
    ///
    /// # Errors
    ///
    /// E19 where no region stands; E21 where the thread was detached; else those of `InRegion::get`.
    pub(crate) fn get<E: Elem>(&mut self, level: usize, index: u32) -> Result<E, Fault>
        ensures call { InItsRegion (ReadsLevelElement level E.KIND index) self.old.presence self.new.presence (in_words E.word_of result) }
        ensures mark { self.new.mark ≡ self.old.mark }
    {
        match &mut self.presence {
            Presence::Critical(region) => region.get(level, index),
            Presence::Ready(_) => Err(Fault::InCritical),
            Presence::Detached => Err(Fault::NotFresh),
        }
    }

    /// Writes an element of a level.
    ///
    /// # Errors
    ///
    /// E19 where no region stands; E21 where the thread was detached; else those of `InRegion::set`.
    pub(crate) fn set<E: Elem>(&mut self, level: usize, index: u32, value: E) -> Result<(), Fault>
        ensures call { InItsRegion (WritesLevelElement level E.KIND index (E.word_of value)) self.old.presence self.new.presence result }
        ensures mark { self.new.mark ≡ self.old.mark }
    {
        match &mut self.presence {
            Presence::Critical(region) => region.set(level, index, value),
            Presence::Ready(_) => Err(Fault::InCritical),
            Presence::Detached => Err(Fault::NotFresh),
        }
    }

    /// How many elements or units a level has.
    ///
    /// # Errors
    ///
    /// E19 where no region stands; E21 where the thread was detached; else those of `InRegion::length`.
    pub(crate) fn length(&self, level: usize) -> Result<u32, Fault>
        ensures { InItsRegion (λ r s answer. (s ≡ r) × TellsLevelLength r.levels level answer) self.now.presence self.now.presence result }
    {
        match &self.presence {
            Presence::Critical(region) => region.length(level),
            Presence::Ready(_) => Err(Fault::InCritical),
            Presence::Detached => Err(Fault::NotFresh),
        }
    }
}

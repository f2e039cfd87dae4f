//! The calls that are made in stays too, and with a watcher.

use crate::arrays::ArrayCase;
use crate::calls::{
    Apart, DeleteGlobal, DeleteLocal, Length, NewGlobal, NewLocal, Same, TypeOfGlobal, TypeOfNull,
};
use crate::case::{Case, Env};
use crate::checked::{Caller, make_by};
use jr_steps::Steps;
use jr_word::Handle;

/// Which of these calls is made.
#[derive(Clone, Copy)]
pub(crate) enum StayCase {
    TypeOfNull,
    NewGlobal,
    DeleteGlobal,
    NewLocal,
    DeleteLocal,
    Same,
    TypeOfGlobal,
    Length,
}

impl StayCase {
    /// Its name.
    pub(crate) fn name(self) -> &'static str {
        match self {
            StayCase::TypeOfNull => "in_a_stay:get_object_ref_type(NULL)",
            StayCase::NewGlobal => "in_a_stay:new_global_ref(local)",
            StayCase::DeleteGlobal => "in_a_stay:delete_global_ref",
            StayCase::NewLocal => "in_a_stay:new_local_ref(global)",
            StayCase::DeleteLocal => "in_a_stay:delete_local_ref",
            StayCase::Same => "in_a_stay:is_same_object(global,global)",
            StayCase::TypeOfGlobal => "in_a_stay:get_object_ref_type(global)",
            StayCase::Length => "in_a_stay:get_array_length",
        }
    }

    /// The same call with an entry and an exit of its own.
    pub(crate) fn whole(self) -> Case {
        match self {
            StayCase::TypeOfNull => Case::TypeOfNull,
            StayCase::NewGlobal => Case::NewGlobal,
            StayCase::DeleteGlobal => Case::DeleteGlobal,
            StayCase::NewLocal => Case::NewLocal,
            StayCase::DeleteLocal => Case::DeleteLocal,
            StayCase::Same => Case::Same,
            StayCase::TypeOfGlobal => Case::TypeOfGlobal,
            StayCase::Length => Case::Arrays(ArrayCase::Length),
        }
    }

    /// Makes the call with each of the handles, by whom it is to be made: how often it answered as it should.
    pub(crate) fn make_all<S: Steps>(
        self,
        env: &mut Env<S>,
        handed: &[Handle],
        caller: Caller,
    ) -> usize {
        match self {
            StayCase::TypeOfNull => make_by(env, handed, caller, Apart(TypeOfNull)),
            StayCase::NewGlobal => make_by(env, handed, caller, Apart(NewGlobal)),
            StayCase::DeleteGlobal => make_by(env, handed, caller, Apart(DeleteGlobal)),
            StayCase::NewLocal => make_by(env, handed, caller, Apart(NewLocal)),
            StayCase::DeleteLocal => make_by(env, handed, caller, Apart(DeleteLocal)),
            StayCase::Same => make_by(env, handed, caller, Apart(Same)),
            StayCase::TypeOfGlobal => make_by(env, handed, caller, Apart(TypeOfGlobal)),
            StayCase::Length => make_by(env, handed, caller, Apart(Length)),
        }
    }
}

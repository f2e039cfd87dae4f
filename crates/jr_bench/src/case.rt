//! The cases: which call is made, and what it is handed.

use crate::arrays::ArrayCase;
use crate::calls::{
    DeleteGlobal, DeleteLocal, DeleteWeak, Inline, LONG, NewGlobal, NewLocal, NewPlain, NewWeak,
    Same, TypeOfGlobal, TypeOfNull, make_each,
};
use crate::checked::{Caller, CheckedCase};
use crate::copies::CopyCase;
use crate::criticals::CriticalCase;
use crate::others::OtherCase;
use crate::stays::StayCase;
pub(crate) use jr_env::Env;
use jr_env::NativeInterface;
use jr_steps::Steps;
use jr_word::Handle;
use std::alloc::Global;

/// Which call is made.
#[derive(Clone, Copy)]
pub(crate) enum Case {
    TypeOfNull,
    NewPlain,
    NewGlobal,
    DeleteGlobal,
    NewWeak,
    DeleteWeak,
    NewLocal,
    DeleteLocal,
    Same,
    TypeOfGlobal,
    Frames(FrameCase),
    Arrays(ArrayCase),
    Copies(CopyCase),
    Criticals(CriticalCase),
    Stays(StayCase),
    Checked(CheckedCase),
    Others(OtherCase),
}

/// Which calls for frames are made.
#[derive(Clone, Copy)]
pub(crate) enum FrameCase {
    Empty,
    OfFour,
    FreeOne,
}

/// Each case. The first does nothing between the entry and the exit.
pub(crate) const CASES: [Case; 42] = [
    Case::TypeOfNull,
    Case::NewPlain,
    Case::NewGlobal,
    Case::DeleteGlobal,
    Case::NewWeak,
    Case::DeleteWeak,
    Case::NewLocal,
    Case::DeleteLocal,
    Case::Same,
    Case::TypeOfGlobal,
    Case::Frames(FrameCase::Empty),
    Case::Frames(FrameCase::OfFour),
    Case::Frames(FrameCase::FreeOne),
    Case::Arrays(ArrayCase::Length),
    Case::Arrays(ArrayCase::CopyOut(1)),
    Case::Arrays(ArrayCase::CopyOut(64)),
    Case::Arrays(ArrayCase::CopyOut(4_096)),
    Case::Arrays(ArrayCase::CopyIn(1)),
    Case::Arrays(ArrayCase::CopyIn(64)),
    Case::Arrays(ArrayCase::CopyIn(4_096)),
    Case::Arrays(ArrayCase::New),
    Case::Arrays(ArrayCase::GetElement),
    Case::Arrays(ArrayCase::SetElement),
    Case::Copies(CopyCase::Back(64)),
    Case::Copies(CopyCase::Back(4_096)),
    Case::Copies(CopyCase::Committed(64)),
    Case::Copies(CopyCase::Committed(4_096)),
    Case::Copies(CopyCase::Text),
    Case::Criticals(CriticalCase::Open),
    Case::Criticals(CriticalCase::Get),
    Case::Criticals(CriticalCase::Set),
    Case::Criticals(CriticalCase::GetPart),
    Case::Criticals(CriticalCase::SetPart),
    Case::Arrays(ArrayCase::Copy),
    Case::Stays(StayCase::TypeOfNull),
    Case::Stays(StayCase::NewGlobal),
    Case::Stays(StayCase::DeleteGlobal),
    Case::Stays(StayCase::NewLocal),
    Case::Stays(StayCase::DeleteLocal),
    Case::Stays(StayCase::Same),
    Case::Stays(StayCase::TypeOfGlobal),
    Case::Stays(StayCase::Length),
];

/// The calls that are made with a watcher too.
pub(crate) const WATCHED: [StayCase; 8] = [
    StayCase::TypeOfNull,
    StayCase::NewGlobal,
    StayCase::DeleteGlobal,
    StayCase::NewLocal,
    StayCase::DeleteLocal,
    StayCase::Same,
    StayCase::TypeOfGlobal,
    StayCase::Length,
];

/// By whom each of these is made: without a watcher, with one who counts, and with one who keeps what it is told and is told by whom.
pub(crate) const CALLERS: [Caller; 6] = [
    Caller::Env,
    Caller::CheckedEnv,
    Caller::NamedEnv,
    Caller::Stay,
    Caller::CheckedStay,
    Caller::NamedStay,
];

/// Each call that the floor has not.
pub(crate) const OTHERS: [Case; 8] = [
    Case::Others(OtherCase::Identity),
    Case::Others(OtherCase::WordsUsed),
    Case::Others(OtherCase::LocalCounts),
    Case::Others(OtherCase::DeleteCleared),
    Case::Others(OtherCase::RetryCollecting),
    Case::Others(OtherCase::Beneath),
    Case::Others(OtherCase::Drawn),
    Case::Others(OtherCase::Stressed),
];

/// Each case of a stay, behind the same call with an entry and an exit of its own.
pub(crate) const WITH_STAYS: [Case; 16] = [
    Case::TypeOfNull,
    Case::Stays(StayCase::TypeOfNull),
    Case::NewGlobal,
    Case::Stays(StayCase::NewGlobal),
    Case::DeleteGlobal,
    Case::Stays(StayCase::DeleteGlobal),
    Case::NewLocal,
    Case::Stays(StayCase::NewLocal),
    Case::DeleteLocal,
    Case::Stays(StayCase::DeleteLocal),
    Case::Same,
    Case::Stays(StayCase::Same),
    Case::TypeOfGlobal,
    Case::Stays(StayCase::TypeOfGlobal),
    Case::Arrays(ArrayCase::Length),
    Case::Stays(StayCase::Length),
];

impl FrameCase {
    /// Its name.
    fn name(self) -> &'static str {
        match self {
            FrameCase::Empty => "ensure_local_capacity,push_local_frame,pop_local_frame(NULL)",
            FrameCase::OfFour => {
                "push_local_frame,4*new_local_ref,pop_local_frame(global),delete_local_ref"
            }
            FrameCase::FreeOne => "new_local_ref,free_locals",
        }
    }
}

impl Case {
    /// Its name.
    pub(crate) fn name(self) -> &'static str {
        match self {
            Case::TypeOfNull => "get_object_ref_type(NULL)",
            Case::NewPlain => "new_plain",
            Case::NewGlobal => "new_global_ref(local)",
            Case::DeleteGlobal => "delete_global_ref",
            Case::NewWeak => "new_weak_global_ref(local)",
            Case::DeleteWeak => "delete_weak_global_ref",
            Case::NewLocal => "new_local_ref(global)",
            Case::DeleteLocal => "delete_local_ref",
            Case::Same => "is_same_object(global,global)",
            Case::TypeOfGlobal => "get_object_ref_type(global)",
            Case::Frames(case) => case.name(),
            Case::Arrays(case) => case.name(),
            Case::Copies(case) => case.name(),
            Case::Criticals(case) => case.name(),
            Case::Stays(case) => case.name(),
            Case::Checked(case) => case.call.name(),
            Case::Others(case) => case.name(),
        }
    }

    /// The same call with an entry and an exit of its own.
    fn whole(self) -> Case {
        match self {
            Case::Stays(call) | Case::Checked(CheckedCase { call, caller: _ }) => call.whole(),
            case => case,
        }
    }

    /// What the references are to: the one object, or an array.
    fn named<S: Steps>(self, env: &mut Env<S>, object: Handle) -> Option<Handle> {
        match self {
            Case::Arrays(case) => case.array(env, object),
            Case::Copies(case) => case.array(env),
            Case::Criticals(case) => case.array(env),
            Case::Others(_) => env.new_array::<i32>(LONG).ok(),
            _ => Some(object),
        }
    }

    /// What one call is handed.
    fn handle<S: Steps>(self, env: &mut Env<S>, local: Handle, global: Handle) -> Option<Handle> {
        match self {
            Case::TypeOfNull | Case::NewPlain | Case::Frames(FrameCase::Empty) => Some(
                Handle::NULL,
            ),
            Case::NewGlobal | Case::NewWeak => Some(local),
            Case::DeleteGlobal => env.new_global_ref(local).ok()?,
            Case::DeleteWeak | Case::Others(OtherCase::DeleteCleared) => env
                .new_weak_global_ref(local)
                .ok()?,
            Case::DeleteLocal => env.new_local_ref(global).ok()?,
            _ => Some(global),
        }
    }

    /// What each of so many calls is handed, in order. All references are to one object, or to one array, and are made here.
    pub(crate) fn handed<S: Steps>(
        self,
        env: &mut Env<S>,
        alloc: Global,
        calls: u32,
    ) -> Option<Vec<Handle>> {
        let case = self.whole();
        let local = env.new_plain().ok()?;
        let named = case.named(env, local)?;
        let global = env.new_global_ref(named).ok()??;
        let mut handed = Vec::with_capacity(alloc, calls as usize).ok()?;
        for _ in 0..calls {
            let handle = case.handle(env, local, global)?;
            handed.push(handle).ok()?;
        }
        Some(handed)
    }

    /// Makes the call with each of the handles: how often it answered as it should.
    #[inline(never)]
    pub(crate) fn make_all<S: Steps>(
        self,
        env: &mut Env<S>,
        alloc: Global,
        handed: &[Handle],
    ) -> usize {
        match self {
            Case::TypeOfNull => make_each(env, handed, Inline(TypeOfNull)),
            Case::NewPlain => make_each(env, handed, NewPlain),
            Case::NewGlobal => make_each(env, handed, Inline(NewGlobal)),
            Case::DeleteGlobal => make_each(env, handed, Inline(DeleteGlobal)),
            Case::NewWeak => make_each(env, handed, NewWeak),
            Case::DeleteWeak => make_each(env, handed, DeleteWeak),
            Case::NewLocal => make_each(env, handed, Inline(NewLocal)),
            Case::DeleteLocal => make_each(env, handed, Inline(DeleteLocal)),
            Case::Same => make_each(env, handed, Inline(Same)),
            Case::TypeOfGlobal => make_each(env, handed, Inline(TypeOfGlobal)),
            Case::Frames(case) => case.make_all(env, handed),
            Case::Arrays(case) => case.make_all(env, handed),
            Case::Copies(case) => case.make_all(env, alloc, handed),
            Case::Criticals(case) => case.make_all(env, handed),
            Case::Stays(case) => case.make_all(env, handed, Caller::Stays),
            Case::Checked(CheckedCase { call, caller }) => call.make_all(env, handed, caller),
            Case::Others(case) => case.make_all(env, alloc, handed),
        }
    }
}

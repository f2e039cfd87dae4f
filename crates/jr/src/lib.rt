//! What an embedder names, from one crate: the room, its passes and steps, the env with its calls, and what these answer.
#![tactic(auto)]

pub use jr_alive::{Dump, Edge, Group, NotDrawn, Path, Root};
pub use jr_census::{Census, KindCounts, Objects, Slots, WordCounts};
pub use jr_elements::{Elements, discard_left, text_of, utf16_of};
pub use jr_env::{
    Checked, CriticalRegion, Demand, Env, Evidence, Examined, Explains, Explanation, Handed,
    LocalCounts, LocalFrames, LogWatcher, Missed, NativeCall, NativeCaller, NativeEnv,
    NativeInterface, OverEnv, Patience, Refusal, Region, Reserve, Scarce, Shortage, Span, Stay,
    TellsRefusals, TriesCalls, Unreleased, Unscoped, Warned, Warner, Watcher, call_beneath, calls,
    is_made_again, is_short_of_room, with_array_elements, with_critical, with_local_frame,
    with_local_frame_returning, with_patience,
};
pub use jr_model::{Mode, Summary};
pub use jr_rule::{
    AllLeft, Left, Note, NoteOf, Pass, PinnedNote, PinnedNoteOf, PlainSteps, Role, Room, RoomSteps,
    Site, SiteSteps, StepsIn, ThreadNumber,
};
pub use jr_steps::Steps;
pub use jr_stressed::{Stress, Stressable, Stressed, Turns};
pub use jr_weak::{Collected, Marker};
pub use jr_word::{
    Config, Elem, Fault, FaultReport, Handle, HandleParts, HeaderParts, Kind, LAST_SERIAL,
    LocalParts, RefKind, SlotParts,
};

// Native threads in a room.
pub use jr_owned::{
    Attached, AttachedOver, EnvPool, OwnedCells, OwnedCode, OwnedEnv, OwnedSteps, OwnedStepsOf,
    OwnedThreads, PoolOver, PoolRoom, RunsCode, close_collected, close_collected_listing,
    close_owned, end_owner, last_owner, of_any_site, of_site, open_envs, open_owned, owned_steps,
    spawn_owned,
};
pub use jr_threads::{
    HandedOn, NativeCode, NoMessage, QueueEnd, Ran, run_native, run_native_listing,
};

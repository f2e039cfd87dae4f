ghost use Rattle.std.specs.Prelude.{ℕ};
ghost use Rattle.jr_word.specs.declared.config.Config.{Config};
ghost use Rattle.jr_model.specs.State.{State};
ghost use Rattle.jr_model.specs.History.{PassView};
ghost use Rattle.jr_model.specs.OpenStays.{GoesOnWithItsActs, NoCollectionInOpenStay, NoCollectionUpToExit};
ghost use Rattle.jr_model.specs.Announcements.{NobodyEnters, WithinOnlyLeave, AnnouncerCounts};
ghost use Rattle.jr_model.specs.Grounded.{RefusedInItsStay, EachIsProbed, CallsAreTheirStays};
ghost use Rattle.jr_model.specs.TrueRefusals.{CallsRefuseTruly, PartsRefuseTruly};
ghost use Rattle.jr_model.specs.Moves.{CallsMoveFrames};
ghost use Rattle.jr_model.specs.RefusedCalls.{RefusalsChangeNothing, RefusedPartsChangeNothing, HarmlessChangesNothing};
ghost use Rattle.jr_model.specs.StandingReferences.{StandsUntilDeleted, ClearedUntilDeleted};
ghost use Rattle.jr_model.specs.Decided.{LegalIsDecided, EventIsDecided};
ghost use Rattle.jr_model.specs.Laws.{
  CreatedIsFound,
  DeletedIsStale,
  DeletedIsNotCreated,
  CreatedOnce,
  OneAnIndex,
  NoCollectionInside,
  OthersWait,
  NamedIsPresent,
  ElementsArePresent,
  ElementsAreWords,
  PlainHasNoElements,
  PresentIsInRoom,
  ReadsLastWord,
  LengthsFit,
  GivenOnce,
  GoneStaysGone,
  EmptiedStaysGone,
  TakenIsGone,
  FreshAreSound,
  CollectionIsExact,
  LegalGoesByStep,
  SeesItsOwnActs,
  ReleaseLeaves,
  FramesStaySound,
  FramesStayAgreed,
  HandleIsAtPlace,
};

/// A history is legal where its events are steps, one after the other, from the opening state.
pub fn legal_histories_go_by_steps()
    ensures { (c : Config) (last : ℕ) → LegalGoesByStep c last }
{}

/// Whether a history is legal, and whether an event may come behind a legal one, is decided by a test that computes.
pub fn legality_is_decided()
    ensures legal { (c : Config) (last : ℕ) → LegalIsDecided c last }
    ensures event { (c : Config) (last : ℕ) → EventIsDecided c last }
{}

/// Where a thread did all that it has seen, as over plain words, it has seen since an earlier moment just the acts that it did since: nothing else happened in between.
pub fn lone_threads_see_their_own_acts()
    ensures { SeesItsOwnActs }
{}

/// No deleted handle resolves again, and none is given again.
pub fn no_deleted_handle_returns()
    ensures look { (c : Config) (last : ℕ) → DeletedIsStale c last }
    ensures create { (c : Config) (last : ℕ) → DeletedIsNotCreated c last }
{}

/// Each handle is created once, and each index has one handle at a time.
pub fn handles_are_unique()
    ensures once { (c : Config) (last : ℕ) → CreatedOnce c last }
    ensures one { (c : Config) (last : ℕ) → OneAnIndex c last }
{}

/// No collection step lies in a stay, and nobody does more than wait in another's collection.
pub fn stays_exclude_collections()
    ensures stay { (c : Config) (last : ℕ) → NoCollectionInside c last }
    ensures collection { (c : Config) (last : ℕ) → OthersWait c last }
{}

/// From the entry of a stay that goes on from call to call, or of a critical region, to its exit, no step of a collection comes, of whatever thread;
/// and all between is one stay of the thread, with its acts and no others.
pub fn open_stays_exclude_collections()
    ensures goes { GoesOnWithItsActs }
    ensures stands { NoCollectionInOpenStay }
    ensures left { NoCollectionUpToExit }
{}

/// The object of each reference that is not cleared, and of each local, is present. Outside collections each element of a present object array is null or present.
pub fn named_objects_are_present()
    ensures named { (c : Config) (last : ℕ) → NamedIsPresent c last }
    ensures elements { (c : Config) (last : ℕ) → ElementsArePresent c last }
{}

/// Each element of a present object is a word of its kind: of an object array outside collections, of any other at each moment. A plain object has no elements.
pub fn elements_are_words()
    ensures words { (c : Config) (last : ℕ) → ElementsAreWords c last }
    ensures plain { (c : Config) (last : ℕ) → PlainHasNoElements c last }
{}

/// The number of a present object lies in 1 to the room's number of objects.
pub fn present_objects_lie_in_the_room()
    ensures { (c : Config) (last : ℕ) → PresentIsInRoom c last }
{}

/// A read finds the word that was last written.
pub fn reads_find_the_last_write()
    ensures { (c : Config) (last : ℕ) → ReadsLastWord c last }
{}

/// The present objects fit in what is reserved, and that in the room.
pub fn lengths_fit()
    ensures { (c : Config) (last : ℕ) → LengthsFit c last }
{}

/// No local handle is given twice.
pub fn local_handles_are_given_once()
    ensures { (last thread : ℕ) → GivenOnce last thread }
{}

/// A local handle that was deleted, or popped or freed with its frame, never stands again:
/// whatever the thread does with its frames, and wherever its frames came from since, as long as they agree with what happened.
pub fn no_dropped_local_handle_returns()
    ensures gone { (last thread : ℕ) → GoneStaysGone last thread }
    ensures ever { EmptiedStaysGone }
    ensures taken { TakenIsGone }
{}

/// A thread's frames are sound at the beginning and stay so, agree with what the thread did, and a handle that stands is the one at its place.
pub fn frames_agree_with_the_machine()
    ensures fresh { FreshAreSound }
    ensures sound { (last thread : ℕ) → FramesStaySound last thread }
    ensures agreed { FramesStayAgreed }
    ensures place { HandleIsAtPlace }
{}

/// Each call, whatever it answers, leads its thread's frames on by what a thread may do with frames, of which the laws of frames speak.
pub fn calls_move_frames()
    ensures { (c : Config) (last thread : ℕ) (s : State) → CallsMoveFrames c last thread s }
{}

/// A reference that was created is found until it is deleted: a global one with its object, a weak one with it or cleared.
pub fn created_references_are_found()
    ensures { (c : Config) (last : ℕ) → CreatedIsFound c last }
{}

/// A reference that stands after a beginning of a history stands after the whole of it, where nothing has deleted it since:
/// a global one with its object, a weak one with it or cleared, and one that was cleared then is cleared still. So what stood where a note was made stands where it is learned.
pub fn references_stand_until_deleted()
    ensures object { (c : Config) (last : ℕ) → StandsUntilDeleted c last }
    ensures cleared { (c : Config) (last : ℕ) → ClearedUntilDeleted c last }
{}

/// A collection that leaves nothing out clears and drops exactly what is to be, each once.
/// What is reached keeps its kind and elements, no other object is present any more, and so many words are used as the present objects have.
pub fn collections_are_exact()
    ensures { (c : Config) (last : ℕ) → CollectionIsExact c last }
{}

/// Each mode of a release leaves the array that it says, where nobody writes in between.
pub fn releases_leave_the_array()
    ensures { ReleaseLeaves }
{}

/// A call that is refused leaves its frames and the machine as they were: its acts are harmless, but that space which was reserved before E11 stays reserved.
pub fn refusals_change_nothing()
    ensures calls { (c : Config) (last thread : ℕ) (s : State) → RefusalsChangeNothing c last thread s }
    ensures parts { (c : Config) (last thread : ℕ) (s : State) → RefusedPartsChangeNothing c last thread s }
    ensures acts { HarmlessChangesNothing }
{}

/// What a refusal of any call says of the shared room was so at a moment of that call:
/// E10, E13 and E14 at the very act that they tell of, E11 at one moment, E12 and E23 at two, and E8 for each index at a moment of its own, behind a probe of it.
/// A new reference is E8 for what was so within its own stay alone, in which it probed each index.
pub fn refusals_are_true()
    ensures calls { (c : Config) (last thread : ℕ) (s : State) → CallsRefuseTruly c last thread s }
    ensures parts { (c : Config) (last thread : ℕ) (s : State) → PartsRefuseTruly c last thread s }
    ensures stay { RefusedInItsStay }
    ensures probes { EachIsProbed }
{}

/// A call with a stay of its own is that stay: it begins right behind its own entry, and ends with its own exit, the last event that it has seen.
pub fn calls_are_their_stays()
    ensures { (c : Config) (last thread : ℕ) (old new : PassView) → CallsAreTheirStays c last thread old new }
{}

/// From an announcement that the gate will be shut to its cancel or reopening, nobody goes in.
pub fn nobody_enters_an_announced_gate()
    ensures { (c : Config) (last : ℕ) → NobodyEnters c last }
{}

/// While an announcement stands, the threads within only leave: who is within at a moment of it was so at each earlier one, in the same stay.
pub fn announced_gates_only_empty()
    ensures { (c : Config) (last : ℕ) → WithinOnlyLeave c last }
{}

/// A refused shut of the thread that announced it counts just the threads that are in its way: each was within at the announcement and has not left since, or knocks then.
pub fn announcers_count_who_is_inside()
    ensures { (c : Config) (last : ℕ) → AnnouncerCounts c last }
{}

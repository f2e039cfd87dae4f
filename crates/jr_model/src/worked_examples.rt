//! Worked examples of the machine: each function's contract says which histories are legal, what they leave, and what may not come after them.
ghost use Rattle.jr_model.specs.CallExamples.{LengthOfNothing, TypeOfNothing, CallsOnCleared, CallsOnNull, SecondLevel, CopiedElements, ArrayLacksSpace};
ghost use Rattle.jr_model.specs.Examples.{
  DropIsLegal,
  FindingDroppedIsIllegal,
  CreatingBesideIsIllegal,
  GateIsLegal,
  WrongCountIsIllegal,
  ShuttingOverIsIllegal,
  EnteringBesideIsIllegal,
  KnockingAtOpenIsIllegal,
  AnnouncingIsLegal,
  EnteringAnnouncedIsIllegal,
  AnnouncingBesideIsIllegal,
  CountingTheAnnouncerIsIllegal,
  ShuttingAnnouncedOverIsIllegal,
  ThriceIsLegal,
  FourthIsIllegal,
  SpaceIsLegal,
  RefusingWhatFitsIsIllegal,
  ReadingAnotherIsIllegal,
  MakingBeyondIsIllegal,
  CollectionIsLegal,
  CollectingReachedIsIllegal,
};

/// A global reference is made, found, dropped and then stale; the object is left.
pub fn a_dropped_reference_is_stale()
    ensures legal { DropIsLegal }
    ensures found { FindingDroppedIsIllegal }
    ensures beside { CreatingBesideIsIllegal }
{}

/// The gate lets a thread in or shuts, never both, counts the threads that are not outside, and bars nobody while it is open.
pub fn the_gate_counts_threads()
    ensures legal { GateIsLegal }
    ensures count { WrongCountIsIllegal }
    ensures over { ShuttingOverIsIllegal }
    ensures beside { EnteringBesideIsIllegal }
    ensures open { KnockingAtOpenIsIllegal }
{}

/// A gate that is announced to be shut lets nobody in and is shut once nobody is inside, and who announced it doesn't count itself.
pub fn an_announced_gate_lets_nobody_in()
    ensures legal { AnnouncingIsLegal }
    ensures entering { EnteringAnnouncedIsIllegal }
    ensures beside { AnnouncingBesideIsIllegal }
    ensures count { CountingTheAnnouncerIsIllegal }
    ensures over { ShuttingAnnouncedOverIsIllegal }
{}

/// With 2 as the last serial a slot gives three handles, and then none.
pub fn a_slot_gives_each_serial_once()
    ensures legal { ThriceIsLegal }
    ensures fourth { FourthIsIllegal }
{}

/// Space is reserved, and refused where it doesn't fit, an array is made in it, and a read finds what was written.
pub fn space_is_reserved_and_read()
    ensures legal { SpaceIsLegal }
    ensures full { RefusingWhatFitsIsIllegal }
    ensures another { ReadingAnotherIsIllegal }
    ensures beyond { MakingBeyondIsIllegal }
{}

/// A collection takes an object that nothing reaches, and clears the weak reference to it.
pub fn a_collection_takes_what_nothing_reaches()
    ensures legal { CollectionIsLegal }
    ensures reached { CollectingReachedIsIllegal }
{}

/// What calls answer where nothing was made, for a cleared weak reference, for NULL, for a further level of a region, for copied elements, and for an array that has no space.
pub fn calls_answer_as_their_checks_say()
    ensures length { LengthOfNothing }
    ensures types { TypeOfNothing }
    ensures cleared { CallsOnCleared }
    ensures null { CallsOnNull }
    ensures level { SecondLevel }
    ensures copied { CopiedElements }
    ensures space { ArrayLacksSpace }
{}

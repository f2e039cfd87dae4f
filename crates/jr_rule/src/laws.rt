//! The laws of a room's one history, and of its order.
ghost use Rattle.jr_rule.specs.History.{HaveOneHistory, OpensWithNothing, GoesByOperations, StandsBehindAll, AllTellOfOperations, AllPart};

use crate::cells::StepKind;

/// At each moment of a room's table there is one history, and no other: it is legal, keeps the laws, and each pass has seen a beginning of it, with all events of its own, as has each note.
pub fn rooms_have_one_history()
    ensures one { HaveOneHistory }
    ensures opened { OpensWithNothing }
{}

/// The order of a room's history is the order of the operations on its row: from one moment to a later one the history grows at its end, by the events of the operations as they come.
/// So an event stands behind all that any pass had seen by then, and all that any note said, whether the threads ever met or not.
pub fn histories_go_by_operations()
    ensures order { GoesByOperations }
    ensures behind { StandsBehindAll }
{}

/// What a room's steps tell, of whatever kind they are, is what an operation makes of a row.
pub fn steps_tell_of_operations<T: StepKind>()
    ensures told { AllTellOfOperations T.StepKind }
    ensures parts { AllPart }
{}

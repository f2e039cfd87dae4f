//! The rule of the row, and what its steps tell.
use crate::cells::StepKind;
use atomic_table::{Join, Play, Split, TableRule};
use jr_steps::Known;
use jr_word::Config;
use std::collections::LinkedList;
use std::marker::PhantomData;

/// The sizes of a row, and the last serial of its slots and local places.
#[derive(Clone, Copy)]
pub struct Sizes {
    /// The sizes of the room.
    pub config: Config,
    /// The last serial.
    pub last: u32,
}

/// What a seat at the row stands for: one pass mostly, two while they meet, none once it is spent; or a note of what a pass had seen.
pub struct View {
    /// What each of its passes knows. The first one steps.
    pub passes: LinkedList<Known>,
    /// What each of the passes knew of which it has a note.
    pub notes: LinkedList<Known>,
    /// Of how many joins and partings of seats this one has the count.
    pub joints: u64,
}

/// The rule of a row.
pub struct Rule;

impl TableRule<(), View, Sizes> for Rule {
    ghost use Rattle.jr_rule.specs.Rule.{Kept, view_of, newcomers};

    ghost holds = { λ z. Kept z.last z.config };

    ghost first = { λ z. view_of (newcomers z.config z.last z.config.threads 0) };
}

/// A step of this kind.
pub struct Tell<T> {
    kind: PhantomData<T>,
}

impl<T: StepKind> Play<(), View> for Tell<T> {
    ghost use Rattle.jr_rule.specs.Rule.{Tells};

    ghost then = { λ s m n m'. Tells T.told m n m' };
}

/// The look at the gate of passes that meet.
pub struct Meeting;

impl Play<(), View> for Meeting {
    ghost use Rattle.std.specs.Prelude.{[], ◌∷◌};
    ghost use Rattle.jr_model.specs.declared.event.Act.TheVariants.{Meet};
    ghost use Rattle.jr_rule.specs.Rule.{LookedBy, Tells};

    ghost then = { λ s m n m'. Tells (LookedBy (Meet ∷ [])) m n m' };
}

/// The look at the gate of a pass that learns what a note says. It is no event: the pass has then seen what others did, and that is all.
pub struct Learning;

impl Play<(), View> for Learning {
    ghost use Rattle.std.specs.Prelude.{[]};
    ghost use Rattle.jr_rule.specs.Rule.{LookedBy, Tells};

    ghost then = { λ s m n m'. Tells (LookedBy []) m n m' };
}

/// The look at the gate of passes that close their room together.
pub struct Counting;

impl Play<(), View> for Counting {
    ghost use Rattle.jr_rule.specs.Rule.{CountedBy, Tells};

    ghost then = { λ s m n m'. Tells CountedBy m n m' };
}

/// The first pass leaves the seat, with its count.
pub struct Deal;

impl Split<View> for Deal {
    ghost use Rattle.jr_rule.specs.Rule.{first_alone, without_first};

    ghost left = { without_first };

    ghost right = { first_alone };
}

/// All passes but the first leave the seat. Its count stays.
pub struct LeaveFirst;

impl Split<View> for LeaveFirst {
    ghost use Rattle.jr_rule.specs.Rule.{first_alone, without_first};

    ghost left = { first_alone };

    ghost right = { without_first };
}

/// A note of what the first pass has seen leaves the seat. The count stays.
pub struct Jot;

impl Split<View> for Jot {
    ghost use Rattle.jr_rule.specs.Rule.{note_of, once_more};

    ghost left = { once_more };

    ghost right = { note_of };
}

/// The seat's note leaves it again, and the seat knows it still. The count stays, with this parting. A seat without a pass can't be cut so: the note would be nobody's.
pub struct Again;

impl Split<View> for Again {
    ghost use Rattle.jr_rule.specs.Rule.{note_again, once_more};

    ghost left = { once_more };

    ghost right = { note_again };
}

/// The passes of both seats, their notes, and both their counts.
pub struct Gather;

impl Join<View> for Gather {
    ghost use Rattle.jr_rule.specs.Rule.{together, spent};

    ghost both = { together };

    ghost spent = { spent };
}

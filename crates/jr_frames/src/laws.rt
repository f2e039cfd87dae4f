//! What holds of whole runs of calls.
ghost use Rattle.jr_frames.specs.Popping.{PopBegins, PopGoesOn, PopEnds};
ghost use Rattle.jr_frames.specs.Freeing.{FreeBegins, FreeGoesOn, FreeTurns, FreeEmpties, EmptyIsPopped, FreeEnds};
ghost use Rattle.jr_frames.specs.Explaining.{IsOneThing};

/// Who deletes the oldest reference of the newest frame until none is left, and then takes that frame away, does what the machine's pop does:
/// each reference of the frame is dropped once, the oldest first, and the frames before it are left.
pub fn taking_the_oldest_is_a_pop()
    ensures begins { PopBegins }
    ensures goes_on { PopGoesOn }
    ensures ends { PopEnds }
{}

/// Who deletes the oldest reference of each frame until none is left there, from the base frame to the newest, and then takes the empty frames above the base frame away,
/// does what the machine does where it frees all local references: each is dropped once, frames and references oldest first, and one empty frame is left.
pub fn taking_the_oldest_of_each_frame_frees_all()
    ensures begins { FreeBegins }
    ensures goes_on { FreeGoesOn }
    ensures turns { FreeTurns }
    ensures empties { FreeEmpties }
    ensures popped { EmptyIsPopped }
    ensures ends { FreeEnds }
{}

/// A word is one thing: whatever it is, in one state no two explanations of it are so.
pub fn a_word_is_one_thing()
    ensures { IsOneThing }
{}

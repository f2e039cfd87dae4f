ghost use Rattle.jr_world.specs.Births.{WorldsAreSo};
ghost use Rattle.jr_world.specs.Playing.{EnteredPlays, OpenedPlays, OutsidePlays, StayedPlays};
ghost use Rattle.jr_world.specs.Fullness.{CreationsAreBorn, FullBeforeExit, NotFullWithoutTheBound, RefusedForAWindow};
ghost use Rattle.jr_world.specs.Fullness.{BirthsFillTheRow, CreationsHaveRoom, RowIsBorn, WindowsAreFull};
ghost use Rattle.jr_world.specs.Schedules.{FirstStands, PlayersRunTo, RunsByASchedule, StoriesRunTo};

/// What was born in a legal history is what stands in the state that it leads to.
pub fn worlds_are_so()
    ensures { WorldsAreSo }
{}

/// A call with a stay of its own does what its program does, step by step, whatever other threads do between.
pub fn calls_play()
    ensures { EnteredPlays }
{}

/// So does a call whose stay goes on where it isn't refused.
pub fn opened_calls_play()
    ensures { OpenedPlays }
{}

/// And so does a call in a stay that stands, of which no refusal speaks of the room.
pub fn calls_in_stays_play()
    ensures { StayedPlays }
{}

/// And so does a call that enters no gate, at any moment.
pub fn calls_outside_play()
    ensures { OutsidePlays }
{}

/// Where each index was occupied at a moment of a window, as many references stood at its beginning or were created
/// within it as there are slots.
pub fn windows_are_full()
    ensures { WindowsAreFull }
{}

/// So it is of a call that is refused because the row was full.
pub fn refused_for_a_window()
    ensures { RefusedForAWindow }
{}

/// And so of the part of it that ends right before its exit.
pub fn full_before_exit()
    ensures { FullBeforeExit }
{}

/// Without a bound of the deletions it is not so.
pub fn not_full_without_the_bound()
    ensures { NotFullWithoutTheBound }
{}

/// As many references stand in the row as were born and stand.
pub fn row_is_born()
    ensures { RowIsBorn }
{}

/// As many references were created in the row as were born.
pub fn creations_are_born()
    ensures { CreationsAreBorn }
{}

/// Before the exit of a call that is refused because the row was full, as many as there are slots stood as it began or
/// were born in it.
pub fn births_fill_the_row()
    ensures { BirthsFillTheRow }
{}

/// Where a reference is created, fewer stand than there are slots.
pub fn creations_have_room()
    ensures { CreationsHaveRoom }
{}

/// Before the first step, what threads share stands as in the empty history.
pub fn first_stands()
    ensures { FirstStands }
{}

/// What single steps lead to, one schedule leads to.
pub fn runs_by_a_schedule<A>()
    ensures { RunsByASchedule A }
{}

/// Programs that are played in one order of what all threads do run together, each to its end.
pub fn players_run<A>()
    ensures { PlayersRunTo A }
{}

/// Programs that are played by their threads' stories in one history run together, each to its end.
pub fn stories_run<A>()
    ensures { StoriesRunTo A }
{}

//! What holds of the refusals of a stress.
ghost use Rattle.jr_word.specs.declared.config.Config.{Config};
ghost use Rattle.jr_stressed.specs.Laws.{ListsTheMachines};

/// Each refusal that a stress may make of a call is one that the machine has of it, whatever the sizes of the room.
pub fn refusals_are_the_machines()
    ensures { (c : Config) → ListsTheMachines c }
{}

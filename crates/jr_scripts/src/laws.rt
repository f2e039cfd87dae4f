//! What holds of scripts.
ghost use Rattle.jr_syntax.specs.declared.script.Script.{Script as AnyScript};
ghost use Rattle.jr_syntax.specs.Script.{IsScript};
ghost use Rattle.jr_scripts.specs.AllRuns.{CanBeRun, RunsMean};
ghost use Rattle.jr_scripts.specs.Meaning.{AloneIsACase};
ghost use Rattle.jr_scripts.specs.OneRow.{PrintOneText};
ghost use Rattle.jr_scripts.specs.Apart.{PrintAsAlone};

/// A script that `parse` gives can be run, so that `run_all` never refuses it by E17.
pub fn a_script_that_was_read_can_be_run()
    ensures { (s : AnyScript) → IsScript s → CanBeRun s }
{}

/// The text that one legal history explains is what its script means, by some order of the threads' steps.
pub fn runs_mean()
    ensures { RunsMean }
{}

/// Of one thread, what it means together with no others is the text of its part, for some choice of which copies find memory.
pub fn one_thread_is_a_case()
    ensures { AloneIsACase }
{}

/// A script whose commands stand in one row, by what its threads post and wait for, prints the text of the row, by each
/// schedule by which no copy and no wait is in vain.
pub fn ordered_scripts_print_one_text()
    ensures { PrintOneText }
{}

/// Threads that share nothing, where all that they make fits together, print what each prints alone.
pub fn threads_apart_print_as_alone()
    ensures { PrintAsAlone }
{}

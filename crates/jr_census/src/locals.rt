//! How many local references stand.
ghost use Rattle.std.specs.Prelude.{◌≡◌, ◌<◌, ◌≤◌, ◌*◌};
ghost use Rattle.jr_model.specs.declared.event.Role.TheVariants.{Collecting};
ghost use Rattle.jr_steps.specs.Knowing.{state_of};
ghost use Rattle.jr_census.specs.Counts.{AreLocals, at_places, local_bit};
ghost use Rattle.jr_census.specs.Telling.{LoadsTell};

use jr_steps::Steps;
use jr_word::LocalParts;

/// How many references stand at a local place, by its word.
fn at_place(parts: LocalParts) -> u32
    ensures { result ≡ local_bit parts }
{
    match parts {
        LocalParts::Free => 0,
        LocalParts::Object(_) => 1,
    }
}

/// Counts the local references of a thread.
fn count_locals_of<S: Steps>(steps: &mut S, thread: u8) -> u32
    requires role { (S.facts steps.old).stands.role ≡ Collecting }
    requires thread { thread < (S.facts steps.old).stands.config.threads }
    ensures { LoadsTell S.facts (λ j. j.config.locals) steps.old steps.new (λ k. result ≡ at_places k.config.locals ((state_of k).locals thread)) }
{
    let places = steps.config().locals;
    let mut count = 0;
    for place in 0..places {
        count += at_place(steps.scan_local(thread, place as u16));
    }
    count
}

/// Counts the local references of each thread.
pub(crate) fn count_locals<S: Steps>(steps: &mut S) -> [u32; 64]
    requires role { (S.facts steps.old).stands.role ≡ Collecting }
    ensures { LoadsTell S.facts (λ j. j.config.threads * j.config.locals) steps.old steps.new (λ k. AreLocals k.config.locals (state_of k).locals result) }
{
    let threads = steps.config().threads;
    let mut counts = [0; 64];
    for thread in 0..threads {
        counts[thread as usize] = count_locals_of(steps, thread as u8);
    }
    counts
}

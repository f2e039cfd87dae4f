//! Collects.

ghost use Rattle.std.specs.Prelude.{◌≡◌};
ghost use Rattle.jr_weak.specs.Markers.{room_of};
ghost use Rattle.jr_env.specs.Collections.{FitsRoom, announced_collection};
ghost use Rattle.jr_env.specs.Envs.{IsOutside, WasDone};
ghost use Rattle.jr_scripts.specs.Commands.{collecting, collecting_announced, tried};

use crate::ask::in_turns;
use crate::reply::Reply;
use jr_env::Env;
use jr_steps::Steps;
use jr_syntax::Tries;
use jr_weak::{Collected, Marker};
use jr_word::Fault;

/// Collects, or tells how many threads are not outside. It is tried once.
pub(crate) fn collect<S: Steps>(env: &mut Env<S>, marker: &mut Marker) -> Result<Reply, Fault>
    requires outside { IsOutside env.old }
    requires room { FitsRoom marker.old env.old }
    ensures does { WasDone env.old env.new collecting result }
    ensures room { room_of marker.new ≡ room_of marker.old }
{
    match env.collect(marker) {
        Ok(collected) => Ok(Reply::Collected(collected)),
        Err(Fault::Busy(count)) => Ok(Reply::Busy(count)),
        Err(_) => unreachable!(),
    }
}

/// Announces a collection and collects, or tells how many threads kept it out.
pub(crate) fn collect_announced<S: Steps>(
    env: &mut Env<S>,
    marker: &mut Marker,
    turns: u64,
    tries: Tries,
) -> Result<Reply, Fault>
    requires outside { IsOutside env.old }
    requires room { FitsRoom marker.old env.old }
    ensures does { WasDone env.old env.new (collecting_announced turns tries) result }
    ensures room { room_of marker.new ≡ room_of marker.old }
{
    match retry_announced(env, marker, turns, tries) {
        Ok(collected) => Ok(Reply::Collected(collected)),
        Err(Fault::Busy(inside)) => Ok(Reply::Busy(inside)),
        Err(fault) => Err(fault),
    }
}

/// An env, and the marker with which it collects.
#[derive(Drop)]
struct Collector<'a, S: Steps> {
    env: &'a mut Env<S>,
    marker: &'a mut Marker,
}

/// Makes the call of an announced collection, and again as long as it is moved: E20 once it was made so many times.
fn retry_announced<S: Steps>(
    env: &mut Env<S>,
    marker: &mut Marker,
    turns: u64,
    tries: Tries,
) -> Result<Collected, Fault>
    requires outside { IsOutside env.old }
    requires room { FitsRoom marker.old env.old }
    ensures does { WasDone env.old env.new (tried turns (announced_collection tries)) result }
    ensures room { room_of marker.new ≡ room_of marker.old }
{
    let mut collector = Collector { env, marker };
    in_turns(&mut collector, turns, |collector| {
        collector
            .env
            .collect_announced(&mut *collector.marker, tries.count())
    })
}

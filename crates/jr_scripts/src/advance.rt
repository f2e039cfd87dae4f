//! One command of a thread, where it stands: in a critical region or in none.

ghost use Rattle.std.specs.Prelude.{◌≡◌, None, Some};
ghost use Rattle.jr_env.specs.Collections.{FitsRoom};
ghost use Rattle.jr_env.specs.Envs.{IsOutside};
ghost use Rattle.jr_weak.specs.Markers.{room_of};
ghost use Rattle.jr_scripts.specs.Advancing.{DidCommand, StandsIn, StandsWith};

use crate::board::Board;
use crate::commands::posting::{post, wait};
use crate::commands::regions::{close, nest, open_region, read_by, write_by};
use crate::ledger::Ledger;
use crate::outcome::{Outcome, in_none, still};
use crate::perform::perform;
use crate::region::NamedLevels;
use crate::reply::Reply;
use jr_env::Env;
use jr_steps::Steps;
use jr_syntax::{Command, Make};
use jr_weak::Marker;
use jr_word::Fault;

/// What a command does in a region: E19 where it is none of a region, `post` or `wait`.
fn within<S: Steps, B: Board<S>>(
    env: &mut Env<S>,
    ledger: &Ledger,
    mut region: NamedLevels,
    board: &mut B,
    turns: u64,
    command: &Command,
) -> Outcome
    requires stand { StandsIn region env.old }
    requires there { (B.tells board.old).serves (S.facts env.old.held.steps).stands.room }
    requires follows { B.follows board.old ledger.now.words.items }
    ensures { DidCommand B.layout B.tells B.looked B.follows turns command.now ledger.now.words.items
        env.old env.new ledger.now.names ledger.now.names (Some region) result.region board.old board.new result.answer }
{
    let names = &ledger.names;
    match command {
        Command::OpenLevel { verb, name, target } => {
            let answer = nest(env, names, &mut region, *verb, name, target);
            still(region, answer)
        }
        Command::CloseLevel { mode, .. } => Outcome {
            region: close(env, region, *mode),
            answer: Ok(Reply::Done),
        },
        Command::OnNameAt { verb, name, index } => {
            let answer = read_by(env, &region, *verb, name, *index);
            still(region, answer)
        }
        Command::PutAt {
            verb,
            name,
            index,
            value,
        } => {
            let answer = write_by(env, &region, *verb, name, *index, *value);
            still(region, answer)
        }
        Command::OnName { name, .. } => { still(region, post(board, env, name, names.word(name))) }
        Command::Make { verb, name } => match verb {
            Make::Wait => still(
                region,
                wait(board, env, ledger.words.as_slice(), name, turns),
            ),
            Make::Plain => still(region, Err(Fault::InCritical)),
        },
        _ => still(region, Err(Fault::InCritical)),
    }
}

/// What a command does where no region stands: it opens one, or makes its calls.
fn outside<S: Steps, B: Board<S>>(
    env: &mut Env<S>,
    ledger: &mut Ledger,
    marker: &mut Marker,
    board: &mut B,
    turns: u64,
    command: &Command,
) -> Outcome
    requires outside { IsOutside env.old }
    requires room { FitsRoom marker.old env.old }
    requires there { (B.tells board.old).serves (S.facts env.old.held.steps).stands.room }
    requires follows { B.follows board.old ledger.old.words.items }
    ensures did { DidCommand B.layout B.tells B.looked B.follows turns command.now ledger.old.words.items
        env.old env.new ledger.old.names ledger.new.names None result.region board.old board.new result.answer }
    ensures words { ledger.new.words.items ≡ ledger.old.words.items }
    ensures room { room_of marker.new ≡ room_of marker.old }
{
    if let Command::OpenLevel { verb, name, target } = command {
        return open_region(env, &ledger.names, turns, *verb, name, target);
    }
    in_none(perform(env, ledger, marker, board, turns, command))
}

/// What a command does where the thread stands.
pub(crate) fn advance<S: Steps, B: Board<S>>(
    env: &mut Env<S>,
    ledger: &mut Ledger,
    marker: &mut Marker,
    region: Option<NamedLevels>,
    board: &mut B,
    turns: u64,
    command: &Command,
) -> Outcome
    requires stand { StandsWith region env.old }
    requires room { FitsRoom marker.old env.old }
    requires there { (B.tells board.old).serves (S.facts env.old.held.steps).stands.room }
    requires follows { B.follows board.old ledger.old.words.items }
    ensures did { DidCommand B.layout B.tells B.looked B.follows turns command.now ledger.old.words.items
        env.old env.new ledger.old.names ledger.new.names region result.region board.old board.new result.answer }
    ensures words { ledger.new.words.items ≡ ledger.old.words.items }
    ensures room { room_of marker.new ≡ room_of marker.old }
{
    match region {
        Some(region) => within(env, ledger, region, board, turns, command),
        None => outside(env, ledger, marker, board, turns, command),
    }
}

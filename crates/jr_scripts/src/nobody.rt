//! The board of a thread that has nobody beside it.

use crate::board::Board;
use jr_steps::Steps;
use jr_syntax::Name;

/// Where nobody hears what is posted, and nobody posts anything to be found.
#[derive(Drop)]
pub(crate) struct Nobody;

impl<S: Steps> Board<S> for Nobody {
    ghost use Rattle.std.specs.Prelude.{[]};

    ghost layout = { λ board. record { numbers = []; cells = [] } };

    ghost tells = { λ board. record { serves = λ room. Unit {0}; posted = λ words n w seen. Unit {0}; heard = λ n w seen. ⊥ } };

    ghost follows = { λ board words. Unit {0} };

    ghost looked = { λ first n found last. Unit {0} };

    fn post(&mut self, _steps: &mut S, _name: &Name, _word: u64) {}

    fn look(&mut self, _steps: &mut S, _name: &Name) -> Option<u64> {
        None
    }
}

//! A critical region as a scope: something is done in it, and it ends.
ghost use Rattle.jr_env.specs.Scopes.{RanInRegion};

use crate::critical_region::Region;
use crate::env::Env;
use jr_steps::Steps;

/// What is a critical region: a `Region`. A closure can be handed one as `&mut Self`, and not as `&mut Region<'_, S>`, for which the prover has no bound.
pub trait CriticalRegion: Sized {
    /// Who lent the env: the reference that is handed back.
    type Lender;

    ghost ended: { Self → Self.Lender → Type 0 };

    /// Gives up all levels, as `release_all` of a region, and hands the env back.
    ///
    /// # Operations
    ///
    /// One, the exit.
    fn end(self) -> Self::Lender
        ensures { ended self result };
}

impl<'e, S: Steps> CriticalRegion for Region<'e, S> {
    ghost use Rattle.jr_env.specs.Criticals.{EndedWhole};

    type Lender = &'e mut Env<S>;

    ghost ended = { λ region lent. EndedWhole region lent };

    fn end(self) -> &'e mut Env<S> {
        self.release_all()
    }
}

/// Does something in a critical region, and ends the region with all its levels, also where what was done gave up. So `?` is free in the closure.
/// It is handed the region alone, whose first level is 0. The answer is the closure's, beside the env.
///
/// # Operations
///
/// Those of what is done, and the exit.
#[inline(always)]
pub fn with_critical<R: CriticalRegion, T, F: FnOnce(&mut R) -> T>(
    mut region: R,
    body: F,
) -> (T, R::Lender)
    requires { F.IsAlwaysCallable body }
    ensures { RanInRegion R.ended F.FnOnce body region result.0 result.1 }
{
    let answer = body(&mut region);
    (answer, region.end())
}

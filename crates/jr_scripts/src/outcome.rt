//! What a command of a thread leaves.

ghost use Rattle.std.specs.Prelude.{◌≡◌, None, Some};

use crate::region::NamedLevels;
use crate::reply::Reply;
use jr_word::Fault;

/// What a command leaves, and its answer.
pub(crate) struct Outcome {
    /// The region in which the thread stands then, if it does in one.
    pub(crate) region: Option<NamedLevels>,
    /// The reply, or the refusal.
    pub(crate) answer: Result<Reply, Fault>,
}

/// The answer of a command behind which the region stands still.
pub(crate) fn still(region: NamedLevels, answer: Result<Reply, Fault>) -> Outcome
    ensures region { result.region ≡ Some region }
    ensures answer { result.answer ≡ answer }
{
    Outcome {
        region: Some(region),
        answer,
    }
}

/// The answer of a command behind which no region stands.
pub(crate) fn in_none(answer: Result<Reply, Fault>) -> Outcome
    ensures region { result.region ≡ None }
    ensures answer { result.answer ≡ answer }
{
    Outcome {
        region: None,
        answer,
    }
}

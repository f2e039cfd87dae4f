//! Tests over plain words: each has words of its own, which are made here alone.
ghost use Rattle.std.specs.Prelude.{◌≡◌};
ghost use Rattle.jr_model.specs.declared.event.Role.TheVariants.{Outside};

use assertions::assert_same;
use jr_rule::PlainSteps;
use jr_steps::Steps;
use jr_word::Config;
use std::alloc::Global;
use std::process::Abort;
use std::test::Fail;

/// Words of which the first can be read as it is.
pub(crate) trait FirstWord {
    /// The first word, which is the gate's.
    fn first_word(&self) -> Option<u64>;
}

impl FirstWord for PlainSteps<2> {
    fn first_word(&self) -> Option<u64> {
        self.cells.words.first().copied()
    }
}

/// Checks what the first word is.
pub(crate) fn first_word_is<S: FirstWord>(rt: &impl Abort, steps: &S, wanted: u64) {
    assert_same!(rt; steps.first_word(), Some(wanted));
}

/// A test over words with which nothing was done.
pub(crate) trait WordsTest {
    /// Runs it.
    fn run<S: Steps + FirstWord, R: Abort>(rt: &R, steps: &mut S) -> Result<(), Fail>
        requires { (S.facts steps.old).stands.role ≡ Outside };
}

/// Runs a test over plain words of these sizes.
pub(crate) fn alone<T: WordsTest, R: Abort>(
    rt: &R,
    alloc: Global,
    config: Config,
) -> Result<(), Fail> {
    let mut steps = PlainSteps::<2>::new(alloc, config)?;
    T::run(rt, &mut steps)
}

//! Tests of the row of an env over plain words, which one function makes: an env that a test makes itself is dear to prove.

use assertions::assert_same;
use jr_fixtures::{EnvTest, plain_env};
use jr_word::Config;
use std::alloc::Global;
use std::process::Abort;
use std::test::Fail;

/// Runs a test over plain words, and checks the words of the row then.
pub(crate) fn leaves_words<T: EnvTest<R> + Drop, R: Abort>(
    rt: &R,
    alloc: Global,
    config: Config,
    row: &[u64],
    test: T,
) -> Result<(), Fail> {
    let mut env = plain_env(alloc, config)?;
    test.run(rt, alloc, &mut env)?;
    assert_same!(rt; &*env.held.steps.cells.words, row);
    Ok(())
}

//! The worked examples, where there is memory for them.
use std::test::Fail;
use worked::worked_examples;

#[test]
fn all_of_the_examples_are_given(rt: HostRuntime) -> Result<(), Fail> {
    let given = worked_examples(rt.alloc());
    given.requests?;
    given.lost_frame?;
    given.abandoned?;
    given.lost_reply?;
    Ok(())
}

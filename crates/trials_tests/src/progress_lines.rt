//! Lines of progress, without a terminal.
use devices::Line;
use std::alloc::{AllocError, Global};
use std::test::Fail;

/// Whether the line has this text at these numbers of done and found, of a campaign of these trials or of a survey.
fn is(
    alloc: Global,
    done: usize,
    trials: Option<usize>,
    found: usize,
    text: &str,
) -> Result<bool, AllocError> {
    let line = Line {
        done,
        trials,
        found,
    };
    let written = format!(in alloc; "{line}")?;
    Ok(written.as_str() == text)
}

#[test]
fn lines_stand_on_one_row(rt: HostRuntime) -> Result<(), Fail> {
    let alloc = rt.alloc();
    let most = Some(65536);
    assert!(rt; is(alloc, 0, most, 0, "\r0 of 65536 trials, 0 violations")?);
    assert!(rt; is(alloc, 1234, most, 1, "\r1234 of 65536 trials, 1 violation")?);
    assert!(rt; is(alloc, 70000, None, 1, "\r70000 recordings, 1 violation")?);
    Ok(())
}

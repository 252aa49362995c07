// What a row of a table is held to: where it came out otherwise, the test stops and names the row. The two calls are
// proved once here, so a row costs no proof of its own message.
use std::fmt::Display;
use std::process::Abort;
use std::test::Fail;

pub(crate) fn expect(rt: &impl Abort, what: &str, holds: bool) {
    assert!(rt; holds, "{what}");
}

// The same of a row that stands for several numbers.
pub(crate) fn expect_at<N: Display + Copy>(rt: &impl Abort, what: &str, at: N, holds: bool) {
    assert!(rt; holds, "{what}: {at}");
}

// Fails where what came isn't what is wanted.
pub(crate) fn same<D: Display + Drop, T: PartialEq>(
    what: D,
    came: &T,
    want: &T,
) -> Result<(), Fail> {
    if came == want {
        Ok(())
    } else {
        Err(Fail::new(format_args!("{what} came otherwise")))
    }
}

//! What was told beside what is wanted, compared in one place, so that each test only calls.

use std::process::Abort;

/// Fails the test unless the told text is the wanted one.
pub fn same_text(rt: &impl Abort, told: &str, wanted: &str) {
    assert!(rt; told == wanted, "told {told}, and not {wanted}");
}

/// Fails the test unless the told bytes are those of the wanted text.
pub fn same_bytes(rt: &impl Abort, told: &[u8], wanted: &str) {
    assert!(rt;
        told == wanted.as_bytes(),
        "told {told:?}, and not {wanted}"
    );
}

//! What a test begins with.

use std::process::Abort;

/// What was made. Where it couldn't be, the test ends here, and so has no way out behind which all that was made before is
/// dropped.
pub fn made<T, E>(rt: &impl Abort, tried: Result<T, E>) -> T {
    match tried {
        Ok(value) => value,
        Err(_) => panic!(rt; "it couldn't be made"),
    }
}

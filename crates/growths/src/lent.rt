//! What is made, and lent to the work. To let go what has many parts is proved at each way out of the function that
//! owns it: so it is owned here, where its parts aren't known, and lent.

use paired_plays::Fault;
use std::alloc::AllocError;

/// Lends what was made to the work, and lets it go.
pub fn lend<T: Drop, R: Drop, W: FnOnce(&mut T) -> Result<R, Fault>>(
    made: Result<T, AllocError>,
    work: W,
) -> Result<R, Fault>
    requires { W.IsAlwaysCallable work }
{
    match made {
        Ok(mut owned) => work(&mut owned),
        Err(_) => Err(Fault::Device),
    }
}

/// Lends both.
pub fn lend_both<T: Drop, U: Drop, R: Drop, W: FnOnce(&mut T, &mut U) -> Result<R, Fault>>(
    first: Result<T, AllocError>,
    second: Result<U, AllocError>,
    work: W,
) -> Result<R, Fault>
    requires { W.IsAlwaysCallable work }
{
    match (first, second) {
        (Ok(mut first), Ok(mut second)) => work(&mut first, &mut second),
        _ => Err(Fault::Device),
    }
}

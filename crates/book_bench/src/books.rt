//! Offers to a book.
ghost use Rattle.book_bench.specs.Addressed.{IsOwn, IsSound};

use decision::{Book, Change, Meter};
use std::alloc::{AllocError, Allocator};

/// The change is made.
pub fn offer<A: Allocator + Clone, B: Book<A>>(
    book: &mut B,
    meter: &mut Meter,
    change: Change,
) -> Result<(), AllocError>
    requires addressed { IsSound (B.kept book.old) }
    requires own { IsOwn change }
    ensures { IsSound (B.kept book.new) }
{
    book.add(change.slot)?;
    book.change(meter, &[change]);
    Ok(())
}

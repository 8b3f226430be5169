//! What a test owns.

/// What this work answers, to which the value is lent before it is dropped. A function that owns a large value is dear to prove
/// at each of its ways out; so this one owns it, and the work may end as it likes.
pub fn lend<T: Drop, V, F: FnOnce(&mut T) -> V>(owned: T, work: F) -> V
    requires { F.IsAlwaysCallable work }
{
    let mut owned = owned;
    work(&mut owned)
}

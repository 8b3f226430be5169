//! How a program ends.

use std::alloc::{AllocError, Global};

/// What a program prints, and its exit status.
#[derive(Clone, Copy)]
pub struct Ending<'a> {
    pub status: u8,
    pub output: &'a str,
    pub errors: &'a str,
}

// The words as a program has them.
fn strings_of(alloc: Global, words: &[&str]) -> Result<Vec<String>, AllocError> {
    let mut strings = Vec::new(alloc);
    for word in words {
        strings.push(String::from_str(alloc, word)?)?;
    }
    Ok(strings)
}

/// Whether the main ends so with these words behind its name. It is handed the words, the output and the errors, and answers
/// the exit status.
pub fn ends<M: FnOnce(&[String], &mut Vec<u8>, &mut Vec<u8>) -> u8>(
    alloc: Global,
    words: &[&str],
    ending: Ending<'_>,
    main: M,
) -> Result<bool, AllocError>
    requires { M.IsAlwaysCallable main }
{
    let strings = strings_of(alloc, words)?;
    let mut output = Vec::new(alloc);
    let mut errors = Vec::new(alloc);
    let status = main(strings.as_slice(), &mut output, &mut errors);
    Ok(
        status == ending.status
            && output.as_slice() == ending.output.as_bytes()
            && errors.as_slice() == ending.errors.as_bytes(),
    )
}

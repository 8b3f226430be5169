//! Files of several scripts, each a case: what stands before the first line `# case` is the beginning of each of them.
ghost use Rattle.std.specs.Prelude.{◌≡◌, IfOk};
ghost use Rattle.script_files.specs.Cases.{case_in, cases_in, is_head};

use crate::lines::next_line;
use std::alloc::{AllocError, Global};

fn is_head(line: &[u8]) -> bool
    ensures { result ≡ is_head line.now }
{
    line.starts_with(b"# case")
}

/// How many cases a file has: as many as such lines, and one where there is none.
pub fn count_of_cases(text: &[u8]) -> usize
    ensures { result ≡ cases_in text.now }
{
    let mut rest = text;
    let mut heads = 0usize;
    while let Some((line, behind)) = next_line(rest) {
        if is_head(line) {
            heads += 1;
        }
        rest = behind;
    }
    heads.max(1)
}

/// The case of this number, counted from 1: the beginning, and what stands behind its line.
pub fn case_of(alloc: Global, text: &[u8], number: usize) -> Result<Vec<u8>, AllocError>
    ensures { IfOk result (λ case. case.items ≡ case_in number text.now) }
{
    let mut chosen = Vec::new(alloc);
    let mut rest = text;
    let mut at = 0usize;
    while let Some((line, behind)) = next_line(rest) {
        if is_head(line) {
            at += 1;
        } else if at == 0 || at == number {
            chosen.extend_from_slice(line)?;
        }
        rest = behind;
    }
    Ok(chosen)
}

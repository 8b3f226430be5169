//! A script of which one request for memory is refused: up to there all is answered as told, and want of memory is told once at
//! most. What else must be so growths shows, of scripts whose lines have one message each.
ghost use Rattle.std.specs.Prelude.{◌≤◌};

use live_book::LiveBook;
use refusing::Refusing;
use scenario::{PlayFault, Stage};
use script_files::Unplayed;
use std::alloc::{Allocator, Global};

/// Whether the script is answered so where the nth request of its speaker or its cache is refused.
pub fn is_well_refused(
    alloc: Global,
    script: &[u8],
    told: &[u8],
    nth: u64,
) -> Result<bool, Unplayed>
    requires { 1 ≤ nth }
{
    let heap = Refusing::new(alloc, nth);
    play_over(alloc, &heap, &heap, script, told)
}

// The stage is over this heap.
fn play_over<A: Allocator + Clone + Copy>(
    alloc: Global,
    heap: A,
    requests: &Refusing<Global>,
    script: &[u8],
    told: &[u8],
) -> Result<bool, Unplayed> {
    match Stage::<A, LiveBook<A>>::new(alloc, heap) {
        Ok(mut stage) => answers_well(alloc, &mut stage, requests, script, told),
        Err(_) => Err(Unplayed),
    }
}

fn answers_well<A: Allocator + Clone + Copy>(
    alloc: Global,
    stage: &mut Stage<A, LiveBook<A>>,
    requests: &Refusing<Global>,
    script: &[u8],
    told: &[u8],
) -> Result<bool, Unplayed> {
    let mut answer = Vec::new(alloc);
    let mut rest = script;
    let mut judge = Judge { told, wants: 0 };
    for number in 1..u64::MAX {
        let Some((line, behind)) = split_line(rest) else {
            return Ok(true);
        };
        rest = behind;
        answer.clear();
        match stage.play_line(number, line, &mut answer) {
            Ok(()) => {}
            // The bad line that ends a script.
            Err(PlayFault::BadLine(_)) => return Ok(true),
            Err(_) => return Err(Unplayed),
        }
        if !judge.passes(answer.as_slice(), requests.has_refused()) {
            return Ok(false);
        }
    }
    Err(Unplayed)
}

// What is told of the lines to come, and how often want of memory was told.
#[derive(Drop)]
struct Judge<'a> {
    told: &'a [u8],
    wants: u64,
}

impl Judge<'_> {
    // Whether a line may be answered so, where a request was refused or none was yet.
    fn passes(&mut self, answer: &[u8], has_refused: bool) -> bool {
        if has_refused {
            self.wants = self.wants.saturating_add(u64::from(is_want(answer)));
            return self.wants <= 1;
        }
        match self.told.strip_prefix(answer) {
            Some(behind) => {
                self.told = behind;
                true
            }
            None => false,
        }
    }
}

// Whether the answer tells want of memory: a refusal of a speaker or a cache, or a session that was closed.
fn is_want(answer: &[u8]) -> bool {
    answer == b"refused 44\n".as_slice()
        || answer == b"refused 53\n".as_slice()
        || answer
            .windows(STARVED.len())
            .any(|octets| octets == STARVED)
}

const STARVED: &[u8] = b" starved ";

// The first line of a text, with its line feed, and what is behind it.
fn split_line(text: &[u8]) -> Option<(&[u8], &[u8])> {
    if text.is_empty() {
        return None;
    }
    let length = match text.iter().position(|octet| *octet == b'\n') {
        Some(place) => place.saturating_add(1),
        None => text.len(),
    };
    text.split_at_checked(length)
}

//! One file of scripts: what a player answers, and whether that is what is told.
ghost use Rattle.std.specs.Prelude.{◌≡◌, ℕ, IfOk, List};
ghost use Rattle.script_files.specs.Comparison.{line_in};
ghost use Rattle.script_files.specs.Judgement.{IsJudged, IsOutcome};

use crate::cases::{case_of, count_of_cases};
use crate::comparing::{first_difference, line_of};
use crate::cutting::{count_of_plays, cut_at};
use std::alloc::{AllocError, Global};
use std::io;

/// A file can't be read or written, or memory is wanting.
#[derive(Clone, Copy, Debug, PartialEq, Eq)]
pub struct Unplayed;

impl From<AllocError> for Unplayed {
    fn from(_error: AllocError) -> Unplayed {
        Unplayed
    }
}

impl From<io::Error> for Unplayed {
    fn from(_error: io::Error) -> Unplayed {
        Unplayed
    }
}

/// What answers a script.
pub trait Player {
    // What it may answer to a script.
    ghost answers: { Self → List ℕ → List ℕ → Type 0 };

    /// What it answers to the script, a line for each answer.
    fn play(&self, script: &[u8]) -> Result<Vec<u8>, Unplayed>
        ensures { IfOk result (λ found. answers self.now script.now found.items) };
}

/// Where answers first differ from those that are told: the case, the place of its cuts, the line, and that line of both.
#[derive(Drop)]
pub struct Difference {
    pub case: usize,
    pub place: usize,
    pub line: usize,
    pub answered: Vec<u8>,
    pub told: Vec<u8>,
}

/// What came of a file.
#[derive(Drop)]
pub enum Outcome {
    /// So many plays answered as they should.
    AsTold(usize),
    Differs(Difference),
}

/// Plays each case of a file, up to the first whose answers aren't those that are told.
pub fn play_file<P: Player>(
    alloc: Global,
    player: &P,
    script: &[u8],
    told: &[u8],
) -> Result<Outcome, Unplayed>
    ensures { IfOk result (λ outcome. IsOutcome (P.answers player.now) script.now told.now outcome) }
{
    let end = count_of_cases(script).max(count_of_cases(told));
    let mut played = 0usize;
    let mut done = 0usize;
    while done < end {
        let case = done + 1;
        let part = case_of(alloc, script, case)?;
        let wanted = case_of(alloc, told, case)?;
        if let Some(difference) = play_case(
            alloc,
            player,
            case,
            part.as_slice(),
            wanted.as_slice(),
        )? {
            return Ok(Outcome::Differs(difference));
        }
        played = played.saturating_add(count_of_plays(part.as_slice()));
        done = case;
    }
    Ok(Outcome::AsTold(played))
}

// Plays a case as often as it is to be, up to the first play that answers otherwise.
fn play_case<P: Player>(
    alloc: Global,
    player: &P,
    case: usize,
    script: &[u8],
    told: &[u8],
) -> Result<Option<Difference>, Unplayed>
    ensures { IfOk result (λ found. IsJudged (P.answers player.now) case script.now told.now found) }
{
    let end = count_of_plays(script);
    let mut done = 0usize;
    while done < end {
        let place = done + 1;
        let played = cut_at(alloc, script, place)?;
        let found = player.play(played.as_slice())?;
        if let Some(line) = first_difference(found.as_slice(), told) {
            return Ok(Some(differing(alloc, case, place, line, found.as_slice(), told)?));
        }
        done = place;
    }
    Ok(None)
}

// The difference in this case, at this place of its cuts, in this line.
fn differing(
    alloc: Global,
    case: usize,
    place: usize,
    line: usize,
    found: &[u8],
    told: &[u8],
) -> Result<Difference, AllocError>
    ensures { IfOk result (λ difference. (difference.case ≡ case) × (difference.place ≡ place) × (difference.line ≡ line) × (difference.answered.items ≡ line_in line found.now) × (difference.told.items ≡ line_in line told.now)) }
{
    let mut answered = Vec::new(alloc);
    answered.extend_from_slice(line_of(found, line))?;
    let mut wanted = Vec::new(alloc);
    wanted.extend_from_slice(line_of(told, line))?;
    Ok(Difference {
        case,
        place,
        line,
        answered,
        told: wanted,
    })
}

//! The scripts of a list, one after another.
ghost use Rattle.std.specs.Prelude.{◌≡◌, ◌≢◌, ◌+◌, ℕ, IfOk, IsFalse, IsTrue, List, length};
ghost use Rattle.script_files.specs.Listing.{AreAsTold, AreSplit, IsAsTold, IsOneOtherwise, IsOtherwise};
ghost use Rattle.script_files.specs.Names.{names_in};

use crate::judging::{Outcome, Player, Unplayed, play_file};
use crate::names::next_name;
use crate::tally::Tally;
use crate::telling::tell;
use std::alloc::Global;
use std::io::Write;

/// Where scripts stand, and what is told of them.
pub trait Shelf {
    // What may be the script of a name.
    ghost scripts: { Self → List ℕ → List ℕ → Type 0 };

    // What may be told of a name.
    ghost told_texts: { Self → List ℕ → List ℕ → Type 0 };

    /// The script of this name.
    fn script(&self, name: &[u8]) -> Result<Vec<u8>, Unplayed>
        ensures { IfOk result (λ text. scripts self.now name.now text.items) };

    /// What is told of this name.
    fn told(&self, name: &[u8]) -> Result<Vec<u8>, Unplayed>
        ensures { IfOk result (λ text. told_texts self.now name.now text.items) };
}

/// Plays each script of the list, tells what came of it, and counts them.
#[tactic(auto, using(crate::proofs::NameCounts::names_fit))]
pub fn play_listed<P: Player, S: Shelf, W: Write>(
    alloc: Global,
    player: &P,
    shelf: &S,
    list: &[u8],
    writer: &mut W,
) -> Result<Tally, Unplayed>
    ensures count { IfOk result (λ tally. tally.as_told + tally.differing ≡ length (names_in list.now)) }
    ensures split { IfOk result (λ tally. AreSplit (P.answers player.now) (S.scripts shelf.now) (S.told_texts shelf.now) tally.as_told tally.differing (names_in list.now)) }
    ensures as_told { IfOk result (λ tally. tally.differing ≡ 0 → AreAsTold (P.answers player.now) (S.scripts shelf.now) (S.told_texts shelf.now) (names_in list.now)) }
    ensures otherwise { IfOk result (λ tally. tally.differing ≢ 0 → IsOneOtherwise (P.answers player.now) (S.scripts shelf.now) (S.told_texts shelf.now) (names_in list.now)) }
{
    let mut tally = Tally::NONE;
    let mut rest = list;
    while let Some((name, behind)) = next_name(rest) {
        tally.count(play_named(alloc, player, shelf, name, writer)?);
        rest = behind;
    }
    Ok(tally)
}

// Plays the script of this name, and tells what came of it; answers whether that is as told.
fn play_named<P: Player, S: Shelf, W: Write>(
    alloc: Global,
    player: &P,
    shelf: &S,
    name: &[u8],
    writer: &mut W,
) -> Result<bool, Unplayed>
    ensures as_told { IfOk result (λ is_as_told. IsTrue is_as_told → IsAsTold (P.answers player.now) (S.scripts shelf.now) (S.told_texts shelf.now) name.now) }
    ensures otherwise { IfOk result (λ is_as_told. IsFalse is_as_told → IsOtherwise (P.answers player.now) (S.scripts shelf.now) (S.told_texts shelf.now) name.now) }
{
    let script = shelf.script(name)?;
    let told = shelf.told(name)?;
    let outcome = play_file(alloc, player, script.as_slice(), told.as_slice())?;
    tell(name, &outcome, writer)?;
    match outcome {
        Outcome::AsTold(_plays) => Ok(true),
        Outcome::Differs(_difference) => Ok(false),
    }
}

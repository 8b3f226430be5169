//! What a SLURM file means is one thing.
ghost use Rattle.std.specs.Prelude.{◌≡◌, ◌⊎◌, ℕ, List, Result, Err};
ghost use Rattle.slurm_files.specs.SlurmDocument.{AreTexts, IsSlurm, Said};
ghost use Rattle.slurm_files.specs.declared.fault.SlurmFault.{SlurmFault};

/// Octets say one thing, the same exceptions and as many skipped entries, or have one first fault at one place, but for the
/// octet at which a text stops being JSON. Want of memory is nothing that they say.
pub fn files_mean_one_thing()
    ensures one { (octets : List ℕ) (a b : Result Said SlurmFault) → IsSlurm octets a → IsSlurm octets b → (a ≡ b) ⊎ AreTexts octets a b }
    ensures memory { (octets : List ℕ) → IsSlurm octets (Err SlurmFault.NoMemory) → ⊥ }
{}

//! What the records of a list mean is one thing.
ghost use Rattle.std.specs.Prelude.{◌≡◌, ◌⊎◌, ℕ, List, Option};
ghost use Rattle.vrp_csv.specs.ExpiredRows.{IsLoadAt};
ghost use Rattle.vrp_csv.specs.PayloadList.{IsLoad, IsRefused, IsStop};
ghost use Rattle.vrp_csv.specs.declared.fault.RowFault.{RowFault};
ghost use Rattle.vrp_csv.specs.declared.list.Loaded.{Loaded};

/// Records load one set, and what loads is refused only where reading stops; of records that don't load the first
/// fault and its row are one. At a second, at which rows may have expired, the same holds.
pub fn records_mean_one_thing()
    ensures loads { (records : List (List (List ℕ))) (a b : Loaded) → IsLoad records a → IsLoad records b → (a.set.keys ≡ b.set.keys) × (a.rows ≡ b.rows) × (a.skipped ≡ b.skipped) }
    ensures refused { (records : List (List (List ℕ))) (loaded : Loaded) (fault : RowFault) (row : ℕ) → IsLoad records loaded → IsRefused records fault row → IsStop fault }
    ensures first { (records : List (List (List ℕ))) (fault other : RowFault) (row place : ℕ) → IsRefused records fault row → IsRefused records other place → IsStop fault ⊎ IsStop other ⊎ ((fault ≡ other) × (row ≡ place)) }
    ensures loads_at { (second : Option ℕ) (records : List (List (List ℕ))) (a b : Loaded) → IsLoadAt second records a → IsLoadAt second records b → (a.set.keys ≡ b.set.keys) × (a.rows ≡ b.rows) × (a.skipped ≡ b.skipped) }
    ensures refused_at { (second : Option ℕ) (records : List (List (List ℕ))) (loaded : Loaded) (fault : RowFault) (row : ℕ) → IsLoadAt second records loaded → IsRefused records fault row → IsStop fault }
{}

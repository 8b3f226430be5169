//! What a list means is one thing.
ghost use Rattle.std.specs.Prelude.{◌≡◌, ◌⊎◌, ℕ, List, Option};
ghost use Rattle.vrp_csv.specs.declared.list.Loaded.{Loaded};
ghost use Rattle.vrp_json.specs.ExpiredEntries.{IsLoadAt};
ghost use Rattle.vrp_json.specs.PayloadDocument.{AreTexts, IsLoad, IsRefused};
ghost use Rattle.vrp_json.specs.declared.fault.JsonFault.{JsonFault};

/// Octets load one set, and what loads is refused only for want of memory; of octets that don't load the first fault and
/// its place are one, but for the octet at which a text stops being JSON. At a second, at which entries may have expired, the
/// same holds.
pub fn lists_mean_one_thing()
    ensures loads { (octets : List ℕ) (a b : Loaded) → IsLoad octets a → IsLoad octets b → (a.set.keys ≡ b.set.keys) × (a.rows ≡ b.rows) × (a.skipped ≡ b.skipped) }
    ensures refused { (octets : List ℕ) (loaded : Loaded) (fault : JsonFault) → IsLoad octets loaded → IsRefused octets fault → fault ≡ JsonFault.NoMemory }
    ensures first { (octets : List ℕ) (fault other : JsonFault) → IsRefused octets fault → IsRefused octets other → (fault ≡ JsonFault.NoMemory) ⊎ (other ≡ JsonFault.NoMemory) ⊎ (fault ≡ other) ⊎ AreTexts fault other }
    ensures loads_at { (second : Option ℕ) (octets : List ℕ) (a b : Loaded) → IsLoadAt second octets a → IsLoadAt second octets b → (a.set.keys ≡ b.set.keys) × (a.rows ≡ b.rows) × (a.skipped ≡ b.skipped) }
    ensures refused_at { (second : Option ℕ) (octets : List ℕ) (loaded : Loaded) (fault : JsonFault) → IsLoadAt second octets loaded → IsRefused octets fault → fault ≡ JsonFault.NoMemory }
{}

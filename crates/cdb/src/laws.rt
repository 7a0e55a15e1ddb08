//! What holds of each database. A law is a function that does nothing when it runs: its contract is the law.
ghost use Rattle.std.specs.Prelude.{◌≡◌, ◌≤◌, ℕ, List, Ok, length};
ghost use Rattle.std.specs.List.{All};
ghost use Rattle.cdb.specs.Database.{IsDatabase, placed};
ghost use Rattle.cdb.specs.Find.{find_in, looked_up};
ghost use Rattle.cdb.specs.Records.{answer};

use crate::format::HEADER_SIZE;
use crate::records::Record;

/// In octets that are a database of records, a search for a key finds the data of the first record that has it, and none where no record
/// has it.
pub fn finds_the_first()
    ensures place { (octets : List ℕ) (records : List Record) → IsDatabase octets records
        → (key : List ℕ) → find_in octets key ≡ Ok (placed HEADER_SIZE records key) }
    ensures content { (octets : List ℕ) (records : List Record) → IsDatabase octets records
        → (room : ℕ) → All (λ r. length r.content.items ≤ room) records
        → (key : List ℕ) → looked_up room octets key ≡ Ok (answer records key) }
{}

//! What a type's spellings are.
ghost use Rattle.std.specs.Prelude.{◌≡◌, ℕ, Bool, List, MatchResult};
ghost use Rattle.asn1_der.specs.Tree.{Tree};
ghost use Rattle.asn1_der.specs.Firsts.{Firsts, may_begin};
ghost use Rattle.x509_spelling.specs.Laws.{SpellingLaws};
ghost use Rattle.x509_spelling.specs.Answers.{Tells};

use crate::counted::Counted;
use crate::fault::X509Fault;
use picky_asn1_der::Serialize;
use std::alloc::Global;

/// A type whose values may be spelled in more than one way, of which the strict one is its DER ([`Serialize`]).
///
/// `spells` says which bytes are a spelling of a value with how many deviations. `written` and `firsts` are the tree and
/// the first octets of `Serialize`, which the laws speak of.
pub trait Spelled: Serialize + Sized + Drop {
    ghost spells: { Self → List ℕ → ℕ → Type 0 };

    ghost written: { Self → Tree };

    ghost begun: { Firsts };

    // Whether each tag that begins a value is in one octet.
    ghost has_low_tags: { Bool };

    ghost laws: { SpellingLaws has_low_tags begun written spells };

    /// Whether a spelling may begin with this identifier octet.
    fn may_begin_with(first: u8) -> bool
        ensures { result ≡ may_begin begun first };

    /// The value of which the bytes are a spelling, and how many deviations are there.
    fn read_counted(alloc: Global, bytes: &[u8]) -> Result<Counted<Self>, X509Fault>
        ensures { Tells (λ value n. spells value bytes.now n) result };

    ghost written_is: { Self.tree ≡ written };
}

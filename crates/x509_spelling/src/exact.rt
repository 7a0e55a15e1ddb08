//! Types that are spelled in one way.
ghost use Rattle.std.specs.Prelude.{◌≡◌, ℕ, MatchResult};
ghost use Rattle.x509_spelling.specs.Spellings.{IsExact};
ghost use Rattle.x509_spelling.specs.Answers.{Tells};

use crate::counted::Counted;
use crate::fault::X509Fault;
use crate::spelled::Spelled;
use picky_asn1_der::{Deserialize, Serialize, from_exact_bytes};
use std::alloc::Global;

/// A type of which each value has its DER as its one spelling, so that nothing deviates in it.
pub trait Exact: Serialize {
    ghost use Rattle.x509_spelling.specs.PlainLaws.{IsPlain};

    ghost plain: { IsPlain Self.seen };
}

impl<T: Exact + Deserialize + Drop> Spelled for T {
    ghost use Rattle.x509_spelling.specs.Laws.{are_low, exact_laws};
    ghost use Rattle.x509_spelling.specs.PlainLaws.{plain_tree, plain-is, plain-begins, plain-injective};

    ghost spells = { IsExact (plain_tree T.seen T.tree) };

    ghost written = { plain_tree T.seen T.tree };

    ghost begun = { T.firsts };

    ghost has_low_tags = { are_low T.firsts };

    ghost laws = { exact_laws T.firsts (plain_tree T.seen T.tree) (plain-begins T.seen T.firsts T.tree T.begins) (plain-injective T.seen T.tree T.injective) };

    fn may_begin_with(first: u8) -> bool {
        T::may_start(first)
    }

    fn read_counted(alloc: Global, bytes: &[u8]) -> Result<Counted<T>, X509Fault> {
        read_exact(alloc, bytes)
    }

    ghost written_is = { plain-is T.seen T.tree T.plain };
}

/// The value whose DER the bytes are, in which nothing deviates.
pub fn read_exact<T: Deserialize + Drop>(
    alloc: Global,
    bytes: &[u8],
) -> Result<Counted<T>, X509Fault>
    ensures { Tells (λ value n. IsExact T.tree value bytes.now n) result }
{
    let value = from_exact_bytes(alloc, bytes)?;
    Ok(Counted { value, count: 0 })
}

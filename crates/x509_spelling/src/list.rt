//! The elements of a list, each of which may deviate.
ghost use Rattle.std.specs.Prelude.{◌≡◌, ℕ, List, IsTrue, MatchResult};
ghost use Rattle.asn1_der.specs.Tree.{trees_of};
ghost use Rattle.x509_spelling.specs.Spellings.{AreMany};
ghost use Rattle.x509_spelling.specs.Answers.{Tells};

use crate::counted::{Counted, sum_of};
use crate::fault::X509Fault;
use crate::fields::SpelledFields;
use crate::front::read_front;
use crate::spelled::Spelled;
use std::alloc::Global;
use std::marker::Model;

/// The elements of a list, in their order. A contract sees the list of them.
#[derive(Drop)]
pub struct Many<T: Drop> {
    items: Vec<T>,
}

impl<T: Drop> Model for Many<T> {
    ghost use Rattle.std.specs.Prelude.{List};

    ghost Value = { List T };

    ghost view = { λ many. many.items.items };
}

impl<T: Drop> Many<T> {
    /// The elements.
    pub fn into_vec(self) -> Vec<T>
        ensures { result.items ≡ self }
    {
        let Many { items } = self;
        items
    }
}

impl<T: Spelled> SpelledFields for Many<T> {
    ghost use Rattle.x509_spelling.specs.RowLaws.{many_laws};

    ghost spells = { AreMany T.spells };

    ghost row_trees = { trees_of T.written };

    ghost row_firsts = { T.begun };

    ghost is_sound = { T.has_low_tags };

    ghost row_laws = { many_laws T.has_low_tags T.begun T.written T.spells T.laws };

    fn read_content(alloc: Global, content: &[u8]) -> Result<Counted<Self>, X509Fault> {
        let mut items = Vec::new(alloc);
        let mut count = 0;
        let mut rest = content;
        'elements: while !rest.is_empty() {
            let (read, behind) = read_front::<T>(alloc, rest)?;
            count = sum_of(count, read.count)?;
            match items.push(read.into_value()) {
                Ok(()) => {}
                Err(_) => return Err(X509Fault::Memory),
            }
            rest = behind;
        }
        Ok(Counted {
            value: Many { items },
            count,
        })
    }
}

//! The elements of a SEQUENCE OF.
ghost use Rattle.std.specs.Prelude.{◌≡◌, ℕ, List, true, IsTrue};
ghost use Rattle.asn1_der.specs.Tree.{Tree, Trees, trees_of};

use crate::de::{Deserialize, Deserializer};
use crate::fields::Fields;
use asn1_der::Asn1DerError;
use byte_streams::Source;
use std::marker::Model;

/// The elements of a SEQUENCE OF, in their order. A contract sees the list of them.
#[derive(Drop)]
pub struct Elements<T: Drop> {
    items: Vec<T>,
}

impl<T: Drop> Model for Elements<T> {
    ghost use Rattle.std.specs.Prelude.{List};

    ghost Value = { List T };

    ghost view = { λ e. e.items.items };
}

impl<T: Drop> Elements<T> {
    /// The elements, borrowed.
    pub fn as_slice(&self) -> &[T]
        ensures { result.now ≡ self.now }
    {
        self.items.as_slice()
    }

    /// The elements.
    pub fn into_vec(self) -> Vec<T>
        ensures { result.items ≡ self }
    {
        let Elements { items } = self;
        items
    }
}

impl<T: Deserialize + Drop> Fields for Elements<T> {
    ghost use Rattle.asn1_der.proofs.Rows.{many-starts, many-injective_as};
    ghost use Rattle.asn1_der.specs.Seen.{seen_list};

    ghost trees = { trees_of T.tree };

    ghost seen = { seen_list T.seen };

    ghost firsts = { T.firsts };

    ghost sound = { true };

    ghost starts = { λ items whole octet rest e. many-starts _ T.tree T.firsts T.begins items whole octet rest e };

    ghost injective = { λ _ v w whole also e. many-injective_as _ T.tree T.seen T.injective v w whole also e };

    fn read<R: Source>(from: &mut Deserializer<R>) -> Result<Self, Asn1DerError> {
        from.ready()?;
        let mut items = Vec::new(from.allocator());
        'elements: while from.remains() {
            let item = T::deserialize(from)?;
            match items.push(item) {
                Ok(()) => {}
                Err(_) => return Err(from.refuse(Asn1DerError::Memory)),
            }
        }
        Ok(Elements { items })
    }
}

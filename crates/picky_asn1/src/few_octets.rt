//! Octets that are mostly few, as those of an INTEGER.
ghost use Rattle.std.specs.Prelude.{◌≡◌, IfOk};

use std::alloc::{AllocError, Global};
use std::fmt;
use std::marker::Model;

/// How many octets take no memory: with them the type is as large as a vector and its tag.
const MOST_IN_PLACE: usize = 16;

#[derive(Drop)]
enum Octets {
    // So many octets at the front.
    InPlace([u8; MOST_IN_PLACE], usize),
    Owned(Vec<u8>),
}

/// Octets. Few take no memory. A contract sees their list.
#[derive(Drop)]
pub(crate) struct FewOctets {
    octets: Octets,
}

impl Model for FewOctets {
    ghost use Rattle.std.specs.Prelude.{ℕ, List};
    ghost use Rattle.picky_asn1.specs.FewOctets.{octets_in, IsInPlace};

    ghost Value = { List ℕ };

    ghost view = { λ o. octets_in o.octets };

    ghost invariant = { λ o. IsInPlace o.octets };
}

impl FewOctets {
    /// The octets, copied.
    pub(crate) fn from_slice(alloc: Global, octets: &[u8]) -> Result<FewOctets, AllocError>
        ensures { IfOk result (λ copy. copy ≡ octets.now) }
    {
        let count = octets.len();
        if count > MOST_IN_PLACE {
            let octets = Vec::from_slice(alloc, octets)?;
            return Ok(FewOctets {
                octets: Octets::Owned(octets),
            });
        }
        let mut front = [0u8; MOST_IN_PLACE];
        front[..count].copy_from_slice(octets);
        Ok(FewOctets {
            octets: Octets::InPlace(front, count),
        })
    }

    /// The octets.
    pub(crate) fn as_slice(&self) -> &[u8]
        ensures value { result.now ≡ self.now }
    {
        match &self.octets {
            Octets::InPlace(octets, count) => &octets[..*count],
            Octets::Owned(octets) => octets.as_slice(),
        }
    }
}

impl Clone for FewOctets {
    ghost is_clone = { λ octets copy. copy ≡ octets };

    fn clone(&self) -> Result<FewOctets, AllocError> {
        match &self.octets {
            Octets::InPlace(octets, count) => Ok(FewOctets {
                octets: Octets::InPlace(*octets, *count),
            }),
            Octets::Owned(octets) => {
                let octets = octets.clone()?;
                Ok(FewOctets {
                    octets: Octets::Owned(octets),
                })
            }
        }
    }
}

impl fmt::Debug for FewOctets {
    fn fmt<W: fmt::Write>(&self, f: &mut fmt::Formatter<W>) -> fmt::Result {
        fmt::Debug::fmt(&self.as_slice(), f)
    }
}

//! Two fields, of which the second follows the first.
ghost use Rattle.std.specs.Prelude.{◌≡◌, ◌+◌, MatchResult};
ghost use Rattle.negoex_messages.specs.Form.{IsPut, IsTooLong};
ghost use Rattle.negoex_messages.specs.Pairs.{pair_layout};

use crate::bytes::{front_of, place_behind, rest_of};
use crate::error::NegoexError;
use crate::laid::{Laid, Wide};
use std::alloc::Global;

/// Appends the first and then the second to the header and to the payload, which begins at `offset`.
pub fn put_both<A: Laid, B: Laid>(
    alloc: Global,
    first: &A,
    second: &B,
    offset: usize,
    header: &mut Vec<u8>,
    payload: &mut Vec<u8>,
) -> Result<(), NegoexError>
    ensures { MatchResult result
        (λ _. IsPut (pair_layout A.layout B.layout) (A.view first.now, B.view second.now) offset header.old.items header.new.items payload.old.items payload.new.items)
        (IsTooLong offset (A.layout.payload (A.view first.now) + B.layout.payload (B.view second.now))) }
{
    let before = payload.len();
    first.put(alloc, offset, header, payload)?;
    let behind = place_behind(offset, payload.len() - before, 1)?;
    second.put(alloc, behind, header, payload)
}

impl<A: Wide + Drop, B: Laid + Drop> Laid for (A, B) {
    ghost use Rattle.negoex_messages.specs.Pairs.{pair_layout};
    ghost use Rattle.negoex_messages.specs.PairLaws.{pair_laws};

    ghost Value = { A.Value × B.Value };

    ghost view = { λ p. (A.view p.0, B.view p.1) };

    ghost layout = { pair_layout A.layout B.layout };

    ghost laws = { pair_laws A.layout B.layout A.laws B.laws };

    fn from_header(alloc: Global, header: &[u8], message: &[u8]) -> Result<Self, NegoexError> {
        let first = A::from_header(alloc, front_of(header, A::width()), message)?;
        let second = B::from_header(alloc, rest_of(header, A::width()), message)?;
        Ok((first, second))
    }

    fn put(
        &self,
        alloc: Global,
        offset: usize,
        header: &mut Vec<u8>,
        payload: &mut Vec<u8>,
    ) -> Result<(), NegoexError> {
        put_both(alloc, &self.0, &self.1, offset, header, payload)
    }

    fn payload_size(&self) -> usize {
        self.0.payload_size().saturating_add(self.1.payload_size())
    }
}

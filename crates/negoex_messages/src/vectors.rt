//! Vectors: an offset and a count, and the elements at the offset (MS-NEGOEX, section 2.2.5.2).
ghost use Rattle.std.specs.Prelude.{◌≡◌, ℕ, ◌+◌, ◌^◌, ◌<◌, ◌≤◌, ◌-◌, ◌++◌, length, map, min, IfOk, MatchResult};
ghost use Rattle.negoex_messages.specs.Form.{Answers, IsTooLong};
ghost use Rattle.negoex_messages.specs.Vectors.{elements_at, payloads, heads, bodies};

use crate::bytes::{cut_of, extend, extend_number, place_behind};
use crate::error::NegoexError;
use crate::laid::{Laid, Wide};
use byte_streams::u32_le;
use std::alloc::Global;
use std::io::ErrorKind;

// Reads so many elements from `offset` on. Room is made for no element before it is read, so for no more than the message has bytes.
fn read_elements<T: Wide + Drop>(
    alloc: Global,
    message: &[u8],
    offset: usize,
    count: usize,
) -> Result<Vec<T>, NegoexError>
    ensures exact { Answers (λ v. map T.view v.items) (elements_at T.layout count offset message.now) result }
    ensures room { IfOk result (λ v. length v.items ≤ length message.now) }
{
    let mut elements = Vec::new(alloc);
    let mut place = offset;
    let mut left = count;
    'elements: while left > 0 {
        let element = T::from_header(alloc, cut_of(message, place, T::width()), message)?;
        match elements.push(element) {
            Ok(()) => {}
            Err(_) => return Err(NegoexError {
                kind: ErrorKind::OutOfMemory,
            }),
        }
        place += T::width();
        left -= 1;
    }
    Ok(elements)
}

// Appends the elements' headers to `headers`, and returns their payloads, which begin at `first`.
fn put_elements<T: Laid>(
    alloc: Global,
    elements: &[T],
    first: usize,
    headers: &mut Vec<u8>,
) -> Result<Vec<u8>, NegoexError>
    ensures { MatchResult result
        (λ put. (headers.new.items ≡ headers.old.items ++ heads T.layout first (map T.view elements.now))
        × (put.items ≡ bodies T.layout first (map T.view elements.now))
        × (first + payloads T.layout (map T.view elements.now) < 2 ^ 32))
        (IsTooLong first (payloads T.layout (map T.view elements.now))) }
{
    let mut put = Vec::new(alloc);
    for element in elements {
        let place = place_behind(first, put.len(), 1)?;
        element.put(alloc, place, headers, &mut put)?;
    }
    place_behind(first, put.len(), 1)?;
    Ok(put)
}

// Adds the lengths of the elements' payloads to so many bytes, up to the greatest `usize`.
fn sum_payloads<T: Laid>(elements: &[T], before: usize) -> usize
    ensures { result ≡ min (before + payloads T.layout (map T.view elements.now)) (2 ^ 64 - 1) }
{
    let mut sum = before;
    for element in elements {
        sum = sum.saturating_add(element.payload_size());
    }
    sum
}

impl<T: Wide + Drop> Laid for Vec<T> {
    ghost use Rattle.std.specs.Prelude.{List};
    ghost use Rattle.negoex_messages.specs.Vectors.{vector_layout};
    ghost use Rattle.negoex_messages.specs.VectorLaws.{vector_laws};

    ghost Value = { List T.Value };

    ghost view = { λ v. map T.view v.items };

    ghost layout = { vector_layout T.layout };

    ghost laws = { vector_laws T.layout T.laws };

    fn from_header(alloc: Global, header: &[u8], message: &[u8]) -> Result<Self, NegoexError> {
        if header.len() < 8 {
            return Err(NegoexError {
                kind: ErrorKind::UnexpectedEof,
            });
        }
        let offset = u32_le(header, 0) as usize;
        let count = u32_le(header, 4) as usize;
        if count > 0 && offset > message.len() {
            return Err(NegoexError {
                kind: ErrorKind::InvalidData,
            });
        }
        read_elements(alloc, message, offset, count)
    }

    #[tactic(auto, unfolding(byte_streams::specs::Numbers::le32))]
    fn put(
        &self,
        alloc: Global,
        offset: usize,
        header: &mut Vec<u8>,
        payload: &mut Vec<u8>,
    ) -> Result<(), NegoexError> {
        if self.is_empty() {
            return extend(header, &[0; 8]);
        }
        let first = place_behind(offset, self.len(), T::width())?;
        extend_number(header, offset)?;
        extend_number(header, self.len())?;
        let put = put_elements(alloc, self.as_slice(), first, payload)?;
        extend(payload, &put)
    }

    fn payload_size(&self) -> usize {
        let headers = self.len().saturating_mul(T::width());
        sum_payloads(self.as_slice(), headers)
    }
}

impl<T: Wide + Drop> Wide for Vec<T> {
    fn width() -> usize {
        8
    }
}

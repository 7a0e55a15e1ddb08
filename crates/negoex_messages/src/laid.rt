//! Types with a header of fixed size, and a payload elsewhere in the message.
ghost use Rattle.std.specs.Prelude.{◌≡◌, ℕ, ◌+◌, ◌-◌, ◌^◌, List, min, MatchResult};
ghost use Rattle.negoex_messages.specs.Form.{Layout, Answers, IsPut, IsTooLong};
ghost use Rattle.negoex_messages.specs.Laws.{LayoutLaws};

use crate::error::NegoexError;
use std::alloc::Global;

/// A type of which messages are made up: a header of fixed size, and after all headers a payload, to which it points.
pub trait Laid: Sized {
    // The value as contracts have it.
    ghost Value: { Type 0 };

    ghost view: { Self → Value };

    ghost layout: { Layout Value };

    ghost laws: { LayoutLaws layout };

    /// Reads the value whose header this is, in this message. A header that is cut short is `UnexpectedEof`.
    fn from_header(alloc: Global, header: &[u8], message: &[u8]) -> Result<Self, NegoexError>
        ensures { Answers view (layout.read header.now message.now) result };

    /// Appends the header to `header`, and the payload to `payload`, as they are where the payload begins at `offset`.
    fn put(
        &self,
        alloc: Global,
        offset: usize,
        header: &mut Vec<u8>,
        payload: &mut Vec<u8>,
    ) -> Result<(), NegoexError>
        ensures { MatchResult result
            (λ _. IsPut layout (view self.now) offset header.old.items header.new.items payload.old.items payload.new.items)
            (IsTooLong offset (layout.payload (view self.now))) };

    /// The length of the payload; the greatest `usize` where it would be more.
    fn payload_size(&self) -> usize
        ensures { result ≡ min (layout.payload (view self.now)) (2 ^ 64 - 1) };
}

/// A type whose header has a known size.
pub trait Wide: Laid {
    /// The length of the header.
    fn width() -> usize
        ensures { result ≡ Self.layout.width };
}

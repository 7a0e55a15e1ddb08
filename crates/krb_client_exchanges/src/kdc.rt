//! What carries a client's requests to its KDC.
ghost use Rattle.std.specs.Prelude.{◌≡◌, ◌∷◌, [], List, Option, IfOk, length};
ghost use Rattle.krb_client_exchanges.specs.Events.{Asked, Began, Event, grown, mapped};

use crate::occasion::Occasion;
use std::alloc::Global;

/// What carries a client's requests to a KDC, and brings the replies: a socket, a pipe, or a KDC in the same program. It gives each request
/// its occasion, too. Contracts see the events so far.
///
/// A KDC is trusted with nothing: whatever it answers, the calls of this crate keep their promises.
pub trait Kdc {
    /// Why there is no occasion, or no reply.
    type Fault;

    // The events so far, the oldest first, where they are known. Of a socket no contract knows them.
    ghost events: { Self → Option (List (Event Self.Fault)) };

    /// The occasion of the next request. It is asked for right before the request is made.
    fn occasion(&mut self, alloc: Global) -> Result<Occasion, Self::Fault>
        ensures sized { IfOk result (λ occasion. length occasion.words ≡ 96) }
        ensures events { events self.new ≡ grown (events self.old) (Began result ∷ []) };

    /// Sends a request, and brings the KDC's reply to it.
    fn ask(&mut self, alloc: Global, request: &[u8]) -> Result<Vec<u8>, Self::Fault>
        ensures { events self.new ≡ grown (events self.old) (Asked request.now (mapped (λ reply. reply.items) result) ∷ []) };
}

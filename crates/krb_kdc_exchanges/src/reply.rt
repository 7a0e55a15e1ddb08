//! A reply to a request.
use crate::granted::GrantedTicket;

/// A reply to a request, and its outcome.
#[derive(Drop)]
pub struct Reply {
    /// The reply's bytes.
    pub bytes: Vec<u8>,
    /// The ticket that was granted, or the code of the KRB-ERROR.
    pub outcome: Result<GrantedTicket, u32>,
}

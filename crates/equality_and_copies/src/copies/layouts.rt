//! Records of fixed size and faults of binary layouts (MS-KILE, MS-PAC, MS-NEGOEX).
ghost use Rattle.equality_and_copies.specs.Copied.{equal};

use crate::copies::Copies;
use gss_contexts::{LsapTokenInfoIntegrity, LsapTokenInfoIntegrityError};
use microsoft_messages::{PacBufferType, PacInfoBuffer};
use negoex_messages::{MessageHeader, MessageType, NegoexError};

impl Copies for LsapTokenInfoIntegrity {
    ghost is_copy = { equal };
}

impl Copies for LsapTokenInfoIntegrityError {
    ghost is_copy = { equal };
}

impl Copies for PacBufferType {
    ghost is_copy = { equal };
}

impl Copies for PacInfoBuffer {
    ghost is_copy = { equal };
}

impl Copies for MessageType {
    ghost is_copy = { equal };
}

impl Copies for MessageHeader {
    ghost is_copy = { equal };
}

impl Copies for NegoexError {
    ghost is_copy = { equal };
}

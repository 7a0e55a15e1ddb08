//! Records of fixed size and faults of binary layouts (MS-KILE, MS-PAC, MS-NEGOEX).
ghost use Rattle.std.specs.Cmp.{unsigned_Decides};
ghost use Rattle.std.specs.Cmp.Lexicographic.{bytes_decides};
ghost use Rattle.equality_and_copies.specs.Equalities.{fields, both, last, bare};
ghost use Rattle.equality_and_copies.specs.contracts.equality.faults.ErrorKindEquality.TheImpl.Laws.{is_equality-law as error_kind};
ghost use Rattle.gss_contexts.specs.contracts.message_tokens.integrity.LsapTokenInfoIntegrity.{the_type as integrity_type};
ghost use Rattle.gss_contexts.specs.contracts.message_tokens.integrity.LsapTokenInfoIntegrityError.{the_type as integrity_error_type};
ghost use Rattle.negoex_messages.specs.contracts.error.NegoexError.{the_type as negoex_error_type};
ghost use Rattle.negoex_messages.specs.contracts.header.MessageHeader.{the_type as header_type};
ghost use Rattle.negoex_messages.specs.contracts.message_type.MessageType.{the_type as message_type_type};
ghost use Rattle.microsoft_messages.specs.contracts.pac.info.PacInfoBuffer.{the_type as info_type};
ghost use Rattle.microsoft_messages.specs.contracts.pac.kind.PacBufferType.{the_type as kind_type};

use crate::equality::Equality;
use gss_contexts::{LsapTokenInfoIntegrity, LsapTokenInfoIntegrityError};
use microsoft_messages::{PacBufferType, PacInfoBuffer};
use negoex_messages::{MessageHeader, MessageType, NegoexError};

impl Equality for LsapTokenInfoIntegrity {
    ghost is_equality = { fields integrity_type (both unsigned_Decides (both unsigned_Decides (last bytes_decides))) };
}

impl Equality for LsapTokenInfoIntegrityError {
    ghost is_equality = { fields integrity_error_type (last error_kind) };
}

impl Equality for PacBufferType {
    ghost is_equality = { bare kind_type tt };
}

impl Equality for PacInfoBuffer {
    ghost is_equality = { fields info_type (both (bare kind_type tt) (both unsigned_Decides (last unsigned_Decides))) };
}

impl Equality for MessageType {
    ghost is_equality = { bare message_type_type tt };
}

impl Equality for MessageHeader {
    ghost is_equality = { fields header_type
        (both unsigned_Decides (both (bare message_type_type tt) (both unsigned_Decides
        (both unsigned_Decides (both unsigned_Decides (last bytes_decides)))))) };
}

impl Equality for NegoexError {
    ghost is_equality = { fields negoex_error_type (last error_kind) };
}

//! Public values of clients.
use crate::dh_req_info::DhReqInfo;
use picky_asn1_der::Asn1RawDer;
use x509_keys::SubjectPublicKeyInfo;

/// A type of which a value takes fewer than 2^63 bytes, as it must to be in an [`AuthPack`](crate::auth_pack::AuthPack): of a type
/// parameter nothing else says so.
pub trait ClientPublicValue {
    ghost use Rattle.std.specs.Mem.{FitsInMemory};

    ghost fits: { FitsInMemory Self.row };
}

impl ClientPublicValue for Asn1RawDer {
    ghost use Rattle.std.specs.Prelude.{refl};
    ghost use Rattle.pkinit_messages.specs.Sizes.{small};

    ghost fits = { small _ refl };
}

impl ClientPublicValue for DhReqInfo {
    ghost use Rattle.std.specs.Prelude.{refl};
    ghost use Rattle.pkinit_messages.specs.Sizes.{small};

    ghost fits = { small _ refl };
}

impl ClientPublicValue for SubjectPublicKeyInfo {
    ghost use Rattle.std.specs.Prelude.{refl};
    ghost use Rattle.pkinit_messages.specs.Sizes.{small};

    ghost fits = { small _ refl };
}

//! The encoding of an AuthPack with any public value.
use picky_asn1_der::{Asn1RawDer, Serialize};
use pkinit_messages::AuthPack;

// How an AuthPack with a public value of this type is encoded.
pub(crate) trait AuthPackTree {
    ghost use Rattle.picky_asn1_der.specs.Raw.{Raw};
    ghost use Rattle.asn1_der.specs.Tree.{Tree};
    ghost use Rattle.pkinit_messages.specs.declared.auth_pack.AuthPack.{AuthPack};

    ghost pack_tree: { AuthPack Raw → Tree };
}

impl AuthPackTree for Asn1RawDer {
    ghost pack_tree = { ⟦<AuthPack<Asn1RawDer> as Serialize>⟧.tree };
}

//! The encoding of an AuthPack with any public value, and of its elements, whatever they are.
use picky_asn1::wrapper::Asn1SequenceOf;
use picky_asn1_der::{Asn1RawDer, Serialize};
use pkinit_messages::AuthPack;

// How an AuthPack with a public value of this type is encoded.
pub(crate) trait AuthPackEncoding {
    ghost use Rattle.picky_asn1_der.specs.Raw.{Raw};
    ghost use Rattle.asn1_der.specs.Tree.{Tree};
    ghost use Rattle.asn1_der.proofs.Spelling.{IsInjective};
    ghost use Rattle.pkinit_messages.specs.declared.auth_pack.AuthPack.{AuthPack};

    ghost pack_tree: { AuthPack Raw → Tree };

    ghost pack_injective: { IsInjective pack_tree };
}

impl AuthPackEncoding for Asn1RawDer {
    ghost pack_tree = { ⟦<AuthPack<Asn1RawDer> as Serialize>⟧.tree };

    ghost pack_injective = { ⟦<AuthPack<Asn1RawDer> as Serialize>⟧.injective };
}

// How a SEQUENCE of elements of any type is encoded.
pub(crate) trait ElementsEncoding {
    ghost use Rattle.std.specs.Prelude.{List};
    ghost use Rattle.picky_asn1_der.specs.Raw.{Raw};
    ghost use Rattle.asn1_der.specs.Tree.{Tree};
    ghost use Rattle.asn1_der.proofs.Spelling.{IsInjective};

    ghost elements_tree: { List Raw → Tree };

    ghost elements_injective: { IsInjective elements_tree };
}

impl ElementsEncoding for Asn1SequenceOf<Asn1RawDer> {
    ghost elements_tree = { ⟦<Asn1SequenceOf<Asn1RawDer> as Serialize>⟧.tree };

    ghost elements_injective = { ⟦<Asn1SequenceOf<Asn1RawDer> as Serialize>⟧.injective };
}

//! Replies to preauthentication by certificate.
use crate::dh_rep_info::DhRepInfo;
use byte_streams::{Sink, Source};
use picky_asn1::wrapper::OctetStringAsn1;
use picky_asn1_der::{
    Alternatives, Asn1DerError, Choice, Deserialize, Deserializer, ExplicitContextTag0,
    ImplicitContextTag, Last, Serialize, Serializer,
};

/// What a KDC answers to preauthentication by certificate (RFC 4556, section 3.2.3).
///
/// ```text
/// PA-PK-AS-REP ::= CHOICE {
///      dhInfo       [0] DHRepInfo,
///      encKeyPack   [1] IMPLICIT OCTET STRING,
///      ... }
/// ```
#[derive(Debug, Drop, PartialEq, Eq, Clone)]
pub enum PaPkAsRep {
    /// The KDC's share of an agreement.
    DhInfo(ExplicitContextTag0<DhRepInfo>),
    /// The DER of a ContentInfo (RFC 5652, section 3) with the key itself.
    EncKeyPack(ImplicitContextTag<1, OctetStringAsn1>),
}

type ReplyChoice = Choice<
    ExplicitContextTag0<DhRepInfo>,
    Last<ImplicitContextTag<1, OctetStringAsn1>>,
>;

impl Serialize for PaPkAsRep {
    ghost use Rattle.std.proofs.Common.{refl, true};
    ghost use Rattle.asn1_der.proofs.Choices.{injective_as};
    ghost use Rattle.pkinit_messages.specs.Replies.{reply_choice, reply_made, reply_back};

    ghost tree = { λ v. ⟦<ReplyChoice as Alternatives>⟧.tree (reply_choice v) };

    ghost firsts = { ⟦<ReplyChoice as Alternatives>⟧.firsts };

    ghost begins = { λ v. ⟦<ReplyChoice as Alternatives>⟧.begins (reply_choice v) };

    ghost injective = { injective_as ⟦<ReplyChoice as Alternatives>⟧.tree (⟦<ReplyChoice as Alternatives>⟧.injective (refl {a = true})) reply_choice reply_made reply_back };

    fn serialize<W: Sink>(&self, to: &mut Serializer<W>) -> Result<usize, Asn1DerError> {
        match self {
            PaPkAsRep::DhInfo(info) => info.serialize(to),
            PaPkAsRep::EncKeyPack(pack) => pack.serialize(to),
        }
    }
}

impl Deserialize for PaPkAsRep {
    fn may_start(first: u8) -> bool {
        ReplyChoice::may_start_any(first)
    }

    fn deserialize<R: Source>(from: &mut Deserializer<R>) -> Result<Self, Asn1DerError> {
        let choice: ReplyChoice = Alternatives::read_one(from)?;
        Ok(match choice {
            Choice::This(info) => PaPkAsRep::DhInfo(info),
            Choice::Other(Last(pack)) => PaPkAsRep::EncKeyPack(pack),
        })
    }
}

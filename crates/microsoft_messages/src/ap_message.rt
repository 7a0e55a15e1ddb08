//! An AP request, or the reply to it.
use byte_streams::{Sink, Source};
use krb_messages::messages::{ApRep, ApReq};
use picky_asn1_der::{
    Alternatives, Asn1DerError, Choice, Deserialize, Deserializer, Last, Serialize, Serializer,
};

/// An AP request or an AP reply (RFC 4120, section 5.5), distinguished by the application tag.
#[derive(Debug, Drop, PartialEq, Eq, Clone)]
pub enum ApMessage {
    /// A request, of which the first octet is 0x6E.
    ApReq(ApReq),
    /// A reply, of which the first octet is 0x6F.
    ApRep(ApRep),
}

type ApChoice = Choice<ApReq, Last<ApRep>>;

impl Serialize for ApMessage {
    ghost use Rattle.std.proofs.Common.{refl, true};
    ghost use Rattle.asn1_der.proofs.Choices.{injective_as};
    ghost use Rattle.microsoft_messages.specs.ApMessages.{ap_choice, ap_made, ap_back};

    ghost tree = { λ v. ⟦<ApChoice as Alternatives>⟧.tree (ap_choice v) };

    ghost firsts = { ⟦<ApChoice as Alternatives>⟧.firsts };

    ghost begins = { λ v. ⟦<ApChoice as Alternatives>⟧.begins (ap_choice v) };

    ghost injective = { injective_as ⟦<ApChoice as Alternatives>⟧.tree (⟦<ApChoice as Alternatives>⟧.injective (refl {a = true})) ap_choice ap_made ap_back };

    fn serialize<W: Sink>(&self, to: &mut Serializer<W>) -> Result<usize, Asn1DerError> {
        match self {
            ApMessage::ApReq(request) => request.serialize(to),
            ApMessage::ApRep(reply) => reply.serialize(to),
        }
    }
}

impl Deserialize for ApMessage {
    fn may_start(first: u8) -> bool {
        ApChoice::may_start_any(first)
    }

    fn deserialize<R: Source>(from: &mut Deserializer<R>) -> Result<Self, Asn1DerError> {
        let choice: ApChoice = Alternatives::read_one(from)?;
        Ok(match choice {
            Choice::This(request) => ApMessage::ApReq(request),
            Choice::Other(Last(reply)) => ApMessage::ApRep(reply),
        })
    }
}

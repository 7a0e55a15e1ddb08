//! A forwarded message as a value of DER.
ghost use Rattle.std.specs.Prelude.{◌≡◌, MatchResult};
ghost use Rattle.asn1_der.specs.Octets.{object_identifier_octet, sequence_octet};
ghost use Rattle.asn1_der.specs.Refusals.{refusal_of};

use crate::context_tokens::iakerb_header::{IAKerbHeader, IAKerbHeaderRow};
use crate::context_tokens::iakerb_proxy_message::{IAKerbProxyMessage, check_id};
use asn1_der::octets::{OBJECT_IDENTIFIER, SEQUENCE};
use byte_streams::{Sink, Source};
use krb_constants::gss_api::IAKERB_PROXY_TOKEN_ID;
use picky_asn1_der::{
    Asn1DerError, Deserialize, Deserializer, Fields, Leaf, OctetPair, Row4, Rule, Serialize,
    Serializer, Tagged, read_sequence,
};
use std::alloc::{AllocError, Global};

// The mechanism IAKERB as content octets.
const MECHANISM: [u8; 6] = [0x2B, 6, 1, 5, 2, 5];

/// The mechanism IAKERB (draft-ietf-kitten-iakerb-03, section 3), which alone these messages have.
#[derive(Drop)]
pub struct IAKerbMechanism;

impl Leaf for IAKerbMechanism {
    ghost use Rattle.std.specs.Prelude.{true, refl};
    ghost use Rattle.gss_contexts.specs.ProxyValues.{iakerb_octets};

    const OCTET: u8 = OBJECT_IDENTIFIER;

    const RULE: Rule = Rule::ObjectIdentifier;

    ghost OCTET = { object_identifier_octet };

    ghost is_valid = { λ _. true };

    ghost content_of = { λ _. iakerb_octets };

    ghost one_content = { λ v w _ _ _. refl };

    fn decode(_alloc: Global, content: &[u8]) -> Result<Option<Self>, AllocError> {
        if content != MECHANISM.as_slice() {
            return Ok(None);
        }
        Ok(Some(IAKerbMechanism))
    }

    fn write_content<W: Sink>(
        &self,
        tag: u8,
        to: &mut Serializer<W>,
    ) -> Result<usize, Asn1DerError> {
        to.element(tag, &MECHANISM)
    }
}

/// A header in the one spelling that it is written in: nothing follows its fields.
#[derive(Drop)]
pub struct StrictHeader(pub IAKerbHeader);

impl Serialize for StrictHeader {
    ghost tree = { λ v. ⟦<IAKerbHeader as Serialize>⟧.tree v.0 };

    ghost firsts = { ⟦<IAKerbHeader as Serialize>⟧.firsts };

    ghost begins = { λ v. ⟦<IAKerbHeader as Serialize>⟧.begins v.0 };

    ghost injective = { λ v w whole also e.
        let same = ⟦<IAKerbHeader as Serialize>⟧.injective v.0 w.0 whole also e
        in λ i. record { 0 = same i } };

    fn serialize<W: Sink>(&self, to: &mut Serializer<W>) -> Result<usize, Asn1DerError> {
        self.0.serialize(to)
    }
}

impl Deserialize for StrictHeader {
    fn may_start(first: u8) -> bool {
        first == SEQUENCE
    }

    fn deserialize<R: Source>(from: &mut Deserializer<R>) -> Result<Self, Asn1DerError> {
        let row: IAKerbHeaderRow = read_sequence(SEQUENCE, from)?;
        let (target_realm, (cookie, (flags, ()))) = row;
        Ok(StrictHeader(IAKerbHeader {
            target_realm,
            cookie,
            flags,
        }))
    }
}

type ProxyRow<T> = Row4<IAKerbMechanism, OctetPair, StrictHeader, T>;

/// The content of a token, as a SEQUENCE; in [`ApplicationTag0`](crate::context_tokens::application_tag0::ApplicationTag0) it is the token. The
/// header is read from its one spelling: where anything follows its fields, and for another mechanism or token id, it is `InvalidData`.
impl<T: Deserialize + Drop> Tagged for IAKerbProxyMessage<T> {
    ghost use Rattle.std.proofs.Common.{refl, true, None, Some};
    ghost use Rattle.asn1_der.specs.Tagged.{sequence};
    ghost use Rattle.asn1_der.specs.Refusals.{first_refusal};
    ghost use Rattle.gss_contexts.specs.KrbMessages.{seen_proxy_message};
    ghost use Rattle.gss_contexts.specs.ProxyValues.{proxy_row, proxy_laws};

    type Row = IAKerbProxyMessage<T>;

    const FIRST: u8 = SEQUENCE;

    ghost FIRST = { sequence_octet };

    ghost row_tree = { λ tag m. sequence ⟦<ProxyRow<T> as Fields>⟧.trees tag (proxy_row m) };

    ghost row_seen = { seen_proxy_message T.seen };

    ghost seen = { seen_proxy_message T.seen };

    ghost row_laws = { proxy_laws T.seen ⟦<ProxyRow<T> as Fields>⟧.trees (⟦<ProxyRow<T> as Fields>⟧.injective (refl {a = true})) };

    ghost row_of = { λ m. m };

    ghost one_row = { λ v w e. e };

    ghost refuses = { Some (λ m. first_refusal (refusal_of T.refusal m.krb_msg) None) };

    fn read_row<R: Source>(tag: u8, from: &mut Deserializer<R>) -> Result<Self::Row, Asn1DerError> {
        let row: ProxyRow<T> = read_sequence(tag, from)?;
        let (IAKerbMechanism, (OctetPair(id), (StrictHeader(header), (krb_msg, ())))) = row;
        match check_id(id) {
            Ok(()) => Ok(IAKerbProxyMessage { header, krb_msg }),
            Err(_) => Err(from.refuse(Asn1DerError::InvalidData)),
        }
    }

    fn of_row(row: Self::Row) -> Self {
        row
    }

    fn write_row<W: Sink>(&self, tag: u8, to: &mut Serializer<W>) -> Result<usize, Asn1DerError> {
        let id = OctetPair(IAKERB_PROXY_TOKEN_ID);
        to.list(
            tag,
            &(&IAKerbMechanism, (&id, (&self.header, (&self.krb_msg, ())))),
        )
    }
}

//! Messages to a proxy of KDCs.
ghost use Rattle.std.specs.Prelude.{◌≡◌, None, IfOk, MatchResult};
ghost use Rattle.asn1_codec.specs.Reads.{Reads};
ghost use Rattle.asn1_der.specs.Tree.{der};
ghost use Rattle.asn1_der.specs.Octets.{sequence_octet};

use asn1_der::octets::SEQUENCE;
use byte_streams::{Sink, Source};
use krb_messages::data_types::KerberosStringAsn1;
use picky_asn1::wrapper::{IntegerAsn1, OctetStringAsn1};
use picky_asn1_der::{
    Asn1DerError, Deserializer, ExplicitContextTag, ExplicitContextTag0, ExplicitContextTag1,
    ExplicitContextTag2, Fields, Optional, Row3, Serializer, Tagged, fields_of, from_bytes,
    from_fields, read_sequence, to_vec,
};
use std::alloc::Global;

/// A message that a proxy hands on to a KDC, or its reply (MS-KKDCP, section 2.2.2).
///
/// ```text
/// KDC-PROXY-MESSAGE ::= SEQUENCE {
///      kerb-message     [0] OCTET STRING,
///      target-domain    [1] KERB-REALM OPTIONAL,
///      dclocator-hint   [2] INTEGER OPTIONAL }
/// ```
#[derive(Debug, Drop, PartialEq, Eq, Clone)]
pub struct KdcProxyMessage {
    /// The message after its length in four octets, as TCP carries it.
    pub kerb_message: ExplicitContextTag0<OctetStringAsn1>,
    /// The realm that the message is for.
    pub target_domain: Optional<Option<ExplicitContextTag1<KerberosStringAsn1>>>,
    /// Which KDCs will do.
    pub dclocator_hint: Optional<Option<ExplicitContextTag2<IntegerAsn1>>>,
}

impl KdcProxyMessage {
    ghost use Rattle.microsoft_messages.specs.Trees.{kdc_proxy_message_tree};

    /// Reads the message that begins `raw`. Bytes after it are left.
    pub fn from_raw(alloc: Global, raw: &[u8]) -> Result<KdcProxyMessage, Asn1DerError>
        ensures { Reads kdc_proxy_message_tree raw.now result }
    {
        from_bytes(alloc, raw)
    }

    /// The message that holds `raw_kerb_message` and nothing else.
    pub fn from_raw_kerb_message(
        alloc: Global,
        raw_kerb_message: &[u8],
    ) -> Result<KdcProxyMessage, Asn1DerError>
        ensures { MatchResult result
            (λ message. (message.kerb_message.0 ≡ raw_kerb_message.now) × (message.target_domain.0 ≡ None) × (message.dclocator_hint.0 ≡ None))
            (λ fault. fault ≡ Asn1DerError.Memory) }
    {
        let octets = match OctetStringAsn1::new(alloc, raw_kerb_message) {
            Ok(octets) => octets,
            Err(_) => return Err(Asn1DerError::Memory),
        };
        Ok(KdcProxyMessage {
            kerb_message: ExplicitContextTag(octets),
            target_domain: Optional(None),
            dclocator_hint: Optional(None),
        })
    }

    /// The message's bytes.
    pub fn to_vec(&self, alloc: Global) -> Result<Vec<u8>, Asn1DerError>
        ensures { MatchResult result
            (λ bytes. bytes.items ≡ der (kdc_proxy_message_tree self.now))
            (λ fault. fault ≡ Asn1DerError.Memory) }
    {
        to_vec(alloc, self)
    }
}

type KdcProxyMessageRow = Row3<
    ExplicitContextTag0<OctetStringAsn1>,
    Optional<Option<ExplicitContextTag1<KerberosStringAsn1>>>,
    Optional<Option<ExplicitContextTag2<IntegerAsn1>>>,
>;

impl Tagged for KdcProxyMessage {
    ghost use Rattle.std.proofs.Common.{ap, refl, true};
    ghost use Rattle.asn1_der.specs.Tagged.{sequence};
    ghost use Rattle.asn1_der.proofs.Tagged.{sequence_laws};

    type Row = KdcProxyMessageRow;

    const FIRST: u8 = SEQUENCE;

    ghost FIRST = { sequence_octet };

    ghost row_tree = { sequence ⟦<KdcProxyMessageRow as Fields>⟧.trees };

    ghost row_laws = { sequence_laws ⟦<KdcProxyMessageRow as Fields>⟧.trees (⟦<KdcProxyMessageRow as Fields>⟧.injective (refl {a = true})) };

    ghost row_of = { λ v. (v.kerb_message, (v.target_domain, (v.dclocator_hint, tt))) };

    ghost one_row = { λ v w e. ap (λ f. record { kerb_message = f.0; target_domain = f.1.0; dclocator_hint = f.1.1.0 }) e };

    fn read_row<R: Source>(tag: u8, from: &mut Deserializer<R>) -> Result<Self::Row, Asn1DerError> {
        read_sequence(tag, from)
    }

    fn of_row(row: Self::Row) -> Self {
        from_fields![row; kerb_message, target_domain, dclocator_hint]
    }

    fn write_row<W: Sink>(&self, tag: u8, to: &mut Serializer<W>) -> Result<usize, Asn1DerError> {
        to.list(
            tag,
            &fields_of![self; kerb_message, target_domain, dclocator_hint],
        )
    }
}

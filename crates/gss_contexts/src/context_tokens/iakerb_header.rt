//! The header of a message that a service forwards.
ghost use Rattle.std.specs.Prelude.{◌≡◌, MatchResult};
ghost use Rattle.asn1_codec.specs.Reading.{IsOwn, IsReadBy, Refused, TookBy};
ghost use Rattle.std.specs.Prelude.{Option};
ghost use Rattle.gss_contexts.specs.Fronts.{IsMissing};
ghost use Rattle.gss_contexts.specs.Headers.{IsHeaderOf, LeadFields};
ghost use Rattle.asn1_der.specs.Octets.{sequence_octet};

use crate::context_tokens::front::{split_optional, split_value};
use asn1_der::octets::SEQUENCE;
use byte_streams::{Sink, Source};
use picky_asn1::wrapper::{BitStringAsn1, OctetStringAsn1, Utf8StringAsn1};
use picky_asn1_der::{
    Asn1DerError, Deserialize, Deserializer, ExplicitContextTag1, ExplicitContextTag2,
    ExplicitContextTag3, Fields, FromDer, Optional, Row3, Serialize, Serializer, fields_of,
};
use std::alloc::Global;

/// What a service has sent with a reply, and wants back with the next message unchanged (draft-ietf-kitten-iakerb-03, section 3).
pub type IAKerbCookie = Option<ExplicitContextTag2<OctetStringAsn1>>;

/// Where a service forwards a message (draft-ietf-kitten-iakerb-03, section 3). The SEQUENCE may be extended: what follows these
/// fields is ignored when it is read, and not written.
///
/// ```text
/// IAKERB-HEADER ::= SEQUENCE {
///      target-realm   [1] UTF8String,
///      cookie         [2] OCTET STRING OPTIONAL,
///      ... }
/// ```
#[derive(Debug, Drop, PartialEq, Eq, Clone)]
pub struct IAKerbHeader {
    /// The realm of the KDC that the message is for.
    pub target_realm: ExplicitContextTag1<Utf8StringAsn1>,
    /// The cookie that the service sent with the reply before.
    pub cookie: Optional<IAKerbCookie>,
    /// Flags, which messages of today's clients have and the draft doesn't.
    pub flags: Optional<Option<ExplicitContextTag3<BitStringAsn1>>>,
}

type RealmField = ExplicitContextTag1<Utf8StringAsn1>;

type CookieField = ExplicitContextTag2<OctetStringAsn1>;

type FlagsField = ExplicitContextTag3<BitStringAsn1>;

/// The fields of a header.
pub type IAKerbHeaderRow = Row3<RealmField, Optional<IAKerbCookie>, Optional<Option<FlagsField>>>;

impl Serialize for IAKerbHeader {
    ghost use Rattle.std.proofs.Common.{refl, true};
    ghost use Rattle.asn1_der.specs.Firsts.{only};
    ghost use Rattle.asn1_der.specs.Tagged.{sequence, tagged_tree};
    ghost use Rattle.asn1_der.proofs.Tagged.{sequence_laws, tagged-injective};

    ghost tree = { tagged_tree sequence_octet (sequence ⟦<IAKerbHeaderRow as Fields>⟧.trees) (λ v. (v.target_realm, (v.cookie, (v.flags, tt)))) };

    ghost firsts = { only sequence_octet };

    ghost begins = { λ v. (sequence_laws ⟦<IAKerbHeaderRow as Fields>⟧.trees (⟦<IAKerbHeaderRow as Fields>⟧.injective (refl {a = true}))).begins sequence_octet (v.target_realm, (v.cookie, (v.flags, tt))) };

    ghost injective = { tagged-injective sequence_octet (sequence ⟦<IAKerbHeaderRow as Fields>⟧.trees)
        (sequence_laws ⟦<IAKerbHeaderRow as Fields>⟧.trees (⟦<IAKerbHeaderRow as Fields>⟧.injective (refl {a = true})))
        (λ v. (v.target_realm, (v.cookie, (v.flags, tt))))
        (λ v w e. λ i. record { target_realm = (e i).0; cookie = (e i).1.0; flags = (e i).1.1.0 }) };

    fn serialize<W: Sink>(&self, to: &mut Serializer<W>) -> Result<usize, Asn1DerError> {
        to.list(SEQUENCE, &fields_of![self; target_realm, cookie, flags])
    }
}

impl FromDer for IAKerbHeader {
    ghost use Rattle.gss_contexts.specs.HeaderLaws.{header-one};

    ghost reads = { IsHeaderOf ⟦<RealmField as Serialize>⟧.tree ⟦<CookieField as Serialize>⟧.firsts ⟦<CookieField as Serialize>⟧.tree
        ⟦<FlagsField as Serialize>⟧.firsts ⟦<FlagsField as Serialize>⟧.tree (λ v. v.target_realm) (λ v. v.cookie.0) (λ v. v.flags.0) };

    ghost one_value = { header-one ⟦<RealmField as Serialize>⟧.tree ⟦<RealmField as Serialize>⟧.injective
        ⟦<CookieField as Serialize>⟧.firsts ⟦<CookieField as Serialize>⟧.tree ⟦<CookieField as Serialize>⟧.injective
        ⟦<FlagsField as Serialize>⟧.firsts ⟦<FlagsField as Serialize>⟧.tree ⟦<FlagsField as Serialize>⟧.injective
        (λ v. v.target_realm) (λ v. v.cookie.0) (λ v. v.flags.0)
        (λ v w first second third. λ i. record { target_realm = first i; cookie = record { 0 = second i }; flags = record { 0 = third i } }) };

    ghost is_element = { λ value bytes read. (sequence_octet, read.0, read.1) };

    fn read_from<R: Source>(from: &mut Deserializer<R>) -> Result<Self, Asn1DerError> {
        let (target_realm, cookie, flags) = read_header::<RealmField, CookieField, FlagsField, R>(
            from,
        )?;
        Ok(IAKerbHeader {
            target_realm,
            cookie: Optional(cookie),
            flags: Optional(flags),
        })
    }
}

/// Takes a SEQUENCE with a field at its front, and two behind it that may be missing. What is left there is ignored.
fn read_header<A: Deserialize + Drop, B: Deserialize + Drop, C: Deserialize + Drop, R: Source>(
    from: &mut Deserializer<R>,
) -> Result<(A, Option<B>, Option<C>), Asn1DerError>
    ensures { MatchResult result
        (λ f. TookBy (IsHeaderOf A.tree B.firsts B.tree C.firsts C.tree (λ (f : A × Option B × Option C). f.0) (λ f. f.1) (λ f. f.2)) f from.old from.new)
        (λ fault. Refused (IsReadBy (IsHeaderOf A.tree B.firsts B.tree C.firsts C.tree (λ (f : A × Option B × Option C). f.0) (λ f. f.1) (λ f. f.2))) from.old from.new fault) }
{
    let content = from.content(SEQUENCE)?;
    match lead_fields(from.allocator(), content.as_slice()) {
        Ok(fields) => Ok(fields),
        Err(fault) => Err(from.refuse(fault)),
    }
}

/// A field at the front of a content, and two behind it that may be missing. What is left is ignored.
fn lead_fields<A: Deserialize + Drop, B: Deserialize + Drop, C: Deserialize + Drop>(
    alloc: Global,
    content: &[u8],
) -> Result<(A, Option<B>, Option<C>), Asn1DerError>
    ensures { MatchResult result
        (λ f. LeadFields A.tree B.firsts B.tree C.firsts C.tree f.0 f.1 f.2 content.now)
        (λ fault. IsOwn fault × IsMissing (λ (f : A × Option B × Option C). LeadFields A.tree B.firsts B.tree C.firsts C.tree f.0 f.1 f.2 content.now) fault) }
{
    let (first, behind) = split_value::<A>(alloc, content)?;
    let (second, later) = split_optional::<B>(alloc, behind)?;
    let (third, _) = split_optional::<C>(alloc, later)?;
    Ok((first, second, third))
}

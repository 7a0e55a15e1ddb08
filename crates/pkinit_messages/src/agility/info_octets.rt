//! Makes OtherInfo.
ghost use Rattle.std.specs.Prelude.{◌≡◌, IfOk};
ghost use Rattle.pkinit_messages.specs.Contexts.{context_of};
ghost use Rattle.pkinit_messages.specs.OtherInfos.{other_info_bytes, other_info_of, supp_pub_info_bytes, supp_pub_info_of};

use crate::agility::context::KdfContext;
use crate::agility::kdf::Kdf;
use crate::agility::other_info::{KdfAlgorithm, OtherInfo, SuppPubInfo};
use crate::agility::party::party_octets;
use krb_crypto::CipherSuite;
use picky_asn1::wrapper::{IntegerAsn1, ObjectIdentifierAsn1, OctetStringAsn1};
use picky_asn1_der::{ExplicitContextTag, both, encoding_of};
use std::alloc::{AllocError, Global};

/// The encoding of OtherInfo for a key of the suite.
pub(crate) fn other_info_bytes(
    alloc: Global,
    suite: CipherSuite,
    kdf: Kdf,
    context: &KdfContext<'_>,
) -> Result<Vec<u8>, AllocError>
    ensures { IfOk result (λ bytes. bytes.items ≡ other_info_bytes (other_info_of suite kdf (context_of context.now))) }
{
    let info = other_info_for(alloc, suite, kdf, context)?;
    encoding_of(alloc, info)
}

fn other_info_for(
    alloc: Global,
    suite: CipherSuite,
    kdf: Kdf,
    context: &KdfContext<'_>,
) -> Result<OtherInfo, AllocError>
    ensures { IfOk result (λ info. info ≡ other_info_of suite kdf (context_of context.now)) }
{
    let algorithm = kdf.identifier(alloc);
    let client = party_octets(alloc, context.realm, context.client);
    let service = party_octets(alloc, context.realm, context.service);
    let seen = supp_pub_info_octets(alloc, suite, context);
    let (algorithm, (client, (service, seen))) = both(
        algorithm,
        both(client, both(service, seen)),
    )?;
    Ok(OtherInfo {
        algorithm_id: KdfAlgorithm {
            algorithm: ObjectIdentifierAsn1(algorithm),
        },
        party_u_info: ExplicitContextTag(client),
        party_v_info: ExplicitContextTag(service),
        supp_pub_info: ExplicitContextTag(seen),
    })
}

// The encoding of PkinitSuppPubInfo.
fn supp_pub_info_octets(
    alloc: Global,
    suite: CipherSuite,
    context: &KdfContext<'_>,
) -> Result<OctetStringAsn1, AllocError>
    ensures { IfOk result (λ octets. octets ≡ supp_pub_info_bytes (supp_pub_info_of suite (context_of context.now))) }
{
    let info = supp_pub_info(alloc, suite, context)?;
    let bytes = supp_pub_info_bytes(alloc, info)?;
    Ok(OctetStringAsn1::from(bytes))
}

#[tactic(auto, unfolding(crate::specs::OtherInfos::supp_pub_info_bytes))]
fn supp_pub_info_bytes(alloc: Global, info: SuppPubInfo) -> Result<Vec<u8>, AllocError>
    ensures { IfOk result (λ bytes. bytes.items ≡ supp_pub_info_bytes info) }
{
    encoding_of(alloc, info)
}

fn supp_pub_info(
    alloc: Global,
    suite: CipherSuite,
    context: &KdfContext<'_>,
) -> Result<SuppPubInfo, AllocError>
    ensures { IfOk result (λ info. info ≡ supp_pub_info_of suite (context_of context.now)) }
{
    let enctype = IntegerAsn1::from_u64(alloc, u64::from(u32::from(&suite)));
    let as_req = OctetStringAsn1::new(alloc, context.as_req);
    let pk_as_rep = OctetStringAsn1::new(alloc, context.pk_as_rep);
    let (enctype, (as_req, pk_as_rep)) = both(enctype, both(as_req, pk_as_rep))?;
    Ok(SuppPubInfo {
        enctype: ExplicitContextTag(enctype),
        as_req: ExplicitContextTag(as_req),
        pk_as_rep: ExplicitContextTag(pk_as_rep),
    })
}

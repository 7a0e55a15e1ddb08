//! The AuthPack that a client with algorithm agility signs.
ghost use Rattle.std.specs.Prelude.{◌≡◌, ◌∷◌, ◌++◌, [], IfOk};
ghost use Rattle.pkinit_clients.specs.AuthPacks.{authenticator_of};
ghost use Rattle.pkinit_clients.specs.AgilePacks.{agile_pack_bytes, agile_pack_of, algorithm, cms_types, kdfs, listed};

use crate::auth_pack::authenticator_of;
use asn1_der::octets::SEQUENCE;
use krb_messages::messages::KdcReqBody;
use picky_asn1::date::GeneralizedTime;
use picky_asn1::wrapper::{Asn1SequenceOf, ObjectIdentifierAsn1};
use picky_asn1_der::{Asn1RawDer, ExplicitContextTag, RawElement, encoding_of};
use pkinit_messages::agility::{AgileAuthPack, ChosenKdf, Kdf};
use std::alloc::{AllocError, Global};

/// The content of an AlgorithmIdentifier: sha256WithRSAEncryption with NULL (RFC 4055, section 5).
pub(crate) const RSA_SHA256: [u8; 13] = [
    0x06, 0x09, 0x2A, 0x86, 0x48, 0x86, 0xF7, 0x0D, 0x01, 0x01, 0x0B, 0x05, 0x00,
];

/// The same of sha384WithRSAEncryption.
pub(crate) const RSA_SHA384: [u8; 13] = [
    0x06, 0x09, 0x2A, 0x86, 0x48, 0x86, 0xF7, 0x0D, 0x01, 0x01, 0x0C, 0x05, 0x00,
];

/// The same of sha512WithRSAEncryption.
pub(crate) const RSA_SHA512: [u8; 13] = [
    0x06, 0x09, 0x2A, 0x86, 0x48, 0x86, 0xF7, 0x0D, 0x01, 0x01, 0x0D, 0x05, 0x00,
];

/// The encoding of the AuthPack with this public value, for a request with this body at a time.
#[tactic(auto, unfolding(crate::specs::AgilePacks::agile_pack_bytes))]
pub(crate) fn agile_pack_bytes(
    alloc: Global,
    body: &KdcReqBody,
    second: GeneralizedTime,
    microsecond: u32,
    value: Asn1RawDer,
) -> Result<Vec<u8>, AllocError>
    ensures { IfOk result (λ bytes. bytes.items ≡ agile_pack_bytes (agile_pack_of (authenticator_of body.now second microsecond) value)) }
{
    let authenticator = authenticator_of(alloc, body, second, microsecond)?;
    let types = cms_types(alloc)?;
    let functions = kdfs(alloc)?;
    let pack = AgileAuthPack {
        pk_authenticator: ExplicitContextTag(authenticator),
        client_public_value: ExplicitContextTag(value),
        supported_cms_types: ExplicitContextTag(types),
        supported_kdfs: ExplicitContextTag(functions),
    };
    encoding_of(alloc, pack)
}

// The algorithms of replies.
fn cms_types(alloc: Global) -> Result<Asn1SequenceOf<RawElement>, AllocError>
    ensures { IfOk result (λ types. types ≡ cms_types) }
{
    let mut types = Vec::new(alloc);
    push_algorithm(alloc, &mut types, &RSA_SHA256)?;
    push_algorithm(alloc, &mut types, &RSA_SHA384)?;
    push_algorithm(alloc, &mut types, &RSA_SHA512)?;
    Ok(Asn1SequenceOf::from(types))
}

fn push_algorithm(
    alloc: Global,
    types: &mut Vec<RawElement>,
    content: &[u8],
) -> Result<(), AllocError>
    ensures { IfOk result (λ _. types.new.items ≡ types.old.items ++ (algorithm content.now ∷ [])) }
{
    let content = Vec::from_slice(alloc, content)?;
    let Some(element) = RawElement::new(SEQUENCE, content) else {
        unreachable!()
    };
    types.push(element)?;
    Ok(())
}

// The key derivation functions.
fn kdfs(alloc: Global) -> Result<Asn1SequenceOf<ChosenKdf>, AllocError>
    ensures { IfOk result (λ made. made ≡ kdfs) }
{
    let mut functions = Vec::new(alloc);
    push_kdf(alloc, &mut functions, Kdf::Sha256)?;
    push_kdf(alloc, &mut functions, Kdf::Sha512)?;
    push_kdf(alloc, &mut functions, Kdf::Sha1)?;
    Ok(Asn1SequenceOf::from(functions))
}

fn push_kdf(alloc: Global, functions: &mut Vec<ChosenKdf>, kdf: Kdf) -> Result<(), AllocError>
    ensures { IfOk result (λ _. functions.new.items ≡ functions.old.items ++ (listed kdf ∷ [])) }
{
    let oid = kdf.identifier(alloc)?;
    functions.push(ChosenKdf {
        kdf_id: ExplicitContextTag(ObjectIdentifierAsn1(oid)),
    })?;
    Ok(())
}

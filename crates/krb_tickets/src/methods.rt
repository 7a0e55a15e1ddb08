//! METHOD-DATA: how a client may authenticate before it is granted a ticket.
ghost use Rattle.std.specs.Prelude.{◌≡◌, IfOk};
ghost use Rattle.krb_tickets.specs.MethodData.{method_list, key_entry, key_info_bytes, method_data_bytes, pa_data_of, salt_of};

use krb_constants::padata_types::{PA_ENC_TIMESTAMP, PA_ETYPE_INFO2, PA_PK_AS_REQ};
use krb_messages::data_types::{EtypeInfo2, EtypeInfo2Entry, KerberosStringAsn1, PaData};
use krb_realm_accounts::Account;
use picky_asn1::wrapper::{Asn1SequenceOf, GeneralStringAsn1, IntegerAsn1, OctetStringAsn1};
use picky_asn1_der::{ExplicitContextTag, Optional, encoding_of};
use std::alloc::{AllocError, Global};

/// The e-data of an error that asks for preauthentication (RFC 4120, sections 5.9.1 and 5.2.7.5). It says how the client
/// makes its key, and that an encrypted timestamp is required. Where the realm accepts certificates, it offers PKINIT too (RFC 4556,
/// section 3.4).
#[tactic(auto, unfolding(crate::specs::MethodData::method_data, crate::specs::MethodData::method_data_bytes))]
pub fn method_data(
    alloc: Global,
    by_certificate: bool,
    client: &Account,
) -> Result<Vec<u8>, AllocError>
    ensures { IfOk result (λ bytes. bytes.items ≡ method_data_bytes by_certificate client.now) }
{
    let info = key_info(alloc, client)?;
    let info = pa_data(alloc, PA_ETYPE_INFO2, info)?;
    let timestamp = pa_data(alloc, PA_ENC_TIMESTAMP, Vec::new(alloc))?;
    let methods = method_list(alloc, by_certificate, info, timestamp)?;
    let bytes = encoding_of(alloc, methods)?;
    Ok(bytes)
}

// Lists these two entries, and an empty PA-PK-AS-REQ where the realm accepts certificates (RFC 4556, section 3.4).
fn method_list(
    alloc: Global,
    by_certificate: bool,
    info: PaData,
    timestamp: PaData,
) -> Result<Asn1SequenceOf<PaData>, AllocError>
    ensures { IfOk result (λ made. made ≡ method_list by_certificate info timestamp) }
{
    if by_certificate {
        let request = pa_data(alloc, PA_PK_AS_REQ, Vec::new(alloc))?;
        let entries = vec![in alloc; info, timestamp, request]?;
        return Ok(Asn1SequenceOf::from(entries));
    }
    let entries = vec![in alloc; info, timestamp]?;
    Ok(Asn1SequenceOf::from(entries))
}

// Encodes ETYPE-INFO2, which says how the client makes its key of a password.
#[tactic(auto, unfolding(crate::specs::MethodData::key_info_bytes))]
fn key_info(alloc: Global, client: &Account) -> Result<Vec<u8>, AllocError>
    ensures { IfOk result (λ bytes. bytes.items ≡ key_info_bytes client.now) }
{
    let entry = key_entry(alloc, client)?;
    let entries: EtypeInfo2 = Asn1SequenceOf::from(vec![in alloc; entry]?);
    let bytes = encoding_of(alloc, entries)?;
    Ok(bytes)
}

// Makes the one entry of ETYPE-INFO2: the etype of the client's key, and the salt if there is one.
fn key_entry(alloc: Global, client: &Account) -> Result<EtypeInfo2Entry, AllocError>
    ensures { IfOk result (λ entry. entry ≡ key_entry client.now.suite (salt_of client.now.salt)) }
{
    let suite = client.suite();
    let etype = IntegerAsn1::from_u64(alloc, u64::from(u8::from(suite)))?;
    let salt = salt_of(alloc, client)?;
    Ok(EtypeInfo2Entry {
        etype: ExplicitContextTag(etype),
        salt: Optional(salt.map(ExplicitContextTag)),
        s2kparams: Optional(None),
    })
}

// The salt as a KerberosString, or none where it isn't one.
fn salt_of(alloc: Global, client: &Account) -> Result<Option<KerberosStringAsn1>, AllocError>
    ensures { IfOk result (λ salt. salt ≡ salt_of client.now.salt) }
{
    match client.salt() {
        Some(salt) => GeneralStringAsn1::from_content(alloc, salt.as_bytes()),
        None => Ok(None),
    }
}

/// Makes the padata of this type with this value (RFC 4120, section 5.2.7).
pub fn pa_data(alloc: Global, kind: u32, value: Vec<u8>) -> Result<PaData, AllocError>
    ensures { IfOk result (λ made. made ≡ pa_data_of kind value.items) }
{
    let kind = IntegerAsn1::from_u64(alloc, u64::from(kind))?;
    Ok(PaData {
        padata_type: ExplicitContextTag(kind),
        padata_data: ExplicitContextTag(OctetStringAsn1::from(value)),
    })
}

//! A KRB-ERROR.

use picky_asn1::wrapper::{Asn1SequenceOf, GeneralStringAsn1, GeneralizedTimeAsn1, IntegerAsn1};
use picky_asn1_der::{ApplicationTag, ExplicitContextTag, Optional, to_vec};
use picky_krb::constants::error_codes::KDC_ERR_C_PRINCIPAL_UNKNOWN;
use picky_krb::constants::types::{KERBEROS_VERSION, KRB_ERROR_MSG_TYPE, NT_SRV_INST};
use picky_krb::data_types::PrincipalName;
use picky_krb::messages::{KrbError, KrbErrorInner};
use std::alloc::Global;

/// A realm's KRB-ERROR (RFC 4120, section 5.9.1) for a client that has no account, written.
pub fn unknown_client(
    alloc: Global,
    realm: &[u8],
    stime: GeneralizedTimeAsn1,
) -> anyhow::Result<Vec<u8>> {
    let pvno = number(alloc, KERBEROS_VERSION)?;
    let msg_type = number(alloc, u32::from(KRB_ERROR_MSG_TYPE))?;
    let susec = number(alloc, 0)?;
    let sname = ticket_granting_service(alloc, realm)?;
    let realm = GeneralStringAsn1::new(alloc, realm)?;
    let message: KrbError = ApplicationTag(KrbErrorInner {
        pvno: ExplicitContextTag(pvno),
        msg_type: ExplicitContextTag(msg_type),
        ctime: Optional(None),
        cusec: Optional(None),
        stime: ExplicitContextTag(stime),
        susec: ExplicitContextTag(susec),
        error_code: ExplicitContextTag(KDC_ERR_C_PRINCIPAL_UNKNOWN),
        crealm: Optional(None),
        cname: Optional(None),
        realm: ExplicitContextTag(realm),
        sname: ExplicitContextTag(sname),
        e_text: Optional(None),
        e_data: Optional(None),
    });
    let bytes = to_vec(alloc, &message);
    drop(message);
    Ok(bytes?)
}

/// The name `krbtgt/REALM` (RFC 4120, section 7.3).
fn ticket_granting_service(alloc: Global, realm: &[u8]) -> anyhow::Result<PrincipalName> {
    let kind = number(alloc, u32::from(NT_SRV_INST))?;
    let krbtgt = GeneralStringAsn1::new(alloc, b"krbtgt")?;
    let realm = GeneralStringAsn1::new(alloc, realm)?;
    let components = vec![in alloc; krbtgt, realm]?;
    Ok(PrincipalName {
        name_type: ExplicitContextTag(kind),
        name_string: ExplicitContextTag(Asn1SequenceOf::from(components)),
    })
}

fn number(alloc: Global, value: u32) -> anyhow::Result<IntegerAsn1> {
    let number = IntegerAsn1::from_u64(alloc, u64::from(value))?;
    Ok(number)
}

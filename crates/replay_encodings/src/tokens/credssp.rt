//! Credentials that CredSSP delegates, by the names of their types.
use crate::{first_of, told_as};
use picky_asn1::wrapper::{ExplicitContextTag, IntegerAsn1, OctetStringAsn1, Optional};
use picky_asn1_der::{Asn1DerError, Deserialize, both, from_exact_bytes, to_vec};
use picky_krb::credssp::{
    TsCredentials, TsCspDataDetail, TsPasswordCreds, TsRemoteGuardCreds, TsRemoteGuardPackageCred,
    TsSmartCardCreds,
};
use std::alloc::Global;
use test_support::{Answer, Recorded, Wanted, is_told};

/// Whether credentials of such a type are read and written as expected; none for any other type.
pub fn agrees(alloc: Global, recorded: &Recorded<'_>) -> Option<Answer> {
    first_of(&[
        held_as::<TsCredentials>(alloc, recorded, "TsCredentials"),
        held_as::<TsCspDataDetail>(alloc, recorded, "TsCspDataDetail"),
        held_as::<TsPasswordCreds>(alloc, recorded, "TsPasswordCreds"),
        told_as::<TsRemoteGuardCreds>(alloc, recorded, "TsRemoteGuardCreds"),
        held_as::<TsRemoteGuardPackageCred>(alloc, recorded, "TsRemoteGuardPackageCred"),
        told_as::<TsSmartCardCreds>(alloc, recorded, "TsSmartCardCreds"),
    ])
}

/// A type whose value is distinguished by octets, field by field.
trait Held: Deserialize + PartialEq + Drop {
    /// The value with these fields.
    fn of_parts(alloc: Global, parts: &[Option<Vec<u8>>]) -> Result<Self, Asn1DerError>;
}

/// Whether credentials are held as expected, if the line names this type; none for any other type.
fn held_as<T: Held>(alloc: Global, recorded: &Recorded<'_>, type_name: &str) -> Option<Answer> {
    if recorded.type_name != type_name {
        return None;
    }
    Some(is_held::<T>(alloc, recorded))
}

/// Whether credentials are read as what they are to hold, and written back.
fn is_held<T: Held>(alloc: Global, recorded: &Recorded<'_>) -> Answer {
    match &recorded.wanted {
        Wanted::Held(parts) => {
            let wanted = T::of_parts(alloc, parts);
            let read = from_exact_bytes::<T>(alloc, &recorded.bytes);
            let (wanted, read) = both(wanted, read)?;
            is_same(alloc, &wanted, &read, recorded)
        }
        _ => is_told::<T>(alloc, recorded),
    }
}

fn is_same<T: Held>(alloc: Global, wanted: &T, read: &T, recorded: &Recorded<'_>) -> Answer {
    let written = to_vec(alloc, read)?;
    Ok(*read == *wanted && written == recorded.bytes)
}

fn octets(alloc: Global, part: &[u8]) -> Result<OctetStringAsn1, Asn1DerError> {
    match OctetStringAsn1::new(alloc, part) {
        Ok(octets) => Ok(octets),
        Err(_) => Err(Asn1DerError::Memory),
    }
}

fn number(alloc: Global, part: &[u8]) -> Result<IntegerAsn1, Asn1DerError> {
    match IntegerAsn1::new(alloc, part) {
        Ok(number) => Ok(number),
        Err(_) => Err(Asn1DerError::InvalidData),
    }
}

fn optional<const N: u8>(
    alloc: Global,
    part: &Option<Vec<u8>>,
) -> Result<Optional<Option<ExplicitContextTag<N, OctetStringAsn1>>>, Asn1DerError> {
    let Some(part) = part else {
        return Ok(Optional(None));
    };
    let octets = octets(alloc, part)?;
    Ok(Optional(Some(ExplicitContextTag(octets))))
}

impl Held for TsCredentials {
    fn of_parts(alloc: Global, parts: &[Option<Vec<u8>>]) -> Result<Self, Asn1DerError> {
        let [Some(cred_type), Some(credentials)] = parts else {
            return Err(Asn1DerError::InvalidData);
        };
        let (cred_type, credentials) = both(number(alloc, cred_type), octets(alloc, credentials))?;
        Ok(TsCredentials {
            cred_type: ExplicitContextTag(cred_type),
            credentials: ExplicitContextTag(credentials),
        })
    }
}

impl Held for TsPasswordCreds {
    fn of_parts(alloc: Global, parts: &[Option<Vec<u8>>]) -> Result<Self, Asn1DerError> {
        let [Some(domain_name), Some(user_name), Some(password)] = parts else {
            return Err(Asn1DerError::InvalidData);
        };
        let names = both(octets(alloc, domain_name), octets(alloc, user_name));
        let ((domain_name, user_name), password) = both(names, octets(alloc, password))?;
        Ok(TsPasswordCreds {
            domain_name: ExplicitContextTag(domain_name),
            user_name: ExplicitContextTag(user_name),
            password: ExplicitContextTag(password),
        })
    }
}

impl Held for TsRemoteGuardPackageCred {
    fn of_parts(alloc: Global, parts: &[Option<Vec<u8>>]) -> Result<Self, Asn1DerError> {
        let [Some(package_name), Some(cred_buffer)] = parts else {
            return Err(Asn1DerError::InvalidData);
        };
        let (package_name, cred_buffer) = both(
            octets(alloc, package_name),
            octets(alloc, cred_buffer),
        )?;
        Ok(TsRemoteGuardPackageCred {
            package_name: ExplicitContextTag(package_name),
            cred_buffer: ExplicitContextTag(cred_buffer),
        })
    }
}

impl Held for TsCspDataDetail {
    fn of_parts(alloc: Global, parts: &[Option<Vec<u8>>]) -> Result<Self, Asn1DerError> {
        let [Some(key_spec), card, reader, container, provider] = parts else {
            return Err(Asn1DerError::InvalidData);
        };
        let places = both(optional(alloc, card), optional(alloc, reader));
        let names = both(optional(alloc, container), optional(alloc, provider));
        let (key_spec, (places, names)) = both(number(alloc, key_spec), both(places, names))?;
        let ((card_name, reader_name), (container_name, csp_name)) = (places, names);
        Ok(TsCspDataDetail {
            key_spec: ExplicitContextTag(key_spec),
            card_name,
            reader_name,
            container_name,
            csp_name,
        })
    }
}

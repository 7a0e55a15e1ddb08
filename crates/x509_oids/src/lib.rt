//! The object identifiers of X.509 values and their neighbours. Each constant is the dotted text, and the function of the
//! same name in small letters returns the identifier.
#![tactic(auto)]

ghost use Rattle.std.specs.Prelude.{◌≡◌, IfOk};
ghost use Rattle.asn1_leaves.specs.ObjectIdentifier.{IsObjectIdentifier};
ghost use Rattle.x509_oids.specs.Identifiers.{IsNamed};
ghost use Rattle.x509_oids.specs.Identifiers as oids;

mod algorithms;

pub use algorithms::AES128_CBC;
pub use algorithms::AES128_CCM;
pub use algorithms::AES128_CFB;
pub use algorithms::AES128_ECB;
pub use algorithms::AES128_GCM;
pub use algorithms::AES128_OFB;
pub use algorithms::AES128_WRAP;
pub use algorithms::AES128_WRAP_PAD;
pub use algorithms::AES192_CBC;
pub use algorithms::AES192_CCM;
pub use algorithms::AES192_CFB;
pub use algorithms::AES192_ECB;
pub use algorithms::AES192_GCM;
pub use algorithms::AES192_OFB;
pub use algorithms::AES192_WRAP;
pub use algorithms::AES192_WRAP_PAD;
pub use algorithms::AES256_CBC;
pub use algorithms::AES256_CCM;
pub use algorithms::AES256_CFB;
pub use algorithms::AES256_ECB;
pub use algorithms::AES256_GCM;
pub use algorithms::AES256_OFB;
pub use algorithms::AES256_WRAP;
pub use algorithms::AES256_WRAP_PAD;
pub use algorithms::DSA_WITH_SHA1;
pub use algorithms::EC_PUBLIC_KEY;
pub use algorithms::ECDSA_WITH_SHA3_224;
pub use algorithms::ECDSA_WITH_SHA3_256;
pub use algorithms::ECDSA_WITH_SHA3_384;
pub use algorithms::ECDSA_WITH_SHA3_512;
pub use algorithms::ECDSA_WITH_SHA256;
pub use algorithms::ECDSA_WITH_SHA384;
pub use algorithms::ECDSA_WITH_SHA512;
pub use algorithms::ED448;
pub use algorithms::ED25519;
pub use algorithms::ID_MGF1;
pub use algorithms::MD5;
pub use algorithms::MD5_WITH_RSA_ENCRYPTHION;
pub use algorithms::ML_DSA_44;
pub use algorithms::ML_DSA_65;
pub use algorithms::ML_DSA_87;
pub use algorithms::RSA_ENCRYPTION;
pub use algorithms::RSASSA_PSS;
pub use algorithms::SECP256R1;
pub use algorithms::SECP384R1;
pub use algorithms::SECP521R1;
pub use algorithms::SHA1;
pub use algorithms::SHA1_WITH_RSA_ENCRYPTION;
pub use algorithms::SHA3_224;
pub use algorithms::SHA3_224_WITH_RSA_ENCRYPTION;
pub use algorithms::SHA3_256;
pub use algorithms::SHA3_256_WITH_RSA_ENCRYPTION;
pub use algorithms::SHA3_384;
pub use algorithms::SHA3_384_WITH_RSA_ENCRYPTION;
pub use algorithms::SHA3_512;
pub use algorithms::SHA3_512_WITH_RSA_ENCRYPTION;
pub use algorithms::SHA224;
pub use algorithms::SHA224_WITH_RSA_ENCRYPTION;
pub use algorithms::SHA256;
pub use algorithms::SHA256_WITH_RSA_ENCRYPTION;
pub use algorithms::SHA384;
pub use algorithms::SHA384_WITH_RSA_ENCRYPTION;
pub use algorithms::SHA512;
pub use algorithms::SHA512_224;
pub use algorithms::SHA512_256;
pub use algorithms::SHA512_WITH_RSA_ENCRYPTION;
pub use algorithms::SHAKE128;
pub use algorithms::SHAKE256;
pub use algorithms::X448;
pub use algorithms::X25519;
pub use algorithms::aes128_cbc;
pub use algorithms::aes128_ccm;
pub use algorithms::aes128_cfb;
pub use algorithms::aes128_ecb;
pub use algorithms::aes128_gcm;
pub use algorithms::aes128_ofb;
pub use algorithms::aes128_wrap;
pub use algorithms::aes128_wrap_pad;
pub use algorithms::aes192_cbc;
pub use algorithms::aes192_ccm;
pub use algorithms::aes192_cfb;
pub use algorithms::aes192_ecb;
pub use algorithms::aes192_gcm;
pub use algorithms::aes192_ofb;
pub use algorithms::aes192_wrap;
pub use algorithms::aes192_wrap_pad;
pub use algorithms::aes256_cbc;
pub use algorithms::aes256_ccm;
pub use algorithms::aes256_cfb;
pub use algorithms::aes256_ecb;
pub use algorithms::aes256_gcm;
pub use algorithms::aes256_ofb;
pub use algorithms::aes256_wrap;
pub use algorithms::aes256_wrap_pad;
pub use algorithms::dsa_with_sha1;
pub use algorithms::ec_public_key;
pub use algorithms::ecdsa_with_sha3_224;
pub use algorithms::ecdsa_with_sha3_256;
pub use algorithms::ecdsa_with_sha3_384;
pub use algorithms::ecdsa_with_sha3_512;
pub use algorithms::ecdsa_with_sha256;
pub use algorithms::ecdsa_with_sha384;
pub use algorithms::ecdsa_with_sha512;
pub use algorithms::ed448;
pub use algorithms::ed25519;
pub use algorithms::id_mgf1;
pub use algorithms::md5;
pub use algorithms::md5_with_rsa_encrypthion;
pub use algorithms::ml_dsa_44;
pub use algorithms::ml_dsa_65;
pub use algorithms::ml_dsa_87;
pub use algorithms::rsa_encryption;
pub use algorithms::rsassa_pss;
pub use algorithms::secp256r1;
pub use algorithms::secp384r1;
pub use algorithms::secp521r1;
pub use algorithms::sha1;
pub use algorithms::sha1_with_rsa_encryption;
pub use algorithms::sha3_224;
pub use algorithms::sha3_224_with_rsa_encryption;
pub use algorithms::sha3_256;
pub use algorithms::sha3_256_with_rsa_encryption;
pub use algorithms::sha3_384;
pub use algorithms::sha3_384_with_rsa_encryption;
pub use algorithms::sha3_512;
pub use algorithms::sha3_512_with_rsa_encryption;
pub use algorithms::sha224;
pub use algorithms::sha224_with_rsa_encryption;
pub use algorithms::sha256;
pub use algorithms::sha256_with_rsa_encryption;
pub use algorithms::sha384;
pub use algorithms::sha384_with_rsa_encryption;
pub use algorithms::sha512;
pub use algorithms::sha512_224;
pub use algorithms::sha512_256;
pub use algorithms::sha512_with_rsa_encryption;
pub use algorithms::shake128;
pub use algorithms::shake256;
pub use algorithms::x448;
pub use algorithms::x25519;
use asn1_leaves::LeafFault;
use asn1_leaves::oid::ObjectIdentifier;
use std::alloc::AllocError;
use std::alloc::Global;

// The object identifier with these arcs.
fn identifier(alloc: Global, arcs: &[u64]) -> Result<ObjectIdentifier, AllocError>
    requires { IsObjectIdentifier arcs.now }
    ensures { IfOk result (λ oid. oid ≡ arcs.now) }
{
    match ObjectIdentifier::from_arcs(alloc, arcs) {
        Ok(oid) => Ok(oid),
        Err(LeafFault::Memory) => Err(AllocError),
        Err(_) => unreachable!(),
    }
}

/// The attribute commonName (X.520, section 6).
pub const AT_COMMON_NAME: &str = "2.5.4.3";

/// The identifier [`AT_COMMON_NAME`].
#[tactic(auto, using(crate::specs::Identifiers::at_common_name_text))]
pub fn at_common_name(alloc: Global) -> Result<ObjectIdentifier, AllocError>
    ensures { IsNamed oids.at_common_name AT_COMMON_NAME.now result }
{
    identifier(alloc, &[2, 5, 4, 3])
}

/// The attribute surname (X.520, section 6).
pub const AT_SURNAME: &str = "2.5.4.4";

/// The identifier [`AT_SURNAME`].
#[tactic(auto, using(crate::specs::Identifiers::at_surname_text))]
pub fn at_surname(alloc: Global) -> Result<ObjectIdentifier, AllocError>
    ensures { IsNamed oids.at_surname AT_SURNAME.now result }
{
    identifier(alloc, &[2, 5, 4, 4])
}

/// The attribute serialNumber (X.520, section 6).
pub const AT_SERIAL_NUMBER: &str = "2.5.4.5";

/// The identifier [`AT_SERIAL_NUMBER`].
#[tactic(auto, using(crate::specs::Identifiers::at_serial_number_text))]
pub fn at_serial_number(alloc: Global) -> Result<ObjectIdentifier, AllocError>
    ensures { IsNamed oids.at_serial_number AT_SERIAL_NUMBER.now result }
{
    identifier(alloc, &[2, 5, 4, 5])
}

/// The attribute countryName (X.520, section 6).
pub const AT_COUNTRY_NAME: &str = "2.5.4.6";

/// The identifier [`AT_COUNTRY_NAME`].
#[tactic(auto, using(crate::specs::Identifiers::at_country_name_text))]
pub fn at_country_name(alloc: Global) -> Result<ObjectIdentifier, AllocError>
    ensures { IsNamed oids.at_country_name AT_COUNTRY_NAME.now result }
{
    identifier(alloc, &[2, 5, 4, 6])
}

/// The attribute localityName (X.520, section 6).
pub const AT_LOCALITY_NAME: &str = "2.5.4.7";

/// The identifier [`AT_LOCALITY_NAME`].
#[tactic(auto, using(crate::specs::Identifiers::at_locality_name_text))]
pub fn at_locality_name(alloc: Global) -> Result<ObjectIdentifier, AllocError>
    ensures { IsNamed oids.at_locality_name AT_LOCALITY_NAME.now result }
{
    identifier(alloc, &[2, 5, 4, 7])
}

/// The attribute stateOrProvinceName (X.520, section 6).
pub const AT_STATE_OR_PROVINCE_NAME: &str = "2.5.4.8";

/// The identifier [`AT_STATE_OR_PROVINCE_NAME`].
#[tactic(auto, using(crate::specs::Identifiers::at_state_or_province_name_text))]
pub fn at_state_or_province_name(alloc: Global) -> Result<ObjectIdentifier, AllocError>
    ensures { IsNamed oids.at_state_or_province_name AT_STATE_OR_PROVINCE_NAME.now result }
{
    identifier(alloc, &[2, 5, 4, 8])
}

/// The attribute streetAddress (X.520, section 6).
pub const AT_STREET_NAME: &str = "2.5.4.9";

/// The identifier [`AT_STREET_NAME`].
#[tactic(auto, using(crate::specs::Identifiers::at_street_name_text))]
pub fn at_street_name(alloc: Global) -> Result<ObjectIdentifier, AllocError>
    ensures { IsNamed oids.at_street_name AT_STREET_NAME.now result }
{
    identifier(alloc, &[2, 5, 4, 9])
}

/// The attribute organizationName (X.520, section 6).
pub const AT_ORGANISATION_NAME: &str = "2.5.4.10";

/// The identifier [`AT_ORGANISATION_NAME`].
#[tactic(auto, using(crate::specs::Identifiers::at_organisation_name_text))]
pub fn at_organisation_name(alloc: Global) -> Result<ObjectIdentifier, AllocError>
    ensures { IsNamed oids.at_organisation_name AT_ORGANISATION_NAME.now result }
{
    identifier(alloc, &[2, 5, 4, 10])
}

/// The attribute organizationalUnitName (X.520, section 6).
pub const AT_ORGANISATIONAL_UNIT_NAME: &str = "2.5.4.11";

/// The identifier [`AT_ORGANISATIONAL_UNIT_NAME`].
#[tactic(auto, using(crate::specs::Identifiers::at_organisational_unit_name_text))]
pub fn at_organisational_unit_name(alloc: Global) -> Result<ObjectIdentifier, AllocError>
    ensures { IsNamed oids.at_organisational_unit_name AT_ORGANISATIONAL_UNIT_NAME.now result }
{
    identifier(alloc, &[2, 5, 4, 11])
}

/// The attribute telephoneNumber (X.520, section 6).
pub const AT_PHONE: &str = "2.5.4.20";

/// The identifier [`AT_PHONE`].
#[tactic(auto, using(crate::specs::Identifiers::at_phone_text))]
pub fn at_phone(alloc: Global) -> Result<ObjectIdentifier, AllocError>
    ensures { IsNamed oids.at_phone AT_PHONE.now result }
{
    identifier(alloc, &[2, 5, 4, 20])
}

/// The attribute givenName (X.520, section 6).
pub const AT_GIVENNAME: &str = "2.5.4.42";

/// The identifier [`AT_GIVENNAME`].
#[tactic(auto, using(crate::specs::Identifiers::at_givenname_text))]
pub fn at_givenname(alloc: Global) -> Result<ObjectIdentifier, AllocError>
    ensures { IsNamed oids.at_givenname AT_GIVENNAME.now result }
{
    identifier(alloc, &[2, 5, 4, 42])
}

/// The attribute emailAddress (RFC 2985, appendix A).
pub const EMAIL_ADDRESS: &str = "1.2.840.113549.1.9.1";

/// The identifier [`EMAIL_ADDRESS`].
#[tactic(auto, using(crate::specs::Identifiers::email_address_text))]
pub fn email_address(alloc: Global) -> Result<ObjectIdentifier, AllocError>
    ensures { IsNamed oids.email_address EMAIL_ADDRESS.now result }
{
    identifier(alloc, &[1, 2, 840, 113549, 1, 9, 1])
}

/// The attribute contentType (RFC 2985, appendix A).
pub const CONTENT_TYPE: &str = "1.2.840.113549.1.9.3";

/// The identifier [`CONTENT_TYPE`].
#[tactic(auto, using(crate::specs::Identifiers::content_type_text))]
pub fn content_type(alloc: Global) -> Result<ObjectIdentifier, AllocError>
    ensures { IsNamed oids.content_type CONTENT_TYPE.now result }
{
    identifier(alloc, &[1, 2, 840, 113549, 1, 9, 3])
}

/// The attribute messageDigest (RFC 2985, appendix A).
pub const MESSAGE_DIGEST: &str = "1.2.840.113549.1.9.4";

/// The identifier [`MESSAGE_DIGEST`].
#[tactic(auto, using(crate::specs::Identifiers::message_digest_text))]
pub fn message_digest(alloc: Global) -> Result<ObjectIdentifier, AllocError>
    ensures { IsNamed oids.message_digest MESSAGE_DIGEST.now result }
{
    identifier(alloc, &[1, 2, 840, 113549, 1, 9, 4])
}

/// The attribute signingTime (RFC 2985, appendix A).
pub const SIGNING_TIME: &str = "1.2.840.113549.1.9.5";

/// The identifier [`SIGNING_TIME`].
#[tactic(auto, using(crate::specs::Identifiers::signing_time_text))]
pub fn signing_time(alloc: Global) -> Result<ObjectIdentifier, AllocError>
    ensures { IsNamed oids.signing_time SIGNING_TIME.now result }
{
    identifier(alloc, &[1, 2, 840, 113549, 1, 9, 5])
}

/// The attribute extensionRequest (RFC 2985, appendix A).
pub const EXTENSION_REQ: &str = "1.2.840.113549.1.9.14";

/// The identifier [`EXTENSION_REQ`].
#[tactic(auto, using(crate::specs::Identifiers::extension_req_text))]
pub fn extension_req(alloc: Global) -> Result<ObjectIdentifier, AllocError>
    ensures { IsNamed oids.extension_req EXTENSION_REQ.now result }
{
    identifier(alloc, &[1, 2, 840, 113549, 1, 9, 14])
}

/// The attribute SpcStatementType (Microsoft's Authenticode).
pub const SPC_STATEMENT_TYPE: &str = "1.3.6.1.4.1.311.2.1.11";

/// The identifier [`SPC_STATEMENT_TYPE`].
#[tactic(auto, using(crate::specs::Identifiers::spc_statement_type_text))]
pub fn spc_statement_type(alloc: Global) -> Result<ObjectIdentifier, AllocError>
    ensures { IsNamed oids.spc_statement_type SPC_STATEMENT_TYPE.now result }
{
    identifier(alloc, &[1, 3, 6, 1, 4, 1, 311, 2, 1, 11])
}

/// The extension subjectKeyIdentifier (RFC 5280, section 4.2.1.2).
pub const SUBJECT_KEY_IDENTIFIER: &str = "2.5.29.14";

/// The identifier [`SUBJECT_KEY_IDENTIFIER`].
#[tactic(auto, using(crate::specs::Identifiers::subject_key_identifier_text))]
pub fn subject_key_identifier(alloc: Global) -> Result<ObjectIdentifier, AllocError>
    ensures { IsNamed oids.subject_key_identifier SUBJECT_KEY_IDENTIFIER.now result }
{
    identifier(alloc, &[2, 5, 29, 14])
}

/// The extension keyUsage (RFC 5280, section 4.2.1.3).
pub const KEY_USAGE: &str = "2.5.29.15";

/// The identifier [`KEY_USAGE`].
#[tactic(auto, using(crate::specs::Identifiers::key_usage_text))]
pub fn key_usage(alloc: Global) -> Result<ObjectIdentifier, AllocError>
    ensures { IsNamed oids.key_usage KEY_USAGE.now result }
{
    identifier(alloc, &[2, 5, 29, 15])
}

/// The extension subjectAltName (RFC 5280, section 4.2.1.6).
pub const SUBJECT_ALTERNATIVE_NAME: &str = "2.5.29.17";

/// The identifier [`SUBJECT_ALTERNATIVE_NAME`].
#[tactic(auto, using(crate::specs::Identifiers::subject_alternative_name_text))]
pub fn subject_alternative_name(alloc: Global) -> Result<ObjectIdentifier, AllocError>
    ensures { IsNamed oids.subject_alternative_name SUBJECT_ALTERNATIVE_NAME.now result }
{
    identifier(alloc, &[2, 5, 29, 17])
}

/// The extension issuerAltName (RFC 5280, section 4.2.1.7).
pub const ISSUER_ALTERNATIVE_NAME: &str = "2.5.29.18";

/// The identifier [`ISSUER_ALTERNATIVE_NAME`].
#[tactic(auto, using(crate::specs::Identifiers::issuer_alternative_name_text))]
pub fn issuer_alternative_name(alloc: Global) -> Result<ObjectIdentifier, AllocError>
    ensures { IsNamed oids.issuer_alternative_name ISSUER_ALTERNATIVE_NAME.now result }
{
    identifier(alloc, &[2, 5, 29, 18])
}

/// The extension basicConstraints (RFC 5280, section 4.2.1.9).
pub const BASIC_CONSTRAINTS: &str = "2.5.29.19";

/// The identifier [`BASIC_CONSTRAINTS`].
#[tactic(auto, using(crate::specs::Identifiers::basic_constraints_text))]
pub fn basic_constraints(alloc: Global) -> Result<ObjectIdentifier, AllocError>
    ensures { IsNamed oids.basic_constraints BASIC_CONSTRAINTS.now result }
{
    identifier(alloc, &[2, 5, 29, 19])
}

/// The extension cRLNumber (RFC 5280, section 5.2.3).
pub const CRL_NUMBER: &str = "2.5.29.20";

/// The identifier [`CRL_NUMBER`].
#[tactic(auto, using(crate::specs::Identifiers::crl_number_text))]
pub fn crl_number(alloc: Global) -> Result<ObjectIdentifier, AllocError>
    ensures { IsNamed oids.crl_number CRL_NUMBER.now result }
{
    identifier(alloc, &[2, 5, 29, 20])
}

/// The extension authorityKeyIdentifier (RFC 5280, section 4.2.1.1).
pub const AUTHORITY_KEY_IDENTIFIER: &str = "2.5.29.35";

/// The identifier [`AUTHORITY_KEY_IDENTIFIER`].
#[tactic(auto, using(crate::specs::Identifiers::authority_key_identifier_text))]
pub fn authority_key_identifier(alloc: Global) -> Result<ObjectIdentifier, AllocError>
    ensures { IsNamed oids.authority_key_identifier AUTHORITY_KEY_IDENTIFIER.now result }
{
    identifier(alloc, &[2, 5, 29, 35])
}

/// The extension extKeyUsage (RFC 5280, section 4.2.1.12).
pub const EXTENDED_KEY_USAGE: &str = "2.5.29.37";

/// The identifier [`EXTENDED_KEY_USAGE`].
#[tactic(auto, using(crate::specs::Identifiers::extended_key_usage_text))]
pub fn extended_key_usage(alloc: Global) -> Result<ObjectIdentifier, AllocError>
    ensures { IsNamed oids.extended_key_usage EXTENDED_KEY_USAGE.now result }
{
    identifier(alloc, &[2, 5, 29, 37])
}

/// The content type SignedData (RFC 5652, section 5.1).
pub const SIGNED_DATA: &str = "1.2.840.113549.1.7.2";

/// The identifier [`SIGNED_DATA`].
#[tactic(auto, using(crate::specs::Identifiers::signed_data_text))]
pub fn signed_data(alloc: Global) -> Result<ObjectIdentifier, AllocError>
    ensures { IsNamed oids.signed_data SIGNED_DATA.now result }
{
    identifier(alloc, &[1, 2, 840, 113549, 1, 7, 2])
}

/// A principal as another name of a certificate (RFC 4556, section 3).
pub const PKINIT_SAN: &str = "1.3.6.1.5.2.2";

/// The identifier [`PKINIT_SAN`].
#[tactic(auto, using(crate::specs::Identifiers::pkinit_san_text))]
pub fn pkinit_san(alloc: Global) -> Result<ObjectIdentifier, AllocError>
    ensures { IsNamed oids.pkinit_san PKINIT_SAN.now result }
{
    identifier(alloc, &[1, 3, 6, 1, 5, 2, 2])
}

/// The content type of AuthPack (RFC 4556, section 3).
pub const PKINIT_AUTH_DATA: &str = "1.3.6.1.5.2.3.1";

/// The identifier [`PKINIT_AUTH_DATA`].
#[tactic(auto, using(crate::specs::Identifiers::pkinit_auth_data_text))]
pub fn pkinit_auth_data(alloc: Global) -> Result<ObjectIdentifier, AllocError>
    ensures { IsNamed oids.pkinit_auth_data PKINIT_AUTH_DATA.now result }
{
    identifier(alloc, &[1, 3, 6, 1, 5, 2, 3, 1])
}

/// The content type of KDCDHKeyInfo (RFC 4556, section 3).
pub const PKINIT_DHKEY_DATA: &str = "1.3.6.1.5.2.3.2";

/// The identifier [`PKINIT_DHKEY_DATA`].
#[tactic(auto, using(crate::specs::Identifiers::pkinit_dhkey_data_text))]
pub fn pkinit_dhkey_data(alloc: Global) -> Result<ObjectIdentifier, AllocError>
    ensures { IsNamed oids.pkinit_dhkey_data PKINIT_DHKEY_DATA.now result }
{
    identifier(alloc, &[1, 3, 6, 1, 5, 2, 3, 2])
}

/// The mechanism Kerberos (RFC 4121, section 1).
pub const KRB5: &str = "1.2.840.113554.1.2.2";

/// The identifier [`KRB5`].
#[tactic(auto, using(crate::specs::Identifiers::krb5_text))]
pub fn krb5(alloc: Global) -> Result<ObjectIdentifier, AllocError>
    ensures { IsNamed oids.krb5 KRB5.now result }
{
    identifier(alloc, &[1, 2, 840, 113554, 1, 2, 2])
}

/// The mechanism IAKERB (draft-ietf-kitten-iakerb, section 3).
pub const IAKERB5: &str = "1.3.6.1.5.2.5";

/// The identifier [`IAKERB5`].
#[tactic(auto, using(crate::specs::Identifiers::iakerb5_text))]
pub fn iakerb5(alloc: Global) -> Result<ObjectIdentifier, AllocError>
    ensures { IsNamed oids.iakerb5 IAKERB5.now result }
{
    identifier(alloc, &[1, 3, 6, 1, 5, 2, 5])
}

/// The mechanism SPNEGO (RFC 4178, section 3).
pub const SPNEGO: &str = "1.3.6.1.5.5.2";

/// The identifier [`SPNEGO`].
#[tactic(auto, using(crate::specs::Identifiers::spnego_text))]
pub fn spnego(alloc: Global) -> Result<ObjectIdentifier, AllocError>
    ensures { IsNamed oids.spnego SPNEGO.now result }
{
    identifier(alloc, &[1, 3, 6, 1, 5, 5, 2])
}

//! The fields of an AuthPack that the KDC has read.
use krb_time::Moment;
use picky_asn1::wrapper::IntegerAsn1;
use picky_asn1_der::Asn1RawDer;
use pkinit_messages::agility::Kdf;
use std::marker::Model;

/// The client's public value, the time and the nonce of its pkAuthenticator, and the key derivation function. A contract sees the values.
#[derive(Drop)]
pub(crate) struct GeneralFields<'a> {
    /// The element of clientPublicValue.
    pub(crate) value: &'a Asn1RawDer,
    /// The time that ctime and cusec give.
    pub(crate) time: Moment,
    /// The nonce of pkAuthenticator.
    pub(crate) nonce: &'a IntegerAsn1,
    /// The key derivation function that the KDC chooses.
    pub(crate) kdf: Option<Kdf>,
}

impl<'a> Model for GeneralFields<'a> {
    ghost use Rattle.pkinit_validation.specs.GeneralFields.{FieldsRecord};

    ghost Value = { FieldsRecord };

    ghost view = { λ f. record { value = f.value.now; time = f.time; nonce = f.nonce.now; kdf = f.kdf } };
}

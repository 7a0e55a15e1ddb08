//! The fields of an AuthPack that the KDC has read.
use krb_time::Moment;
use picky_asn1::wrapper::IntegerAsn1;
use picky_asn1_der::Asn1RawDer;
use std::marker::Model;

/// The client's public value, and the time and the nonce of its pkAuthenticator. A contract sees the values.
#[derive(Drop)]
pub(crate) struct AuthPackFields<'a> {
    /// The element of clientPublicValue.
    pub(crate) value: &'a Asn1RawDer,
    /// The time that ctime and cusec give.
    pub(crate) time: Moment,
    /// The nonce of pkAuthenticator.
    pub(crate) nonce: &'a IntegerAsn1,
}

impl<'a> Model for AuthPackFields<'a> {
    ghost use Rattle.pkinit_validation.specs.AuthPackFields.{AuthPackFieldsRecord};

    ghost Value = { AuthPackFieldsRecord };

    ghost view = { λ a. record { value = a.value.now; time = a.time; nonce = a.nonce.now } };
}

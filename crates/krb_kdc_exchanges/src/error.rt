//! Writes a KRB-ERROR.
ghost use Rattle.std.specs.Prelude.{◌≡◌, ◌%◌, IfOk};
ghost use Rattle.std.specs.Option.{option_map};
ghost use Rattle.asn1_leaves.specs.declared.date.GeneralizedTime.{GeneralizedTime};
ghost use Rattle.krb_time.specs.SecondOf.{IsSecondOf};
ghost use Rattle.krb_kdc_exchanges.specs.Errors.{error_bytes};
ghost use Rattle.asn1_der.specs.Octets.{sequence_octet};

use crate::kdc_error::KdcError;
use asn1_der::octets::SEQUENCE;
use byte_streams::Sink;
use krb_constants::types::{KERBEROS_VERSION, KRB_ERROR_MSG_TYPE};
use krb_messages::data_types::{KerberosTime, Microseconds, PrincipalName, Realm};
use krb_time::Moment;
use picky_asn1::wrapper::{GeneralStringAsn1, GeneralizedTimeAsn1, IntegerAsn1, OctetStringAsn1};
use picky_asn1_der::{
    Asn1DerError, ExplicitContextTag, ExplicitContextTag0, ExplicitContextTag1,
    ExplicitContextTag4, ExplicitContextTag5, ExplicitContextTag6, ExplicitContextTag9,
    ExplicitContextTag10, ExplicitContextTag12, Lent, Optional, Serialize, Serializer, fields_of,
    tagged_encoding,
};
use std::alloc::{AllocError, Global};
use std::marker::Model;

// A KRB-ERROR whose one optional field is `e-data` (RFC 4120, section 5.9.1), with borrowed names of realm and service. Its model
// is the whole message.
#[derive(Drop)]
struct LentError<'a> {
    pvno: ExplicitContextTag0<IntegerAsn1>,
    msg_type: ExplicitContextTag1<IntegerAsn1>,
    stime: ExplicitContextTag4<KerberosTime>,
    susec: ExplicitContextTag5<Microseconds>,
    error_code: ExplicitContextTag6<u32>,
    realm: ExplicitContextTag9<Lent<'a, Realm>>,
    sname: ExplicitContextTag10<Lent<'a, PrincipalName>>,
    e_data: Optional<Option<ExplicitContextTag12<OctetStringAsn1>>>,
}

impl<'a> Model for LentError<'a> {
    ghost use Rattle.std.specs.Prelude.{None};
    ghost use Rattle.krb_messages.specs.declared.messages.krb_error.KrbErrorInner.{KrbErrorInner};

    ghost Value = { KrbErrorInner };

    ghost view = { λ e. record {
      pvno = e.pvno;
      msg_type = e.msg_type;
      ctime = record { 0 = None };
      cusec = record { 0 = None };
      stime = e.stime;
      susec = e.susec;
      error_code = e.error_code;
      crealm = record { 0 = None };
      cname = record { 0 = None };
      realm = record { 0 = e.realm.0 };
      sname = record { 0 = e.sname.0 };
      e_text = record { 0 = None };
      e_data = e.e_data;
    } };
}

impl<'a> Serialize for LentError<'a> {
    ghost use Rattle.krb_messages.specs.MessageTrees.{krb_error_inner_tree, krb_error_inner-injective};
    ghost use Rattle.asn1_der.specs.Firsts.{only};
    ghost use Rattle.krb_messages.specs.contracts.messages.krb_error.KrbErrorInnerTagged.TheImpl as krb_error_impl;

    ghost tree = { krb_error_inner_tree };

    ghost firsts = { only sequence_octet };

    ghost begins = { λ value. krb_error_impl.ghosts.row_laws.begins sequence_octet (krb_error_impl.ghosts.row_of value) };

    ghost injective = { krb_error_inner-injective };

    fn serialize<W: Sink>(&self, to: &mut Serializer<W>) -> Result<usize, Asn1DerError> {
        let fields = fields_of![self;
            pvno, msg_type, stime, susec, error_code, realm, sname, e_data
        ];
        to.list(SEQUENCE, &fields)
    }
}

/// Encodes the KRB-ERROR with this code and e-data, at a moment, about a service (RFC 4120, section 5.9.1).
pub(crate) fn error_message(
    alloc: Global,
    realm: &GeneralStringAsn1,
    moment: Moment,
    service: &PrincipalName,
    kdc_error: KdcError,
) -> Result<Vec<u8>, AllocError>
    ensures { IfOk result (λ bytes. (time : GeneralizedTime) × IsSecondOf moment time
        × (bytes.items ≡ error_bytes realm.now time (moment % 1000000) service.now kdc_error.code (option_map (λ bytes. bytes.items) kdc_error.e_data))) }
{
    let time = moment.second();
    let microseconds = moment.microsecond();
    let version = IntegerAsn1::from_u64(alloc, u64::from(KERBEROS_VERSION))?;
    let kind = IntegerAsn1::from_u64(alloc, u64::from(KRB_ERROR_MSG_TYPE))?;
    let susec = IntegerAsn1::from_u64(alloc, microseconds as u64)?;
    let error = LentError {
        pvno: ExplicitContextTag(version),
        msg_type: ExplicitContextTag(kind),
        stime: ExplicitContextTag(GeneralizedTimeAsn1(time)),
        susec: ExplicitContextTag(susec),
        error_code: ExplicitContextTag(kdc_error.code),
        realm: ExplicitContextTag(Lent::new(realm)),
        sname: ExplicitContextTag(Lent::new(service)),
        e_data: Optional(data_of(kdc_error.e_data)),
    };
    let bytes = tagged_encoding::<LentError<'_>, KRB_ERROR_MSG_TYPE>(alloc, error)?;
    Ok(bytes)
}

// `e-data` as a field of the message.
fn data_of(e_data: Option<Vec<u8>>) -> Option<ExplicitContextTag12<OctetStringAsn1>>
    ensures { result ≡ option_map (λ bytes. record { 0 = bytes }) (option_map (λ bytes. bytes.items) e_data) }
{
    match e_data {
        Some(bytes) => Some(ExplicitContextTag(OctetStringAsn1::from(bytes))),
        None => None,
    }
}

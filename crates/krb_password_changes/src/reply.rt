//! The reply to a request.
ghost use Rattle.std.specs.Prelude.{◌≡◌, ◌%◌, IfOk, pos};
ghost use Rattle.std.specs.Option.{option_map};
ghost use Rattle.asn1_der.specs.Tree.{der};
ghost use Rattle.asn1_leaves.specs.declared.date.GeneralizedTime.{GeneralizedTime};
ghost use Rattle.krb_crypto.specs.Suites.{cipher_confounder_size};
ghost use Rattle.krb_messages.specs.Messages.{krb_error_tree};
ghost use Rattle.krb_time.specs.SecondOf.{IsSecondOf};
ghost use Rattle.krb_password_changes.specs.Privates.{enc_krb_priv_part_tree, krb_priv_tree};
ghost use Rattle.krb_password_changes.specs.Replies.{AreEnoughForChange, IsErrorReply, IsPrivateFrame, IsPrivateOf, IsReply, code_of, error_of, krb_priv_of, private_confounder, reply_part, result_of};

use crate::change::Target;
use crate::judge::Granted;
use crate::messages::{FrameRefusal, ResultCode, Version, frame_bytes, result_bytes};
use crate::private::private_key;
use crate::refusal::ChangeRefusal;
use krb_constants::error_codes::KRB_ERR_GENERIC;
use krb_constants::key_usages;
use krb_constants::types::{KERBEROS_VERSION, KRB_ERROR_MSG_TYPE, KRB_PRIV};
use krb_crypto::Key;
use krb_messages::data_types::{EncryptedData, HostAddress};
use krb_messages::messages::{KrbError, KrbErrorInner};
use krb_service::Admission;
use krb_tickets::{confounder_at, key_of, sealed_data};
use krb_time::Moment;
use microsoft_messages::{EncKrbPrivPart, EncKrbPrivPartInner, KrbPriv, KrbPrivInner};
use picky_asn1::date::GeneralizedTime;
use picky_asn1::wrapper::{GeneralizedTimeAsn1, IntegerAsn1, OctetStringAsn1};
use picky_asn1_der::{ApplicationTag, ExplicitContextTag, LentFields, Optional, both, encoding_of};
use std::alloc::{AllocError, Global};

// Where the confounder of the KRB-PRIV begins in the random octets: after that of the AP-REP.
const PRIVATE_CONFOUNDER: usize = 16;

/// The result code of an outcome.
pub fn code_of(outcome: &Result<Granted, ChangeRefusal>) -> ResultCode
    ensures { result ≡ code_of outcome.now }
{
    match outcome {
        Ok(_) => ResultCode::Success,
        Err(ChangeRefusal::Refused(code)) => *code,
        Err(ChangeRefusal::Memory) => ResultCode::HardError,
    }
}

/// Makes the reply to a request that was admitted: its AP-REP, and a KRB-PRIV with a result code and a text. It is encrypted under the key of
/// the request. Where that is of no suite, the reply is a KRB-ERROR. `words`: random octets, of which the first 32 count; the AP-REP took 16.
pub fn reply_to_admitted(
    alloc: Global,
    service: &Target<'_>,
    moment: Moment,
    admission: &Admission,
    code: ResultCode,
    text: &str,
    address: &HostAddress,
    words: &[u8],
) -> Result<Vec<u8>, FrameRefusal>
    requires { AreEnoughForChange words.now }
    ensures { IfOk result (λ message. IsReply service.now moment admission.now (result_of code text.now) address.now words.now message.items) }
{
    let octets = result_bytes(alloc, code, text)?;
    let Some(key) = key_of(private_key(admission)) else {
        let message = error_reply(alloc, service, moment, &octets)?;
        return Ok(message);
    };
    let Some(ap_rep) = ap_rep_in(admission) else {
        let message = error_reply(alloc, service, moment, &octets)?;
        return Ok(message);
    };
    let message = private_reply(alloc, &key, ap_rep, &octets, address, words)?;
    Ok(message)
}

/// Makes the reply to a message that is no request, or whose AP-REQ is refused: a KRB-ERROR with a result code and a text.
pub fn reply_to_refused(
    alloc: Global,
    service: &Target<'_>,
    moment: Moment,
    code: ResultCode,
    text: &str,
) -> Result<Vec<u8>, FrameRefusal>
    ensures { IfOk result (λ message. IsErrorReply service.now moment (result_of code text.now) message.items) }
{
    let octets = result_bytes(alloc, code, text)?;
    let message = error_reply(alloc, service, moment, &octets)?;
    Ok(message)
}

// The AP-REP of an admission, if it has one.
fn ap_rep_in(admission: &Admission) -> Option<&[u8]>
    ensures { option_map (λ octets. octets.now) result ≡ admission.now.reply }
{
    match &admission.reply {
        Some(reply) => Some(reply.as_slice()),
        None => None,
    }
}

// The frame of a KRB-ERROR with this e-data.
fn error_reply(
    alloc: Global,
    service: &Target<'_>,
    moment: Moment,
    octets: &[u8],
) -> Result<Vec<u8>, FrameRefusal>
    ensures { IfOk result (λ message. IsErrorReply service.now moment octets.now message.items) }
{
    let krb_error = error_bytes(alloc, service, moment, octets)?;
    let message = frame_bytes(alloc, Version::ChangePassword, &[], &krb_error)?;
    Ok(message)
}

// The frame of an AP-REP and of the KRB-PRIV with these data, encrypted under a key.
fn private_reply(
    alloc: Global,
    key: &Key,
    ap_rep: &[u8],
    octets: &[u8],
    address: &HostAddress,
    words: &[u8],
) -> Result<Vec<u8>, FrameRefusal>
    requires { AreEnoughForChange words.now }
    ensures { IfOk result (λ message. IsPrivateFrame key.now.suite key.now.bytes ap_rep.now octets.now address.now words.now message.items) }
{
    let krb_priv = private_bytes(alloc, key, octets, address, words)?;
    let message = frame_bytes(alloc, Version::ChangePassword, ap_rep, &krb_priv)?;
    Ok(message)
}

// The encoding of the KRB-PRIV with these data, encrypted under a key.
fn private_bytes(
    alloc: Global,
    key: &Key,
    octets: &[u8],
    address: &HostAddress,
    words: &[u8],
) -> Result<Vec<u8>, AllocError>
    requires { AreEnoughForChange words.now }
    ensures { IfOk result (λ bytes. IsPrivateOf key.now.suite key.now.bytes (private_confounder (cipher_confounder_size key.now.suite) words.now) (reply_part octets.now address.now) bytes.items) }
{
    let plain = part_bytes(alloc, octets, address)?;
    let confounder = confounder_at(key.suite(), words, PRIVATE_CONFOUNDER);
    let part = sealed_data(
        alloc,
        key,
        None,
        key_usages::KRB_PRIV_ENC_PART,
        confounder,
        &plain,
    )?;
    let bytes = message_bytes(alloc, part)?;
    Ok(bytes)
}

// The encoding of the part of the KRB-PRIV.
fn part_bytes(alloc: Global, octets: &[u8], address: &HostAddress) -> Result<Vec<u8>, AllocError>
    ensures { IfOk result (λ bytes. bytes.items ≡ der (enc_krb_priv_part_tree (reply_part octets.now address.now))) }
{
    let number = IntegerAsn1::from_u64(alloc, 0);
    let user_data = OctetStringAsn1::new(alloc, octets);
    let (number, (user_data, address)) = both(number, both(user_data, address_copy(address)))?;
    let part: EncKrbPrivPart = ApplicationTag(EncKrbPrivPartInner {
        user_data: ExplicitContextTag(user_data),
        timestamp: Optional(None),
        usec: Optional(None),
        seq_number: Optional(Some(ExplicitContextTag(number))),
        s_address: ExplicitContextTag(address),
        r_address: Optional(None),
    });
    encoding_of(alloc, part)
}

// Copies an address.
fn address_copy(address: &HostAddress) -> Result<HostAddress, AllocError>
    ensures { IfOk result (λ copy. copy ≡ address.now) }
{
    let (addr_type, octets) = both(address.addr_type.0.clone(), address.address.0.clone())?;
    Ok(HostAddress {
        addr_type: ExplicitContextTag(addr_type),
        address: ExplicitContextTag(octets),
    })
}

// The encoding of the KRB-PRIV, with its encrypted part.
fn message_bytes(alloc: Global, part: EncryptedData) -> Result<Vec<u8>, AllocError>
    ensures { IfOk result (λ bytes. bytes.items ≡ der (krb_priv_tree (krb_priv_of part))) }
{
    let version = IntegerAsn1::from_u64(alloc, u64::from(KERBEROS_VERSION));
    let kind = IntegerAsn1::from_u64(alloc, u64::from(KRB_PRIV));
    let (part, (version, kind)) = both(Ok(part), both(version, kind))?;
    let message: KrbPriv = ApplicationTag(KrbPrivInner {
        pvno: ExplicitContextTag(version),
        msg_type: ExplicitContextTag(kind),
        enc_part: ExplicitContextTag(part),
    });
    encoding_of(alloc, message)
}

// The encoding of the KRB-ERROR of a service at a moment, with this e-data.
fn error_bytes(
    alloc: Global,
    service: &Target<'_>,
    moment: Moment,
    octets: &[u8],
) -> Result<Vec<u8>, AllocError>
    ensures { IfOk result (λ bytes. (time : GeneralizedTime) × IsSecondOf moment time
        × (bytes.items ≡ der (krb_error_tree (error_of service.now time (moment % 1000000) octets.now)))) }
{
    let time = moment.second();
    let microseconds = moment.microsecond();
    let bytes = error_at(alloc, service, time, microseconds, octets)?;
    Ok(bytes)
}

// The encoding of the KRB-ERROR of a service at these microseconds of a second, with this e-data.
fn error_at(
    alloc: Global,
    service: &Target<'_>,
    time: GeneralizedTime,
    microseconds: u32,
    octets: &[u8],
) -> Result<Vec<u8>, AllocError>
    ensures { IfOk result (λ bytes. bytes.items ≡ der (krb_error_tree (error_of service.now time microseconds octets.now))) }
{
    let (version, kind) = error_numbers(alloc)?;
    let susec = IntegerAsn1::from_u64(alloc, u64::from(microseconds))?;
    let (realm, (name, ())) = (service.realm, (service.name, ())).copied()?;
    let e_data = OctetStringAsn1::new(alloc, octets)?;
    let error: KrbError = ApplicationTag(KrbErrorInner {
        pvno: ExplicitContextTag(version),
        msg_type: ExplicitContextTag(kind),
        ctime: Optional(None),
        cusec: Optional(None),
        stime: ExplicitContextTag(GeneralizedTimeAsn1(time)),
        susec: ExplicitContextTag(susec),
        error_code: ExplicitContextTag(KRB_ERR_GENERIC),
        crealm: Optional(None),
        cname: Optional(None),
        realm: ExplicitContextTag(realm),
        sname: ExplicitContextTag(name),
        e_text: Optional(None),
        e_data: Optional(Some(ExplicitContextTag(e_data))),
    });
    encoding_of(alloc, error)
}

// The pvno and the msg-type of a KRB-ERROR.
fn error_numbers(alloc: Global) -> Result<(IntegerAsn1, IntegerAsn1), AllocError>
    ensures { IfOk result (λ numbers. (numbers.0 ≡ pos KERBEROS_VERSION) × (numbers.1 ≡ pos KRB_ERROR_MSG_TYPE)) }
{
    let version = IntegerAsn1::from_u64(alloc, u64::from(KERBEROS_VERSION));
    let kind = IntegerAsn1::from_u64(alloc, u64::from(KRB_ERROR_MSG_TYPE));
    both(version, kind)
}

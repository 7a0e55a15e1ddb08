//! Tokens, by the names of their types.
use crate::{first_of, told_as};
use picky_asn1_der::{FromDer, Serialize, to_vec};
use picky_krb::gss_api::{
    ApplicationTag0, GssApiNegInit, IAKerbProxyMessage, KrbMessage, MechType, MechTypeList,
    MicToken, NegTokenInit, NegTokenTarg, NegTokenTarg1, TokenSequence, WrapToken,
};
use picky_krb::messages::{AsReq, IAKerbHeader, TgtRep};
use std::alloc::Global;
use test_support::{Answer, Recorded, are_wanted, is_read_told, is_refused};

/// Whether a token of such a type is read and written as expected; none for any other type.
pub fn agrees(alloc: Global, recorded: &Recorded<'_>) -> Option<Answer> {
    first_of(&[
        told_as::<ApplicationTag0<GssApiNegInit>>(
            alloc,
            recorded,
            "ApplicationTag0<GssApiNegInit>",
        ),
        told_as::<ApplicationTag0<IAKerbProxyMessage<AsReq>>>(
            alloc,
            recorded,
            "ApplicationTag0<IAKerbProxyMessage<AsReq>>",
        ),
        told_as::<ApplicationTag0<KrbMessage<TgtRep>>>(
            alloc,
            recorded,
            "ApplicationTag0<KrbMessage<TgtRep>>",
        ),
        told_as::<GssApiNegInit>(alloc, recorded, "GssApiNegInit"),
        told_as::<MechType>(alloc, recorded, "MechType"),
        told_as::<MechTypeList>(alloc, recorded, "MechTypeList"),
        told_as::<NegTokenInit>(alloc, recorded, "NegTokenInit"),
        told_as::<NegTokenTarg>(alloc, recorded, "NegTokenTarg"),
        told_as::<NegTokenTarg1>(alloc, recorded, "NegTokenTarg1"),
        other(alloc, recorded),
    ])
}

/// The same of tokens that are read and written in a way of their own.
fn other(alloc: Global, recorded: &Recorded<'_>) -> Option<Answer> {
    match recorded.type_name {
        "IAKerbHeader" => Some(ia_kerb_header(alloc, recorded)),
        "IAKerbProxyMessage<AsReq>" => Some(proxied_as_req(alloc, recorded)),
        "IAKerbProxyMessage<AsReq>::to_sequence" => Some(proxied_sequence(alloc, recorded)),
        "KrbMessage<TgtRep>" => Some(krb_message(alloc, recorded)),
        "KrbMessage<TgtRep>::to_sequence" => Some(message_sequence(alloc, recorded)),
        "MicToken" => Some(Ok(is_mic(alloc, recorded))),
        "WrapToken" => Some(Ok(is_wrap(alloc, recorded))),
        _ => None,
    }
}

fn ia_kerb_header(alloc: Global, recorded: &Recorded<'_>) -> Answer {
    is_read_told::<IAKerbHeader>(alloc, recorded)
}

fn proxied_as_req(alloc: Global, recorded: &Recorded<'_>) -> Answer {
    Ok(is_proxied::<AsReq>(alloc, recorded))
}

fn krb_message(alloc: Global, recorded: &Recorded<'_>) -> Answer {
    Ok(is_message::<TgtRep>(alloc, recorded))
}

fn proxied_sequence(alloc: Global, recorded: &Recorded<'_>) -> Answer {
    Ok(is_proxied_sequence::<AsReq>(alloc, recorded))
}

fn message_sequence(alloc: Global, recorded: &Recorded<'_>) -> Answer {
    Ok(is_message_sequence::<TgtRep>(alloc, recorded))
}

fn is_message<T: FromDer + Serialize>(alloc: Global, recorded: &Recorded<'_>) -> bool {
    let Ok(token) = KrbMessage::<T>::decode_application_krb_message(alloc, &recorded.bytes) else {
        return is_refused(recorded);
    };
    let mut written = Vec::new(alloc);
    let done = token.0.encode_application_krb_message(alloc, &mut written);
    done.is_ok() && are_wanted(&written, recorded)
}

fn is_proxied<T: FromDer + Serialize>(alloc: Global, recorded: &Recorded<'_>) -> bool {
    let read = IAKerbProxyMessage::<T>::decode_application_iakerb_proxy_message(
        alloc,
        &recorded.bytes,
    );
    let Ok(token) = read else {
        return is_refused(recorded);
    };
    let mut written = Vec::new(alloc);
    let done = token
        .0
        .encode_application_iakerb_proxy_message(alloc, &mut written);
    done.is_ok() && are_wanted(&written, recorded)
}

fn is_message_sequence<T: FromDer + Serialize>(alloc: Global, recorded: &Recorded<'_>) -> bool {
    let Ok(token) = KrbMessage::<T>::decode_application_krb_message(alloc, &recorded.bytes) else {
        return false;
    };
    let Ok(sequence) = token.0.to_sequence(alloc) else {
        return false;
    };
    is_sequence(alloc, sequence, recorded)
}

fn is_proxied_sequence<T: FromDer + Serialize>(alloc: Global, recorded: &Recorded<'_>) -> bool {
    let read = IAKerbProxyMessage::<T>::decode_application_iakerb_proxy_message(
        alloc,
        &recorded.bytes,
    );
    let Ok(token) = read else {
        return false;
    };
    let Ok(sequence) = token.0.to_sequence(alloc) else {
        return false;
    };
    is_sequence(alloc, sequence, recorded)
}

/// Whether this is written as expected, and under the tag of a token as the token that was read.
fn is_sequence(alloc: Global, sequence: TokenSequence, recorded: &Recorded<'_>) -> bool {
    let Ok(written) = to_vec(alloc, &sequence) else {
        return false;
    };
    let Ok(token) = to_vec(alloc, &ApplicationTag0(sequence)) else {
        return false;
    };
    are_wanted(&written, recorded) && token.as_slice() == recorded.bytes.as_slice()
}

fn is_mic(alloc: Global, recorded: &Recorded<'_>) -> bool {
    let mut left = recorded.bytes.as_slice();
    let Ok(token) = MicToken::decode(alloc, &mut left) else {
        return is_refused(recorded);
    };
    let mut written = Vec::new(alloc);
    token.encode(&mut written).is_ok() && are_wanted(&written, recorded)
}

fn is_wrap(alloc: Global, recorded: &Recorded<'_>) -> bool {
    let mut left = recorded.bytes.as_slice();
    let Ok(token) = WrapToken::decode(alloc, &mut left) else {
        return is_refused(recorded);
    };
    let mut written = Vec::new(alloc);
    token.encode(&mut written).is_ok() && are_wanted(&written, recorded)
}

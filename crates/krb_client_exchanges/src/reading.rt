//! Reads a KDC's answers, and METHOD-DATA and ETYPE-INFO2 in them.
ghost use Rattle.std.specs.Prelude.{IfOk};
ghost use Rattle.picky_asn1_der.specs.Found.{IsFound};
ghost use Rattle.krb_messages.specs.Messages.{IsAsRep, IsKrbError};
ghost use Rattle.krb_client_exchanges.specs.Messages.{IsEtypeInfo2, IsMethodData};

use krb_messages::data_types::{EtypeInfo2, PaData};
use krb_messages::messages::{AsRep, KdcRep, KrbError, KrbErrorInner};
use picky_asn1::wrapper::Asn1SequenceOf;
use picky_asn1_der::read_whole;
use std::alloc::{AllocError, Global};

/// The error whose one encoding the bytes are, or none (RFC 4120, section 5.9.1).
pub(crate) fn read_error(alloc: Global, bytes: &[u8]) -> Result<Option<KrbErrorInner>, AllocError>
    ensures { IfOk result (IsFound (IsKrbError bytes.now)) }
{
    let read: Option<KrbError> = read_whole(alloc, bytes)?;
    match read {
        Some(error) => Ok(Some(error.0)),
        None => Ok(None),
    }
}

/// The AS reply whose one encoding the bytes are, or none (RFC 4120, section 5.4.2).
pub(crate) fn read_reply(alloc: Global, bytes: &[u8]) -> Result<Option<KdcRep>, AllocError>
    ensures { IfOk result (IsFound (IsAsRep bytes.now)) }
{
    let read: Option<AsRep> = read_whole(alloc, bytes)?;
    match read {
        Some(reply) => Ok(Some(reply.0)),
        None => Ok(None),
    }
}

/// The METHOD-DATA whose one encoding the bytes are, or none (RFC 4120, section 5.2.7).
#[tactic(auto, unfolding(crate::specs::Messages::IsMethodData))]
pub(crate) fn read_method_data(
    alloc: Global,
    bytes: &[u8],
) -> Result<Option<Asn1SequenceOf<PaData>>, AllocError>
    ensures { IfOk result (IsFound (IsMethodData bytes.now)) }
{
    read_whole(alloc, bytes)
}

/// The ETYPE-INFO2 whose one encoding the bytes are, or none (RFC 4120, section 5.2.7.5).
#[tactic(auto, unfolding(crate::specs::Messages::IsEtypeInfo2))]
pub(crate) fn read_etype_info2(
    alloc: Global,
    bytes: &[u8],
) -> Result<Option<EtypeInfo2>, AllocError>
    ensures { IfOk result (IsFound (IsEtypeInfo2 bytes.now)) }
{
    read_whole(alloc, bytes)
}

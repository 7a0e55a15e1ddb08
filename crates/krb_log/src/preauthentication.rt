//! Why the client of an AS request wasn't authenticated.
ghost use Rattle.std.specs.Prelude.{◌≡◌, IfOk};
ghost use Rattle.std.specs.Option.{option_copied};
ghost use Rattle.krb_kdc_exchanges.specs.Requests.{body_of};
ghost use Rattle.krb_messages.specs.Padata.{padata_in};
ghost use Rattle.decision_tables.specs.Tables.{as_made};
ghost use Rattle.pkinit_validation.specs.Diagnoses.{request_fault};
ghost use Rattle.krb_log.specs.Reasons.{moment_reason, pk_as_req_reason, preauthentication_reason, reason_by_timestamp, reason_by_value, timestamp_reason, unopened_reason};
ghost use Rattle.krb_constants.specs.declared.padata_types.TheConstants.{PA_ENC_TIMESTAMP};
ghost use Rattle.krb_messages.specs.Padata.{first_of};

use crate::reason::Reason;
use krb_constants::padata_types::{PA_ENC_TIMESTAMP, PA_PK_AS_REQ};
use krb_kdc_exchanges::{moment_of, open_encrypted_timestamp};
use krb_messages::data_types::{EncryptedData, PaData, PaEncTsEnc};
use krb_messages::messages::KdcReq;
use krb_messages::{first_of, is_number, padata_in};
use krb_realm_accounts::Account;
use picky_asn1_der::read_whole;
use pkinit_validation::{PkAsReqFault, request_fault};
use std::alloc::{AllocError, Global};

/// Returns why a request of the client with this account, if it has one, is refused as KDC_ERR_PREAUTH_FAILED: its PA-PK-AS-REQ counts, and
/// without one its PA-ENC-TIMESTAMP (RFC 4120, section 5.2.7.2; RFC 4556, section 3.2.1).
pub(crate) fn preauthentication_reason(
    alloc: Global,
    client: Option<&Account>,
    request: &KdcReq,
) -> Result<Option<Reason>, AllocError>
    ensures { IfOk result (preauthentication_reason (option_copied client.entry) request.now).gives }
{
    let padata = padata_in(request);
    let Some(value) = first_of(padata, PA_PK_AS_REQ) else {
        return reason_by_timestamp(alloc, client, padata);
    };
    reason_by_certificate(alloc, request, value.as_bytes())
}

// Returns what is wrong with this padata-value of PA-PK-AS-REQ.
fn reason_by_certificate(
    alloc: Global,
    request: &KdcReq,
    value: &[u8],
) -> Result<Option<Reason>, AllocError>
    ensures { IfOk result (as_made pk_as_req_reason (request_fault (body_of request.now) value.now)).gives }
{
    let fault = request_fault(alloc, &request.req_body.0, value)?;
    Ok(pk_as_req_reason(fault))
}

fn pk_as_req_reason(fault: Option<PkAsReqFault>) -> Option<Reason>
    ensures { result ≡ pk_as_req_reason fault }
{
    match fault {
        Some(fault) => Some(Reason::PkAsReq(fault)),
        None => None,
    }
}

// Returns what is wrong with the PA-ENC-TIMESTAMP of these padata, where the client has an account.
fn reason_by_timestamp(
    alloc: Global,
    client: Option<&Account>,
    padata: &[PaData],
) -> Result<Option<Reason>, AllocError>
    ensures { IfOk result (reason_by_timestamp (option_copied client.entry) padata.now).gives }
{
    match client {
        Some(client) => reason_of_client(alloc, client, padata),
        None => Ok(None),
    }
}

// The same for a client with this account.
fn reason_of_client(
    alloc: Global,
    client: &Account,
    padata: &[PaData],
) -> Result<Option<Reason>, AllocError>
    ensures { IfOk result (reason_by_value client.now (first_of PA_ENC_TIMESTAMP padata.now)).gives }
{
    let Some(value) = first_of(padata, PA_ENC_TIMESTAMP) else {
        return Ok(None);
    };
    timestamp_reason(alloc, client, value.as_bytes())
}

// Returns what is wrong with a PA-ENC-TIMESTAMP of a client with this account.
fn timestamp_reason(
    alloc: Global,
    client: &Account,
    value: &[u8],
) -> Result<Option<Reason>, AllocError>
    ensures { IfOk result (timestamp_reason client.now value.now).gives }
{
    let Some(timestamp) = open_encrypted_timestamp(alloc, client, value)? else {
        let reason = unopened_reason(alloc, client, value)?;
        return Ok(Some(reason));
    };
    let reason = moment_reason(&timestamp);
    drop(timestamp);
    Ok(reason)
}

// Returns what is wrong with a timestamp that opens.
fn moment_reason(timestamp: &PaEncTsEnc) -> Option<Reason>
    ensures { result ≡ moment_reason timestamp.now }
{
    match moment_of(timestamp) {
        Some(_) => None,
        None => Some(Reason::Pausec),
    }
}

// Returns why a PA-ENC-TIMESTAMP doesn't open.
fn unopened_reason(alloc: Global, client: &Account, value: &[u8]) -> Result<Reason, AllocError>
    ensures { IfOk result (unopened_reason client.now value.now).gives }
{
    let read: Option<EncryptedData> = read_whole(alloc, value)?;
    let Some(sealed) = read else {
        return Ok(Reason::Timestamp);
    };
    let is_of_suite = is_number(&sealed.etype.0, u32::from(&client.suite()));
    drop(sealed);
    if is_of_suite {
        return Ok(Reason::TimestampKey);
    }
    Ok(Reason::TimestampEtype)
}

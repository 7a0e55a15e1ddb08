//! The client of the ticket that a TGS request comes with.
ghost use Rattle.std.specs.Prelude.{◌≡◌, IfErr, IfOk, OnOk};
ghost use Rattle.krb_realm_accounts.specs.Accounts.{Look};
ghost use Rattle.krb_ap_requests.specs.ApTable.{enc_part_in};
ghost use Rattle.krb_kdc_exchanges.specs.ChosenKeys.{OpensTicket};
ghost use Rattle.picky_asn1_der.specs.Found.{IsFound};
ghost use Rattle.krb_messages.specs.Padata.{padata_in};
ghost use Rattle.krb_kdc.specs.Failing.{FailsClient};
ghost use Rattle.krb_kdc.specs.Faults.{MayFail};
ghost use Rattle.krb_kdc.specs.Tickets.{IsClientFetched, IsTgsReqTicket};

use crate::fault::LookupFault;
use crate::few::fetch;
use crate::lookup::Lookup;
use krb_ap_requests::{enc_part_in, open_ticket, read_ap_req};
use krb_constants::padata_types::PA_TGS_REQ;
use krb_kdc_exchanges::chosen_key;
use krb_messages::data_types::{EncTicketPartInner, PaData};
use krb_messages::messages::{ApReqInner, KdcReq};
use krb_messages::{Refusal, first_of, padata_in};
use krb_realm_accounts::{Account, Accounts};
use picky_asn1::wrapper::GeneralStringAsn1;
use std::alloc::{AllocError, Global};

/// Looks up the client of the ticket in a request's PA-TGS-REQ, if the key of this name's account opens it. It returns the ticket's part.
pub(crate) fn fetch_client<L: Lookup>(
    alloc: Global,
    lookup: &L,
    few: &mut Accounts,
    granting: &[GeneralStringAsn1],
    request: &KdcReq,
) -> Result<Option<EncTicketPartInner>, LookupFault>
    ensures few { (all : Look) → L.holds lookup.now all → OnOk result (IsClientFetched all granting.now (padata_in request.now) few.old few.new) }
    ensures ticket { IfOk result (IsFound (IsTgsReqTicket few.old granting.now (padata_in request.now))) }
    ensures fault { IfErr result (MayFail (FailsClient (L.may_fail lookup.now) few.old granting.now (padata_in request.now))) }
{
    let Some(part) = part_by(alloc, few, granting, padata_in(request))? else {
        return Ok(None);
    };
    match fetch(alloc, lookup, few, part.cname.0.name_string.0.as_slice()) {
        Ok(()) => Ok(Some(part)),
        Err(fault) => {
            drop(part);
            Err(fault)
        }
    }
}

// Returns the part of the ticket in the PA-TGS-REQ of these padata, by the key of this name's account, or none.
fn part_by(
    alloc: Global,
    few: &Accounts,
    granting: &[GeneralStringAsn1],
    padata: &[PaData],
) -> Result<Option<EncTicketPartInner>, AllocError>
    ensures { IfOk result (IsFound (IsTgsReqTicket few.now granting.now padata.now)) }
{
    let Some(account) = few.get(granting) else {
        return Ok(None);
    };
    let Some(value) = first_of(padata, PA_TGS_REQ) else {
        return Ok(None);
    };
    let Some(ap_req) = read_ap_req(alloc, value.as_bytes())? else {
        return Ok(None);
    };
    let part = presented_part(alloc, account, &ap_req);
    drop(ap_req);
    part
}

/// Returns the part of the ticket of an AP request, or none if the account's key of its kvno doesn't open it.
pub fn presented_part(
    alloc: Global,
    account: &Account,
    ap_req: &ApReqInner,
) -> Result<Option<EncTicketPartInner>, AllocError>
    ensures { IfOk result (IsFound (OpensTicket account.now (enc_part_in ap_req.now))) }
{
    let sealed = enc_part_in(ap_req);
    let own = chosen_key(sealed, account);
    match open_ticket(alloc, own.key, sealed) {
        Ok(part) => Ok(Some(part)),
        Err(Refusal::Krb(_)) => Ok(None),
        Err(Refusal::Memory) => Err(AllocError),
    }
}

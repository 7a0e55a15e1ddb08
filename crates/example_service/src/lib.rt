//! A service of one's own, over the rules and the replay cache of `krb_service`.
//!
//! Whoever presents a fresh AP-REQ for the service is given by name, and each request is admitted once.
#![tactic(auto)]

ghost use Rattle.std.specs.Prelude.{◌≤◌, length};
ghost use Rattle.example_service.specs.Client.{IsClient};

use krb_ap_requests::AdmitRefusal;
use krb_messages::data_types::PrincipalName;
use krb_service::{Admission, Service};
use krb_time::Moment;
use std::alloc::Global;

/// The name of the client that presents this AP-REQ, if the service admits it at this moment.
pub fn client_of(
    service: &mut Service,
    alloc: Global,
    request: &[u8],
    moment: Moment,
    words: &[u8],
) -> Result<PrincipalName, AdmitRefusal>
    requires { 16 ≤ length words.now }
    ensures { IsClient service.old request.now moment words.now result service.new }
{
    let Admission { client, .. } = service.admit(alloc, request, moment, words)?;
    Ok(client)
}

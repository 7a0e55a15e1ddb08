//! The PAC of a ticket by which a client was admitted (MS-PAC, sections 2.7 and 2.8.1).
ghost use Rattle.std.specs.Prelude.{◌≡◌, [], unwrap_or};
ghost use Rattle.std.specs.Option.{option_map};
ghost use Rattle.asn1_leaves.specs.GeneralizedTime.{seconds_of};
ghost use Rattle.krb_messages.specs.Names.{components};
ghost use Rattle.microsoft_messages.specs.declared.pac.kind.PacBufferType.TheVariants.{KerbValidationInfo, ClientInfo, UpnDnsInfo as UpnDns, AttributesInfo, Requestor};
ghost use Rattle.krb_pac.specs.Attributes.{pac_attributes};
ghost use Rattle.krb_pac.specs.ClientInfo.{client_info};
ghost use Rattle.krb_pac.specs.LogonInfo.{logon_info};
ghost use Rattle.krb_pac.specs.Reading.{Gives};
ghost use Rattle.krb_pac.specs.Sids.{sid_of_all};
ghost use Rattle.krb_pac.specs.Table.{read_in};
ghost use Rattle.krb_pac.specs.Upn.{upn_dns_info};
ghost use Rattle.krb_pac.specs.Verified.{client_checked, judged, Verifies};

use crate::attributes::PacAttributes;
use crate::authorization_data::find_pac;
use crate::client_info::{PacClientInfo, judge_client};
use crate::error::PacFault;
use crate::logon_info::LogonInfo;
use crate::requestor::PacRequestor;
use crate::signature::judge_signature;
use crate::table::{content_in, content_of, needed_row, rows_of};
use crate::upn::UpnDnsInfo;
use krb_crypto::Key;
use krb_messages::data_types::{AuthorizationData, AuthorizationDataInner, PrincipalName};
use krb_service::Admission;
use microsoft_messages::PacBufferType;
use picky_asn1::date::GeneralizedTime;
use std::alloc::Global;
use std::marker::Model;

/// A PAC whose server signature and client were verified. A contract sees its octets.
#[derive(Debug, Drop)]
pub struct VerifiedPac {
    octets: Vec<u8>,
}

impl Model for VerifiedPac {
    ghost use Rattle.std.specs.Prelude.{ℕ, List};

    ghost Value = { List ℕ };

    ghost view = { λ pac. pac.octets.items };
}

// Judges what the PAC states of its client.
#[tactic(auto, unfolding(crate::specs::Verified::client_checked))]
fn check_client(
    alloc: Global,
    client: &PrincipalName,
    authtime: GeneralizedTime,
    bytes: &[u8],
) -> Result<(), PacFault>
    ensures { Gives (λ unit. unit) result (client_checked (components client.now) (seconds_of authtime) bytes.now) }
{
    let rows = rows_of(alloc, bytes)?;
    let row = needed_row(PacBufferType::ClientInfo, rows.as_slice())?;
    let content = content_of(bytes, row)?;
    let info = PacClientInfo::read(alloc, content)?;
    judge_client(alloc, client, authtime, &info)
}

// Judges that the PAC is one of this client at this authtime, signed under this key.
#[tactic(auto, unfolding(crate::specs::Verified::judged))]
fn judge(
    alloc: Global,
    key: &Key,
    client: &PrincipalName,
    authtime: GeneralizedTime,
    octets: Vec<u8>,
) -> Result<VerifiedPac, PacFault>
    ensures { Gives (λ pac. pac) result (judged key.now (components client.now) (seconds_of authtime) octets.items) }
{
    let rows = rows_of(alloc, octets.as_slice())?;
    judge_signature(alloc, key, rows.as_slice(), octets.as_slice())?;
    check_client(alloc, client, authtime, octets.as_slice())?;
    Ok(VerifiedPac { octets })
}

/// Returns the PAC that elements of authorization data have. It has to be one of this client at this authtime, and its server signature
/// one under this key. The first refusal is that of the elements, then of the signature, and then of the client.
pub fn verified_elements(
    alloc: Global,
    elements: &[AuthorizationDataInner],
    key: &Key,
    client: &PrincipalName,
    authtime: GeneralizedTime,
) -> Result<VerifiedPac, PacFault>
    ensures { Verifies elements.now key.now client.now authtime result }
{
    let octets = find_pac(alloc, elements)?;
    judge(alloc, key, client, authtime, octets)
}

// Returns the elements of a ticket's authorization data, if it has any.
fn elements_of(data: &Option<AuthorizationData>) -> &[AuthorizationDataInner]
    ensures { result.now ≡ unwrap_or data.now [] }
{
    match data {
        Some(elements) => elements.as_slice(),
        None => &[],
    }
}

/// Returns the PAC of the ticket by which a client was admitted. `key` is the service's key, under which the ticket was encrypted.
///
/// It has the server signature of the key, and names this client at this authtime. The signature of the KDC's own key isn't judged.
pub fn verified_pac(
    alloc: Global,
    admission: &Admission,
    key: &Key,
) -> Result<VerifiedPac, PacFault>
    ensures { Verifies (unwrap_or admission.now.authorization_data []) key.now admission.now.client admission.now.authtime result }
{
    let elements = elements_of(&admission.authorization_data);
    verified_elements(alloc, elements, key, &admission.client, admission.authtime)
}

impl VerifiedPac {
    /// The octets.
    pub fn as_bytes(&self) -> &[u8]
        ensures { result.now ≡ self.now }
    {
        self.octets.as_slice()
    }

    /// Reads the logon information, if the PAC has it.
    pub fn logon_info(&self, alloc: Global) -> Result<Option<LogonInfo>, PacFault>
        ensures { Gives (λ info. info) result (read_in logon_info KerbValidationInfo self.now) }
    {
        let content = content_in(
            alloc,
            self.octets.as_slice(),
            PacBufferType::KerbValidationInfo,
        )?;
        let Some(octets) = content else {
            return Ok(None);
        };
        let info = LogonInfo::read(alloc, octets)?;
        Ok(Some(info))
    }

    /// Reads the client's names, if the PAC has them.
    pub fn upn_dns_info(&self, alloc: Global) -> Result<Option<UpnDnsInfo>, PacFault>
        ensures { Gives (λ info. info) result (read_in upn_dns_info UpnDns self.now) }
    {
        let content = content_in(alloc, self.octets.as_slice(), PacBufferType::UpnDnsInfo)?;
        let Some(octets) = content else {
            return Ok(None);
        };
        let info = UpnDnsInfo::read(alloc, octets)?;
        Ok(Some(info))
    }

    /// Reads who asked for the ticket, if the PAC states it.
    pub fn requestor(&self, alloc: Global) -> Result<Option<PacRequestor>, PacFault>
        ensures { Gives (λ found. option_map (λ requestor. requestor.sid) found) result (read_in sid_of_all Requestor self.now) }
    {
        let content = content_in(alloc, self.octets.as_slice(), PacBufferType::Requestor)?;
        let Some(octets) = content else {
            return Ok(None);
        };
        let requestor = PacRequestor::read(alloc, octets)?;
        Ok(Some(requestor))
    }

    /// Reads the attributes, if the PAC has them.
    pub fn attributes(&self, alloc: Global) -> Result<Option<PacAttributes>, PacFault>
        ensures { Gives (λ found. found) result (read_in pac_attributes AttributesInfo self.now) }
    {
        let content = content_in(alloc, self.octets.as_slice(), PacBufferType::AttributesInfo)?;
        let Some(octets) = content else {
            return Ok(None);
        };
        let attributes = PacAttributes::read(octets)?;
        Ok(Some(attributes))
    }

    /// Reads what the PAC states of the ticket's client.
    pub fn client_info(&self, alloc: Global) -> Result<Option<PacClientInfo>, PacFault>
        ensures { Gives (λ found. found) result (read_in client_info ClientInfo self.now) }
    {
        let content = content_in(alloc, self.octets.as_slice(), PacBufferType::ClientInfo)?;
        let Some(octets) = content else {
            return Ok(None);
        };
        let info = PacClientInfo::read(alloc, octets)?;
        Ok(Some(info))
    }
}

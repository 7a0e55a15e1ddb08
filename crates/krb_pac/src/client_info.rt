//! PAC_CLIENT_INFO (MS-PAC, section 2.7).
ghost use Rattle.std.specs.Prelude.{◌≡◌, ◌∷◌, ◌++◌, IfOk};
ghost use Rattle.asn1_leaves.specs.GeneralizedTime.{seconds_of};
ghost use Rattle.krb_messages.specs.Names.{components};
ghost use Rattle.krb_pac.specs.ClientInfo.{client_info, is_second, slashed, client_judged};
ghost use Rattle.krb_pac.specs.Reading.{Gives};

use crate::error::PacFault;
use crate::ndr::u16_le;
use crate::upn::text_of_all;
use byte_streams::u64_le;
use krb_messages::data_types::{KerberosStringAsn1, PrincipalName};
use krb_time::Moment;
use picky_asn1::date::GeneralizedTime;
use std::alloc::{AllocError, Global};
use std::marker::Model;

/// The octets before Name.
const HEAD_SIZE: usize = 10;

/// The units of 100 nanoseconds from 0000-01-01 to 1601-01-01, which are 584,754 days.
pub(crate) const FILE_TIME_EPOCH: u64 = 505_227_456_000_000_000;

/// The character between components of a name.
const SLASH: u16 = 47;

/// PAC_CLIENT_INFO: the client of the ticket, and when it authenticated itself.
#[derive(Debug, Drop)]
pub struct PacClientInfo {
    /// ClientId: the ticket's authtime, in units of 100 nanoseconds from 1601 on.
    pub client_id: u64,
    /// Name: the client's name, in UTF-16.
    pub name: Vec<u16>,
}

impl Model for PacClientInfo {
    ghost use Rattle.krb_pac.specs.ClientInfo.{ClientInfo};

    ghost Value = { ClientInfo };

    ghost view = { λ c. record { client_id = c.client_id; name = c.name.items } };
}

impl PacClientInfo {
    /// Reads the buffer's content.
    #[tactic(auto, unfolding(crate::specs::ClientInfo::client_info))]
    pub fn read(alloc: Global, bytes: &[u8]) -> Result<PacClientInfo, PacFault>
        ensures { Gives (λ info. info) result (client_info bytes.now) }
    {
        if bytes.len() < HEAD_SIZE {
            return Err(PacFault::Short);
        }
        if bytes.len() != HEAD_SIZE + u16_le(bytes, 8) as usize {
            return Err(PacFault::Lengths);
        }
        let name = text_of_all(alloc, &bytes[HEAD_SIZE..])?;
        Ok(PacClientInfo {
            client_id: u64_le(bytes, 0),
            name,
        })
    }
}

// Returns whether a number of units of 100 nanoseconds from 1601 on is that of a second.
#[tactic(auto, unfolding(crate::specs::ClientInfo::is_second))]
fn is_second(file_time: u64, time: GeneralizedTime) -> bool
    ensures { result ≡ is_second file_time (seconds_of time) }
{
    let second = Moment::at(time, 0).micros();
    file_time as u128 + FILE_TIME_EPOCH as u128 == 10 * second as u128
}

// Appends octets, each as a character of UTF-16.
fn put_wide(text: &mut Vec<u16>, octets: &[u8]) -> Result<(), AllocError>
    ensures { IfOk result (λ _. text.new.items ≡ text.old.items ++ octets.now) }
{
    for octet in octets {
        text.push(u16::from(*octet))?;
    }
    Ok(())
}

// Appends a `/` and the octets.
fn put_slashed(text: &mut Vec<u16>, octets: &[u8]) -> Result<(), AllocError>
    ensures { IfOk result (λ _. text.new.items ≡ text.old.items ++ 47 ∷ octets.now) }
{
    text.push(SLASH)?;
    put_wide(text, octets)?;
    Ok(())
}

// Returns each component behind a `/`.
fn slashed(alloc: Global, components: &[KerberosStringAsn1]) -> Result<Vec<u16>, AllocError>
    ensures { IfOk result (λ text. text.items ≡ slashed components.now) }
{
    let mut text = Vec::new(alloc);
    for component in components {
        put_slashed(&mut text, component.as_bytes())?;
    }
    Ok(text)
}

// Returns a `/` and the characters.
fn one_slashed(alloc: Global, name: &[u16]) -> Result<Vec<u16>, AllocError>
    ensures { IfOk result (λ text. text.items ≡ 47 ∷ name.now) }
{
    let mut text = Vec::new(alloc);
    text.push(SLASH)?;
    text.extend_from_slice(name)?;
    Ok(text)
}

/// Judges that PAC_CLIENT_INFO is of the ticket's client at its authtime.
#[tactic(auto, unfolding(crate::specs::ClientInfo::client_judged))]
pub(crate) fn judge_client(
    alloc: Global,
    client: &PrincipalName,
    authtime: GeneralizedTime,
    info: &PacClientInfo,
) -> Result<(), PacFault>
    ensures { Gives (λ unit. unit) result (client_judged (components client.now) (seconds_of authtime) info.now) }
{
    if !is_second(info.client_id, authtime) {
        return Err(PacFault::ClientTime);
    }
    let stated = one_slashed(alloc, info.name.as_slice())?;
    let wanted = slashed(alloc, client.name_string.0.as_slice())?;
    if stated.as_slice() != wanted.as_slice() {
        return Err(PacFault::ClientName);
    }
    Ok(())
}

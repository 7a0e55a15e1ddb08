//! The entry by which a request is judged.
ghost use Rattle.std.specs.Prelude.{◌≡◌, ◌≤◌, length, IfOk};
ghost use Rattle.std.specs.List.{find};
ghost use Rattle.std.specs.Option.{option_map};
ghost use Rattle.krb_time.specs.Skew.{IsWithinDay};
ghost use Rattle.krb_messages.specs.Refusals.{IsJudged};
ghost use Rattle.krb_ap_requests.specs.ApTable.{enc_part_in, presented};
ghost use Rattle.krb_service.specs.ApReply.{HasSessionKey};
ghost use Rattle.krb_service.specs.ChosenEntry.{chosen, has_kvno_of, is_fitting};
ghost use Rattle.krb_service.specs.KeytabService.{ReceivesByKeytab};

use crate::KeytabEntry;
use krb_ap_requests::{AdmitRefusal, Presented, enc_part_in, read_ap_req};
use krb_messages::data_types::EncryptedData;
use krb_messages::messages::ApReqInner;
use krb_messages::{Refusal, is_number};
use krb_time::Moment;
use std::alloc::Global;

/// What bytes present at a moment to the service of the entry that judges them, up to the time that they tell (RFC 4120, section 3.2.3).
/// The skew is in microseconds, a day at most.
pub(crate) fn receive(
    alloc: Global,
    entries: &[KeytabEntry],
    skew: u64,
    moment: Moment,
    message: &[u8],
) -> Result<Presented, AdmitRefusal>
    requires entries { 1 ≤ length entries.now }
    requires skew { IsWithinDay skew }
    ensures received { ReceivesByKeytab entries.now skew moment message.now result }
    ensures keyed { IfOk result HasSessionKey }
{
    let Some(request) = read_ap_req(alloc, message)? else {
        return Err(AdmitRefusal::Unreadable);
    };
    let judged = judge(alloc, entries, skew, moment, &request);
    drop(request);
    Ok(judged?)
}

// Judges a request at a moment by the entry that is chosen for it.
fn judge(
    alloc: Global,
    entries: &[KeytabEntry],
    skew: u64,
    moment: Moment,
    request: &ApReqInner,
) -> Result<Presented, Refusal>
    requires entries { 1 ≤ length entries.now }
    requires skew { IsWithinDay skew }
    ensures { IsJudged (presented (chosen entries.now (enc_part_in request.now)) skew moment request.now).gives result }
{
    chosen(entries, enc_part_in(request)).judge(alloc, skew, moment, request)
}

// Returns the entry by which a request is judged whose ticket has this enc-part: the first that fits it, or else the first of its kvno,
// or else the first.
fn chosen<'a>(entries: &'a [KeytabEntry], encrypted: &EncryptedData) -> &'a KeytabEntry
    requires { 1 ≤ length entries.now }
    ensures { result.now ≡ chosen entries.now encrypted.now }
{
    if let Some(entry) = first_fitting(entries, encrypted) {
        return entry;
    }
    if let Some(entry) = first_of_kvno(entries, encrypted) {
        return entry;
    }
    &entries[0]
}

fn first_fitting<'a>(
    entries: &'a [KeytabEntry],
    encrypted: &EncryptedData,
) -> Option<&'a KeytabEntry>
    ensures { option_map (λ entry. entry.now) result ≡ find (is_fitting encrypted.now) entries.now }
{
    entries.iter().find(|entry| is_fitting(encrypted, entry))
}

fn first_of_kvno<'a>(
    entries: &'a [KeytabEntry],
    encrypted: &EncryptedData,
) -> Option<&'a KeytabEntry>
    ensures { option_map (λ entry. entry.now) result ≡ find (has_kvno_of encrypted.now) entries.now }
{
    entries.iter().find(|entry| has_kvno_of(encrypted, entry))
}

// Whether the entry has the kvno and the etype of a ticket's enc-part.
fn is_fitting(encrypted: &EncryptedData, entry: &KeytabEntry) -> bool
    ensures { result ≡ is_fitting encrypted.now entry.now }
{
    let number = u32::from(&entry.key().suite());
    has_kvno_of(encrypted, entry) && is_number(&encrypted.etype.0, number)
}

// Whether the entry has the kvno of a ticket's enc-part, or that has none.
fn has_kvno_of(encrypted: &EncryptedData, entry: &KeytabEntry) -> bool
    ensures { result ≡ has_kvno_of encrypted.now entry.now }
{
    match &encrypted.kvno.0 {
        Some(tagged) => is_number(&tagged.0, entry.kvno()),
        None => true,
    }
}

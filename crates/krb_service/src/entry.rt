//! Keys of services.
ghost use Rattle.std.specs.Prelude.{◌≡◌, IfOk};
ghost use Rattle.krb_time.specs.Skew.{IsWithinDay};
ghost use Rattle.krb_service.specs.ApReply.{HasSessionKey};
ghost use Rattle.krb_ap_requests.specs.ApTable.{presented};
ghost use Rattle.krb_ap_requests.specs.Received.{Receives};
ghost use Rattle.krb_messages.specs.Refusals.{IsJudged};

use krb_ap_requests::{
    AdmitRefusal, Presented, check_presented, check_recipient, check_ticket, enc_part_in,
    read_ap_req,
};
use krb_crypto::Key;
use krb_messages::Refusal;
use krb_messages::messages::ApReqInner;
use krb_time::Moment;
use picky_asn1::wrapper::GeneralStringAsn1;
use std::alloc::Global;
use std::marker::Model;

/// The key of a service, as a keytab holds it: the service's realm and name, and the key with its suite and kvno. A
/// contract sees these five.
#[derive(Drop)]
pub struct KeytabEntry {
    realm: GeneralStringAsn1,
    components: Vec<GeneralStringAsn1>,
    key: Key,
    kvno: u32,
}

impl Model for KeytabEntry {
    ghost use Rattle.krb_ap_requests.specs.Entry.{EntryRecord};

    ghost Value = { EntryRecord };

    ghost view = { λ e. record {
      realm = e.realm;
      components = e.components.items;
      suite = e.key.suite;
      key = e.key.bytes;
      kvno = e.kvno;
    } };
}

impl KeytabEntry {
    /// The entry of this service, with this key.
    pub fn new(
        realm: GeneralStringAsn1,
        components: Vec<GeneralStringAsn1>,
        key: Key,
        kvno: u32,
    ) -> KeytabEntry
        ensures { result ≡ record { realm = realm; components = components.items; suite = key.suite; key = key.bytes; kvno = kvno } }
    {
        KeytabEntry {
            realm,
            components,
            key,
            kvno,
        }
    }

    /// The service's realm.
    pub fn realm(&self) -> &GeneralStringAsn1
        ensures { result.now ≡ self.now.realm }
    {
        &self.realm
    }

    /// The components of its name.
    pub fn components(&self) -> &[GeneralStringAsn1]
        ensures { result.now ≡ self.now.components }
    {
        self.components.as_slice()
    }

    /// Its key.
    pub fn key(&self) -> &Key
        ensures { result.now ≡ record { suite = self.now.suite; bytes = self.now.key } }
    {
        &self.key
    }

    /// The key's kvno (RFC 4120, section 5.2.9).
    pub fn kvno(&self) -> u32
        ensures { result ≡ self.now.kvno }
    {
        self.kvno
    }

    /// What bytes present to this service at a moment (RFC 4120, section 3.2.3). The skew is in microseconds, a day at most. The
    /// authenticator's time is read, and not compared with the moment.
    pub fn receive(
        &self,
        alloc: Global,
        skew: u64,
        moment: Moment,
        message: &[u8],
    ) -> Result<Presented, AdmitRefusal>
        requires { IsWithinDay skew }
        ensures received { Receives self.now skew moment message.now result }
        ensures keyed { IfOk result HasSessionKey }
    {
        let Some(request) = read_ap_req(alloc, message)? else {
            return Err(AdmitRefusal::Unreadable);
        };
        let judged = self.judge(alloc, skew, moment, &request);
        drop(request);
        Ok(judged?)
    }

    /// What a request presents to this service at a moment (RFC 4120, section 3.2.3). The skew is in microseconds, a day at most. The
    /// authenticator's time is read, and not compared with the moment.
    pub fn judge(
        &self,
        alloc: Global,
        skew: u64,
        moment: Moment,
        request: &ApReqInner,
    ) -> Result<Presented, Refusal>
        requires { IsWithinDay skew }
        ensures { IsJudged (presented self.now skew moment request.now).gives result }
    {
        check_recipient(
            &self.realm,
            self.components.as_slice(),
            self.key.suite(),
            self.kvno,
            request,
        )?;
        let part = check_ticket(alloc, &self.key, skew, moment, enc_part_in(request))?;
        check_presented(alloc, request, part)
    }
}

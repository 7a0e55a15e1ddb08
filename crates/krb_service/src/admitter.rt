//! Services that admit AP requests, whichever keys they have.
ghost use Rattle.std.specs.Prelude.{◌≡◌, ◌≤◌, length};
ghost use Rattle.krb_time.specs.Skew.{IsWithinDay};
ghost use Rattle.krb_service.specs.Admits.{Admits};
ghost use Rattle.krb_service.specs.ApReply.{random_size};
ghost use Rattle.krb_service.specs.KeytabService.{KeytabServiceRecord};

use crate::admission::Admission;
use crate::reply::ReplyFields;
use crate::service::Service;
use krb_ap_requests::AdmitRefusal;
use krb_time::Moment;
use std::alloc::Global;

/// A service that admits each AP request once: of one key (`Service`), or of a keytab's keys (`KeytabService`). A contract sees it as one of
/// a keytab.
pub trait Admitter {
    // The service as one of a keytab: that of one key has its entry alone.
    ghost as_keytab: { Self → KeytabServiceRecord };

    /// The clock skew in microseconds, at most a day.
    fn clock_skew(&self) -> u64
        ensures skew { result ≡ (as_keytab self.now).seen.skew }
        ensures bound { IsWithinDay result };

    /// Admits an AP request at a moment, or refuses it (RFC 4120, section 3.2.3), with these fields in the AP-REP. The greatest moment that
    /// was ever handed in judges it. `words`: random bytes, of which the first 16 count; with a subkey and a number 64.
    fn admit_request(
        &mut self,
        alloc: Global,
        message: &[u8],
        moment: Moment,
        fields: ReplyFields,
        words: &[u8],
    ) -> Result<Admission, AdmitRefusal>
        requires { random_size fields ≤ length words.now }
        ensures { Admits fields (as_keytab self.old) moment message.now words.now result (as_keytab self.new) };
}

impl Admitter for Service {
    ghost use Rattle.krb_service.specs.KeytabService.{keytab_service_of};

    ghost as_keytab = { keytab_service_of };

    fn clock_skew(&self) -> u64 {
        self.seen().skew()
    }

    fn admit_request(
        &mut self,
        alloc: Global,
        message: &[u8],
        moment: Moment,
        fields: ReplyFields,
        words: &[u8],
    ) -> Result<Admission, AdmitRefusal> {
        self.admit_with(alloc, message, moment, fields, words)
    }
}

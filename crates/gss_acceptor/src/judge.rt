//! Judges the admission of a context's client.
ghost use Rattle.std.specs.Prelude.{◌≡◌, ◌≤◌, length};
ghost use Rattle.krb_time.specs.Skew.{IsWithinDay};
ghost use Rattle.gss_acceptor.specs.Accepting.{judged};

use crate::checksum::{InitialChecksum, bound_by, initial_in};
use crate::context::{context_under, end_terms, first_number};
use crate::refusal::AcceptRefusal;
use crate::terms::AcceptorTerms;
use gss_contexts::Context;
use krb_service::Admission;

/// An admission that was judged: the authenticator's checksum, and the context.
#[derive(Drop)]
pub(crate) struct Judged {
    pub(crate) initial: InitialChecksum,
    pub(crate) context: Context,
}

/// Judges an admission: its checksum, the channel bindings, its sequence number, and its key. `words`: random bytes, of which the first 64
/// count.
pub(crate) fn judge(
    terms: &AcceptorTerms,
    skew: u64,
    words: &[u8],
    admission: &Admission,
) -> Result<Judged, AcceptRefusal>
    requires skew { IsWithinDay skew }
    requires enough { 64 ≤ length words.now }
    ensures { result ≡ judged terms.now skew words.now admission.now }
{
    let told = initial_in(&admission.checksum)?;
    let initial = bound_by(&terms.bindings, told)?;
    let number = first_number(&admission.seq_number)?;
    let end = end_terms(terms, skew, words, admission, initial.flags, number);
    let context = context_under(words, admission, end)?;
    Ok(Judged { initial, context })
}

//! Whether the client signed its AuthPack.
ghost use Rattle.krb_messages.specs.Refusals.{IsJudged};
ghost use Rattle.pkinit_validation.specs.PkinitTable.{signed_by_client};
ghost use Rattle.pkinit_validation.specs.Expected.{expected_of};

use crate::{ExpectedSigner, JudgedContent, check_trusted};
use cms_signed_data::SignedContent;
use krb_messages::Refusal;
use std::alloc::Global;
use x509_keys::KeyFunctions;

/// Judges whether the client signed the content.
pub(crate) fn check_signed<K: KeyFunctions>(
    alloc: Global,
    keys: &K,
    expected: &ExpectedSigner<'_>,
    content: &SignedContent<'_>,
) -> Result<(), Refusal>
    ensures { IsJudged (signed_by_client (K.functions keys.now) (expected_of expected.now) content.now).gives result }
{
    let judged = JudgedContent::from(content);
    match check_trusted(alloc, keys, expected, &judged) {
        Ok(()) => Ok(()),
        Err(fault) => Err(Refusal::from(fault)),
    }
}

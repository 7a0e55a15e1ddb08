//! Whether the realm signed a reply.
ghost use Rattle.pkinit_clients.specs.Asked.{asked_of, expected_realm};
ghost use Rattle.pkinit_clients.specs.Faults.{IsTakenAs};
ghost use Rattle.pkinit_clients.specs.Replies.{signed_by};
ghost use Rattle.pkinit_validation.specs.Expected.{expected_of};

use crate::asked::PkinitAsked;
use crate::fault::ReplyFault;
use cms_signed_data::SignedContent;
use krb_messages::krbtgt_of;
use pkinit_validation::{ExpectedSigner, JudgedContent, check_trusted};
use std::alloc::Global;
use x509_keys::KeyFunctions;

/// Judges whether the realm's ticket-granting service signed the content.
pub(crate) fn check_signed<K: KeyFunctions>(
    alloc: Global,
    keys: &K,
    asked: &PkinitAsked<'_>,
    content: &SignedContent<'_>,
) -> Result<(), ReplyFault>
    ensures { IsTakenAs (signed_by (K.functions keys.now) (expected_realm (asked_of asked.now)) content.now).gives result }
{
    let name = krbtgt_of(alloc, asked.realm)?;
    let expected = ExpectedSigner {
        realm: asked.realm,
        name: name.as_slice(),
        anchor: asked.anchor,
        moment: asked.moment,
    };
    check_by(alloc, keys, &expected, content)
}

// Judges whether the expected principal signed the content.
fn check_by<K: KeyFunctions>(
    alloc: Global,
    keys: &K,
    expected: &ExpectedSigner<'_>,
    content: &SignedContent<'_>,
) -> Result<(), ReplyFault>
    ensures { IsTakenAs (signed_by (K.functions keys.now) (expected_of expected.now) content.now).gives result }
{
    let judged = JudgedContent::from(content);
    match check_trusted(alloc, keys, expected, &judged) {
        Ok(()) => Ok(()),
        Err(fault) => Err(ReplyFault::from(fault)),
    }
}

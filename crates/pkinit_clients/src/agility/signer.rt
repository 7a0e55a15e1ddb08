//! Whether the realm signed a reply as KDCs send it.
ghost use Rattle.pkinit_clients.specs.Asked.{asked_of, expected_realm};
ghost use Rattle.pkinit_clients.specs.Faults.{IsTakenAs};
ghost use Rattle.pkinit_clients.specs.AgileReplies.{general_signed_by};
ghost use Rattle.pkinit_validation.specs.Expected.{expected_of};

use crate::asked::PkinitAsked;
use crate::fault::ReplyFault;
use cms_signed_data::general_form::GeneralContent;
use krb_messages::krbtgt_of;
use pkinit_validation::ExpectedSigner;
use pkinit_validation::policies::check_among;
use std::alloc::Global;
use x509_keys::KeyFunctions;

/// Judges whether the realm's ticket-granting service signed the content.
pub(crate) fn check_general<K: KeyFunctions>(
    alloc: Global,
    keys: &K,
    asked: &PkinitAsked<'_>,
    content: &GeneralContent,
) -> Result<(), ReplyFault>
    ensures { IsTakenAs (general_signed_by (K.functions keys.now) (expected_realm (asked_of asked.now)) content.now).gives result }
{
    let name = krbtgt_of(alloc, asked.realm)?;
    let expected = ExpectedSigner {
        realm: asked.realm,
        name: name.as_slice(),
        anchor: asked.anchor,
        moment: asked.moment,
    };
    check_general_by(alloc, keys, &expected, content)
}

// Judges whether the expected principal signed the content.
fn check_general_by<K: KeyFunctions>(
    alloc: Global,
    keys: &K,
    expected: &ExpectedSigner<'_>,
    content: &GeneralContent,
) -> Result<(), ReplyFault>
    ensures { IsTakenAs (general_signed_by (K.functions keys.now) (expected_of expected.now) content.now).gives result }
{
    match check_among(alloc, keys, expected, content, content.certificates()) {
        Ok(()) => Ok(()),
        Err(fault) => Err(ReplyFault::from(fault)),
    }
}

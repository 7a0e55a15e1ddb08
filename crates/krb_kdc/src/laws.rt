//! What holds of every realm whose accounts are looked up.
ghost use Rattle.std.specs.Prelude.{◌<◌, ◌^◌, length};
ghost use Rattle.krb_messages.specs.RandomBytes.{AreEnoughForReply};
ghost use Rattle.block_ciphers.specs.Bytes.{IsBytes};
ghost use Rattle.decision_tables.specs.Some.{HasSome};
ghost use Rattle.krb_realm_accounts.specs.Accounts.{Look};
ghost use Rattle.krb_kdc_exchanges.specs.Calls.{AreKeyed};
ghost use Rattle.krb_kdc_exchanges.specs.Replies.{Replies};
ghost use Rattle.krb_kdc.specs.Calls.{call_with};

use crate::call::LookupCall;
use krb_kdc_exchanges::Pkinit;

/// There is a reply to each message, if each account's key has its suite's length. It does nothing when it runs: its contract is the law.
pub fn has_reply<P: Pkinit>(call: &LookupCall<'_>, pkinit: &P, message: &[u8])
    requires { AreEnoughForReply call.now.words.now }
    ensures { (all : Look) → AreKeyed all → HasSome (Replies (call_with call.now all) (P.rows pkinit.now) message.now) }
{
    krb_kdc_exchanges::laws::has_reply(pkinit);
    let _micros = call.moment.micros();
    is_slice(message);
    is_slice(call.words);
}

// The octets of a slice are bytes, fewer than 2^64. It does nothing when it runs.
fn is_slice(octets: &[u8])
    ensures bytes { IsBytes octets.now }
    ensures few { length octets.now < 2 ^ 64 }
{
    let _length = octets.len();
}

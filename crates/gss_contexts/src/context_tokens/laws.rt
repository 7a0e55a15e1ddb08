//! The laws that a written token is read again, and that a token is read in one way.
ghost use Rattle.std.specs.Prelude.{◌≡◌, ℕ, List, ◌++◌, length};
ghost use Rattle.asn1_der.specs.Tree.{Writes, der};
ghost use Rattle.asn1_der.specs.Length.{element};
ghost use Rattle.asn1_der.specs.Seen.{Alike};
ghost use Rattle.gss_contexts.specs.declared.context_tokens.krb_message.KrbMessage.{KrbMessage};
ghost use Rattle.gss_contexts.specs.declared.context_tokens.iakerb_proxy_message.IAKerbProxyMessage.{IAKerbProxyMessage};
ghost use Rattle.gss_contexts.specs.ContextTokens.{token_bytes};
ghost use Rattle.gss_contexts.specs.KrbMessages.{BeginsKrbMessage, BeginsProxyMessage, seen_message, seen_proxy_message, IsWholeMessage, IsWholeProxyMessage, krb_message_content, proxy_message_content};
ghost use Rattle.asn1_der.specs.Octets.{sequence_octet};

use crate::context_tokens::application_tag0::ApplicationTag0;
use crate::context_tokens::iakerb_proxy_message::IAKerbProxyMessage;
use crate::context_tokens::krb_message::KrbMessage;
use picky_asn1_der::{Deserialize, FromDer, Serialize};

/// The law that bytes begin with the token of one message at most, but for the memory of a text or a vector in it. It does nothing
/// when it runs: its contract is the law.
pub fn one_krb_message<T: FromDer>()
    ensures { (m n : KrbMessage T) (bytes : List ℕ) → BeginsKrbMessage T.reads m bytes → BeginsKrbMessage T.reads n bytes
        → Alike (seen_message T.seen) m n }
{}

/// The law that bytes begin with the token of one IAKERB proxy message at most, up to what is seen of it. It does nothing when it runs:
/// its contract is the law.
pub fn one_proxy_message<T: FromDer>()
    ensures { (m n : IAKerbProxyMessage T) (bytes : List ℕ) → BeginsProxyMessage T.reads m bytes → BeginsProxyMessage T.reads n bytes
        → Alike (seen_proxy_message T.seen) m n }
{}

/// The law that what is written is read again, of messages that have a spelling, and that a message is read where its token is as it is
/// written; of a header more may be ignored. It does nothing.
pub fn written_is_read<T: Deserialize>()
    ensures message { (m : KrbMessage T) (rest : List ℕ) → IsWholeMessage T.tree m
        → BeginsKrbMessage (Writes T.tree) m (token_bytes (krb_message_content T.tree m) ++ rest) }
    ensures only { (m : KrbMessage T) (bytes : List ℕ) → BeginsKrbMessage (Writes T.tree) m bytes
        → IsWholeMessage T.tree m × (rest : List ℕ) × (bytes ≡ token_bytes (krb_message_content T.tree m) ++ rest) }
    ensures proxied { (m : IAKerbProxyMessage T) (rest : List ℕ) → IsWholeProxyMessage T.tree m
        → BeginsProxyMessage (Writes T.tree) m (token_bytes (proxy_message_content T.tree m) ++ rest) }
{}

/// The law that a message as a value of DER is what stands inside its token, under 30, and the token itself in [`ApplicationTag0`],
/// also of messages that go through a service. It does nothing.
pub fn message_is_value<T: Deserialize + Drop>()
    ensures sequence { (m : KrbMessage T) → length m.krb5_token_id ≡ 2
        → der (⟦<KrbMessage<T> as Serialize>⟧.tree m) ≡ element sequence_octet (krb_message_content T.tree m) }
    ensures token { (m : KrbMessage T) → length m.krb5_token_id ≡ 2
        → der (⟦<ApplicationTag0<KrbMessage<T>> as Serialize>⟧.tree (record { 0 = m })) ≡ token_bytes (krb_message_content T.tree m) }
    ensures proxied_sequence { (m : IAKerbProxyMessage T)
        → der (⟦<IAKerbProxyMessage<T> as Serialize>⟧.tree m) ≡ element sequence_octet (proxy_message_content T.tree m) }
    ensures proxied_token { (m : IAKerbProxyMessage T)
        → der (⟦<ApplicationTag0<IAKerbProxyMessage<T>> as Serialize>⟧.tree (record { 0 = m })) ≡ token_bytes (proxy_message_content T.tree m) }
{}

//! One end of a context.
ghost use Rattle.std.specs.Prelude.{◌≡◌, ◌+◌, ◌≤◌, ◌⊎◌, length, take, Err, IfOk, IfErr, IsTrue};
ghost use Rattle.krb_crypto.specs.declared.suite.CipherSuite.TheVariants.{Des3CbcSha1Kd};
ghost use Rattle.gss_contexts.specs.Contexts.{context_of, is_gap, last_number, lasting, next_of, sender_of};
ghost use Rattle.gss_contexts.specs.Judging.{IsMicRefusal, IsPeersHeader, IsWrapRefusal, TakesMic, TakesWrap, judged};
ghost use Rattle.gss_contexts.specs.Tokens.{WritesMic, WritesWrap};
ghost use Rattle.gss_contexts.specs.declared.refusal.TokenRefusal.TheVariants.{Memory, NumbersUsedUp, OldSuite};

use crate::header::{is_mic, is_set, is_wrap, protection_of};
use crate::refusal::TokenRefusal;
use crate::sender::Sender;
use crate::side::{Protection, Side};
use crate::terms::{ContextTerms, SequenceNumbers};
use byte_streams::u64_be;
use krb_constants::gss_api::{ACCEPTOR_SUBKEY, SENT_BY_ACCEPTOR};
use krb_crypto::{CipherSuite, Key};
use krb_time::Moment;
use std::alloc::Global;
use std::marker::Model;

/// One end of a context: the key that protects its tokens, its side, whether its numbers are in sequence, its end, and its sequence
/// numbers (RFC 4121, section 4.2). A contract sees these.
#[derive(Drop)]
pub struct Context {
    sender: Sender,
    in_sequence: bool,
    ends: Option<u64>,
    numbers: SequenceNumbers,
}

impl Model for Context {
    ghost use Rattle.std.specs.Prelude.{IsTrue};
    ghost use Rattle.gss_contexts.specs.Contexts.{ContextRecord, is_newer};

    ghost Value = { ContextRecord };

    ghost view = { λ c. record {
      key = c.sender.key;
      side = c.sender.side;
      acceptor_subkey = c.sender.acceptor_subkey;
      in_sequence = c.in_sequence;
      ends = c.ends;
      sending = c.numbers.sending;
      taking = c.numbers.taking;
    } };

    ghost invariant = { λ c. IsTrue (is_newer c.sender.key.suite) };
}

/// The message of a wrap token.
#[derive(Debug, Drop)]
pub struct Unwrapped {
    /// The message.
    pub message: Vec<u8>,
    /// The token's sequence number. If it is higher than the least number that was taken before, tokens of the peer are missing.
    pub sequence_number: u64,
    /// How the token protected it.
    pub protection: Protection,
}

// The next number.
fn next_number(number: u64) -> Result<u64, TokenRefusal>
    ensures { result ≡ next_of number }
{
    if number == u64::MAX {
        return Err(TokenRefusal::NumbersUsedUp);
    }
    Ok(number + 1)
}

impl Context {
    /// An end of a context, on these terms.
    ///
    /// Triple DES is refused (`OldSuite`), since its tokens are those of RFC 1964.
    pub fn new(key: Key, side: Side, terms: ContextTerms) -> Result<Context, TokenRefusal>
        ensures made { IfOk result (λ c. c ≡ context_of key side terms) }
        ensures refused { IfErr result (λ e. (e ≡ OldSuite) × (key.suite ≡ Des3CbcSha1Kd)) }
        ensures old_suite { key.suite ≡ Des3CbcSha1Kd → result ≡ Err OldSuite }
    {
        if key.suite() == CipherSuite::Des3CbcSha1Kd {
            return Err(TokenRefusal::OldSuite);
        }
        let sender = Sender {
            key,
            side,
            acceptor_subkey: terms.acceptor_subkey,
        };
        Ok(Context {
            sender,
            in_sequence: terms.in_sequence,
            ends: terms.ends,
            numbers: terms.numbers,
        })
    }

    /// Refuses a context that is over at this moment (`ContextExpired`; GSS_S_CONTEXT_EXPIRED of RFC 2743, section 1.2.1.1). A caller for
    /// whom a context ends with its ticket asks this before each token. No other call judges the end.
    pub fn check_end(&self, moment: Moment) -> Result<(), TokenRefusal>
        ensures { result ≡ lasting self.now.ends moment }
    {
        let Some(end) = self.ends else {
            return Ok(());
        };
        if end < moment.micros() {
            return Err(TokenRefusal::ContextExpired);
        }
        Ok(())
    }

    /// The sequence numbers of the next tokens.
    ///
    /// The least number that is taken is one more than the number of the last token that was taken. So a caller of
    /// [`Context::verify_mic`] learns its token's number, and by the least number before the call how many tokens are missing.
    pub fn numbers(&self) -> SequenceNumbers
        ensures { result ≡ record { sending = self.now.sending; taking = self.now.taking } }
    {
        self.numbers
    }

    // Whether the numbers are in sequence, and a token of this number leaves some out.
    fn leaves_gap(&self, number: u64) -> bool
        ensures { result ≡ is_gap self.now number }
    {
        self.in_sequence && self.numbers.taking < number
    }

    // Returns the number of a token whose header is the peer's.
    #[tactic(auto, unfolding(crate::specs::Judging::judged))]
    fn judge(&self, is_token: bool, token: &[u8]) -> Result<u64, TokenRefusal>
        requires { IsTrue is_token → 16 ≤ length token.now }
        ensures judged { result ≡ judged self.now is_token token.now }
        ensures is_token { IfOk result (λ _. IsTrue is_token) }
        ensures peers { IfOk result (IsPeersHeader self.now token.now) }
    {
        if !is_token {
            return Err(TokenRefusal::NoSuchToken);
        }
        if is_set(token[2], SENT_BY_ACCEPTOR) == self.sender.side.is_acceptor() {
            return Err(TokenRefusal::OwnDirection);
        }
        if is_set(token[2], ACCEPTOR_SUBKEY) != self.sender.acceptor_subkey {
            return Err(TokenRefusal::OtherKey);
        }
        let number = u64_be(token, 8);
        if number < self.numbers.taking {
            return Err(TokenRefusal::OldNumber);
        }
        if self.leaves_gap(number) {
            return Err(TokenRefusal::Gap);
        }
        if number == u64::MAX {
            return Err(TokenRefusal::NumbersUsedUp);
        }
        Ok(number)
    }

    /// The MIC token of a message, with the next number that is sent (RFC 4121, section 4.2.6.1).
    ///
    /// The last number of 64 bits is refused (`NumbersUsedUp`), since none follows. A refused call changes nothing.
    pub fn get_mic(&mut self, alloc: Global, message: &[u8]) -> Result<Vec<u8>, TokenRefusal>
        ensures made { IfOk result (λ token. WritesMic (sender_of self.old) self.old.sending message.now token.items) }
        ensures moved { IfOk result (λ _. self.new ≡ record self.old { sending = self.old.sending + 1 }) }
        ensures refused { IfErr result (λ e. (self.new ≡ self.old) × ((e ≡ Memory) ⊎ ((e ≡ NumbersUsedUp) × (self.old.sending ≡ last_number)))) }
        ensures used_up { self.old.sending ≡ last_number → result ≡ Err NumbersUsedUp }
    {
        let next = next_number(self.numbers.sending)?;
        let token = self.sender.mic_token(alloc, self.numbers.sending, message)?;
        self.numbers.sending = next;
        Ok(token)
    }

    /// Takes the peer's MIC token of a message (RFC 4121, section 4.2.6.1). Only higher numbers are taken after it. The token's
    /// number is one less than the least number that [`Context::numbers`] has after the call.
    ///
    /// The refusals, in this order: `NoSuchToken`, `OwnDirection`, `OtherKey`, `OldNumber`, `Gap`, `NumbersUsedUp`, `Memory`,
    /// `WrongChecksum`. A refused call changes nothing.
    pub fn verify_mic(
        &mut self,
        alloc: Global,
        message: &[u8],
        token: &[u8],
    ) -> Result<(), TokenRefusal>
        ensures taken { IfOk result (λ _. TakesMic self.old self.new message.now token.now) }
        ensures refused { IfErr result (λ e. (self.new ≡ self.old) × IsMicRefusal self.old message.now token.now e) }
    {
        let number = self.judge(is_mic(token), token)?;
        if !self.sender.is_peers_sum(alloc, message, token)? {
            return Err(TokenRefusal::WrongChecksum);
        }
        self.numbers.taking = number + 1;
        Ok(())
    }

    /// The wrap token of a message, with the next number that is sent (RFC 4121, section 4.2.6.2). The first 16 of the random
    /// bytes are the confounder of a sealed one.
    ///
    /// The last number of 64 bits is refused (`NumbersUsedUp`), since none follows. A refused call changes nothing.
    pub fn wrap(
        &mut self,
        alloc: Global,
        message: &[u8],
        protection: Protection,
        words: &[u8],
    ) -> Result<Vec<u8>, TokenRefusal>
        requires { 16 ≤ length words.now }
        ensures made { IfOk result (λ token. WritesWrap (sender_of self.old) self.old.sending protection (take 16 words.now) message.now token.items) }
        ensures moved { IfOk result (λ _. self.new ≡ record self.old { sending = self.old.sending + 1 }) }
        ensures refused { IfErr result (λ e. (self.new ≡ self.old) × ((e ≡ Memory) ⊎ ((e ≡ NumbersUsedUp) × (self.old.sending ≡ last_number)))) }
        ensures used_up { self.old.sending ≡ last_number → result ≡ Err NumbersUsedUp }
    {
        let next = next_number(self.numbers.sending)?;
        let number = self.numbers.sending;
        let token = self
            .sender
            .wrap_token(alloc, number, message, protection, &words[..16])?;
        self.numbers.sending = next;
        Ok(token)
    }

    /// Takes the message of the peer's wrap token (RFC 4121, section 4.2.6.2). Any RRC is undone. Only higher numbers are
    /// taken after it.
    ///
    /// The refusals, in this order: `NoSuchToken`, `OwnDirection`, `OtherKey`, `OldNumber`, `Gap`, `NumbersUsedUp`, `Memory`,
    /// `WrongChecksum`, `OtherHeader`. A refused call changes nothing.
    pub fn unwrap(&mut self, alloc: Global, token: &[u8]) -> Result<Unwrapped, TokenRefusal>
        ensures taken { IfOk result (λ u. TakesWrap self.old self.new token.now u.sequence_number u.protection u.message.items) }
        ensures refused { IfErr result (λ e. (self.new ≡ self.old) × IsWrapRefusal self.old token.now e) }
    {
        let number = self.judge(is_wrap(token), token)?;
        let protection = protection_of(token[2]);
        let message = self.sender.open(alloc, protection, token)?;
        self.numbers.taking = number + 1;
        Ok(Unwrapped {
            message,
            sequence_number: number,
            protection,
        })
    }
}

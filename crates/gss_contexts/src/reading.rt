//! Taking tokens of the peer.
ghost use Rattle.std.specs.Prelude.{◌≡◌, ◌⊎◌, ◌≤◌, ◌++◌, ℕ, List, length, take, drop, bytes_eq, IfOk, IfErr, IsTrue, MatchOption};
ghost use Rattle.byte_streams.specs.Numbers.{be16_at};
ghost use Rattle.gss_contexts.specs.Contexts.{is_newer, peer_of};
ghost use Rattle.gss_contexts.specs.Judging.{IsCarried, IsUnopened, IsUnread, refusal_of};
ghost use Rattle.gss_contexts.specs.Tokens.{Carries, header_without_rrc, sign_usage, sum_of};
ghost use Rattle.gss_contexts.specs.declared.refusal.TokenRefusal.TheVariants.{Memory, OtherHeader};
ghost use Rattle.gss_contexts.specs.declared.side.Protection.TheVariants.{Sealed, Checksum};

use crate::HEADER_LEN;
use crate::header::{header_without_counts, header_without_rrc};
use crate::octets::{checksum, rotated_back};
use crate::refusal::TokenRefusal;
use crate::sender::Sender;
use crate::side::Protection;
use byte_streams::u16_be;
use krb_crypto::KerberosCryptoError;
use std::alloc::{AllocError, Global};

// Returns the refusal of a token that isn't decrypted.
fn refusal_of(fault: KerberosCryptoError) -> TokenRefusal
    ensures { result ≡ refusal_of fault }
{
    match fault {
        KerberosCryptoError::Memory => TokenRefusal::Memory,
        _ => TokenRefusal::WrongChecksum,
    }
}

// Returns the count of octets before a filler of EC octets and the header, if the text ends with these.
pub(crate) fn message_len(text: &[u8], ec: u16, header: &[u8]) -> Option<usize>
    requires { length header.now ≡ 16 }
    ensures { MatchOption result ((m f : List ℕ) → length f ≡ ec → text.now ≡ m ++ (f ++ header.now) → ⊥)
        (λ n. (f : List ℕ) × (length f ≡ ec) × (text.now ≡ take n text.now ++ (f ++ header.now))) }
{
    let behind = usize::from(ec) + HEADER_LEN;
    if text.len() < behind {
        return None;
    }
    if &text[text.len() - HEADER_LEN..] != header {
        return None;
    }
    Some(text.len() - behind)
}

// Returns the message before the token's header, at the end of the plaintext.
fn message_before(mut plain: Vec<u8>, token: &[u8]) -> Result<Vec<u8>, TokenRefusal>
    requires { 16 ≤ length token.now }
    ensures read { IfOk result (λ m. (f : List ℕ) × (length f ≡ be16_at 4 token.now) × (plain.items ≡ m.items ++ (f ++ header_without_rrc token.now))) }
    ensures refused { IfErr result (λ e. (e ≡ OtherHeader)
        × ((m f : List ℕ) → length f ≡ be16_at 4 token.now → plain.items ≡ m ++ (f ++ header_without_rrc token.now) → ⊥)) }
{
    let header = header_without_rrc(token);
    let Some(count) = message_len(&plain, u16_be(token, 4), &header) else {
        return Err(TokenRefusal::OtherHeader);
    };
    plain.truncate(count);
    Ok(plain)
}

impl Sender {
    // Judges whether the octets after the header are the peer's checksum of a MIC token.
    pub(crate) fn is_peers_sum(
        &self,
        alloc: Global,
        message: &[u8],
        token: &[u8],
    ) -> Result<bool, AllocError>
        requires { 16 ≤ length token.now }
        ensures { IfOk result (λ is_sum. is_sum ≡ bytes_eq (drop 16 token.now) (sum_of self.now.key (sign_usage (peer_of self.now).side) (message.now ++ take 16 token.now))) }
    {
        let (header, carried) = token.split_at(HEADER_LEN);
        let usage = self.side.other().sign_usage();
        let sum = checksum(alloc, &self.key, usage, message, header)?;
        Ok(carried == sum.as_slice())
    }

    // Decrypts the message of a text.
    fn read_sealed(&self, alloc: Global, token: &[u8], text: &[u8]) -> Result<Vec<u8>, TokenRefusal>
        requires newer { IsTrue (is_newer self.now.key.suite) }
        requires long { 16 ≤ length token.now }
        ensures read { IfOk result (λ m. (d : List ℕ) × Carries (peer_of self.now) Sealed (be16_at 4 token.now) d m.items token.now text.now) }
        ensures only { IfOk result (λ m. (d n : List ℕ) → Carries (peer_of self.now) Sealed (be16_at 4 token.now) d n token.now text.now → n ≡ m.items) }
        ensures refused { IfErr result (λ e. (e ≡ Memory) ⊎ IsUnread (peer_of self.now) Sealed token.now text.now e) }
    {
        let usage = self.side.other().seal_usage();
        match self.key.decrypt(alloc, usage, text) {
            Ok(plain) => message_before(plain, token),
            Err(fault) => Err(refusal_of(fault)),
        }
    }

    // Returns the message of a text that isn't encrypted, if its checksum is the peer's.
    fn read_summed(&self, alloc: Global, token: &[u8], text: &[u8]) -> Result<Vec<u8>, TokenRefusal>
        requires { 16 ≤ length token.now }
        ensures read { IfOk result (λ m. (d : List ℕ) × Carries (peer_of self.now) Checksum (be16_at 4 token.now) d m.items token.now text.now) }
        ensures only { IfOk result (λ m. (d n : List ℕ) → Carries (peer_of self.now) Checksum (be16_at 4 token.now) d n token.now text.now → n ≡ m.items) }
        ensures refused { IfErr result (λ e. (e ≡ Memory) ⊎ IsUnread (peer_of self.now) Checksum token.now text.now e) }
    {
        let ec = usize::from(u16_be(token, 4));
        if text.len() < ec {
            return Err(TokenRefusal::WrongChecksum);
        }
        let (message, carried) = text.split_at(text.len() - ec);
        let header = header_without_counts(token);
        let usage = self.side.other().seal_usage();
        let sum = checksum(alloc, &self.key, usage, message, &header)?;
        if carried != sum.as_slice() {
            return Err(TokenRefusal::WrongChecksum);
        }
        let mut read = Vec::new(alloc);
        read.extend_from_slice(message)?;
        Ok(read)
    }

    // Reads the message of a text of this protection.
    fn read(
        &self,
        alloc: Global,
        protection: Protection,
        token: &[u8],
        text: &[u8],
    ) -> Result<Vec<u8>, TokenRefusal>
        requires newer { IsTrue (is_newer self.now.key.suite) }
        requires long { 16 ≤ length token.now }
        ensures read { IfOk result (λ m. (d : List ℕ) × Carries (peer_of self.now) protection (be16_at 4 token.now) d m.items token.now text.now) }
        ensures only { IfOk result (λ m. (d n : List ℕ) → Carries (peer_of self.now) protection (be16_at 4 token.now) d n token.now text.now → n ≡ m.items) }
        ensures refused { IfErr result (λ e. (e ≡ Memory) ⊎ IsUnread (peer_of self.now) protection token.now text.now e) }
    {
        match protection {
            Protection::Sealed => self.read_sealed(alloc, token, text),
            Protection::Checksum => self.read_summed(alloc, token, text),
        }
    }

    // Reads the message of the peer's wrap token.
    pub(crate) fn open(
        &self,
        alloc: Global,
        protection: Protection,
        token: &[u8],
    ) -> Result<Vec<u8>, TokenRefusal>
        requires newer { IsTrue (is_newer self.now.key.suite) }
        requires long { 16 ≤ length token.now }
        ensures read { IfOk result (λ m. (d : List ℕ) × IsCarried (peer_of self.now) protection d m.items token.now) }
        ensures only { IfOk result (λ m. (d n : List ℕ) → IsCarried (peer_of self.now) protection d n token.now → n ≡ m.items) }
        ensures refused { IfErr result (λ e. (e ≡ Memory) ⊎ IsUnopened (peer_of self.now) protection token.now e) }
    {
        let text = rotated_back(alloc, u16_be(token, 6), &token[HEADER_LEN..])?;
        self.read(alloc, protection, token, &text)
    }
}

//! The wrap token (RFC 4121, section 4.2.6.2).
ghost use Rattle.std.specs.Prelude.{◌≡◌, ℕ, ◌<◌, ◌^◌, List, [], length, take, None, Ok, Err, IfOk, IfErr, IfSome, IsTrue, MatchResult, bit_or};
ghost use Rattle.std.specs.Io.KnownBytes.{Consumes, IsAtEnd, Appends};
ghost use Rattle.byte_streams.specs.Parts.{IsLaidOut};
ghost use Rattle.gss_contexts.specs.Faults.{IsWriteFault};
ghost use Rattle.gss_contexts.specs.MessageTokenRefusals.{IsRefusal, IsExcuse, TellsRead};
ghost use Rattle.gss_contexts.specs.declared.message_tokens.kind.TokenKind.{TokenKind};
ghost use Rattle.krb_constants.specs.declared.gss_api.TheConstants.{ACCEPTOR_SUBKEY, SEALED};

use crate::message_tokens::error::GssApiMessageError;
use crate::message_tokens::kind::{HEADER_LEN, TokenKind, id};
use crate::message_tokens::token::{read_token, write_token};
use byte_streams::{Sink, Source, put_at, u16_be, u16_be_bytes, u64_be, u64_be_bytes};
use krb_constants::gss_api::{ACCEPTOR_SUBKEY, SEALED, WRAP_FILLER};
use std::alloc::{AllocError, Global};

/// What `GSS_Wrap` makes: a header with a sequence number, and the payload, sealed or with a checksum.
#[derive(Debug, Drop, PartialEq, Eq)]
pub struct WrapToken {
    /// Flags: SentByAcceptor (1), Sealed (2) and AcceptorSubkey (4) (RFC 4121, section 4.2.2).
    pub flags: u8,
    /// EC: the count of filler bytes that were added before sealing, or the size of the checksum.
    pub ec: u16,
    /// RRC: the count of bytes by which the data is rotated to the right.
    pub rrc: u16,
    /// SND_SEQ: the sequence number.
    pub seq_num: u64,
    /// The message that was wrapped. It is neither written nor read.
    pub payload: Option<Vec<u8>>,
    /// The bytes after the header, from octet 16 on.
    pub checksum: Vec<u8>,
}

impl Clone for WrapToken {
    ghost use Rattle.gss_contexts.specs.MessageTokens.{wrap_of, payload_of};

    ghost is_clone = { λ token copy. (wrap_of copy ≡ wrap_of token) × (payload_of copy.payload ≡ payload_of token.payload) };

    fn clone(&self) -> Result<WrapToken, AllocError> {
        let payload = self.payload.clone()?;
        let checksum = self.checksum.clone()?;
        Ok(WrapToken {
            flags: self.flags,
            ec: self.ec,
            rrc: self.rrc,
            seq_num: self.seq_num,
            payload,
            checksum,
        })
    }
}

impl WrapToken {
    ghost use Rattle.gss_contexts.specs.MessageTokens.{WrapFields, wrap_of, wrap_header, IsWrapToken};

    /// An initiator's sealed token, under the acceptor's subkey, with nothing after its header yet.
    pub fn with_seq_number(alloc: Global, seq_num: u64) -> WrapToken
        ensures fields { wrap_of result ≡ record { flags = bit_or SEALED ACCEPTOR_SUBKEY; ec = 0; rrc = 0; seq_num = seq_num; checksum = [] } }
        ensures payload { result.payload ≡ None }
    {
        WrapToken {
            flags: SEALED | ACCEPTOR_SUBKEY,
            ec: 0,
            rrc: 0,
            seq_num,
            payload: None,
            checksum: Vec::new(alloc),
        }
    }

    /// The length of the header: 16 bytes.
    pub fn header_len() -> usize
        ensures { result ≡ 16 }
    {
        HEADER_LEN
    }

    /// Encodes the token's first 16 bytes.
    pub fn header(&self) -> [u8; HEADER_LEN]
        ensures laid { IsLaidOut (wrap_header (wrap_of self.now)) result }
        ensures size { length result ≡ 16 }
    {
        let mut header = [0; HEADER_LEN];
        put_at(&mut header, 0, &id(TokenKind::Wrap));
        put_at(&mut header, 2, &[self.flags]);
        put_at(&mut header, 3, &[WRAP_FILLER]);
        put_at(&mut header, 4, &u16_be_bytes(self.ec));
        put_at(&mut header, 6, &u16_be_bytes(self.rrc));
        put_at(&mut header, 8, &u64_be_bytes(self.seq_num));
        header
    }

    /// Sets RRC, the count of bytes by which the data is rotated.
    pub fn set_rrc(&mut self, rrc: u16)
        ensures { self.new ≡ record self.old { rrc = rrc } }
    {
        self.rrc = rrc;
    }

    /// Sets the bytes after the header.
    pub fn set_checksum(&mut self, checksum: Vec<u8>)
        ensures { self.new ≡ record self.old { checksum = checksum } }
    {
        self.checksum = checksum;
    }

    /// Writes the token without its payload; a front of it where the writer stops.
    pub fn encode<W: Sink>(&self, writer: &mut W) -> Result<(), GssApiMessageError>
        ensures written { (whole : List ℕ) × IsWrapToken (wrap_of self.now) whole
            × MatchResult result (λ _. Appends (W.written writer.old) (W.written writer.new) whole)
            (λ _. (n : ℕ) × Appends (W.written writer.old) (W.written writer.new) (take n whole)) }
        ensures count { MatchResult result (λ _. W.failed writer.new ≡ W.failed writer.old)
            (IsWriteFault (W.failed writer.old) (W.failed writer.new) (W.last_fault writer.new)) }
        ensures memory { result ≡ Err GssApiMessageError.Memory → IsTrue W.grows }
        ensures same { W.through writer.new ≡ W.through writer.old }
    {
        write_token(writer, &self.header(), &self.checksum)
    }

    /// Reads a token to the end of `reader`; its payload is none.
    ///
    /// The first fault in the order of the bytes is returned: InvalidId, InvalidWrapFiller, or IoError if they end within the
    /// first 16. If the device fails after bytes in which nothing is wrong, its fault is returned.
    pub fn decode<R: Source>(alloc: Global, reader: &mut R) -> Result<WrapToken, GssApiMessageError>
        ensures found { IfOk result (λ t. (whole : List ℕ) × IsWrapToken (wrap_of t) whole
            × Consumes (R.left reader.old) (R.left reader.new) whole) }
        ensures end { IfOk result (λ _. IsAtEnd (R.left reader.new)) }
        ensures payload { IfOk result (λ t. t.payload ≡ None) }
        ensures only { IfSome (R.left reader.old) (λ whole. (w : WrapFields) → w.ec < 2 ^ 16 → w.rrc < 2 ^ 16 → w.seq_num < 2 ^ 64 → IsWrapToken w whole
            → MatchResult result (λ t. wrap_of t ≡ w)
            (IsExcuse TokenKind.Wrap whole (R.left reader.new) (R.failed reader.old) (R.failed reader.new) (R.last_fault reader.new))) }
        ensures count { MatchResult result (λ _. R.failed reader.new ≡ R.failed reader.old)
            (TellsRead TokenKind.Wrap (R.left reader.new) (R.failed reader.old) (R.failed reader.new) (R.last_fault reader.new)) }
        ensures refused { IfErr result (λ e. IfSome (R.left reader.old) (λ whole.
            IsRefusal TokenKind.Wrap whole (R.left reader.new) (R.failed reader.old) (R.failed reader.new) (R.last_fault reader.new) e)) }
        ensures same { R.through reader.new ≡ R.through reader.old }
    {
        let token = read_token(alloc, TokenKind::Wrap, reader)?;
        Ok(WrapToken {
            flags: token.header[2],
            ec: u16_be(&token.header, 4),
            rrc: u16_be(&token.header, 6),
            seq_num: u64_be(&token.header, 8),
            payload: None,
            checksum: token.checksum,
        })
    }
}

//! The MIC token (RFC 4121, section 4.2.6.1).
ghost use Rattle.std.specs.Prelude.{◌≡◌, ℕ, ◌<◌, ◌^◌, List, [], length, take, None, Some, Ok, Err, IfOk, IfErr, IfSome, IsTrue, MatchResult, bit_or};
ghost use Rattle.std.specs.Io.KnownBytes.{Consumes, IsAtEnd, Appends};
ghost use Rattle.byte_streams.specs.Parts.{IsLaidOut};
ghost use Rattle.gss_contexts.specs.Faults.{IsWriteFault};
ghost use Rattle.gss_contexts.specs.MessageTokenRefusals.{IsRefusal, IsExcuse, TellsRead};
ghost use Rattle.gss_contexts.specs.declared.message_tokens.kind.TokenKind.{TokenKind};
ghost use Rattle.krb_constants.specs.declared.gss_api.TheConstants.{ACCEPTOR_SUBKEY, SENT_BY_ACCEPTOR};

use crate::message_tokens::error::GssApiMessageError;
use crate::message_tokens::kind::{HEADER_LEN, TokenKind, id};
use crate::message_tokens::token::{read_token, write_token};
use byte_streams::{Sink, Source, put_at, u64_be, u64_be_bytes};
use krb_constants::gss_api::{ACCEPTOR_SUBKEY, MIC_FILLER, SENT_BY_ACCEPTOR};
use std::alloc::{AllocError, Global};

/// What `GSS_GetMIC` makes: a checksum over a payload that travels elsewhere, with a sequence number.
#[derive(Debug, Drop, PartialEq, Eq)]
pub struct MicToken {
    /// Flags: SentByAcceptor (1), Sealed (2) and AcceptorSubkey (4) (RFC 4121, section 4.2.2).
    pub flags: u8,
    /// SND_SEQ: the sequence number.
    pub seq_num: u64,
    /// The message that the checksum covers. It is neither written nor read.
    pub payload: Option<Vec<u8>>,
    /// SGN_CKSUM: the checksum.
    pub checksum: Vec<u8>,
}

impl Clone for MicToken {
    ghost use Rattle.gss_contexts.specs.MessageTokens.{mic_of, payload_of};

    ghost is_clone = { λ token copy. (mic_of copy ≡ mic_of token) × (payload_of copy.payload ≡ payload_of token.payload) };

    fn clone(&self) -> Result<MicToken, AllocError> {
        let payload = self.payload.clone()?;
        let checksum = self.checksum.clone()?;
        Ok(MicToken {
            flags: self.flags,
            seq_num: self.seq_num,
            payload,
            checksum,
        })
    }
}

impl MicToken {
    ghost use Rattle.gss_contexts.specs.MessageTokens.{MicFields, mic_of, mic_header, IsMicToken};

    /// An initiator's token, under the acceptor's subkey, with number 0 and no checksum yet.
    pub fn with_initiator_flags(alloc: Global) -> MicToken
        ensures fields { mic_of result ≡ record { flags = ACCEPTOR_SUBKEY; seq_num = 0; checksum = [] } }
        ensures payload { result.payload ≡ None }
    {
        MicToken {
            flags: ACCEPTOR_SUBKEY,
            seq_num: 0,
            payload: None,
            checksum: Vec::new(alloc),
        }
    }

    /// An acceptor's token, under the acceptor's subkey, with number 0 and no checksum yet.
    pub fn with_acceptor_flags(alloc: Global) -> MicToken
        ensures fields { mic_of result ≡ record { flags = bit_or SENT_BY_ACCEPTOR ACCEPTOR_SUBKEY; seq_num = 0; checksum = [] } }
        ensures payload { result.payload ≡ None }
    {
        MicToken {
            flags: SENT_BY_ACCEPTOR | ACCEPTOR_SUBKEY,
            seq_num: 0,
            payload: None,
            checksum: Vec::new(alloc),
        }
    }

    /// The token with this sequence number.
    pub fn with_seq_number(self, seq_num: u64) -> MicToken
        ensures { result ≡ record self { seq_num = seq_num } }
    {
        let MicToken {
            flags,
            seq_num: _,
            payload,
            checksum,
        } = self;
        MicToken {
            flags,
            seq_num,
            payload,
            checksum,
        }
    }

    /// Encodes the token's first 16 bytes, which the checksum covers too.
    pub fn header(&self) -> [u8; HEADER_LEN]
        ensures laid { IsLaidOut (mic_header (mic_of self.now)) result }
        ensures size { length result ≡ 16 }
    {
        let mut header = [0; HEADER_LEN];
        put_at(&mut header, 0, &id(TokenKind::Mic));
        put_at(&mut header, 2, &[self.flags]);
        put_at(&mut header, 3, &MIC_FILLER);
        put_at(&mut header, 8, &u64_be_bytes(self.seq_num));
        header
    }

    /// Sets the checksum.
    pub fn set_checksum(&mut self, checksum: Vec<u8>)
        ensures { self.new ≡ record self.old { checksum = checksum } }
    {
        self.checksum = checksum;
    }

    /// Sets the payload.
    pub fn set_payload(&mut self, payload: Vec<u8>)
        ensures { self.new ≡ record self.old { payload = Some payload } }
    {
        self.payload = Some(payload);
    }

    /// Writes the token without its payload; a front of it where the writer stops.
    pub fn encode<W: Sink>(&self, writer: &mut W) -> Result<(), GssApiMessageError>
        ensures written { (whole : List ℕ) × IsMicToken (mic_of self.now) whole
            × MatchResult result (λ _. Appends (W.written writer.old) (W.written writer.new) whole)
            (λ _. (n : ℕ) × Appends (W.written writer.old) (W.written writer.new) (take n whole)) }
        ensures count { MatchResult result (λ _. W.failed writer.new ≡ W.failed writer.old)
            (IsWriteFault (W.failed writer.old) (W.failed writer.new) (W.last_fault writer.new)) }
        ensures memory { result ≡ Err GssApiMessageError.Memory → IsTrue W.grows }
        ensures same { W.through writer.new ≡ W.through writer.old }
    {
        write_token(writer, &self.header(), &self.checksum)
    }

    /// Reads a token to the end of `reader`; its payload is none.
    ///
    /// The first fault in the order of the bytes is returned: InvalidId, InvalidMicFiller, or IoError if they end within the
    /// first 16. If the device fails after bytes in which nothing is wrong, its fault is returned.
    pub fn decode<R: Source>(alloc: Global, reader: &mut R) -> Result<MicToken, GssApiMessageError>
        ensures found { IfOk result (λ t. (whole : List ℕ) × IsMicToken (mic_of t) whole
            × Consumes (R.left reader.old) (R.left reader.new) whole) }
        ensures end { IfOk result (λ _. IsAtEnd (R.left reader.new)) }
        ensures payload { IfOk result (λ t. t.payload ≡ None) }
        ensures only { IfSome (R.left reader.old) (λ whole. (m : MicFields) → m.seq_num < 2 ^ 64 → IsMicToken m whole
            → MatchResult result (λ t. mic_of t ≡ m)
            (IsExcuse TokenKind.Mic whole (R.left reader.new) (R.failed reader.old) (R.failed reader.new) (R.last_fault reader.new))) }
        ensures count { MatchResult result (λ _. R.failed reader.new ≡ R.failed reader.old)
            (TellsRead TokenKind.Mic (R.left reader.new) (R.failed reader.old) (R.failed reader.new) (R.last_fault reader.new)) }
        ensures refused { IfErr result (λ e. IfSome (R.left reader.old) (λ whole.
            IsRefusal TokenKind.Mic whole (R.left reader.new) (R.failed reader.old) (R.failed reader.new) (R.last_fault reader.new) e)) }
        ensures same { R.through reader.new ≡ R.through reader.old }
    {
        let token = read_token(alloc, TokenKind::Mic, reader)?;
        Ok(MicToken {
            flags: token.header[2],
            seq_num: u64_be(&token.header, 8),
            payload: None,
            checksum: token.checksum,
        })
    }
}

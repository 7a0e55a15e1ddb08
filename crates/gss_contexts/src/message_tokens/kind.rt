//! The token that some bytes are, or why they are none.
ghost use Rattle.std.specs.Prelude.{◌≡◌};
ghost use Rattle.gss_contexts.specs.MessageTokenJudging.{id_of, id_judged, mic_filler_judged, wrap_filler_judged, filler_judged, judged};

use crate::message_tokens::error::GssApiMessageError;
use krb_constants::gss_api::{MIC_FILLER, MIC_TOKEN_ID, WRAP_FILLER, WRAP_TOKEN_ID};
use std::io::ErrorKind;

/// The length of a token's header: the bytes before a MIC token's checksum or a wrap token's data (RFC 4121, section 4.2.6).
pub const HEADER_LEN: usize = 16;

/// The two tokens that carry a sequence number (RFC 4121, sections 4.2.6.1 and 4.2.6.2).
#[derive(Clone, Copy, Debug)]
pub enum TokenKind {
    /// What `GSS_GetMIC` makes.
    Mic,
    /// What `GSS_Wrap` makes.
    Wrap,
}

// TOK_ID, octets 0 and 1.
pub(crate) fn id(kind: TokenKind) -> [u8; 2]
    ensures { result ≡ id_of kind }
{
    match kind {
        TokenKind::Mic => MIC_TOKEN_ID,
        TokenKind::Wrap => WRAP_TOKEN_ID,
    }
}

fn judge_id(kind: TokenKind, bytes: &[u8]) -> Result<(), GssApiMessageError>
    ensures { result ≡ id_judged kind bytes.now }
{
    let wanted = id(kind);
    if bytes.len() >= 2 && &bytes[..2] != wanted.as_slice() {
        return Err(GssApiMessageError::InvalidId(wanted, [bytes[0], bytes[1]]));
    }
    Ok(())
}

fn judge_mic_filler(bytes: &[u8]) -> Result<(), GssApiMessageError>
    ensures { result ≡ mic_filler_judged bytes.now }
{
    if bytes.len() >= 8 && &bytes[3..8] != MIC_FILLER.as_slice() {
        return Err(GssApiMessageError::InvalidMicFiller([
            bytes[3], bytes[4], bytes[5], bytes[6], bytes[7],
        ]));
    }
    Ok(())
}

fn judge_wrap_filler(bytes: &[u8]) -> Result<(), GssApiMessageError>
    ensures { result ≡ wrap_filler_judged bytes.now }
{
    if bytes.len() >= 4 && bytes[3] != WRAP_FILLER {
        return Err(GssApiMessageError::InvalidWrapFiller(bytes[3]));
    }
    Ok(())
}

fn judge_filler(kind: TokenKind, bytes: &[u8]) -> Result<(), GssApiMessageError>
    ensures { result ≡ filler_judged kind bytes.now }
{
    match kind {
        TokenKind::Mic => judge_mic_filler(bytes),
        TokenKind::Wrap => judge_wrap_filler(bytes),
    }
}

// Whether a token begins with these bytes; where they end inside its header, `short` says why.
pub(crate) fn judge(
    kind: TokenKind,
    bytes: &[u8],
    short: ErrorKind,
) -> Result<(), GssApiMessageError>
    ensures { result ≡ judged kind short bytes.now }
{
    judge_id(kind, bytes)?;
    judge_filler(kind, bytes)?;
    if bytes.len() < HEADER_LEN {
        return Err(GssApiMessageError::IoError(short));
    }
    Ok(())
}

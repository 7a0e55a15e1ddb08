//! The headers of tokens (RFC 4121, section 4.2.6).
ghost use Rattle.std.specs.Prelude.{◌≡◌, ◌≤◌, [], length, IsTrue};
ghost use Rattle.byte_streams.specs.Parts.{IsLaidOut};
ghost use Rattle.krb_constants.specs.declared.gss_api.TheConstants.{SEALED};
ghost use Rattle.gss_contexts.specs.MessageTokens.{mic_header, wrap_header};
ghost use Rattle.gss_contexts.specs.Judging.{is_mic, is_wrap, protection_of};
ghost use Rattle.gss_contexts.specs.Tokens.{flag_if, header_without_counts, header_without_rrc, is_set};

use crate::side::Protection;
use crate::{HEADER_LEN, MicToken, WrapToken};
use krb_constants::gss_api::{MIC_FILLER, MIC_TOKEN_ID, SEALED, WRAP_FILLER, WRAP_TOKEN_ID};
use std::alloc::Global;

// Judges whether the flag is set.
pub(crate) fn is_set(flags: u8, flag: u8) -> bool
    ensures { result ≡ is_set flags flag }
{
    flags & flag != 0
}

// Returns the protection of a wrap token by its flags.
pub(crate) fn protection_of(flags: u8) -> Protection
    ensures { result ≡ protection_of (is_set flags SEALED) }
{
    if is_set(flags, SEALED) {
        Protection::Sealed
    } else {
        Protection::Checksum
    }
}

// The flag, or none.
pub(crate) fn flag_if(is_set: bool, flag: u8) -> u8
    ensures { result ≡ flag_if is_set flag }
{
    if is_set { flag } else { 0 }
}

// Encodes the header of a MIC token.
pub(crate) fn mic_header(alloc: Global, flags: u8, number: u64) -> [u8; HEADER_LEN]
    ensures laid { IsLaidOut (mic_header (record { flags = flags; seq_num = number; checksum = [] })) result }
    ensures size { length result ≡ 16 }
{
    let token = MicToken {
        flags,
        seq_num: number,
        payload: None,
        checksum: Vec::new(alloc),
    };
    token.header()
}

// Encodes the header of a wrap token that isn't rotated.
pub(crate) fn wrap_header(alloc: Global, flags: u8, ec: u16, number: u64) -> [u8; HEADER_LEN]
    ensures laid { IsLaidOut (wrap_header (record { flags = flags; ec = ec; rrc = 0; seq_num = number; checksum = [] })) result }
    ensures size { length result ≡ 16 }
{
    let token = WrapToken {
        flags,
        ec,
        rrc: 0,
        seq_num: number,
        payload: None,
        checksum: Vec::new(alloc),
    };
    token.header()
}

// Judges whether the octets begin as a MIC token does.
pub(crate) fn is_mic(token: &[u8]) -> bool
    ensures test { result ≡ is_mic token.now }
    ensures long { IsTrue result → 16 ≤ length token.now }
{
    token.len() >= HEADER_LEN
        && &token[..2] == MIC_TOKEN_ID.as_slice()
        && &token[3..8] == MIC_FILLER.as_slice()
        && !is_set(token[2], SEALED)
}

// Judges whether the octets begin as a wrap token does.
pub(crate) fn is_wrap(token: &[u8]) -> bool
    ensures test { result ≡ is_wrap token.now }
    ensures long { IsTrue result → 16 ≤ length token.now }
{
    token.len() >= HEADER_LEN && &token[..2] == WRAP_TOKEN_ID.as_slice() && token[3] == WRAP_FILLER
}

// The token's header with RRC zero.
pub(crate) fn header_without_rrc(token: &[u8]) -> [u8; HEADER_LEN]
    requires { 16 ≤ length token.now }
    ensures { result ≡ header_without_rrc token.now }
{
    let mut header = [0; HEADER_LEN];
    header[..6].copy_from_slice(&token[..6]);
    header[8..].copy_from_slice(&token[8..HEADER_LEN]);
    header
}

// The token's header with EC and RRC zero.
pub(crate) fn header_without_counts(token: &[u8]) -> [u8; HEADER_LEN]
    requires { 16 ≤ length token.now }
    ensures { result ≡ header_without_counts token.now }
{
    let mut header = [0; HEADER_LEN];
    header[..4].copy_from_slice(&token[..4]);
    header[8..].copy_from_slice(&token[8..HEADER_LEN]);
    header
}

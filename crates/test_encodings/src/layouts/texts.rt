//! The texts of faults: what the ported crates print, in plain words.

use picky_krb::data_types::LsapTokenInfoIntegrityError;
use picky_krb::gss_api::GssApiMessageError;
use picky_krb::messages::KrbPrivFrameError;
use picky_krb::negoex::NegoexError;
use picky_krb::pac::PacError;
use std::alloc::Global;
use std::fmt::Display;
use std::io::ErrorKind;

fn is_shown<E: Display + Drop>(alloc: Global, error: E, text: &str) -> bool {
    match format!(in alloc; "{error}") {
        Ok(shown) => shown.as_str() == text,
        Err(_) => false,
    }
}

fn is_token_fault(alloc: Global, fault: GssApiMessageError, text: &str) -> bool {
    is_shown(alloc, fault, text)
}

fn is_pac_fault(alloc: Global, fault: PacError, text: &str) -> bool {
    is_shown(alloc, fault, text)
}

// The expected one comes first.
#[test]
fn tokens(rt: HostRuntime) {
    let id = GssApiMessageError::InvalidId([4, 4], [5, 4]);
    assert!(rt;
        is_token_fault(
            rt.alloc(),
            id,
            "invalid token id: expected [4, 4], but got [5, 4]"
        )
    );
    let end = GssApiMessageError::IoError(ErrorKind::UnexpectedEof);
    assert!(rt; is_token_fault(rt.alloc(), end, "IO error: unexpected end of file"));
    let mic = GssApiMessageError::InvalidMicFiller([255, 255, 255, 255, 0]);
    assert!(rt;
        is_token_fault(
            rt.alloc(),
            mic,
            "invalid MIC token filler: [255, 255, 255, 255, 0]"
        )
    );
    let wrap = GssApiMessageError::InvalidWrapFiller(7);
    assert!(rt; is_token_fault(rt.alloc(), wrap, "invalid wrap token filler: 7"));
    assert!(rt; is_token_fault(rt.alloc(), GssApiMessageError::Memory, "out of memory"));
}

#[test]
fn pacs(rt: HostRuntime) {
    let kind = PacError::PacBufferType(3);
    assert!(rt; is_pac_fault(rt.alloc(), kind, "invalid PAC buffer type: 3"));
    let end = PacError::IoError(ErrorKind::UnexpectedEof);
    assert!(rt;
        is_pac_fault(
            rt.alloc(),
            end,
            "unable to read or write bytes: unexpected end of file"
        )
    );
    let version = PacError::InvalidVersion(1);
    assert!(rt;
        is_pac_fault(
            rt.alloc(),
            version,
            "invalid version: expected 0, but got 1"
        )
    );
    let range = PacError::InvalidRange;
    assert!(rt; is_pac_fault(rt.alloc(), range, "invalid range of a buffer's data"));
}

// What has no type of its own in the ported crates: the kind of an `io::Error`.
#[test]
fn kinds(rt: HostRuntime) {
    let kind = ErrorKind::UnexpectedEof;
    assert!(rt;
        is_shown(
            rt.alloc(),
            NegoexError { kind },
            "the NEGOEX message cannot be read or written: unexpected end of file",
        )
    );
    assert!(rt;
        is_shown(
            rt.alloc(),
            LsapTokenInfoIntegrityError { kind },
            "the record of an integrity level cannot be read or written: unexpected end of file",
        )
    );
    assert!(rt;
        is_shown(
            rt.alloc(),
            KrbPrivFrameError { kind },
            "the frame of a password change cannot be read or written: unexpected end of file",
        )
    );
}

//! Frames of requests and replies.
ghost use Rattle.std.specs.Prelude.{◌≡◌, ◌+◌, ◌<◌, ◌≤◌, ◌^◌, ◌++◌, ℕ, List, Err, Ok, length, IfErr, IfOk, MatchOption, MatchResult};
ghost use Rattle.byte_streams.specs.Numbers.{be16};
ghost use Rattle.krb_password_changes.specs.Frames.{frame_table, IsFrame, IsHeaded, IsUnwritten};
ghost use Rattle.krb_password_changes.specs.Versions.{version_number};
ghost use Rattle.krb_password_changes.specs.declared.messages.frame.FrameRefusal.TheVariants as refusal;
ghost use Rattle.krb_password_changes.specs.declared.messages.version.Version.{Version};

use crate::messages::result_code::ResultCode;
use crate::messages::version::Version;
use byte_streams::{u16_be, u16_be_bytes};
use std::alloc::{AllocError, Global};
use thiserror::Error;

/// How many octets are before the AP message.
pub const FRONT_LEN: usize = 6;

// The greatest length of two octets.
const GREATEST_LEN: usize = 65_535;

/// A request or a reply, by its parts.
#[derive(Clone, Copy, Debug)]
pub struct Frame<'a> {
    /// The version.
    pub version: Version,
    /// The octets of the AP-REQ, or of the AP-REP that answers it.
    pub ap_message: &'a [u8],
    /// The octets of the KRB-PRIV, or of the KRB-ERROR in its place.
    pub krb_priv: &'a [u8],
}

/// Why a frame was not written.
#[derive(Clone, Copy, Debug, PartialEq, Eq, Error)]
pub enum FrameRefusal {
    /// Memory ran out.
    #[error("out of memory")]
    Memory,
    /// The frame would have more than 65,535 octets.
    #[error("the frame is too long")]
    TooLong,
}

impl From<AllocError> for FrameRefusal {
    ghost from_gives = { λ _ refused. refused ≡ refusal.Memory };

    fn from(_failed: AllocError) -> FrameRefusal {
        FrameRefusal::Memory
    }
}

// Judges a message as a frame, and returns its version.
#[tactic(auto, unfolding(crate::specs::Frames::frame_table))]
fn judge_frame(message: &[u8]) -> Result<Version, ResultCode>
    ensures table { (frame_table message.now).gives result }
    ensures headed { IfOk result (λ version. IsHeaded version message.now) }
{
    if message.len() < FRONT_LEN {
        return Err(ResultCode::Malformed);
    }
    if usize::from(u16_be(message, 0)) != message.len() {
        return Err(ResultCode::Malformed);
    }
    let Some(version) = Version::of_number(u16_be(message, 2)) else {
        return Err(ResultCode::BadVersion);
    };
    if message.len() < FRONT_LEN + usize::from(u16_be(message, 4)) {
        return Err(ResultCode::Malformed);
    }
    Ok(version)
}

/// The version and the parts of a message, or the code by which it is refused. What is refused is no frame.
#[tactic(auto, using(crate::proofs::FramesJudged::not_a_frame))]
pub fn read_frame(message: &[u8]) -> Result<Frame<'_>, ResultCode>
    ensures table { MatchResult result
        (λ frame. (frame_table message.now).gives (Ok frame.version))
        (λ code. (frame_table message.now).gives (Err code)) }
    ensures frame { IfOk result (λ frame. IsFrame frame.version frame.ap_message.now frame.krb_priv.now message.now) }
    ensures no_frame { IfErr result (λ _. (version : Version) (ap private : List ℕ) → IsFrame version ap private message.now → ⊥) }
{
    let version = judge_frame(message)?;
    let ap_len = usize::from(u16_be(message, 4));
    let (_, behind) = message.split_at(FRONT_LEN);
    let (ap_message, krb_priv) = behind.split_at(ap_len);
    Ok(Frame {
        version,
        ap_message,
        krb_priv,
    })
}

// Computes the length of a whole frame, if it has two octets.
fn frame_len(ap_message: &[u8], krb_priv: &[u8]) -> Option<u16>
    ensures { MatchOption result (2 ^ 16 ≤ 6 + length ap_message.now + length krb_priv.now)
        (λ len. (len ≡ 6 + length ap_message.now + length krb_priv.now) × (len < 2 ^ 16)) }
{
    let behind = ap_message.len().checked_add(krb_priv.len())?;
    if behind > GREATEST_LEN - FRONT_LEN {
        return None;
    }
    Some((behind + FRONT_LEN) as u16)
}

// Makes a frame with these two lengths.
fn framed(
    alloc: Global,
    lengths: (u16, u16),
    version: Version,
    ap_message: &[u8],
    krb_priv: &[u8],
) -> Result<Vec<u8>, AllocError>
    ensures { IfOk result (λ bytes. bytes.items ≡ be16 lengths.0 ++ (be16 (version_number version) ++ (be16 lengths.1 ++ (ap_message.now ++ krb_priv.now)))) }
{
    let (len, ap_len) = lengths;
    let mut bytes = Vec::new(alloc);
    bytes.extend_from_slice(&u16_be_bytes(len))?;
    bytes.extend_from_slice(&u16_be_bytes(version.number()))?;
    bytes.extend_from_slice(&u16_be_bytes(ap_len))?;
    bytes.extend_from_slice(ap_message)?;
    bytes.extend_from_slice(krb_priv)?;
    Ok(bytes)
}

/// Writes the frame of a version and two parts. A reply's version is [`Version::ChangePassword`].
pub fn frame_bytes(
    alloc: Global,
    version: Version,
    ap_message: &[u8],
    krb_priv: &[u8],
) -> Result<Vec<u8>, FrameRefusal>
    ensures { MatchResult result
        (λ bytes. IsFrame version ap_message.now krb_priv.now bytes.items)
        (IsUnwritten ap_message.now krb_priv.now) }
{
    let Some(len) = frame_len(ap_message, krb_priv) else {
        return Err(FrameRefusal::TooLong);
    };
    let ap_len = ap_message.len() as u16;
    let bytes = framed(alloc, (len, ap_len), version, ap_message, krb_priv)?;
    Ok(bytes)
}

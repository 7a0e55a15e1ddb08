//! The frame of a request or a reply.
ghost use Rattle.std.specs.Prelude.{◌≡◌, ℕ, ◌+◌, ◌<◌, ◌≤◌, ◌^◌, ◌⊎◌, List, ◌++◌, length, take, IfOk, IfErr, IfSome, MatchResult};
ghost use Rattle.std.specs.Io.KnownBytes.{Consumes, Appends};
ghost use Rattle.asn1_der.specs.Tree.{der, IsWhole, Writes};
ghost use Rattle.byte_streams.specs.Stops.{IsWriteStop};
ghost use Rattle.microsoft_messages.specs.Frames.{framed, frame_bytes, IsFrame};
ghost use Rattle.asn1_der.specs.Seen.{Alike};
ghost use Rattle.microsoft_messages.specs.Reading.{IsFramedAs, BeginsFramed, IsExcuse, IsRefusal, TellsRead, element_limit, seen_frame};
ghost use Rattle.microsoft_messages.specs.Writing.{IsTooLong, IsUnframable};
ghost use Rattle.asn1_der.specs.Refusals.{refusal_of};

use crate::error::KrbPrivFrameError;
use crate::header::{HEADER_LEN, read_header};
use crate::part::{part_bytes, read_part};
use asn1_codec::{Deserialize, FromDer, Serialize};
use byte_streams::{Sink, Source, u16_be_bytes, write_bytes};
use krb_constants::krb_priv::PROTOCOL_VERSION;
use std::alloc::{AllocError, Global};
use std::io::ErrorKind;

// The greatest length of two bytes.
const MOST_BYTES: usize = 65_535;

/// A request or a reply of the exchange, as its two parts.
#[derive(Debug, Drop, PartialEq, Eq, Clone)]
pub struct KrbPrivFrame<A, P> {
    /// The AP message: an AP-REQ, or the AP-REP that answers it.
    pub ap_message: A,
    /// The KRB-PRIV, or the KRB-ERROR that is in its place.
    pub krb_priv: P,
}

impl<A: FromDer, P: FromDer> KrbPrivFrame<A, P> {
    /// Reads a frame, and leaves what follows it. Its lengths aren't judged: each part is as long as its DER says, and of at
    /// most 10,240 bytes.
    ///
    /// The first fault in the order of the bytes is returned. It is `InvalidData` for a wrong version, `UnexpectedEof` for
    /// fewer than six bytes, and `InvalidData` for a part that is no DER of its type. Or the device failed, or memory ran
    /// out (`OutOfMemory`).
    pub fn deserialize<R: Source>(
        alloc: Global,
        reader: &mut R,
    ) -> Result<KrbPrivFrame<A, P>, KrbPrivFrameError>
        ensures found { IfOk result (λ m. (whole : List ℕ) × IsFramedAs A.reads P.reads m.ap_message m.krb_priv whole
            × Consumes (R.left reader.old) (R.left reader.new) whole) }
        ensures only { IfSome (R.left reader.old) (λ bytes. (m : KrbPrivFrame A P) → BeginsFramed A.reads P.reads m.ap_message m.krb_priv bytes
            → MatchResult result (λ read. Alike (seen_frame A.seen P.seen) read m) (λ e. IsExcuse (R.failed reader.old) (R.failed reader.new) (R.last_fault reader.new) e.kind)) }
        ensures count { MatchResult result (λ _. R.failed reader.new ≡ R.failed reader.old)
            (λ e. TellsRead (R.left reader.new) (R.failed reader.old) (R.failed reader.new) (R.last_fault reader.new) e.kind) }
        ensures refused { IfErr result (λ e. IfSome (R.left reader.old) (λ bytes.
            IsRefusal A.reads P.reads bytes (R.left reader.new) (R.failed reader.old) (R.failed reader.new) (R.last_fault reader.new) e.kind)) }
        ensures same { R.through reader.new ≡ R.through reader.old }
    {
        read_header(reader)?;
        let ap_message = read_part::<A, R>(alloc, reader)?;
        let krb_priv = read_part::<P, R>(alloc, reader)?;
        Ok(KrbPrivFrame {
            ap_message,
            krb_priv,
        })
    }
}

// Appends a header with these lengths, and the parts.
fn put_frame(
    to: &mut Vec<u8>,
    count: u16,
    size: u16,
    ap_message: &[u8],
    krb_priv: &[u8],
) -> Result<(), AllocError>
    ensures { IfOk result (λ _. to.new.items ≡ to.old.items ++ framed count size ap_message.now krb_priv.now) }
{
    to.extend_from_slice(&u16_be_bytes(count))?;
    to.extend_from_slice(&u16_be_bytes(PROTOCOL_VERSION))?;
    to.extend_from_slice(&u16_be_bytes(size))?;
    to.extend_from_slice(ap_message)?;
    to.extend_from_slice(krb_priv)?;
    Ok(())
}

// Computes the length of a whole frame; `InvalidInput` where it doesn't fit its two bytes.
fn count_of(ap_message: &[u8], krb_priv: &[u8]) -> Result<u16, ErrorKind>
    ensures { MatchResult result
        (λ count. (count ≡ 6 + length ap_message.now + length krb_priv.now) × (count < 2 ^ 16))
        (IsTooLong ap_message.now krb_priv.now) }
{
    let Some(behind) = ap_message.len().checked_add(krb_priv.len()) else {
        return Err(ErrorKind::InvalidInput);
    };
    if behind > MOST_BYTES - HEADER_LEN {
        return Err(ErrorKind::InvalidInput);
    }
    Ok((behind + HEADER_LEN) as u16)
}

// Encodes the header and the two parts; `InvalidInput` where a length doesn't fit its two bytes.
fn bytes_of(alloc: Global, ap_message: &[u8], krb_priv: &[u8]) -> Result<Vec<u8>, ErrorKind>
    ensures { MatchResult result
        (λ bytes. (bytes.items ≡ frame_bytes ap_message.now krb_priv.now) × IsFrame ap_message.now krb_priv.now bytes.items)
        (IsTooLong ap_message.now krb_priv.now) }
{
    let count = count_of(ap_message, krb_priv)?;
    let size = ap_message.len() as u16;
    let mut bytes = Vec::new(alloc);
    match put_frame(&mut bytes, count, size, ap_message, krb_priv) {
        Ok(()) => Ok(bytes),
        Err(_) => Err(ErrorKind::OutOfMemory),
    }
}

impl<A: Serialize, P: Serialize> KrbPrivFrame<A, P> {
    // Encodes the frame.
    fn bytes(&self, alloc: Global) -> Result<Vec<u8>, ErrorKind>
        ensures { MatchResult result
            (λ bytes. (bytes.items ≡ frame_bytes (der (A.tree self.now.ap_message)) (der (P.tree self.now.krb_priv)))
            × IsFrame (der (A.tree self.now.ap_message)) (der (P.tree self.now.krb_priv)) bytes.items)
            (IsUnframable (refusal_of A.refusal self.now.ap_message) (refusal_of P.refusal self.now.krb_priv)
            (der (A.tree self.now.ap_message)) (der (P.tree self.now.krb_priv))) }
    {
        let ap_message = part_bytes(alloc, &self.ap_message)?;
        let krb_priv = part_bytes(alloc, &self.krb_priv)?;
        bytes_of(alloc, &ap_message, &krb_priv)
    }

    /// Writes the frame with its true lengths; a front of it where the writer stops.
    ///
    /// A frame of more than 65,535 bytes is `InvalidInput`, and so is a part that its type refuses to write; then nothing
    /// is written.
    pub fn serialize<W: Sink>(&self, alloc: Global, writer: &mut W) -> Result<(), KrbPrivFrameError>
        ensures written { MatchResult result
            (λ _. Appends (W.written writer.old) (W.written writer.new)
            (frame_bytes (der (A.tree self.now.ap_message)) (der (P.tree self.now.krb_priv))))
            (λ _. (n : ℕ) × Appends (W.written writer.old) (W.written writer.new)
            (take n (frame_bytes (der (A.tree self.now.ap_message)) (der (P.tree self.now.krb_priv))))) }
        ensures laid { IfOk result (λ _. IsFrame (der (A.tree self.now.ap_message)) (der (P.tree self.now.krb_priv))
            (frame_bytes (der (A.tree self.now.ap_message)) (der (P.tree self.now.krb_priv)))) }
        ensures stop { MatchResult result (λ _. W.failed writer.new ≡ W.failed writer.old)
            (λ e. (IsUnframable (refusal_of A.refusal self.now.ap_message) (refusal_of P.refusal self.now.krb_priv)
            (der (A.tree self.now.ap_message)) (der (P.tree self.now.krb_priv)) e.kind
            × (W.written writer.new ≡ W.written writer.old) × (W.failed writer.new ≡ W.failed writer.old))
            ⊎ IsWriteStop (W.failed writer.old) (W.failed writer.new) (W.last_fault writer.new) e.kind) }
        ensures same { W.through writer.new ≡ W.through writer.old }
    {
        let bytes = self.bytes(alloc)?;
        match write_bytes(writer, &bytes) {
            Ok(()) => Ok(()),
            Err(kind) => Err(KrbPrivFrameError { kind }),
        }
    }
}

/// The law that a frame that was written is read again: of values that their types write whole, each in at most 10,240
/// bytes. It does nothing.
pub fn written_is_read<A: Deserialize, P: Deserialize>()
    ensures { (a : A) (p : P) → IsWhole (A.tree a) → IsWhole (P.tree p)
        → length (der (A.tree a)) ≤ element_limit → length (der (P.tree p)) ≤ element_limit
        → IsFramedAs (Writes A.tree) (Writes P.tree) a p (frame_bytes (der (A.tree a)) (der (P.tree p))) }
{}

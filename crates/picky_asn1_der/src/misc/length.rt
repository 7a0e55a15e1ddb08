//! Lengths alone.
ghost use Rattle.std.specs.Prelude.{◌≡◌, length, None, false, IfOk, IfErr, MatchResult};
ghost use Rattle.std.specs.Io.KnownBytes.{Consumes};
ghost use Rattle.asn1_der.specs.Length.{length_octets};
ghost use Rattle.asn1_codec.specs.Reading.{TellsKind, result_faults};
ghost use Rattle.asn1_codec.specs.Writing.{WroteValue, NotWroteTo, at_sink};
ghost use Rattle.asn1_codec.specs.Lengths.{AreLengthOctets};
ghost use Rattle.picky_asn1_der.specs.Streams.{IsWantingNext};

use crate::misc::read_ext::ReadExt;
use asn1_codec::{split_length, write_octets};
use asn1_der::{Asn1DerError, LengthOctets, following};
use byte_streams::{Sink, Source, read_full};

/// The length octets of an element: definite, and as few as there can be (X.690, sections 8.1.3 and 10.1).
pub struct Length;

impl Length {
    /// Takes the length octets that come next from `reader`, just these, and gives the length.
    ///
    /// Where none are next it answers `TruncatedData` if the reader ended inside some, else `InvalidData`: for an
    /// indefinite length, and for one in more octets than it needs or of 2^64 and more. Where the reader fails it
    /// answers `Other`.
    pub fn deserialized<R: Source>(reader: &mut R) -> Result<usize, Asn1DerError>
        ensures value { IfOk result (λ count. Consumes (R.left reader.old) (R.left reader.new) (length_octets count)) }
        ensures fault { IfErr result (IsWantingNext AreLengthOctets (R.left reader.old)) }
        ensures count { R.failed reader.new ≡ result_faults result (R.failed reader.old) }
        ensures kind { IfErr result (λ fault. TellsKind fault (R.last_fault reader.new)) }
        ensures same { R.through reader.new ≡ R.through reader.old }
    {
        let first = reader.read_one()?;
        let Some(more) = following(first) else {
            return Err(Asn1DerError::InvalidData);
        };
        let mut octets = [first; 9];
        let count = match read_full(reader, &mut octets[1..1 + more]) {
            Ok(count) => count,
            Err(kind) => return Err(Asn1DerError::Other(kind)),
        };
        let (length, _) = split_length(&octets[..1 + count])?;
        Ok(length)
    }

    /// Writes the length octets of `count` to `writer`, and gives how many they are: `82 01 22` of 290.
    pub fn serialize<W: Sink>(count: usize, writer: &mut W) -> Result<usize, Asn1DerError>
        ensures { let view = at_sink W.written W.room W.failed W.last_fault W.grows W.through in MatchResult result
            (WroteValue None (length_octets count) (view false writer.old) (view false writer.new))
            (NotWroteTo None (length_octets count) (view false writer.old) (view false writer.new)) }
    {
        write_octets(LengthOctets::of(count).as_bytes(), writer)
    }

    /// How many length octets `count` has: as many as `serialize` writes.
    pub fn encoded_len(count: usize) -> usize
        ensures { result ≡ length (length_octets count) }
    {
        LengthOctets::of(count).as_bytes().len()
    }
}

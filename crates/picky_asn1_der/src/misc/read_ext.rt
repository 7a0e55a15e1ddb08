//! Single octets of a source.
ghost use Rattle.std.specs.Prelude.{◌≡◌, [], ◌∷◌, IfOk, IfErr};
ghost use Rattle.std.specs.Io.KnownBytes.{Consumes};
ghost use Rattle.asn1_codec.specs.Reading.{TellsKind, result_faults};
ghost use Rattle.picky_asn1_der.specs.Streams.{IsNoOctet};

use asn1_der::Asn1DerError;
use byte_streams::{Source, read_full};

/// A source of which single octets are taken.
pub trait ReadExt: Source + Sized {
    /// Takes the next octet: `TruncatedData` at the end, `Other` where the source fails.
    fn read_one(&mut self) -> Result<u8, Asn1DerError>
        ensures octet { IfOk result (λ octet. Consumes (Self.left self.old) (Self.left self.new) (octet ∷ [])) }
        ensures fault { IfErr result (IsNoOctet (Self.left self.old)) }
        ensures count { Self.failed self.new ≡ result_faults result (Self.failed self.old) }
        ensures kind { IfErr result (λ fault. TellsKind fault (Self.last_fault self.new)) }
        ensures same { Self.through self.new ≡ Self.through self.old };
}

impl<R: Source> ReadExt for R {
    fn read_one(&mut self) -> Result<u8, Asn1DerError> {
        let mut octet = [0u8; 1];
        match read_full(self, &mut octet) {
            Ok(count) => {
                if count == 0 {
                    return Err(Asn1DerError::TruncatedData);
                }
                Ok(octet[0])
            }
            Err(kind) => Err(Asn1DerError::Other(kind)),
        }
    }
}

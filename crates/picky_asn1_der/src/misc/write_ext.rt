//! Octets into a sink.
ghost use Rattle.std.specs.Prelude.{[], ◌∷◌, None, false, MatchResult};
ghost use Rattle.asn1_codec.specs.Writing.{WroteValue, NotWroteTo, at_sink};

use asn1_codec::write_octets;
use asn1_der::Asn1DerError;
use byte_streams::Sink;

/// A sink into which octets are written as they stand.
pub trait WriteExt: Sink + Sized {
    /// Writes one octet, and gives that it is one.
    fn write_one(&mut self, octet: u8) -> Result<usize, Asn1DerError>
        ensures { let view = at_sink Self.written Self.room Self.failed Self.last_fault Self.grows Self.through in MatchResult result
            (WroteValue None (octet ∷ []) (view false self.old) (view false self.new))
            (NotWroteTo None (octet ∷ []) (view false self.old) (view false self.new)) };

    /// Writes all of `bytes`, and gives how many bytes they are. `InvalidSink` says that the sink is full, `Memory` that
    /// its memory didn't grow; where it fails, a front of them is written.
    fn write_exact(&mut self, bytes: &[u8]) -> Result<usize, Asn1DerError>
        ensures { let view = at_sink Self.written Self.room Self.failed Self.last_fault Self.grows Self.through in MatchResult result
            (WroteValue None bytes.now (view false self.old) (view false self.new))
            (NotWroteTo None bytes.now (view false self.old) (view false self.new)) };
}

impl<W: Sink> WriteExt for W {
    fn write_one(&mut self, octet: u8) -> Result<usize, Asn1DerError> {
        write_octets(&[octet], self)
    }

    fn write_exact(&mut self, bytes: &[u8]) -> Result<usize, Asn1DerError> {
        write_octets(bytes, self)
    }
}

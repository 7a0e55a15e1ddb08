//! Object identifiers that differ in their last octet alone.
ghost use Rattle.std.specs.Prelude.{◌≡◌};
ghost use Rattle.x509_algorithms.specs.Arcs as arcs;
ghost use Rattle.x509_algorithms.specs.Arcs.{nist_hashes};

/// The one octet that follows the prefix, if the content is just these.
pub fn octet_behind(prefix: &[u8], content: &[u8]) -> Option<u8>
    ensures { result ≡ arcs.octet_behind prefix.now content.now }
{
    match content.strip_prefix(prefix) {
        Some(rest) => only_octet(rest),
        None => None,
    }
}

fn only_octet(content: &[u8]) -> Option<u8>
    ensures { result ≡ arcs.only_octet content.now }
{
    match content {
        [octet] => Some(*octet),
        _ => None,
    }
}

/// The arc behind nistAlgorithms and hashAlgs (2.16.840.1.101.3.4.2).
pub(crate) fn nist_hash(content: &[u8]) -> Option<u8>
    ensures { result ≡ arcs.octet_behind nist_hashes content.now }
{
    octet_behind(&[0x60, 0x86, 0x48, 1, 0x65, 3, 4, 2], content)
}

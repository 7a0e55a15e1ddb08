//! Each algorithm can be written.
ghost use Rattle.x509_keys.specs.Encodings.{HasEncoding, IsCurveWhole};

use x509_algorithms::{AlgorithmIdentifier, AlgorithmIdentifierParameters};

/// Each algorithm that a program holds has a DER encoding. It does nothing when it runs: its contract is the law.
pub fn has_encoding(algorithm: &AlgorithmIdentifier)
    ensures { HasEncoding algorithm.now }
{
    let _octets = algorithm.oid().as_bytes();
    hold_curve(algorithm.parameters());
}

// Does nothing when it runs: a curve's identifier is an object identifier.
fn hold_curve(parameters: &AlgorithmIdentifierParameters)
    ensures { IsCurveWhole parameters.now }
{
    match parameters {
        AlgorithmIdentifierParameters::Ec(curve) => {
            let _octets = curve.curve_oid().as_bytes();
        }
        _ => {}
    }
}

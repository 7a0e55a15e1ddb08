//! Parameters of algorithms (RFC 5280, section 4.1.1.2), and the kinds that an identifier decides.
ghost use Rattle.std.specs.Prelude.{◌≡◌, IsTrue};
ghost use Rattle.x509_spelling.specs.declared.kinds.KindOf.TheVariants as kind;
ghost use Rattle.x509_algorithms.specs.AlgorithmKinds.{kinds_of, belongs};

use crate::algorithm_class::{
    AesCiphers, CurveKeys, Hashes, PlainAlgorithms, PssSignatures, RsaAlgorithms, Signatures,
};
use crate::{AesParameters, EcParameters, NoNull, Null, RsaNull, RsassaPssParams};
use picky_asn1::oid::ObjectIdentifier;
use picky_asn1_der::DefaultField;
use std::alloc::AllocError;
use x509_spelling::{Implied, KindOf, LastKind, ToldBy};

/// The parameters of an algorithm. The algorithm's identifier decides their kind.
#[derive(Debug, Drop, PartialEq, Eq)]
pub enum AlgorithmIdentifierParameters {
    /// There are no parameters.
    None,
    /// NULL.
    Null,
    /// The parameters of AES.
    Aes(AesParameters),
    /// An elliptic curve.
    Ec(EcParameters),
    /// The parameters of an RSASSA-PSS signature.
    RsassaPss(RsassaPssParams),
}

impl Clone for AlgorithmIdentifierParameters {
    ghost is_clone = { λ params copy. copy ≡ params };

    fn clone(&self) -> Result<AlgorithmIdentifierParameters, AllocError> {
        Ok(match self {
            AlgorithmIdentifierParameters::None => AlgorithmIdentifierParameters::None,
            AlgorithmIdentifierParameters::Null => AlgorithmIdentifierParameters::Null,
            AlgorithmIdentifierParameters::Aes(params) => AlgorithmIdentifierParameters::Aes(
                params.clone()?,
            ),
            AlgorithmIdentifierParameters::Ec(curve) => AlgorithmIdentifierParameters::Ec(
                curve.clone()?,
            ),
            AlgorithmIdentifierParameters::RsassaPss(params) =>
                AlgorithmIdentifierParameters::RsassaPss(params.clone()?),
        })
    }
}

type LaterKinds = KindOf<
    ToldBy<PlainAlgorithms, ()>,
    KindOf<
        ToldBy<CurveKeys, (EcParameters, ())>,
        KindOf<
            ToldBy<PssSignatures, (RsassaPssParams, ())>,
            LastKind<ToldBy<AesCiphers, (AesParameters, ())>>,
        >,
    >,
>;

/// The kinds of parameters, in the order in which an identifier is asked for them.
pub type AlgorithmKinds = KindOf<
    ToldBy<RsaAlgorithms, (Implied<Null<RsaNull>>, ())>,
    KindOf<
        ToldBy<Hashes, ((), ())>,
        KindOf<ToldBy<Signatures, (DefaultField<Null<NoNull>>, ())>, LaterKinds>,
    >,
>;

/// The parameters that are of this kind, which the identifier decides.
pub fn of_kinds(oid: &ObjectIdentifier, kinds: AlgorithmKinds) -> AlgorithmIdentifierParameters
    requires { IsTrue (belongs oid.now kinds) }
    ensures { kinds_of oid.now result ≡ kinds }
{
    match kinds {
        KindOf::This(_) => AlgorithmIdentifierParameters::Null,
        KindOf::Other(KindOf::This(_)) => AlgorithmIdentifierParameters::Null,
        KindOf::Other(KindOf::Other(KindOf::This(_))) => AlgorithmIdentifierParameters::None,
        KindOf::Other(KindOf::Other(KindOf::Other(later))) => of_later(oid, later),
    }
}

// The parameters that are of one of the later kinds.
fn of_later(oid: &ObjectIdentifier, kinds: LaterKinds) -> AlgorithmIdentifierParameters
    requires { IsTrue (belongs oid.now (kind.Other (kind.Other (kind.Other kinds)))) }
    ensures { kinds_of oid.now result ≡ kind.Other (kind.Other (kind.Other kinds)) }
{
    match kinds {
        KindOf::This(_) => AlgorithmIdentifierParameters::None,
        KindOf::Other(KindOf::This(told)) => {
            let (curve, ()) = told.into_fields();
            AlgorithmIdentifierParameters::Ec(curve)
        }
        KindOf::Other(KindOf::Other(KindOf::This(told))) => {
            let (params, ()) = told.into_fields();
            AlgorithmIdentifierParameters::RsassaPss(params)
        }
        KindOf::Other(KindOf::Other(KindOf::Other(LastKind(told)))) => {
            let (params, ()) = told.into_fields();
            AlgorithmIdentifierParameters::Aes(params)
        }
    }
}

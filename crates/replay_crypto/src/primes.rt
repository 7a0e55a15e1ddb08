//! Keys of two primes, and their signatures.

use crate::numbers;
use crate::row::Vector;
use crate::signatures::{hash_of, key_of};
use public_key_cryptography::{PrimeNumbers, Primes, PrimesRefusal, PrivateKey};
use std::alloc::Global;

/// Both primes and the coefficient, which are taken, or refused by name.
pub(crate) fn are_refused(alloc: Global, row: &Vector<'_>) -> bool {
    let [prime1, prime2, coefficient] = row.columns.as_slice() else {
        return false;
    };
    match primes_of(alloc, [prime1, prime2, &[], &[], coefficient]) {
        Some(Ok(_)) => row.first == "taken",
        Some(Err(refusal)) => name_of(refusal) == (row.first, row.second),
        None => false,
    }
}

fn name_of(refusal: PrimesRefusal) -> (&'static str, &'static str) {
    match refusal {
        PrimesRefusal::Prime1(refusal) => ("Prime1", numbers::name_of(refusal)),
        PrimesRefusal::Prime2(refusal) => ("Prime2", numbers::name_of(refusal)),
        PrimesRefusal::OtherSizes => ("OtherSizes", ""),
        PrimesRefusal::LongCoefficient => ("LongCoefficient", ""),
    }
}

/// Returns the primes of the five numbers, or why they are refused. None: memory ran out.
fn primes_of(alloc: Global, numbers: [&[u8]; 5]) -> Option<Result<Primes, PrimesRefusal>> {
    let [prime1, prime2, exponent1, exponent2, coefficient] = numbers;
    Some(Primes::new(PrimeNumbers {
        prime1: Vec::from_slice(alloc, prime1).ok()?,
        prime2: Vec::from_slice(alloc, prime2).ok()?,
        exponent1: Vec::from_slice(alloc, exponent1).ok()?,
        exponent2: Vec::from_slice(alloc, exponent2).ok()?,
        coefficient: Vec::from_slice(alloc, coefficient).ok()?,
    }))
}

/// Modulus, exponent, the five numbers of the primes, message, and the signature, which is empty if there is none.
pub(crate) fn is_signed(alloc: Global, row: &Vector<'_>) -> bool {
    let (
        Some(hash),
        [
            modulus,
            exponent,
            p,
            q,
            dp,
            dq,
            coefficient,
            message,
            signature,
        ],
    ) = (hash_of(row.first), row.columns.as_slice())
    else {
        return false;
    };
    let Ok(public) = key_of(modulus, exponent) else {
        return false;
    };
    let Some(Ok(primes)) = primes_of(alloc, [p, q, dp, dq, coefficient]) else {
        return signature.is_empty();
    };
    let key = PrivateKey::new(public, Vec::new(alloc)).with_primes(primes);
    match key.sign(alloc, hash, message) {
        Ok(Some(made)) => made.as_slice() == signature.as_slice(),
        Ok(None) => signature.is_empty(),
        Err(_) => false,
    }
}

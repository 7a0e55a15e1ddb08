//! Groups, hash functions and refusals of keys.
ghost use Rattle.equality_and_copies.specs.Equalities.{bare, variants, or_none, or_field};
ghost use Rattle.modular_arithmetic.specs.contracts.modulus.ModulusRefusal.{the_type as modulus_refusal_type};
ghost use Rattle.public_key_cryptography.specs.contracts.group.Group.{the_type as group_type};
ghost use Rattle.public_key_cryptography.specs.contracts.group.GroupRefusal.{the_type as group_refusal_type};
ghost use Rattle.public_key_cryptography.specs.contracts.group.WeakGroup.{the_type as weak_group_type};
ghost use Rattle.public_key_cryptography.specs.contracts.hash.HashFunction.{the_type as hash_type};
ghost use Rattle.public_key_cryptography.specs.contracts.public_key.KeyRefusal.{«enum» as key_refusal_enum};
ghost use Rattle.public_key_cryptography.specs.contracts.rsa_primes.PrimesRefusal.{«enum» as primes_refusal_enum};

use crate::equality::Equality;
use modular_arithmetic::ModulusRefusal;
use public_key_cryptography::{
    Group, GroupRefusal, HashFunction, KeyRefusal, PrimesRefusal, WeakGroup,
};

impl Equality for Group {
    ghost is_equality = { bare group_type tt };
}

impl Equality for WeakGroup {
    ghost is_equality = { bare weak_group_type tt };
}

impl Equality for GroupRefusal {
    ghost is_equality = { bare group_refusal_type tt };
}

impl Equality for HashFunction {
    ghost is_equality = { bare hash_type tt };
}

impl Equality for ModulusRefusal {
    ghost is_equality = { bare modulus_refusal_type tt };
}

impl Equality for KeyRefusal {
    ghost use Rattle.equality_and_copies.specs.contracts.equality.agreements.ModulusRefusalEquality.TheImpl.Laws.{is_equality-law as modulus};

    ghost is_equality = { variants key_refusal_enum (or_field modulus (or_none (or_none (or_none (or_none (or_none tt)))))) };
}

impl Equality for PrimesRefusal {
    ghost use Rattle.equality_and_copies.specs.contracts.equality.agreements.ModulusRefusalEquality.TheImpl.Laws.{is_equality-law as modulus};

    ghost is_equality = { variants primes_refusal_enum (or_field modulus (or_field modulus (or_none (or_none tt)))) };
}

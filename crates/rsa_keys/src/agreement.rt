//! Agreements on a secret (RFC 4556, sections 3.2.1 and 3.2.3.1).
ghost use Rattle.std.specs.Prelude.{◌≡◌, ◌≢◌, IfOk, MatchOption, None, Some};
ghost use Rattle.std.specs.Option.{option_map};
ghost use Rattle.x509_keys.specs.KeyFunctions.{theirs_of};
ghost use Rattle.x509_keys.specs.KeyFunctions.TheirValue.{ValueBits, WholeValue};
ghost use Rattle.picky_asn1.specs.Integer.{unsigned_octets};
ghost use Rattle.public_key_cryptography.specs.Agreements.{shared_of};
ghost use Rattle.rsa_keys.specs.Values.{value_element};
ghost use Rattle.rsa_keys.specs.Agreements.{IsRefused, IsTheirs, agreed, own_value};

use crate::{DhFault, DhPublicValue};
use picky_asn1::wrapper::BitStringAsn1;
use picky_asn1_der::Asn1RawDer;
use public_key_cryptography::{Exchange, Group, WeakGroup};
use std::alloc::{AllocError, Global};
use x509_keys::Theirs;

/// The SubjectPublicKeyInfo of the public value of a secret number. `None` if that is 0, 1 or the prime less 1.
pub(crate) fn own_value(
    alloc: Global,
    group: Group,
    secret: &[u8],
) -> Result<Option<Asn1RawDer>, AllocError>
    ensures { IfOk result (λ made. made ≡ own_value group secret.now) }
{
    match DhPublicValue::of_secret(alloc, group, secret) {
        Ok(value) => element_of(alloc, &value),
        Err(fault) => none_unless_memory(fault),
    }
}

fn element_of(alloc: Global, value: &DhPublicValue) -> Result<Option<Asn1RawDer>, AllocError>
    ensures { IfOk result (λ made. made ≡ Some (value_element value.now.group value.now.number)) }
{
    let element = value.to_element(alloc)?;
    Ok(Some(element))
}

/// Nothing, where another fault than that of memory is the cause.
fn none_unless_memory<T: Drop>(fault: DhFault) -> Result<Option<T>, AllocError>
    ensures { IfOk result (λ read. (read ≡ None) × (fault ≢ DhFault.Memory)) }
{
    if fault == DhFault::Memory {
        return Err(AllocError);
    }
    Ok(None)
}

/// The secret that is shared with the peer by the own secret number. `None` if the peer's value isn't one of this group.
pub(crate) fn agreed(
    alloc: Global,
    group: Group,
    theirs: Theirs<'_>,
    secret: &[u8],
) -> Result<Option<Vec<u8>>, AllocError>
    ensures { IfOk result (λ made. option_map (λ shared. shared.items) made ≡ agreed group (theirs_of theirs.entry) secret.now) }
{
    let read = theirs_in(alloc, group, theirs)?;
    match read {
        Some(value) => shared_by(alloc, group, &value, secret),
        None => Ok(None),
    }
}

fn shared_by(
    alloc: Global,
    group: Group,
    value: &DhPublicValue,
    secret: &[u8],
) -> Result<Option<Vec<u8>>, AllocError>
    ensures { IfOk result (λ made. option_map (λ shared. shared.items) made ≡ shared_of group (unsigned_octets value.now.number) secret.now) }
{
    let exchange = Exchange {
        value: value.octets(),
        secret,
    };
    group.shared_secret(alloc, &exchange)
}

/// The peer's value, if it is one of this group.
fn theirs_in(
    alloc: Global,
    group: Group,
    theirs: Theirs<'_>,
) -> Result<Option<DhPublicValue>, AllocError>
    ensures { IfOk result (λ read. MatchOption read (IsRefused group (theirs_of theirs.entry)) (IsTheirs group (theirs_of theirs.entry))) }
{
    match theirs {
        Theirs::Whole(element) => whole_in(alloc, group, element),
        Theirs::Bits(bits) => bits_in(alloc, group, bits),
    }
}

fn whole_in(
    alloc: Global,
    group: Group,
    element: &Asn1RawDer,
) -> Result<Option<DhPublicValue>, AllocError>
    ensures { IfOk result (λ read. MatchOption read (IsRefused group (WholeValue element.now)) (IsTheirs group (WholeValue element.now))) }
{
    match DhPublicValue::read(alloc, element, WeakGroup::Taken) {
        Ok(value) => Ok(in_group(value, group)),
        Err(fault) => none_unless_memory(fault),
    }
}

/// The value, if it is one of this group.
fn in_group(value: DhPublicValue, group: Group) -> Option<DhPublicValue>
    ensures { MatchOption result (value.group ≢ group) (λ same. (same ≡ value) × (value.group ≡ group)) }
{
    if value.group() == group {
        Some(value)
    } else {
        None
    }
}

fn bits_in(
    alloc: Global,
    group: Group,
    bits: &BitStringAsn1,
) -> Result<Option<DhPublicValue>, AllocError>
    ensures { IfOk result (λ read. MatchOption read (IsRefused group (ValueBits bits.now)) (IsTheirs group (ValueBits bits.now))) }
{
    match DhPublicValue::read_bits(alloc, group, bits) {
        Ok(value) => Ok(Some(value)),
        Err(fault) => none_unless_memory(fault),
    }
}

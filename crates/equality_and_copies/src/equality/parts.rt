//! Parts that many types have.
ghost use Rattle.std.specs.Cmp.{unsigned_Decides};
ghost use Rattle.std.specs.Cmp.Lexicographic.{bytes_decides};
ghost use Rattle.equality_and_copies.specs.Equalities.{told_by, fields, both, last, options, bare, variants, or_field};
ghost use Rattle.equality_and_copies.specs.WrappedEquality.{optional, default_field, default_false};
ghost use Rattle.equality_and_copies.specs.contracts.equality.leaves.RawElementEquality.TheImpl.Laws.{is_equality-law as raw};
ghost use Rattle.equality_and_copies.specs.contracts.equality.leaves.ObjectIdentifierAsn1Equality.TheImpl.Laws.{is_equality-law as oid};
ghost use Rattle.equality_and_copies.specs.contracts.equality.leaves.UTCTimeAsn1Equality.TheImpl.Laws.{is_equality-law as utc_time};
ghost use Rattle.equality_and_copies.specs.contracts.equality.leaves.GeneralizedTimeAsn1Equality.TheImpl.Laws.{is_equality-law as generalized_time};
ghost use Rattle.x509_spelling.specs.contracts.fault.X509Fault.{the_type as x509_fault_type};
ghost use Rattle.x509_fields.specs.contracts.basic_constraints.BasicConstraints.{the_type as basic_constraints_type};
ghost use Rattle.x509_fields.specs.contracts.directory_string.DirectoryString.{«enum» as directory_string_enum};
ghost use Rattle.x509_fields.specs.contracts.time.Time.{«enum» as time_enum};
ghost use Rattle.x509_fields.specs.contracts.version.Version.{the_type as version_type};

use crate::equality::Equality;
use x509_fields::{
    BasicConstraints, DirectoryString, RawAlgorithmIdentifier, RawParameters, Time, Validity,
    Version,
};
use x509_spelling::X509Fault;

impl Equality for X509Fault {
    ghost is_equality = { bare x509_fault_type tt };
}

impl Equality for BasicConstraints {
    ghost is_equality = { fields basic_constraints_type (both (default_field default_false) (last (optional (options unsigned_Decides)))) };
}

impl Equality for DirectoryString {
    ghost is_equality = { variants directory_string_enum (or_field bytes_decides (or_field bytes_decides (or_field bytes_decides tt))) };
}

impl Equality for RawParameters {
    ghost is_equality = { told_by (λ v. v.0) raw (λ v w e i. record { 0 = e i }) };
}

impl Equality for RawAlgorithmIdentifier {
    ghost use Rattle.equality_and_copies.specs.contracts.equality.parts.RawParametersEquality.TheImpl.Laws.{is_equality-law as raw_parameters};
    ghost use Rattle.x509_fields.specs.contracts.raw_algorithm_identifier.RawAlgorithmIdentifier.{the_type};

    ghost is_equality = { fields the_type (both oid (last raw_parameters)) };
}

impl Equality for Time {
    ghost is_equality = { variants time_enum (or_field utc_time (or_field generalized_time tt)) };
}

impl Equality for Validity {
    ghost use Rattle.equality_and_copies.specs.contracts.equality.parts.TimeEquality.TheImpl.Laws.{is_equality-law as time};
    ghost use Rattle.x509_fields.specs.contracts.validity.Validity.{the_type};

    ghost is_equality = { fields the_type (both time (last time)) };
}

impl Equality for Version {
    ghost is_equality = { bare version_type tt };
}

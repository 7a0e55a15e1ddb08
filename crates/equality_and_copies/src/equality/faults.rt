//! Faults.
ghost use Rattle.std.specs.Cmp.{unsigned_Decides};
ghost use Rattle.equality_and_copies.specs.Equalities.{bare, fields, last, variants, or_none, or_field};
ghost use Rattle.asn1_leaves.specs.contracts.fault.LeafFault.{the_type as leaf_fault_type};
ghost use Rattle.std.specs.contracts.io.ErrorKind.{the_type as error_kind_type};
ghost use Rattle.asn1_der.specs.contracts.error.Rule.{the_type as rule_type};
ghost use Rattle.asn1_der.specs.contracts.error.Unsupported.{the_type as unsupported_type};
ghost use Rattle.krb_messages.specs.contracts.name_reading.NameTextFault.{the_type as name_text_fault_type};
ghost use Rattle.krb_constants.specs.contracts.error_names.ErrorCode.{the_type as error_code_type};

use crate::equality::Equality;
use asn1_leaves::LeafFault;
use byte_streams::{SinkFault, WholeFault};
use krb_constants::error_names::ErrorCode;
use krb_messages::NameTextFault;
use picky_asn1_der::{Asn1DerError, Rule, Unsupported};
use std::io::ErrorKind;
use x509_certificates::FileFault;

impl Equality for LeafFault {
    ghost is_equality = { bare leaf_fault_type tt };
}

impl Equality for ErrorKind {
    ghost is_equality = { bare error_kind_type tt };
}

impl Equality for Rule {
    ghost is_equality = { bare rule_type tt };
}

impl Equality for Unsupported {
    ghost is_equality = { bare unsupported_type tt };
}

impl Equality for Asn1DerError {
    ghost use Rattle.equality_and_copies.specs.contracts.equality.faults.ErrorKindEquality.TheImpl.Laws.{is_equality-law as error_kind};
    ghost use Rattle.equality_and_copies.specs.contracts.equality.faults.RuleEquality.TheImpl.Laws.{is_equality-law as rule};
    ghost use Rattle.asn1_der.specs.contracts.error.Asn1DerError.{«enum»};

    ghost is_equality = { variants «enum»
        (or_none (or_none (or_none (or_none (or_none (or_field rule (or_field error_kind (or_none tt)))))))) };
}

impl Equality for SinkFault {
    ghost use Rattle.equality_and_copies.specs.contracts.equality.faults.ErrorKindEquality.TheImpl.Laws.{is_equality-law as error_kind};
    ghost use Rattle.byte_streams.specs.contracts.sink.SinkFault.{«enum»};

    ghost is_equality = { variants «enum» (or_field error_kind (or_none tt)) };
}

impl Equality for WholeFault {
    ghost use Rattle.equality_and_copies.specs.contracts.equality.faults.ErrorKindEquality.TheImpl.Laws.{is_equality-law as error_kind};
    ghost use Rattle.byte_streams.specs.contracts.exact.WholeFault.{«enum»};

    ghost is_equality = { variants «enum» (or_none (or_field error_kind (or_none tt))) };
}

impl Equality for NameTextFault {
    ghost is_equality = { bare name_text_fault_type tt };
}

impl Equality for ErrorCode {
    ghost is_equality = { fields error_code_type (last unsigned_Decides) };
}

impl Equality for FileFault {
    ghost use Rattle.x509_certificates.specs.contracts.fault.FileFault.{«enum»};

    ghost is_equality = { variants «enum» (or_none (or_field unsigned_Decides (or_field unsigned_Decides (or_field unsigned_Decides
        (or_field unsigned_Decides (or_field unsigned_Decides (or_none tt))))))) };
}

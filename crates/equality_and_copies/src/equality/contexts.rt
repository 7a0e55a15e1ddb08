//! Terms and refusals of contexts (RFC 4121).
ghost use Rattle.std.specs.Cmp.{booleans_Decides, unsigned_Decides};
ghost use Rattle.equality_and_copies.specs.Equalities.{bare, both, fields, last, options};
ghost use Rattle.gss_contexts.specs.contracts.refusal.TokenRefusal.{the_type as token_refusal_type};
ghost use Rattle.gss_contexts.specs.contracts.side.Protection.{the_type as protection_type};
ghost use Rattle.gss_contexts.specs.contracts.side.Side.{the_type as side_type};
ghost use Rattle.gss_contexts.specs.contracts.terms.ContextTerms.{the_type as terms_type};
ghost use Rattle.gss_contexts.specs.contracts.terms.SequenceNumbers.{the_type as numbers_type};

use crate::equality::Equality;
use gss_contexts::{ContextTerms, Protection, SequenceNumbers, Side, TokenRefusal};

impl Equality for TokenRefusal {
    ghost is_equality = { bare token_refusal_type tt };
}

impl Equality for Protection {
    ghost is_equality = { bare protection_type tt };
}

impl Equality for Side {
    ghost is_equality = { bare side_type tt };
}

impl Equality for SequenceNumbers {
    ghost is_equality = { fields numbers_type (both unsigned_Decides (last unsigned_Decides)) };
}

impl Equality for ContextTerms {
    ghost use Rattle.equality_and_copies.specs.contracts.equality.contexts.SequenceNumbersEquality.TheImpl.Laws.{is_equality-law as numbers};

    ghost is_equality = { fields terms_type
        (both booleans_Decides (both booleans_Decides (both (options unsigned_Decides) (last numbers)))) };
}

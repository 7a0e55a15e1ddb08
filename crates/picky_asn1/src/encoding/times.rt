//! Times in DER.
ghost use Rattle.std.specs.Prelude.{◌≡◌, IfOk};
ghost use Rattle.asn1_der.specs.Octets.{generalized_time_octet, utc_time_octet};

use crate::date::{GeneralizedTime, UTCTime};
use crate::wrapper::{GeneralizedTimeAsn1, UTCTimeAsn1};
use asn1_der::octets::{GENERALIZED_TIME, UTC_TIME};
use byte_streams::Sink;
use picky_asn1_der::{Asn1DerError, Leaf, Rule, Serializer};
use std::alloc::{AllocError, Global};

impl Leaf for GeneralizedTimeAsn1 {
    ghost use Rattle.std.specs.Prelude.{true};
    ghost use Rattle.asn1_leaves.specs.GeneralizedTime.{time_text};
    ghost use Rattle.asn1_leaves.specs.TimeLaws.{time_text-injective};

    const OCTET: u8 = GENERALIZED_TIME;

    const RULE: Rule = Rule::Time;

    ghost OCTET = { generalized_time_octet };

    ghost is_valid = { λ _. true };

    ghost content_of = { λ time. time_text time.0 };

    ghost one_content = { λ v w _ _ e. let same = time_text-injective v.0 w.0 e in λ i. record { 0 = same i } };

    fn decode(alloc: Global, content: &[u8]) -> Result<Option<Self>, AllocError> {
        let Some(time) = GeneralizedTime::from_text(content) else {
            return Ok(None);
        };
        Ok(Some(GeneralizedTimeAsn1(time)))
    }

    fn write_content<W: Sink>(
        &self,
        tag: u8,
        to: &mut Serializer<W>,
    ) -> Result<usize, Asn1DerError> {
        to.element(tag, &self.0.to_text())
    }
}

impl Leaf for UTCTimeAsn1 {
    ghost use Rattle.std.specs.Prelude.{true};
    ghost use Rattle.asn1_leaves.specs.UtcTime.{utc_text};
    ghost use Rattle.asn1_leaves.specs.TimeLaws.{utc_text-injective};

    const OCTET: u8 = UTC_TIME;

    const RULE: Rule = Rule::Time;

    ghost OCTET = { utc_time_octet };

    ghost is_valid = { λ _. true };

    ghost content_of = { λ time. utc_text time.0 };

    ghost one_content = { λ v w _ _ e. let same = utc_text-injective v.0 w.0 e in λ i. record { 0 = same i } };

    fn decode(alloc: Global, content: &[u8]) -> Result<Option<Self>, AllocError> {
        let Some(time) = UTCTime::from_text(content) else {
            return Ok(None);
        };
        Ok(Some(UTCTimeAsn1(time)))
    }

    fn write_content<W: Sink>(
        &self,
        tag: u8,
        to: &mut Serializer<W>,
    ) -> Result<usize, Asn1DerError> {
        to.element(tag, &self.0.to_text())
    }
}

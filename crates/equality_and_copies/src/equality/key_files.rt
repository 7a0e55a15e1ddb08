//! Records of keytabs and of credential caches.
ghost use Rattle.std.proofs.Common.{ap};
ghost use Rattle.std.specs.Cmp.{unsigned_Decides};
ghost use Rattle.std.specs.Cmp.Lexicographic.{bytes_decides, pointwise_decides};
ghost use Rattle.equality_and_copies.specs.Equalities.{bare, both, fields, last, told_by, variants, or_none, or_field};
ghost use Rattle.krb_file_formats.specs.contracts.credential_caches.fault.CacheFault.{«enum» as cache_fault_enum};
ghost use Rattle.krb_file_formats.specs.contracts.credential_caches.fault.CacheWriteFault.{the_type as cache_write_fault_type};
ghost use Rattle.krb_file_formats.specs.contracts.credential_caches.times.CredentialTimes.{the_type as times_type};
ghost use Rattle.krb_file_formats.specs.contracts.fault.KeytabFault.{«enum» as keytab_fault_enum};
ghost use Rattle.krb_file_formats.specs.contracts.fault.KeytabWriteFault.{the_type as keytab_write_fault_type};

use crate::equality::Equality;
use krb_file_formats::{
    CacheFault, CachePrincipal, CacheWriteFault, CachedCredential, CredentialTimes, KeytabFault,
    KeytabRecord, KeytabWriteFault, TypedOctets,
};

impl Equality for KeytabFault {
    ghost is_equality = { variants keytab_fault_enum (or_field unsigned_Decides (or_field unsigned_Decides (or_field unsigned_Decides
        (or_field unsigned_Decides (or_none tt))))) };
}

impl Equality for KeytabWriteFault {
    ghost is_equality = { bare keytab_write_fault_type tt };
}

impl Equality for CacheFault {
    ghost is_equality = { variants cache_fault_enum (or_field unsigned_Decides (or_field unsigned_Decides (or_field unsigned_Decides
        (or_none tt)))) };
}

impl Equality for CacheWriteFault {
    ghost is_equality = { bare cache_write_fault_type tt };
}

impl Equality for KeytabRecord {
    ghost is_equality = { told_by
        (λ r. (r.realm, (r.components, (r.name_type, (r.timestamp, (r.kvno, (r.etype, r.key)))))))
        (both bytes_decides (both (pointwise_decides bytes_decides)
        (both unsigned_Decides (both unsigned_Decides (both unsigned_Decides (both unsigned_Decides bytes_decides))))))
        (λ v w e. ap (λ f. record {
          realm = f.0;
          components = f.1.0;
          name_type = f.1.1.0;
          timestamp = f.1.1.1.0;
          kvno = f.1.1.1.1.0;
          etype = f.1.1.1.1.1.0;
          key = f.1.1.1.1.1.1;
        }) e) };
}

impl Equality for CredentialTimes {
    ghost is_equality = { fields times_type
        (both unsigned_Decides (both unsigned_Decides (both unsigned_Decides (last unsigned_Decides)))) };
}

impl Equality for TypedOctets {
    ghost is_equality = { told_by (λ t. (t.kind, t.octets)) (both unsigned_Decides bytes_decides)
        (λ v w e. ap (λ f. record { kind = f.0; octets = f.1 }) e) };
}

impl Equality for CachePrincipal {
    ghost is_equality = { told_by (λ p. (p.name_type, (p.realm, p.components)))
        (both unsigned_Decides (both bytes_decides (pointwise_decides bytes_decides)))
        (λ v w e. ap (λ f. record { name_type = f.0; realm = f.1.0; components = f.1.1 }) e) };
}

impl Equality for CachedCredential {
    ghost use Rattle.equality_and_copies.specs.CredentialFields.{credential_of, fields_of};
    ghost use Rattle.equality_and_copies.specs.contracts.equality.key_files.CachePrincipalEquality.TheImpl.Laws.{is_equality-law as principal};
    ghost use Rattle.equality_and_copies.specs.contracts.equality.key_files.CredentialTimesEquality.TheImpl.Laws.{is_equality-law as times};
    ghost use Rattle.equality_and_copies.specs.contracts.equality.key_files.TypedOctetsEquality.TheImpl.Laws.{is_equality-law as typed};

    ghost is_equality = { told_by fields_of
        (both principal (both principal (both typed (both times (both unsigned_Decides (both unsigned_Decides
        (both (pointwise_decides typed) (both (pointwise_decides typed) (both bytes_decides bytes_decides)))))))))
        (λ v w e. ap credential_of e) };
}

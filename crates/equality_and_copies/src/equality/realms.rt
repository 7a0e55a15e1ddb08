//! Moments, settings of a realm, and what a ticket's flags are made of.
ghost use Rattle.std.proofs.Common.{ap};
ghost use Rattle.std.specs.Cmp.{booleans_Decides, unsigned_Decides};
ghost use Rattle.equality_and_copies.specs.Equalities.{bare, both, fields, last, told_by};
ghost use Rattle.krb_realm_accounts.specs.contracts.policy.Policy.{the_type as policy_type};
ghost use Rattle.krb_realm_accounts.specs.contracts.refusal.RealmRefusal.{the_type as realm_refusal_type};
ghost use Rattle.krb_tickets.specs.contracts.grant.TicketFlags.{the_type as ticket_flags_type};

use crate::equality::Equality;
use krb_realm_accounts::{Policy, RealmRefusal, Settings};
use krb_tickets::TicketFlags;
use krb_time::Moment;

impl Equality for Moment {
    ghost is_equality = { unsigned_Decides };
}

impl Equality for Policy {
    ghost is_equality = { fields policy_type (both booleans_Decides (both booleans_Decides (both booleans_Decides (both unsigned_Decides
        (both booleans_Decides (last booleans_Decides)))))) };
}

impl Equality for Settings {
    ghost use Rattle.equality_and_copies.specs.contracts.equality.realms.PolicyEquality.TheImpl.Laws.{is_equality-law as policy};

    ghost is_equality = { told_by (λ s. (s.skew, (s.lifetime, s.policy))) (both unsigned_Decides (both unsigned_Decides policy))
        (λ v w e. ap (λ f. record { skew = f.0; lifetime = f.1.0; policy = f.1.1 }) e) };
}

impl Equality for RealmRefusal {
    ghost is_equality = { bare realm_refusal_type tt };
}

impl Equality for TicketFlags {
    ghost is_equality = { fields ticket_flags_type (both booleans_Decides (both booleans_Decides (both booleans_Decides
        (both booleans_Decides (both booleans_Decides (both booleans_Decides (last booleans_Decides))))))) };
}

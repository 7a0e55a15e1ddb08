//! The options of a TGS request that a realm's policy allows or not.
ghost use Rattle.std.specs.Prelude.{◌≡◌, ◌&&◌, not};
ghost use Rattle.picky_asn1.specs.BitString.{bit_of};
ghost use Rattle.krb_constants.specs.declared.kdc_options.TheConstants.{RENEW};
ghost use Rattle.krb_kdc_exchanges.specs.Options.{asked_options, grants_renewable, has_option_beyond};

use krb_constants::kdc_options;
use krb_realm_accounts::Policy;
use picky_asn1::wrapper::BitStringAsn1;

/// What a TGS request asks for by its options, as far as the policy allows it (RFC 4120, section 5.4.1).
#[derive(Clone, Copy, Debug, Drop)]
pub struct AskedOptions {
    /// A forwarded ticket-granting ticket.
    pub forwards: bool,
    /// A proxy.
    pub proxies: bool,
    /// The presented ticket, renewed.
    pub renews: bool,
}

// Whether tickets of the realm may be renewed.
fn grants_renewable(policy: Policy) -> bool
    ensures { result ≡ grants_renewable policy }
{
    0 < policy.renewable_life
}

/// Whether the option is set and allowed.
pub(crate) fn is_allowed(options: &BitStringAsn1, option: usize, allowed: bool) -> bool
    ensures { result ≡ (bit_of options.now option && allowed) }
{
    options.bit(option) && allowed
}

// Whether the option is set and not allowed.
fn is_beyond(options: &BitStringAsn1, option: usize, allowed: bool) -> bool
    ensures { result ≡ (bit_of options.now option && not allowed) }
{
    options.bit(option) && !allowed
}

// Whether renew is set and allowed.
fn renews(policy: Policy, options: &BitStringAsn1) -> bool
    ensures { result ≡ (bit_of options.now RENEW && grants_renewable policy) }
{
    options.bit(kdc_options::RENEW) && grants_renewable(policy)
}

// Whether renew is set and not allowed.
fn renews_beyond(policy: Policy, options: &BitStringAsn1) -> bool
    ensures { result ≡ (bit_of options.now RENEW && not (grants_renewable policy)) }
{
    options.bit(kdc_options::RENEW) && !grants_renewable(policy)
}

/// What these options of a TGS request ask for, as far as the policy allows it.
pub(crate) fn asked_options(policy: Policy, options: &BitStringAsn1) -> AskedOptions
    ensures { result ≡ asked_options policy options.now }
{
    AskedOptions {
        forwards: is_allowed(options, kdc_options::FORWARDED, policy.forwardable),
        proxies: is_allowed(options, kdc_options::PROXY, policy.proxiable),
        renews: renews(policy, options),
    }
}

/// Whether one of these options of a TGS request is refused: forwarded, proxy or renew, where the policy doesn't allow it, or
/// enc-tkt-in-skey or validate, which no policy allows.
pub(crate) fn has_option_beyond(policy: Policy, options: &BitStringAsn1) -> bool
    ensures { result ≡ has_option_beyond policy options.now }
{
    is_beyond(options, kdc_options::FORWARDED, policy.forwardable)
        || is_beyond(options, kdc_options::PROXY, policy.proxiable)
        || options.bit(kdc_options::ENC_TKT_IN_SKEY)
        || renews_beyond(policy, options)
        || options.bit(kdc_options::VALIDATE)
}

//! A client and the time of an authenticator.
ghost use Rattle.std.specs.Prelude.{◌≡◌, IfOk};

use krb_realm_accounts::pack;
use krb_time::Moment;
use picky_asn1::wrapper::GeneralStringAsn1;
use std::alloc::{AllocError, Global};
use std::cmp::Ordering;
use std::marker::Model;

/// A client, by its realm and the components of its name, and the time of one of its authenticators, to
/// the microsecond (RFC 4120, section 5.5.1, `ctime` and `cusec`). Pairs are the same where the times are, and the
/// names have the same characters, in the same case. The earlier pair is the lesser. A contract sees the three.
///
/// The realm and the components are held in one block, which takes less memory than a list of them.
#[derive(Drop)]
pub struct Pair {
    time: Moment,
    client: Vec<u8>,
}

impl Model for Pair {
    ghost use Rattle.krb_service.specs.Packed.{IsPacked, components_in, realm_in};
    ghost use Rattle.krb_service.specs.Pair.{PairRecord};

    ghost Value = { PairRecord };

    ghost view = { λ p. record { realm = realm_in p.client.items; components = components_in p.client.items; time = p.time } };

    ghost invariant = { λ p. IsPacked p.client.items };
}

impl Pair {
    /// The pair of this client and this time. The names are copied.
    pub fn new(
        alloc: Global,
        realm: &GeneralStringAsn1,
        components: &[GeneralStringAsn1],
        time: Moment,
    ) -> Result<Pair, AllocError>
        ensures { IfOk result (λ pair. pair ≡ record { realm = realm.now; components = components.now; time = time }) }
    {
        let mut client = Vec::with_capacity(alloc, packed_len(realm, components))?;
        pack(&mut client, realm)?;
        for component in components {
            pack(&mut client, component)?;
        }
        Ok(Pair { time, client })
    }

    /// The time.
    pub fn time(&self) -> Moment
        ensures { result ≡ self.now.time }
    {
        self.time
    }
}

// How many bytes a block of these names takes. Only the memory that is taken at first depends on it.
fn packed_len(realm: &GeneralStringAsn1, components: &[GeneralStringAsn1]) -> usize {
    let mut len = realm.as_bytes().len().saturating_add(1);
    for component in components {
        len = len
            .saturating_add(component.as_bytes().len())
            .saturating_add(1);
    }
    len
}

impl PartialEq for Pair {
    ghost use Rattle.std.specs.Cmp.{partial_equiv_from_equiv};
    ghost use Rattle.krb_service.specs.Pair.{is_same_pair, pair_equiv};

    ghost eq = { is_same_pair };

    ghost laws = { partial_equiv_from_equiv pair_equiv };

    fn eq(&self, other: &Pair) -> bool {
        self.cmp(other).is_eq()
    }
}

impl Eq for Pair {
    ghost use Rattle.krb_service.specs.Pair.{pair_equiv};

    ghost laws = { pair_equiv };
}

impl PartialOrd for Pair {
    ghost use Rattle.krb_service.specs.Pair.{pair_partial_cmp, pair_order};

    ghost partial_cmp = { pair_partial_cmp };

    ghost laws = { pair_order };

    fn partial_cmp(&self, other: &Pair) -> Option<Ordering> {
        Some(self.cmp(other))
    }
}

/// The order of their times, then of their realms and of their components.
impl Ord for Pair {
    ghost use Rattle.std.specs.Prelude.{refl};
    ghost use Rattle.krb_service.specs.Pair.{pair_cmp, pair_total, pair_ties};

    ghost cmp = { pair_cmp };

    ghost total = { pair_total };

    ghost matches_partial_cmp = { λ p q. refl };

    ghost matches_eq = { pair_ties };

    fn cmp(&self, other: &Pair) -> Ordering {
        match self.time.cmp(&other.time) {
            Ordering::Equal => self.client.cmp(&other.client),
            order => order,
        }
    }
}

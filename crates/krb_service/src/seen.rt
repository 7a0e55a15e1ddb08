//! The replay cache.
ghost use Rattle.std.specs.Prelude.{◌≡◌, ◌-◌, ◌*◌, ◌&&◌, false, max, nat_le, List, [], ◌∷◌, OnOk, OnErr};
ghost use Rattle.std.specs.List.{filter};
ghost use Rattle.std.specs.Set.{distinct_count};
ghost use Rattle.krb_realm_accounts.specs.Settings.{IsSkew};
ghost use Rattle.krb_time.specs.Skew.{is_far, IsWithinDay};
ghost use Rattle.krb_service.specs.Pair.{PairRecord, is_among, is_same_pair, is_recent};
ghost use Rattle.krb_service.specs.Seen.{IsWholeSeconds, IsWindow};

use crate::pair::Pair;
use krb_time::{MICROSECONDS_IN_SECOND, Moment};
use std::alloc::{AllocError, Global};
use std::collections::BTreeSet;
use std::marker::Model;

/// A replay cache (RFC 4120, section 3.2.3): pairs of the authenticators that a service has admitted, and the greatest
/// moment that it was handed. It holds the window of these pairs: those whose times lie no further back than the skew. An
/// older authenticator is refused for its time.
#[derive(Drop)]
pub struct Seen {
    greatest: Moment,
    skew: u64,
    pairs: BTreeSet<Pair>,
}

impl Model for Seen {
    ghost use Rattle.std.specs.Prelude.{◌≡◌, ◌≤◌, true};
    ghost use Rattle.std.specs.List.{All};
    ghost use Rattle.krb_time.specs.Skew.{IsWithinDay};
    ghost use Rattle.krb_service.specs.Pair.{is_recent};
    ghost use Rattle.krb_service.specs.Seen.{IsWholeSeconds, SeenRecord};

    ghost Value = { SeenRecord };

    ghost view = { λ s. record { greatest = s.greatest; skew = s.skew; held = s.pairs.keys } };

    ghost invariant = { λ s. IsWithinDay s.skew × IsWholeSeconds s.skew × All (λ p. is_recent s.skew s.greatest p ≡ true) s.pairs.keys };
}

impl Seen {
    /// Nothing seen, at moment 0. The skew is in seconds, a day at most.
    pub fn new(alloc: Global, skew: u64) -> Seen
        requires { IsSkew skew }
        ensures { result ≡ record { greatest = 0; skew = 1000000 * skew; held = [] } }
    {
        let Some(greatest) = Moment::new(0) else {
            unreachable!();
        };
        Seen {
            greatest,
            skew: MICROSECONDS_IN_SECOND * skew,
            pairs: BTreeSet::new(alloc),
        }
    }

    /// Hands in a moment, and drops the pairs that lie further back than the skew. The greatest moment never falls,
    /// even where the clock is set back. It takes no memory.
    pub fn raise(&mut self, moment: Moment)
        ensures greatest { self.new.greatest ≡ max self.old.greatest moment }
        ensures skew { self.new.skew ≡ self.old.skew }
        ensures window { (admitted : List PairRecord) → IsWindow self.old admitted → IsWindow self.new admitted }
    {
        let greatest = self.greatest.max(moment);
        forget(&mut self.pairs, greatest.micros().saturating_sub(self.skew));
        self.greatest = greatest;
    }

    /// The greatest moment that was handed in, 0 before the first.
    pub fn greatest(&self) -> Moment
        ensures { result ≡ self.now.greatest }
    {
        self.greatest
    }

    /// The clock skew in microseconds: whole seconds, a day at most.
    pub fn skew(&self) -> u64
        ensures value { result ≡ self.now.skew }
        ensures bound { IsWithinDay result }
        ensures whole { IsWholeSeconds result }
    {
        self.skew
    }

    /// The pairs that are held are the window of themselves. It does nothing when it runs: its contract serves a caller that
    /// was handed a cache and knows no list of admitted pairs.
    pub fn holds_window(&self)
        ensures { IsWindow self.now self.now.held }
    {
        // The clause is of the fields: the proof sees them where one is read.
        let _greatest = self.greatest;
    }

    /// Whether this pair is held. So it is where it was admitted, if its time isn't far from the greatest moment.
    pub fn contains(&self, pair: &Pair) -> bool
        ensures held { result ≡ is_among pair.now self.now.held }
        ensures admitted { (admitted : List PairRecord) → IsWindow self.now admitted →
            is_far self.now.skew self.now.greatest pair.now.time ≡ false → result ≡ is_among pair.now admitted }
    {
        self.pairs.contains(pair)
    }

    /// Records a pair that is admitted. A pair whose time lies further back than the skew isn't in the window, and takes no
    /// place. Where memory runs out nothing changes.
    pub fn record(&mut self, pair: Pair) -> Result<(), AllocError>
        ensures greatest { self.new.greatest ≡ self.old.greatest }
        ensures skew { self.new.skew ≡ self.old.skew }
        ensures window { OnOk result ((admitted : List PairRecord) → IsWindow self.old admitted → IsWindow self.new (pair ∷ admitted)) }
        ensures err { OnErr result (self.new ≡ self.old) }
    {
        if pair.time().micros() < self.oldest() {
            return Ok(());
        }
        self.pairs.insert(pair)?;
        Ok(())
    }

    /// How many pairs the window has, each counted once, whatever list of admitted pairs it is the window of. It takes no
    /// memory.
    pub fn kept(&self) -> usize
        ensures { (admitted : List PairRecord) → IsWindow self.now admitted →
            result ≡ distinct_count is_same_pair (filter (is_recent self.now.skew self.now.greatest) admitted) }
    {
        self.pairs.len()
    }

    // The least time that isn't further back than the skew, in microseconds.
    fn oldest(&self) -> u64
        ensures { result ≡ self.now.greatest - self.now.skew }
    {
        self.greatest.micros().saturating_sub(self.skew)
    }
}

// Drops the pairs whose times are before a moment, the earliest first.
fn forget(pairs: &mut BTreeSet<Pair>, oldest: u64)
    ensures { pairs.new.keys ≡ filter (λ (pair : PairRecord). nat_le oldest pair.time) pairs.old.keys }
{
    'pairs: while let Some(first) = pairs.first() {
        if oldest <= first.time().micros() {
            break;
        }
        pairs.pop_first();
    }
}

//! The laws of the two ends of a context.
ghost use Rattle.std.specs.Prelude.{◌≡◌, ◌≤◌, ◌<◌, ◌+◌, ℕ, List};
ghost use Rattle.gss_contexts.specs.Contexts.{ContextRecord, IsInOrder, last_number, peer, sender_of};
ghost use Rattle.gss_contexts.specs.Judging.{IsMicRefusal, IsWrapRefusal, TakesWrap};
ghost use Rattle.gss_contexts.specs.Tokens.{IsMicOf, IsWrapOf};
ghost use Rattle.gss_contexts.specs.declared.refusal.TokenRefusal.{TokenRefusal};
ghost use Rattle.gss_contexts.specs.declared.refusal.TokenRefusal.TheVariants.{Memory};
ghost use Rattle.gss_contexts.specs.declared.side.Protection.{Protection};

/// The other end refuses a MIC token only if memory runs out, unless its number is old, the last one, or out
/// of sequence. The ends have the same key, and opposite sides. It does nothing when it runs: its contract is the law.
pub fn mic_is_taken()
    ensures { (from to : ContextRecord) (number : ℕ) (message token : List ℕ) → sender_of from ≡ peer to → IsMicOf (sender_of from) number message token
        → to.taking ≤ number → IsInOrder to number → number < last_number → (e : TokenRefusal) → IsMicRefusal to message token e → e ≡ Memory }
{}

/// The other end refuses a wrap token only if memory runs out, unless its number is old, the last one, or out
/// of sequence. The ends have the same key, and opposite sides. It does nothing when it runs: its contract is the law.
pub fn wrap_is_taken()
    ensures { (from to : ContextRecord) (number : ℕ) (p : Protection) (d message token : List ℕ) → sender_of from ≡ peer to
        → IsWrapOf (sender_of from) number p d message token
        → to.taking ≤ number → IsInOrder to number → number < last_number → (e : TokenRefusal) → IsWrapRefusal to token e → e ≡ Memory }
{}

/// The other end takes a wrap token as its message, with its number and under its protection. The least number is then the
/// one after the token's. It does nothing when it runs: its contract is the law.
pub fn unwraps_to_its_message()
    ensures { (from to new : ContextRecord) (number n : ℕ) (p q : Protection) (d message taken token : List ℕ) → sender_of from ≡ peer to
        → IsWrapOf (sender_of from) number p d message token → number < last_number → TakesWrap to new token n q taken
        → (n ≡ number) × (q ≡ p) × (taken ≡ message) × (new ≡ record to { taking = number + 1 }) }
{}

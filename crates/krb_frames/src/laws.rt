//! Laws of every run of serving.
ghost use Rattle.std.specs.Prelude.{◌≡◌, ℕ, ◌≤◌, ◌⊎◌, List, [], length, map, None, Some, Result, Err};
ghost use Rattle.std.specs.List.{concat};
ghost use Rattle.krb_frames.specs.Frames.{framed};
ghost use Rattle.krb_frames.specs.Serving.{Left, Run, IsServed, IsFinal, IsFrontOf, MayRefuse};
ghost use Rattle.krb_frames.specs.Tolerance.{Tolerates};
ghost use Rattle.krb_frames.specs.declared.fault.ServeFault.{ServeFault};
ghost use Rattle.krb_frames.specs.declared.fault.ServeFault.TheVariants.{NoRequest};

use crate::{Responder, SoleResponder};

/// Two runs over the same moments, stream and random bytes agree: the replies of one are the first replies of the other. It does
/// nothing when it runs: its contract is the law.
pub fn runs_agree<A: SoleResponder>()
    ensures { (responder : A) (start s t : Left) (done more : List (List ℕ)) → Run (A.replies responder) start done s
        → Run (A.replies responder) start more t → IsFrontOf done more ⊎ IsFrontOf more done }
{}

/// Where no device failed, memory didn't run out and the accounts could be read, the output of these moments, stream and random bytes
/// is one, and so are the result and what is left. What any other run writes is a front of it. It does nothing when it runs: its contract is the law.
pub fn output_is_whole<A: SoleResponder>()
    ensures front { (responder : A) (start s t : Left) (all part : List ℕ) (whole other : Result ℕ ServeFault) → IsFinal whole
        → IsServed (A.replies responder) (A.may_want_memory responder) start all whole s
        → IsServed (A.replies responder) (A.may_want_memory responder) start part other t → IsFrontOf part all }
    ensures same { (responder : A) (start s t : Left) (all other : List ℕ) (a b : Result ℕ ServeFault) → IsFinal a → IsFinal b
        → IsServed (A.replies responder) (A.may_want_memory responder) start all a s
        → IsServed (A.replies responder) (A.may_want_memory responder) start other b t → (other ≡ all) × (b ≡ a) × (t ≡ s) }

    // What was written is also a front of the frames of each run that is as long.
    ensures longer { (responder : A) (start s t : Left) (written : List ℕ) (result : Result ℕ ServeFault) (more : List (List ℕ))
        → IsServed (A.replies responder) (A.may_want_memory responder) start written result s → Run (A.replies responder) start more t
        → length written ≤ length (concat (map framed more)) → IsFrontOf written (concat (map framed more)) }
{}

/// Serving by a [`Tolerant`](crate::Tolerant) responder never stops at a message that is no request, which gets the empty reply. Each
/// reply of the responder within stays. It does nothing when it runs: its contract is the law.
pub fn goes_on<A: Responder>()
    ensures never { (responder : A) → ¬ MayRefuse (Tolerates (A.replies responder)) }
    ensures served { (responder : A) (start new : Left) (written : List ℕ)
        → ¬ IsServed (Tolerates (A.replies responder)) (A.may_want_memory responder) start written (Err NoRequest) new }
    ensures empty { (responder : A) (message : List ℕ) (moment : ℕ) (words : List ℕ) → A.replies responder message moment words None
        → Tolerates (A.replies responder) message moment words (Some []) }
    ensures reply { (responder : A) (message : List ℕ) (moment : ℕ) (words reply : List ℕ) → A.replies responder message moment words (Some reply)
        → Tolerates (A.replies responder) message moment words (Some reply) }
{}

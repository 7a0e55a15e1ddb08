//! Chooses a key derivation function.
ghost use Rattle.std.specs.Prelude.{◌≡◌};
ghost use Rattle.pkinit_messages.specs.ChosenKdfs.{first_known};

use crate::agility::kdf::Kdf;
use crate::agility::kdf_algorithm_id::KdfAlgorithmId;

/// The first key derivation function of the list that is known here.
pub fn first_known(kdfs: &[KdfAlgorithmId]) -> Option<Kdf>
    ensures { result ≡ first_known kdfs.now }
{
    let mut rest = kdfs;
    'kdfs: while let [kdf, more @ ..] = rest {
        if let Some(known) = Kdf::named(&kdf.kdf_id.0.0) {
            return Some(known);
        }
        rest = more;
    }
    None
}

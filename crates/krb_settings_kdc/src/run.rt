//! A run with settings.
ghost use Rattle.std.specs.Prelude.{◌≡◌};
ghost use Rattle.krb_frames.specs.Devices.{device, devices};
ghost use Rattle.krb_settings_kdc.specs.Runs.{IsEnd};

use crate::realm::realm_of_file;
use crate::stop::Stop;
use byte_streams::{Sink, Source};
use krb_frames::serve_at;
use krb_memory_realms::Answering;
use krb_time::Moment;
use std::alloc::Global;
use x509_keys::NoKeys;

/// Answers the frames of `reader` on `writer` for the realm of a settings file, each at one moment and with the next 128
/// random bytes of `words_reader`. The realm has no key functions. It gives how many frames were answered.
///
/// It stops by `BadSettings` where the file is no realm's: no message was read then, and nothing written. It stops by a fault where serving
/// stopped early, or where memory ran out before it.
pub fn run_settings<K: Source, R: Source, W: Sink>(
    alloc: Global,
    settings: &[u8],
    moment: Moment,
    words_reader: &mut K,
    reader: &mut R,
    writer: &mut W,
) -> Result<u64, Stop>
    ensures { IsEnd ((words_reader.new ≡ words_reader.old) × (reader.new ≡ reader.old) × (writer.new ≡ writer.old)) settings.now moment
        (devices (device (K.left words_reader.old) (K.failed words_reader.old)) (device (R.left reader.old) (R.failed reader.old)) (device (W.written writer.old) (W.failed writer.old)))
        (devices (device (K.left words_reader.new) (K.failed words_reader.new)) (device (R.left reader.new) (R.failed reader.new)) (device (W.written writer.new) (W.failed writer.new)))
        result }
{
    let realm = match realm_of_file(alloc, settings) {
        Ok(realm) => realm,
        Err(fault) => return Err(Stop::from(fault)),
    };
    let answering = Answering {
        realm: &realm,
        keys: &NoKeys,
    };
    let answered = serve_at(alloc, &answering, moment, words_reader, reader, writer)?;
    Ok(answered)
}

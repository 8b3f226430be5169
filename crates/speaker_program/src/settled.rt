//! What settings say beside the commands.

use speaker_settings::SpeakerSettings;
use speaker_warnings::Settled;

/// What is looked at besides what the commands configured.
pub(crate) fn settled(settings: &SpeakerSettings) -> Settled<'_> {
    Settled {
        remotes: settings.peers.as_slice(),
        has_cache: settings.cache.is_some(),
        listens: settings.listen.is_some(),
        waits: settings.wait_for_cache.is_some(),
        retries: settings.cache_retry.is_some(),
    }
}

//! What faults of the list and of the cache are to the program.
ghost use Rattle.std.specs.Prelude.{◌≡◌, ◌≢◌};
ghost use Rattle.cache_program.specs.Exits.{exit_of_first_list, exit_of_refusal};

use cache_watch::ListFault;
use program_endings::ExitFault;
use rtr_cache::CacheRefusal;

/// What ends the program where its first list can't be had.
pub fn of_first_list(why: ListFault) -> ExitFault
    ensures exit { result ≡ exit_of_first_list why }
    ensures other { result ≢ ExitFault.Arguments }
{
    match why {
        ListFault::Source(why) => why.exit(),
        ListFault::Guard(_) | ListFault::Old { .. } => ExitFault::Settings,
        ListFault::Other { .. } => ExitFault::Settings,
        ListFault::NoFile(_) | ListFault::NoMemory => ExitFault::Device,
    }
}

/// What ends the program where the cache refuses its beginning.
pub fn of_refusal(refusal: CacheRefusal) -> ExitFault
    ensures exit { result ≡ exit_of_refusal refusal }
    ensures other { result ≢ ExitFault.Arguments }
{
    match refusal {
        CacheRefusal::NoMemory => ExitFault::Device,
        _ => ExitFault::Settings,
    }
}

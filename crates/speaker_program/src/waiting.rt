//! Peers that wait for the payloads of the cache.
ghost use Rattle.std.specs.Prelude.{◌≡◌, IfErr, IfOk, OnOk};
ghost use Rattle.speaker_program.specs.HeldBack.{AreHeldBack, HeldBelow, HoldsBack, is_started, wait_until, waits};
ghost use Rattle.speaker_program.specs.declared.fault.SpeakerFault.TheVariants.{NoMemory};

use crate::fault::SpeakerFault;
use bgp_conf::{Command, PEER_SLOTS};
use bgp_fsm::State;
use decision::Book;
use speaker::Speaker;
use speaker_settings::SpeakerSettings;
use speaker_turns::SpeakerLoop;
use std::alloc::{AllocError, Global};
use wires::Wire;

/// Whether peers of the settings wait.
pub(crate) fn waits(settings: &SpeakerSettings) -> bool
    ensures { result ≡ waits settings.now }
{
    settings.wait_for_cache.is_some() && settings.cache.is_some()
}

/// The moment until which peers wait at most; the run begins at 0.
pub(crate) fn wait_of(settings: &SpeakerSettings) -> u64
    ensures { result ≡ wait_until settings.now.wait_for_cache }
{
    match settings.wait_for_cache {
        Some(seconds) => seconds as u64,
        None => 0,
    }
}

/// Where peers wait for a cache, those that are enabled are disabled, as by an operator. Answers their slots in rising order.
pub(crate) fn hold_back<W: Wire + Drop, B: Book<Global>>(
    alloc: Global,
    settings: &SpeakerSettings,
    served: &mut SpeakerLoop<W, Global, B>,
) -> Result<Vec<u8>, SpeakerFault>
    ensures memory { IfErr result (λ fault. fault ≡ NoMemory) }
    ensures held { IfOk result (λ slots. AreHeldBack (waits settings.now) slots.items served.old served.new) }
{
    if !waits(settings) {
        return Ok(Vec::new(alloc));
    }
    match disable_started(alloc, served) {
        Ok(slots) => Ok(slots),
        Err(_) => Err(SpeakerFault::NoMemory),
    }
}

#[tactic(auto, using(crate::proofs::AskedBefore::held_first, crate::proofs::AskedBefore::held_more))]
fn disable_started<W: Wire + Drop, B: Book<Global>>(
    alloc: Global,
    served: &mut SpeakerLoop<W, Global, B>,
) -> Result<Vec<u8>, AllocError>
    ensures { IfOk result (λ slots. HeldBelow 64 slots.items served.old served.new) }
{
    let mut slots = Vec::new(alloc);
    for slot in 0..PEER_SLOTS {
        hold_slot(served, slot, &mut slots)?;
    }
    Ok(slots)
}

// Disables the peer of the slot and notes it, where its session is enabled.
#[tactic(auto, using(crate::proofs::AskedBefore::holds_none, crate::proofs::AskedBefore::holds_one))]
fn hold_slot<W: Wire + Drop, B: Book<Global>>(
    served: &mut SpeakerLoop<W, Global, B>,
    slot: u8,
    slots: &mut Vec<u8>,
) -> Result<(), AllocError>
    ensures { OnOk result (HoldsBack (is_started served.old.speaker slot) slot slots.old.items slots.new.items served.old served.new) }
{
    if !is_started(served.speaker(), slot) {
        return Ok(());
    }
    slots.push(slot)?;
    let _taken = served.obey(Command::Disable(slot));
    Ok(())
}

// Whether the session of a slot is enabled: before the first turn none else has left Idle (RFC 4271 section 8.2.2).
fn is_started<B: Book<Global>>(speaker: &Speaker<Global, B>, slot: u8) -> bool
    ensures { result ≡ is_started speaker.now slot }
{
    match speaker.session(slot) {
        None | Some(State::Idle) => false,
        Some(State::Connect | State::Active | State::OpenSent) => true,
        Some(State::OpenConfirm | State::Established) => true,
    }
}

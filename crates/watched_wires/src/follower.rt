//! The messages of one direction of a connection.
ghost use Rattle.std.specs.Prelude.{◌≤◌, length};

use crate::kept_data::KEPT_OCTETS;
use crate::notice::Notice;
use arrayvec::ArrayVec;
use bgp_msg::{HEADER_OCTETS, MessageType, Step, needed, read};

// How many octets are kept of a message: its header, and of a NOTIFICATION its code, its subcode and the data that are kept.
const FRONT_OCTETS: usize = HEADER_OCTETS + 2 + KEPT_OCTETS;

/// Follows the messages of one direction of a connection (RFC 4271 section 4.1), in whatever pieces they come, up to the first
/// header with a fault.
#[derive(Drop)]
pub struct Follower {
    // The front of the message that is followed.
    front: ArrayVec<u8, FRONT_OCTETS>,
    // How many octets of it are still passed over.
    rest: usize,
    // Whether a header had a fault.
    is_lost: bool,
}

impl Follower {
    /// No octet has come.
    pub fn new() -> Follower {
        Follower {
            front: ArrayVec::new(),
            rest: 0,
            is_lost: false,
        }
    }

    /// Follows the next octets, and answers the last NOTIFICATION whose front ends in them.
    pub fn follow(&mut self, octets: &[u8]) -> Option<Notice> {
        let mut at = 0;
        let mut told = None;
        // Each step takes an octet at least.
        for _ in 0..octets.len() {
            if at >= octets.len() || self.is_lost {
                break;
            }
            at += self.pass(&octets[at..]);
            told = self.judge().or(told);
        }
        told
    }

    // Takes the first octets, as far as one message goes at most, and answers how many they are.
    fn pass(&mut self, octets: &[u8]) -> usize
        ensures { result ≤ length octets.now }
    {
        if self.rest > 0 {
            let count = self.rest.min(octets.len());
            self.rest -= count;
            return count;
        }
        let room = FRONT_OCTETS - self.front.len();
        let count = needed(self.front.as_slice()).min(room).min(octets.len());
        let _kept = self.front.try_extend_from_slice(&octets[..count]);
        count
    }

    // Judges the front once it is there, and lets it go.
    fn judge(&mut self) -> Option<Notice> {
        match read(self.front.as_slice()) {
            Step::Faulty(_) => {
                self.is_lost = true;
                None
            }
            Step::Message(frame, _) => {
                let told = notice_of(Some(frame.kind), frame.body, 0);
                self.front.clear();
                told
            }
            Step::Need => self.judge_part(),
        }
    }

    // Of a message that goes on a NOTIFICATION alone is kept, as far as a log needs it.
    fn judge_part(&mut self) -> Option<Notice> {
        let octets = self.front.as_slice();
        if octets.len() < HEADER_OCTETS {
            return None;
        }
        let kind = MessageType::from_octet(octets[HEADER_OCTETS - 1]);
        if matches!(kind, Some(MessageType::Notification)) && octets.len() < FRONT_OCTETS {
            return None;
        }
        let rest = needed(octets);
        let told = notice_of(kind, &octets[HEADER_OCTETS..], rest);
        self.rest = rest;
        self.front.clear();
        told
    }
}

// What a log shows of a message of this type, if it is a NOTIFICATION: of its body the first octets, with so many more behind
// them.
fn notice_of(kind: Option<MessageType>, body: &[u8], left: usize) -> Option<Notice> {
    match kind {
        Some(MessageType::Notification) => Some(Notice::of(body, left)),
        _ => None,
    }
}

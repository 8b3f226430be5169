//! Laws of operators' lines.
ghost use Rattle.control_lines.specs.Coming.{AnswersTakeTheirLine, VisitsLoseNone, VisitsWriteInOrder};

/// Of one who stays the octets that come at a visit, which are the next of the stream, are put behind those that had come: none
/// is lost, none comes twice, and the lines are those that the line feeds among them end.
#[tactic(auto, using(crate::proofs::Coming::visits_lose_none))]
pub fn visits_lose_no_octets()
    ensures { VisitsLoseNone }
{}

/// An operator whose line is answered had sent it whole, with its line feed: just that is taken, and what came behind it stays.
#[tactic(auto, using(crate::proofs::Coming::answers_take_their_line))]
pub fn answers_take_their_line()
    ensures { AnswersTakeTheirLine }
{}

/// What is said to an operator is written in order, each octet once: whatever a visit writes is what the stream takes, and the
/// first of what was still to be written.
#[tactic(auto, using(crate::proofs::Coming::visits_write_in_order))]
pub fn visits_write_in_order()
    ensures { VisitsWriteInOrder }
{}

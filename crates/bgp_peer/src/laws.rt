//! Laws of the history of a slot. Each is the contract of an empty function.
ghost use Rattle.bgp_peer.specs.Laws.{OctetsAreMessages, NothingIsLeftUntaken, RestsWantMore, OctetsAreIgnored, PiecesJoin, SentAreMessages, WrittenIsUpdate, QueuedIsReadLast, RowsSayNoUpdate};

/// An octet is the message that it adds to its connection's stream.
pub fn octets_are_messages()
    ensures { OctetsAreMessages }
{}

/// While a connection stands, each message of its stream is taken.
pub fn nothing_is_left_untaken()
    ensures stream { NothingIsLeftUntaken }
    ensures rest { RestsWantMore }
{}

/// Where no connection stands, octets change nothing.
pub fn octets_are_ignored()
    ensures { OctetsAreIgnored }
{}

/// Octets and then others are all of them, however they were cut.
pub fn pieces_join()
    ensures { PiecesJoin }
{}

/// What was queued on a connection is messages one after another.
pub fn sent_are_messages()
    ensures { SentAreMessages }
{}

/// A written UPDATE of at most 4,096 octets is one message.
pub fn written_is_update()
    ensures { WrittenIsUpdate }
{}

/// An UPDATE that is queued is read behind what was queued before.
pub fn queued_is_read_last()
    ensures { QueuedIsReadLast }
{}

/// No row of the session table says an UPDATE.
pub fn rows_say_no_update()
    ensures { RowsSayNoUpdate }
{}

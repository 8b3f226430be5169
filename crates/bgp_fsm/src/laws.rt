//! Laws of the session table, in the words of RFC 4271 section 8.2.2. Each is the contract of an empty function.
ghost use Rattle.bgp_fsm.specs.Laws.{EstablishedBegins, EnteredTells, LeftTells, RefreshedTells, OpenAnswersUp, ClosesWhatIsOpen, ClosingIsTold, NotificationsClose, NotificationIsReceived, NotificationIsUnanswered, OpenedTells, ReceivedTells, TimersFit, fit, OpenIsAwaited, TimesStay, AttemptsAreRetried, FallsAndRises, HoldTimeIsAgreed, MessagesHold};
ghost use Rattle.std.specs.Prelude.{◌≡◌, true};
ghost use Rattle.bgp_fsm.specs.SessionTable.{fresh};
ghost use Rattle.bgp_msg.specs.declared.open_message.OwnOpen.{OwnOpen};
ghost use Rattle.bgp_attr.specs.declared.peer.Mode.{Mode};
ghost use Rattle.bgp_fsm.specs.declared.timers.PeerTimers.{PeerTimers};

/// Established is entered only from OpenConfirm, by a KEEPALIVE.
pub fn established_begins()
    ensures { EstablishedBegins }
{}

/// `entered` tells exactly that Established begins.
pub fn entered_tells()
    ensures { EnteredTells }
{}

/// `left` tells exactly that Established ends.
pub fn left_tells()
    ensures { LeftTells }
{}

/// `refreshed` tells exactly that the peer of an Established session asks for all routes again.
pub fn refreshed_tells()
    ensures { RefreshedTells }
{}

/// `opened` tells exactly that a connection attempt begins.
pub fn opened_tells()
    ensures { OpenedTells }
{}

/// Each timer runs only in the states in which its end means something.
pub fn timers_fit()
    ensures first { (own : OwnOpen) (mode : Mode) (times : PeerTimers) → fit (fresh own mode times).state (fresh own mode times).enabled (fresh own mode times).timers ≡ true }
    ensures stays { TimersFit }
{}

/// Each timer begins where its end will mean something: the peer's OPEN is awaited, a connection attempt is retried, an
/// enabled peer begins again, both after the time that its peer has, a session is kept alive by the hold time that both sides
/// agreed on.
pub fn timers_begin()
    ensures stay { TimesStay }
    ensures awaited { OpenIsAwaited }
    ensures retried { AttemptsAreRetried }
    ensures rises { FallsAndRises }
    ensures agreed { HoldTimeIsAgreed }
    ensures held { MessagesHold }
{}

/// An OPEN is queued only when the connection stands, and it is our own.
pub fn open_answers_up()
    ensures { OpenAnswersUp }
{}

/// Only a session whose connection stands begins to close it.
pub fn closes_what_is_open()
    ensures { ClosesWhatIsOpen }
{}

/// Where a connection that stands begins to be closed, its peer is told why by a NOTIFICATION, unless it has sent one.
pub fn closing_is_told()
    ensures told { ClosingIsTold }
    ensures unanswered { NotificationIsUnanswered }
{}

/// What a NOTIFICATION that comes says is handed on just as it came, and nothing else is.
pub fn notification_is_received()
    ensures received { NotificationIsReceived }
    ensures alone { ReceivedTells }
{}

/// Behind a NOTIFICATION that is queued the connection is closed.
pub fn notifications_close()
    ensures { NotificationsClose }
{}

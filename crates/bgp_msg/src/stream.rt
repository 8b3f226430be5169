//! Laws of the messages of a stream (RFC 4271 section 4.1).
ghost use Rattle.std.specs.Prelude.{◌≡◌, ◌≢◌, ◌<◌, ◌≤◌, ◌+◌, ◌^◌, ◌++◌, ℕ, Bool, List, [], ◌∷◌, Some, None, length, All, true};
ghost use Rattle.std.specs.List.{concat};
ghost use Rattle.bgp_msg.specs.declared.frame.MessageType.{MessageType};
ghost use Rattle.bgp_msg.specs.declared.frame.MessageType.TheVariants.{Open, Update, Notification, Keepalive};
ghost use Rattle.bgp_msg.specs.declared.open_message.Expected.{Expected};
ghost use Rattle.bgp_msg.specs.MessageSpelling.{message_of, is_lawful_length, header_of, open_of, open_body, asn_at, update_of, update_body, update_parts};
ghost use Rattle.bgp_msg.specs.MessageFaults.{hold_time_at, identifier_at, open_fault};
ghost use Rattle.bgp_msg.specs.MessageStream.{Item, IsMessage, Splits, messages, unread, messages_of_pieces, unread_of_pieces, completed, left_over, with_front, IsReadFirst};
ghost use Rattle.bgp_msg.specs.Notifications.{NotificationBody, notification_body, notification_of};
ghost use Rattle.bgp_msg.specs.MessageLimits.{max_message};

/// A stream is its messages one after another and then what is unread, and it is so in no other way.
pub fn only_messages()
    ensures some { (stream : List ℕ) → Splits stream (messages stream) (unread stream) }
    ensures one { (stream rest : List ℕ) (items : List Item) → Splits stream items rest → (items ≡ messages stream) × (rest ≡ unread stream) }
{}

/// However a stream is cut, its pieces read one after another hold its messages.
pub fn pieces_are_the_stream()
    ensures { (pieces : List (List ℕ)) → (messages_of_pieces [] pieces ≡ messages (concat pieces)) × (unread_of_pieces [] pieces ≡ unread (concat pieces)) }
{}

/// One more octet completes at most one item.
pub fn one_more_octet()
    ensures { (stream : List ℕ) (octet : ℕ) → (messages (stream ++ octet ∷ []) ≡ messages stream ++ with_front (completed (unread stream) octet) []) × (unread (stream ++ octet ∷ []) ≡ left_over (unread stream ++ octet ∷ []) (completed (unread stream) octet)) }
{}

/// More octets of a stream are read behind what is unread, unless a header fault has ended it.
pub fn stream_goes_on()
    ensures unread { (stream more : List ℕ) → unread (stream ++ more) ≡ unread (unread stream ++ more) }
    ensures messages { (stream more : List ℕ) → messages (unread stream) ≡ [] → messages (stream ++ more) ≡ messages stream ++ messages (unread stream ++ more) }
{}

/// No message is the beginning of another.
pub fn no_message_begins_another()
    ensures { (octets more body other : List ℕ) (kind kind_of_other : MessageType) → IsMessage octets kind body → IsMessage (octets ++ more) kind_of_other other → more ≡ [] }
{}

/// A message has one spelling: its header and its body.
pub fn one_spelling()
    ensures spelled { (octets body : List ℕ) (kind : MessageType) → All (λ octet. octet < 256) octets → IsMessage octets kind body → octets ≡ message_of kind body }
    ensures read { (body : List ℕ) (kind : MessageType) → is_lawful_length kind (19 + length body) ≡ true → 19 + length body ≤ max_message → IsMessage (message_of kind body) kind body }
{}

/// A message that is written is read again, whatever follows it.
pub fn written_is_read()
    ensures { (body : List ℕ) (kind : MessageType) → is_lawful_length kind (19 + length body) ≡ true → 19 + length body ≤ max_message → IsReadFirst (message_of kind body) kind body }
{}

/// So is a KEEPALIVE.
pub fn keepalive_is_read()
    ensures { IsReadFirst (header_of Keepalive 19) Keepalive [] }
{}

/// So is a NOTIFICATION.
pub fn notification_is_read()
    ensures { (told : NotificationBody) → IsReadFirst (notification_of told) Notification (notification_body told) }
{}

/// So is an OPEN. Its body says what was written, and who expects this AS finds no fault in a lawful one.
pub fn open_is_read()
    ensures message { (multiprotocol : Bool) (asn hold_time identifier : ℕ) → IsReadFirst (open_of multiprotocol asn hold_time identifier) Open (open_body multiprotocol asn hold_time identifier) }
    ensures hold_time { (multiprotocol : Bool) (asn hold_time identifier : ℕ) → hold_time < 2 ^ 16 → hold_time_at (open_body multiprotocol asn hold_time identifier) ≡ hold_time }
    ensures identifier { (multiprotocol : Bool) (asn hold_time identifier : ℕ) → identifier < 2 ^ 32 → identifier_at (open_body multiprotocol asn hold_time identifier) ≡ identifier }
    ensures asn { (multiprotocol : Bool) (asn hold_time identifier : ℕ) → asn < 2 ^ 32 → asn_at (open_body multiprotocol asn hold_time identifier) ≡ Some asn }
    ensures faultless { (multiprotocol : Bool) (asn hold_time identifier : ℕ) (expected : Expected) → asn < 2 ^ 32 → hold_time < 2 ^ 16 → identifier < 2 ^ 32 → expected.peer_asn.0 ≡ asn → identifier ≢ 0 → identifier ≢ expected.own_identifier → hold_time ≢ 1 → hold_time ≢ 2 → open_fault (open_body multiprotocol asn hold_time identifier) expected ≡ None }
{}

/// So is an UPDATE. Its body has the parts that were written.
pub fn update_is_read()
    ensures message { (withdrawn attributes announced : List ℕ) → 23 + length withdrawn + length attributes + length announced ≤ max_message → IsReadFirst (update_of withdrawn attributes announced) Update (update_body withdrawn attributes announced) }
    ensures parts { (withdrawn attributes announced : List ℕ) → 23 + length withdrawn + length attributes + length announced ≤ max_message → update_parts (update_body withdrawn attributes announced) ≡ Some (withdrawn, attributes, announced) }
{}

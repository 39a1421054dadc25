// The layouts in which values cross to C: each value is encoded and decoded, bytes are tested for
// being an encoding, and a buffer is filled with one. Every public function is total.
#![tactic(auto)]

mod answers;
mod buffers;
mod conversations;
mod keys;
mod last_answers;
mod lists;
mod passwords;
mod peers;
mod records;
mod room;

use accounts::EntryLookup;
pub use answers::{ANSWER_HEAD_SIZE, ANSWER_SIZE, decode_answer, is_encoded_answer, put_answer};
pub use buffers::{BAD_ARGUMENT, INVALID, are_sized, fill, refuse, refused};
pub use conversations::{
    CONVERSATION_SIZE, decode_conversation, is_conversation, is_encoded_conversation,
    put_conversation,
};
pub use keys::{BOTH_KEYS_SIZE, KEYS_SIZE, encode_schedules};
pub use lists::{LIST_HEAD_SIZE, is_list, places_in, put_list_head, used_in};
pub use passwords::{PASSWORD_SIZE, decode_password, is_encoded_password, put_password};
pub use peers::{PEER_SIZE, decode_peer, is_encoded_peer, put_peer};
pub use records::{
    RECORD_HEAD_SIZE, RECORD_SIZE, decode_head, is_encoded_record, is_record, put_record,
    put_record_head,
};
use verify::ChangeFault;

// What C keeps of a step's answer: whether the reply is the last one again, its reason (0 is
// Success), what is wrong with a change that was judged, and the record that is handed out, or
// none: that of a judged Response with its count, or the one that an accepted change updates. The
// round keys of that record are apart, as bytes.
#[derive(Clone, Copy)]
pub struct StepResult {
    pub repeated: bool,
    pub reason: u16,
    pub fault: Option<ChangeFault>,
    pub updated: EntryLookup,
}

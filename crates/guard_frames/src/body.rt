//! The body of a frame.

/// The body of a frame: the names of the sender, the receiver and the message, as its header gives them, and the
/// message after the header.
#[derive(Clone, Copy)]
pub struct Body<'a> {
    pub sender: &'a [u8],
    pub receiver: &'a [u8],
    /// The name of the message.
    pub name: &'a [u8],
    /// The octets of the message itself.
    pub message_octets: &'a [u8],
}

//! Who sends what to whom.
ghost use Rattle.std.specs.Prelude.{◌≡◌, bytes_eq};
ghost use Rattle.std.specs.List.{list_all};
ghost use Rattle.guard_policy.specs.PolicyView.{route_view};
ghost use Rattle.guard_policy.specs.Names.{is_name, is_name_octet, is_party, is_plain, anyone};

/// The most octets of a name.
const LONGEST_NAME: usize = 63;

// Each octet of a name stands at its own place, and a comma at every other place.
static NAME_OCTETS: [u8; 256] = *b"\
    ,,,,,,,,,,,,,,,,,,,,,,,,,,,,,,,,\
    ,,,,,,,,,,,,,-.,0123456789,,,,,,\
    ,ABCDEFGHIJKLMNOPQRSTUVWXYZ,,,,_\
    ,abcdefghijklmnopqrstuvwxyz,,,,,\
    ,,,,,,,,,,,,,,,,,,,,,,,,,,,,,,,,\
    ,,,,,,,,,,,,,,,,,,,,,,,,,,,,,,,,\
    ,,,,,,,,,,,,,,,,,,,,,,,,,,,,,,,,\
    ,,,,,,,,,,,,,,,,,,,,,,,,,,,,,,,,";

/// What a rule says for every sender, or for every receiver.
pub(crate) const ANYONE: &str = "*";

/// The sender, the receiver and the name of the message, as a frame gives them. They are taken as given.
#[derive(Clone, Copy)]
pub struct Route<'a> {
    /// The sender's name.
    pub from: &'a [u8],
    /// The receiver's name.
    pub to: &'a [u8],
    /// The name of the message, and not its octets.
    pub message: &'a [u8],
}

impl<'a> Route<'a> {
    /// Whether all three are names, as `is_name` says.
    pub fn is_plain(&self) -> bool
        ensures { result ≡ is_plain (route_view self.now) }
    {
        is_name(self.from) && is_name(self.to) && is_name(self.message)
    }
}

/// Whether the octets are a name: 1 to 63 letters, digits, `-`, `_` and `.`.
pub fn is_name(octets: &[u8]) -> bool
    ensures { result ≡ is_name octets.now }
{
    1 <= octets.len() && octets.len() <= LONGEST_NAME && are_name_octets(octets)
}

/// Whether the text may be the sender or the receiver of a rule: a name, or `*`.
pub fn is_party(text: &str) -> bool
    ensures { result ≡ is_party text.now }
{
    is_name(text.as_bytes()) || is_anyone(text)
}

/// Whether the text is `*`, which is every sender, or every receiver, in a rule.
pub fn is_anyone(text: &str) -> bool
    ensures { result ≡ bytes_eq text.now anyone }
{
    text == ANYONE
}

fn are_name_octets(octets: &[u8]) -> bool
    ensures { result ≡ list_all is_name_octet octets.now }
{
    octets.iter().all(|octet| is_name_octet(*octet))
}

fn is_name_octet(octet: u8) -> bool
    ensures { result ≡ is_name_octet octet }
{
    NAME_OCTETS[octet as usize] != b','
}

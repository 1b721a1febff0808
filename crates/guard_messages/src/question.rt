//! What is asked of one message.
ghost use Rattle.std.specs.Prelude.{◌≡◌, option_map};
ghost use Rattle.guard_messages.specs.Questions.{question_view, octets_spot, spot_by, decide_spot};
ghost use Rattle.guard_messages.specs.Questions.{show_spot, spot_view};

/// What the words give of one message: by which policy it is asked of, and where its octets are.
#[derive(Clone, Copy, Debug, PartialEq, Eq)]
pub struct Question<'a> {
    pub policy: &'a str,
    pub from: Option<&'a str>,
    pub to: Option<&'a str>,
    pub message: Option<&'a str>,
    /// Its octets, in hexadecimal digits.
    pub hex: Option<&'a str>,
    /// The path of a file that has its octets; `-` is standard input.
    pub der: Option<&'a str>,
    /// The number of the frame that holds it, of those that come in.
    pub frame: Option<&'a str>,
    /// The number of the link whose frame it is, where records come in.
    pub link: Option<&'a str>,
    /// Whether a fault is to be explained.
    pub explain: bool,
    /// Whether the frame itself is to be written in place of its value.
    pub capture: bool,
    /// Whether its value is to be shown as JSON. Nothing is explained then.
    pub json: bool,
}

/// Where the octets of a message are.
#[derive(Clone, Copy)]
pub enum Spot<'a> {
    /// In these hexadecimal digits.
    Written(&'a str),
    /// All that is at this path.
    Kept(&'a str),
    /// In the frame of the first number, counted among those of the link of the second number if that is given.
    Framed(&'a str, Option<&'a str>),
}

impl<'a> Question<'a> {
    /// Where `decide` looks for the octets. It takes all three names, or those of the frame. None where the words don't
    /// say where, or say more than one place.
    pub fn decide_spot(&self) -> Option<Spot<'a>>
        ensures { option_map spot_view result ≡ decide_spot (question_view self.now) }
    {
        let all = self.from.is_some() && self.to.is_some() && self.message.is_some();
        let some = self.from.is_some() || self.to.is_some() || self.message.is_some();
        self.spot(all, some)
    }

    /// Where `show` looks for the octets. It takes the name of the message, or that of the frame. None where the words
    /// don't say where, or say more than one place.
    pub fn show_spot(&self) -> Option<Spot<'a>>
        ensures { option_map spot_view result ≡ show_spot (question_view self.now) }
    {
        let named = self.message.is_some();
        self.spot(named, named)
    }

    /// Where the octets are, by whether all names are given, and whether some are.
    fn spot(&self, all: bool, some: bool) -> Option<Spot<'a>>
        ensures { option_map spot_view result ≡ spot_by all some (question_view self.now).frame
            (question_view self.now).link (question_view self.now).hex (question_view self.now).der }
    {
        match self.frame {
            Some(_) if some || self.hex.is_some() || self.der.is_some() => None,
            Some(number) => Some(Spot::Framed(number, self.link)),
            None if all && self.link.is_none() => octets_spot(self.hex, self.der),
            None => None,
        }
    }
}

/// The one of the two that is given.
fn octets_spot<'a>(hex: Option<&'a str>, der: Option<&'a str>) -> Option<Spot<'a>>
    ensures { option_map spot_view result ≡ octets_spot (option_map (λ digits. digits.now) hex.entry)
        (option_map (λ path. path.now) der.entry) }
{
    match (hex, der) {
        (Some(digits), None) => Some(Spot::Written(digits)),
        (None, Some(path)) => Some(Spot::Kept(path)),
        (Some(_), Some(_)) | (None, None) => None,
    }
}

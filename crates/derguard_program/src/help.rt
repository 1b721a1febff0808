//! The texts of help.

pub const ABOUT: &str =
    "Lets through the DER messages that a policy over ASN.1 types allows, and says why it stops others. Without \
        words it decides four messages that are built in.";

pub const EXAMPLE: &str = "Example:\n  derguard check examples/orders.toml\n\n\
        Statuses: 0 all passed, was accepted, shown or encoded; 1 something was stopped, remarked or differs, show \
        has no value, or encode's value is outside its type or its message isn't declared; 2 bad words, policy, \
        modules, digits or text of a value, a file that can't be read, a message that is too long, a frame or link \
        that isn't there, or a frame that can't be made; 3 a stream, link, record or device failed, or no memory.";

pub const CHECK_EXAMPLE: &str = "Example:\n  derguard check examples/orders.toml --explain";

pub const DECIDE_EXAMPLE: &str =
    "Example:\n  derguard decide examples/orders.toml --from north --to south --message order \
        300B800105810101A403020107";

pub const SHOW_EXAMPLE: &str =
    "Example:\n  derguard show examples/orders.toml --message order 300B800105810101A403020107";

pub const ENCODE_EXAMPLE: &str =
    "Example:\n  derguard encode examples/orders.toml --message order '{id 5, kind sell, lines {7}}'";

pub const TEST_EXAMPLE: &str = "Example:\n  derguard test examples/orders.toml";

pub const COMPARE_EXAMPLE: &str =
    "Example:\n  derguard compare examples/orders.toml examples/orders.toml < examples/orders.frames";

pub const BY_PLACE: &str =
    "Verdicts differ too where only the place of a constraint in its module does.";

pub const SUMMARY: &str =
    "In place of the lines: how many frames each rule let through or stopped, under each policy.";

pub const OF_LINK: &str =
    "The number of a link, 0 to 15, whose frames are compared; standard input is records.";

pub const RUN_EXAMPLE: &str =
    "Example:\n  derguard run examples/orders.toml < examples/orders.frames";

pub const VERBOSE: &str =
    "Says on standard error at the end how many frames there were and how many lines give each reason.";

pub const ASK_EXAMPLE: &str =
    "Example:\n  derguard ask examples/orders.toml < examples/orders.frames";

pub const MUX_EXAMPLE: &str =
    "Example:\n  derguard mux examples/payments/payments.toml < examples/payments/payments.mux";

pub const MESSAGE_NAME: &str = "The message's name in the policy.";

pub const DIGITS: &str = "The message's octets, in hexadecimal digits.";

pub const IN_FILE: &str = "In place of HEX: a file that has the octets; - is standard input.";

pub const IN_FRAME: &str =
    "In place of HEX and of all names: the number of a frame from standard input, from 1.";

pub const IN_LINK: &str =
    "With --frame: the number of the frame's link, 0 to 15, where standard input is records.";

pub const COUNTS: &str =
    "A file that has what is counted, as the node exporter of Prometheus reads it.";

pub const JSON: &str = "Each line is a JSON object, which has the line and its parts.";

pub const VALUE_AS_JSON: &str =
    "Shows the value as JSON; each line on standard error is a JSON object.";

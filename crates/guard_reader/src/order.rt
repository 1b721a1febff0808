//! The order of the elements of a SET OF, which are mostly short (X.690 11.6).
ghost use Rattle.std.specs.Prelude.{◌≡◌, ◌≤◌, ◌+◌, ◌*◌, ◌&&◌, ◌||◌, length, drop, nat_eq, nat_lt};
ghost use Rattle.std.specs.Int.{from_be_bytes, w64};
ghost use Rattle.guard_der.specs.Fits.{descends};

use guard_der::order;

/// How many octets are one number of 64 bits.
const EIGHT: usize = 8;

/// Whether the first encoding must come after the second one in a SET OF (X.690 11.6): at the first place where they
/// differ, the shorter one padded with zero octets, the first has the greater octet. Encodings of four octets, as of
/// numbers of two, are compared at once, longer ones eight octets at a time. Those of three, as of small numbers, mostly
/// differ in the last octet alone.
#[inline(always)]
pub fn descends(octets: &[u8], next: &[u8]) -> bool
    ensures { result ≡ descends octets.now next.now }
{
    match (octets, next) {
        ([a, b, c, d], [e, f, g, h]) => number(*e, *f, *g, *h) < number(*a, *b, *c, *d),
        ([_, _, _], _) => order::descends(octets, next),
        _ => descends_by_eights(octets, next),
    }
}

/// The number of 32 bits with these octets, the highest first.
#[inline(always)]
fn number(a: u8, b: u8, c: u8, d: u8) -> u32
    ensures { result ≡ a * 16777216 + (b * 65536 + (c * 256 + d)) }
{
    u32::from_be_bytes([a, b, c, d])
}

/// What `descends` answers, of eight octets at a time for as long as both have eight. It is a call of its own, so that
/// encodings of four octets don't pay for the registers of its loop.
#[inline(never)]
fn descends_by_eights(octets: &[u8], next: &[u8]) -> bool
    ensures { result ≡ descends octets.now next.now }
{
    let mut rest = octets;
    let mut after = next;
    while rest.len() >= EIGHT && after.len() >= EIGHT {
        let (number, other) = first_eights(rest, after);
        if number != other {
            return other < number;
        }
        rest = &rest[EIGHT..];
        after = &after[EIGHT..];
    }
    descends_by_four(rest, after)
}

/// What `descends` answers, of four octets at once where both have four, and of the rest octet by octet.
fn descends_by_four(octets: &[u8], next: &[u8]) -> bool
    ensures { result ≡ descends octets.now next.now }
{
    let ([a, b, c, d, rest @ ..], [e, f, g, h, after @ ..]) = (octets, next) else {
        return order::descends(octets, next);
    };
    let (first, other) = (number(*a, *b, *c, *d), number(*e, *f, *g, *h));
    if first != other {
        return other < first;
    }
    order::descends(rest, after)
}

/// The numbers with the first eight octets of each, the highest first: they are in the order of the octets.
#[inline(always)]
fn first_eights(octets: &[u8], next: &[u8]) -> (u64, u64)
    requires octets { 8 ≤ length octets.now }
    requires next { 8 ≤ length next.now }
    ensures { descends octets.now next.now
        ≡ (nat_lt result.1 result.0 || (nat_eq result.0 result.1 && descends (drop 8 octets.now) (drop 8 next.now))) }
{
    (first_eight(octets), first_eight(next))
}

/// The number of 64 bits with the first eight octets, the highest first.
#[inline(always)]
fn first_eight(octets: &[u8]) -> u64
    requires { 8 ≤ length octets.now }
    ensures { result ≡ from_be_bytes w64 octets.now }
{
    u64::from_be_bytes([
        octets[0], octets[1], octets[2], octets[3], octets[4], octets[5], octets[6], octets[7],
    ])
}

//! In which line and column the octets of a text are.
ghost use Rattle.std.specs.Prelude.{◌≡◌, ◌+◌, ◌<◌, ◌^◌, ◌++◌, List, ℕ, length};
ghost use Rattle.guard_lexer.specs.Sites.{site_after};

use guard_model::Site;

/// The site after octets that begin at this site: lines end at line feeds, and columns count octets. Condition: the
/// site's line and its column, each with the number of octets added, are less than 2^32.
pub fn site_behind(site: Site, octets: &[u8]) -> Site
    requires line { site.line + length octets.now < 2 ^ 32 }
    requires column { site.column + length octets.now < 2 ^ 32 }
    ensures { (before : List ℕ) → site ≡ site_after site.text before →
        result ≡ site_after site.text (before ++ octets.now) }
{
    let mut site = site;
    for octet in octets {
        if *octet == b'\n' {
            site.line += 1;
            site.column = 1;
        } else {
            site.column += 1;
        }
    }
    site
}

//! One number over the octets of a policy and of its modules.
ghost use Rattle.std.specs.Prelude.{◌≡◌, ◌++◌, ℕ, List, map};
ghost use Rattle.sha2.specs.Hashers.{Holds256};
ghost use Rattle.guard_files.specs.Digest.{digest_of, with_length};

use crate::texts::Texts;
use sha2::{Digest, Sha256};

/// SHA-256 (FIPS 180-4) over the policy's text and those of its modules, in the order in which it lists them, each
/// behind its length as eight octets.
pub(crate) fn digest_of(texts: &Texts) -> [u8; 32]
    ensures { result ≡ digest_of texts.now.policy.items (map (λ text. text.items) texts.now.modules.items) }
{
    let mut hasher = Sha256::new();
    add_text(&mut hasher, &texts.policy);
    for module in &texts.modules {
        add_text(&mut hasher, module);
    }
    hasher.finalize()
}

/// Adds a text behind its length.
fn add_text(hasher: &mut Sha256, text: &[u8])
    ensures { (m : List ℕ) → Holds256 hasher.old m → Holds256 hasher.new (m ++ with_length text.now) }
{
    let length = (text.len() as u64).to_be_bytes();
    hasher.update(length.as_slice());
    hasher.update(text);
}

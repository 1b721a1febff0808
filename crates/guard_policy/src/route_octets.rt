//! The octets of names, by which a route, a message or a party is found. They are hashed all at once; a list of octets
//! would be hashed one after another.
ghost use Rattle.std.specs.Prelude.{◌≡◌, ◌++◌, ◌∷◌, [], List, ℕ, IfOk, IfSome, OnOk, IsTrue, bytes_eq};
ghost use Rattle.std.specs.Cmp.Lexicographic.{nat_list_eq_equiv};
ghost use Rattle.std.proofs.Common.{ap};
ghost use Rattle.std.proofs.lemmas.Slice.Eq.{bytes_eq-Decides};
ghost use Rattle.guard_policy.specs.Names.{is_name, is_plain};
ghost use Rattle.guard_policy.specs.NamedRoutes.{route_octets, with_length};
ghost use Rattle.guard_policy.specs.PolicyView.{route_view};

use super::route::Route;
use indexmap::Equivalent;
use std::alloc::{AllocError, Global};
use std::hash::{Hash, Hasher};

/// The three names of a route, each after its length, or one name.
#[derive(Drop, PartialEq, Eq)]
pub(crate) struct NameOctets {
    octets: Vec<u8>,
}

/// Octets that may be those of a route, or a name.
#[derive(Clone, Copy, PartialEq, Eq)]
pub(crate) struct OctetsOf<'a> {
    pub octets: &'a [u8],
}

impl NameOctets {
    /// The octets of this route. Condition: all three are names.
    pub fn of(alloc: Global, route: &Route) -> Result<NameOctets, AllocError>
        requires { IsTrue (is_plain (route_view route.now)) }
        ensures { IfOk result (λ names. names.octets.items ≡ route_octets (route_view route.now)) }
    {
        let mut octets = Vec::new(alloc);
        push_name(&mut octets, route.from)?;
        push_name(&mut octets, route.to)?;
        push_name(&mut octets, route.message)?;
        Ok(NameOctets { octets })
    }

    /// The octets of one name.
    pub fn of_name(alloc: Global, name: &[u8]) -> Result<NameOctets, AllocError>
        ensures { IfOk result (λ key. key.octets.items ≡ name.now) }
    {
        Ok(NameOctets {
            octets: Vec::from_slice(alloc, name)?,
        })
    }

    /// What comes after these octets, if the others begin with them; else None.
    pub fn after<'a>(&self, octets: &'a [u8]) -> Option<&'a [u8]>
        ensures { IfSome result (λ rest. octets.now ≡ self.now.octets.items ++ rest.now) }
    {
        octets.strip_prefix(self.octets.as_slice())
    }
}

impl Hash for NameOctets {
    ghost hash_input = { λ names. names.octets.items ∷ [] };

    ghost respects_eq = { λ x y same. ap (λ (octets : List ℕ). octets ∷ [])
        ((bytes_eq-Decides x.octets.items y.octets.items).0 same) };

    fn hash<H: Hasher>(&self, state: &mut H) {
        state.write(&self.octets);
    }
}

impl Hash for OctetsOf<'_> {
    ghost hash_input = { λ names. names.octets.now ∷ [] };

    ghost respects_eq = { λ x y same. ap (λ (octets : List ℕ). octets ∷ [])
        ((bytes_eq-Decides x.octets.now y.octets.now).0 same) };

    fn hash<H: Hasher>(&self, state: &mut H) {
        state.write(self.octets);
    }
}

impl Equivalent<NameOctets> for OctetsOf<'_> {
    ghost equivalent = { λ names key. bytes_eq names.octets.now key.octets.items };

    ghost respects_hash = { λ names key same. ap (λ (octets : List ℕ). octets ∷ [])
        ((bytes_eq-Decides names.octets.now key.octets.items).0 same) };

    ghost respects_eq = { λ names x y. nat_list_eq_equiv.congr names.octets.now x.octets.items y.octets.items };

    fn equivalent(&self, key: &NameOctets) -> bool {
        self.octets == key.octets.as_slice()
    }
}

/// Puts a name at the end, after its length.
fn push_name(octets: &mut Vec<u8>, name: &[u8]) -> Result<(), AllocError>
    requires { IsTrue (is_name name.now) }
    ensures { OnOk result (octets.new.items ≡ octets.old.items ++ with_length name.now) }
{
    octets.push(name.len() as u8)?;
    octets.extend_from_slice(name)
}

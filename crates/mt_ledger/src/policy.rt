//! Policies: which port of a share is taken.
ghost use Rattle.std.specs.Prelude.{◌≡◌, ◌<◌, ◌≤◌, ◌^◌, ℕ, nat_eq, slice_get, position, MatchOption};
ghost use Rattle.std.specs.List.{remove};
ghost use Rattle.std.specs.Option.{option_copied};
ghost use Rattle.std.specs.Cmp.Lexicographic.{pointwise};

use mt_text::Text;

/// What picks a place: a function of a hint, which is the source port of the flow, and of the length of the
/// share.
pub type Pick = Box<dyn Fn(u32, u32) -> u32>;

/// A rule with a name that picks a place of a share. Its answer is a place of every share that is not empty.
#[derive(Drop)]
pub struct Policy {
    pub name: Text,
    pub pick: Pick,
    ghost callable: { Pick.IsAlwaysCallable pick },
    ghost below: { (hint count place : ℕ) → hint < 2 ^ 32 → 1 ≤ count → count < 2 ^ 32 → Pick.post pick hint count place → place < count },
}

impl Policy {
    /// The policy of this name that picks by this function.
    pub fn new(name: Text, pick: Pick) -> Policy
        requires callable { Pick.IsAlwaysCallable pick }
        requires below { (hint count place : ℕ) → hint < 2 ^ 32 → 1 ≤ count → count < 2 ^ 32 → Pick.post pick hint count place → place < count }
        ensures name { result.name ≡ name }
        ensures pick { result.pick ≡ pick }
    {
        Policy { name, pick }
    }

    /// Whether the policy has a name.
    fn has_name(&self, name: &[u8]) -> bool
        ensures { result ≡ pointwise nat_eq self.now.name name.now }
    {
        self.name.bytes() == name
    }

    /// The place that the function gives.
    pub fn pick(&self, hint: u32, count: u32) -> u32
        requires { 1 ≤ count }
        ensures below { result < count }
        ensures picked { Pick.post self.now.pick hint count result }
    {
        (self.pick)(hint, count)
    }
}

/// Where the first policy of a name stands.
fn place_of(list: &[Policy], name: &[u8]) -> Option<usize>
    ensures { result ≡ position (λ policy. pointwise nat_eq policy.name name.now) list.now }
{
    for (place, policy) in list.iter().enumerate() {
        if policy.has_name(name) {
            return Some(place);
        }
    }
    None
}

/// Policies in the order in which they were given. Of several with one name the first counts.
#[derive(Drop)]
pub struct Policies {
    pub list: Vec<Policy>,
}

impl Policies {
    /// These policies.
    pub fn new(list: Vec<Policy>) -> Policies
        ensures { result.list ≡ list }
    {
        Policies { list }
    }

    /// The first policy of a name.
    pub fn find(&self, name: &[u8]) -> Option<&Policy>
        ensures { MatchOption (position (λ policy. pointwise nat_eq policy.name name.now) self.now.list.items) (option_copied result ≡ None) (λ place. option_copied result ≡ slice_get self.now.list.items place) }
    {
        let place = place_of(&self.list, name)?;
        Some(&self.list[place])
    }

    /// The first policy of a name, taken out.
    pub fn take(&mut self, name: &[u8]) -> Option<Policy>
        ensures taken { MatchOption (position (λ policy. pointwise nat_eq policy.name name.now) self.old.list.items) (result ≡ None) (λ place. result ≡ slice_get self.old.list.items place) }
        ensures rest { MatchOption (position (λ policy. pointwise nat_eq policy.name name.now) self.old.list.items) (self.new.list.items ≡ self.old.list.items) (λ place. self.new.list.items ≡ remove self.old.list.items place) }
    {
        let place = place_of(&self.list, name)?;
        Some(self.list.remove(place))
    }
}

//! The option that names the policy by which ports are taken.
ghost use Rattle.std.specs.Prelude.{◌≡◌, map, option_map};
ghost use Rattle.mt_command.specs.Policies.{is_policy, is_value};
ghost use Rattle.mt_command.specs.Reading.{said_by, awaits_value, valued, opted, policy_in};

/// The policy where the option is left out.
const DEFAULT: &[u8] = b"low";

/// What the words have said of the policy so far.
#[derive(Clone, Copy)]
pub(crate) enum Ports<'a> {
    Unsaid,
    /// The option's name stood alone: the next word is its value.
    Awaited,
    Named(&'a [u8]),
}

impl<'a> Ports<'a> {
    // Whether the next word is the option's value.
    pub(crate) fn awaits_value(&self) -> bool
        ensures { result ≡ awaits_value (said_by self.now) }
    {
        matches!(self, Ports::Awaited)
    }

    // What is said behind an option, which begins with `-`: None where it is at fault.
    #[tactic(auto, unfolding(crate::specs::Reading::opted))]
    pub(crate) fn option(&self, word: &'a str, names: &[&[u8]]) -> Option<Ports<'a>>
        ensures { option_map said_by result ≡ opted (map (λ name. name.now) names.now) (said_by self.now) word.now }
    {
        match self {
            Ports::Unsaid => {
                if word == "--ports" {
                    return Some(Ports::Awaited);
                }
                valued(word.strip_prefix("--ports=")?.as_bytes(), names)
            }
            Ports::Awaited | Ports::Named(_) => None,
        }
    }

    // The policy at the end of the words: None where a value or the default is missing.
    #[tactic(auto, unfolding(crate::specs::Reading::policy_in))]
    pub(crate) fn policy(&self, names: &[&[u8]]) -> Option<&'a [u8]>
        ensures { option_map (λ name. name.now) result ≡ policy_in (map (λ name. name.now) names.now) (said_by self.now) }
    {
        match self {
            Ports::Unsaid => {
                if is_policy(names, DEFAULT) {
                    Some(DEFAULT)
                } else {
                    None
                }
            }
            Ports::Awaited => None,
            Ports::Named(name) => Some(*name),
        }
    }
}

// What is said behind a value: None where it is at fault.
#[tactic(auto, unfolding(crate::specs::Reading::valued, crate::specs::Policies::is_value))]
pub(crate) fn valued<'a>(value: &'a [u8], names: &[&[u8]]) -> Option<Ports<'a>>
    ensures { option_map said_by result ≡ valued (map (λ name. name.now) names.now) value.now }
{
    if value.starts_with(b"-") || !is_policy(names, value) {
        return None;
    }
    Some(Ports::Named(value))
}

// Whether some policy has a name.
#[tactic(auto, unfolding(crate::specs::Policies::is_policy))]
fn is_policy(names: &[&[u8]], name: &[u8]) -> bool
    ensures { result ≡ is_policy (map (λ name. name.now) names.now) name.now }
{
    let mut rest = names;
    while let [known, after @ ..] = rest {
        if *known == name {
            return true;
        }
        rest = after;
    }
    false
}

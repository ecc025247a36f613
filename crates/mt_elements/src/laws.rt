//! What holds of all graphs.
ghost use Rattle.std.specs.Prelude.{◌≡◌, List};
ghost use Rattle.mt_graph.specs.declared.Element.{Element};
ghost use Rattle.mt_graph.specs.declared.Wire.{Wire};
ghost use Rattle.mt_elements.specs.declared.fault.ChainFault.{ChainFault};
ghost use Rattle.mt_elements.specs.Accepted.{IsAccepted};
ghost use Rattle.mt_elements.specs.ChainState.{ChainState};
ghost use Rattle.mt_elements.specs.Described.{IsChainOf};
ghost use Rattle.mt_elements.specs.Refused.{IsRefused};

/// A graph is one chain that is accepted, or has one refusal, and not both.
pub fn one_answer()
    ensures chain { (elements : List Element) (wires : List Wire) (c d : ChainState) → IsChainOf elements wires c → IsChainOf elements wires d → c ≡ d }
    ensures either { (elements : List Element) (wires : List Wire) (c : ChainState) (f : ChainFault) → IsChainOf elements wires c → IsAccepted c → IsRefused elements wires f → ⊥ }
    ensures refusal { (elements : List Element) (wires : List Wire) (f g : ChainFault) → IsRefused elements wires f → IsRefused elements wires g → f ≡ g }
{}

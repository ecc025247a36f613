//! What elements do with packets.
ghost use Rattle.std.specs.Prelude.{◌≡◌};
ghost use Rattle.mt_wiring.specs.Ways.{Behavior};

use mt_packet::Layer;

/// What elements do with packets. Elements, inputs and outputs are counted from 0, as in the wires between them.
pub trait Elements {
    ghost behavior: { Self → Behavior };

    /// Whether a packet that entered an element by an input can leave it by an output.
    fn leads(&self, element: u32, input: u32, out: u32) -> bool
        ensures { result ≡ (behavior self.now).leads element input out };

    /// Whether packets enter the chain at an element, and leave it as frames.
    fn enters(&self, element: u32) -> bool
        ensures { result ≡ (behavior self.now).enters element };

    /// Whether an element takes packets of a layer. It gives on none of another layer.
    fn takes(&self, element: u32, layer: Layer) -> bool
        ensures { result ≡ (behavior self.now).takes element layer };

    /// The layer of a packet behind an output of an element, where it was taken at a layer.
    fn layer_behind(&self, element: u32, layer: Layer, out: u32) -> Layer
        ensures { result ≡ (behavior self.now).behind element layer out };
}

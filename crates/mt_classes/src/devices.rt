//! The devices of classes.
ghost use Rattle.std.specs.Prelude.{◌≡◌, map};
ghost use Rattle.mt_classes.specs.Parts.{last_device, last_of_all};

use mt_boxes::{HeaderBox, Region};
use mt_terms::Tree;

/// The greatest device of the boxes of all classes.
pub fn last_of_all(classes: &[(Region, Tree)]) -> u64
    ensures { result ≡ last_of_all (map (λ class. class.0) classes.now) }
{
    let mut last = 0;
    let mut rest = classes;
    while let [(region, _), after @ ..] = rest {
        last = last_device(region.boxes()).max(last);
        rest = after;
    }
    last
}

/// The greatest device of boxes.
fn last_device(boxes: &[HeaderBox]) -> u64
    ensures { result ≡ last_device (map (λ of. of.spans) boxes.now) }
{
    let mut last = 0;
    let mut rest = boxes;
    while let [of, after @ ..] = rest {
        last = of.spans[0].hi.max(last);
        rest = after;
    }
    last
}

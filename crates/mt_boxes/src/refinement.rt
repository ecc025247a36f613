//! The meets of regions.
ghost use Rattle.std.specs.Prelude.{◌≡◌, ◌++◌, [], ◌∷◌, ℕ, List, IfOk, OnOk, map};
ghost use Rattle.std.specs.List.{filter, filter_map};
ghost use Rattle.mt_packet.specs.declared.span.Span.{Span};
ghost use Rattle.mt_boxes.specs.Boxes.{IsRegion, header_ranges};
ghost use Rattle.mt_boxes.specs.Parts.{met};
ghost use Rattle.mt_boxes.specs.Meets.{IsMeet, AreMeets, pairs, with_each, meet_of, meets_with, refined, has_box};

use crate::boxes::HeaderBox;
use crate::meeting::common_box;
use crate::region::Region;
use std::alloc::{AllocError, Global};

/// All meets of a region of the first list with one of the second that have a header, in the order of the
/// first list and then of the second. The boxes of a meet stand in the order of the boxes of the first
/// region and then of the second.
pub fn refine(alloc: Global, a: &[Region], b: &[Region]) -> Result<Vec<Region>, AllocError>
    ensures meets { IfOk result (λ regions. AreMeets (pairs a.now b.now) regions.items) }
    ensures boxes { IfOk result (λ regions. regions.items ≡ refined a.now b.now) }
{
    let mut made = Vec::new(alloc);
    for region in a {
        push_meets(alloc, &mut made, region, b)?;
    }
    Ok(made)
}

/// Puts the meets of a region with others behind regions.
fn push_meets(
    alloc: Global,
    made: &mut Vec<Region>,
    region: &Region,
    others: &[Region],
) -> Result<(), AllocError>
    ensures meets { OnOk result ((done : List (List (List Span) × List (List Span))) → AreMeets done made.old.items
        → AreMeets (done ++ with_each region.now others.now) made.new.items) }
    ensures boxes { OnOk result (made.new.items ≡ made.old.items ++ meets_with region.now others.now) }
{
    for other in others {
        let both = meet_of(alloc, region, other)?;
        push_some(made, both)?;
    }
    Ok(())
}

/// Puts a region behind others where it has a header.
fn push_some(made: &mut Vec<Region>, region: Region) -> Result<(), AllocError>
    ensures boxes { OnOk result (made.new.items ≡ made.old.items ++ filter has_box (region ∷ [])) }
    ensures region { IsRegion header_ranges region }
{
    if !region.boxes().is_empty() {
        made.push(region)?;
    }
    Ok(())
}

/// The headers of both regions.
fn meet_of(alloc: Global, a: &Region, b: &Region) -> Result<Region, AllocError>
    ensures boxes { IfOk result (λ both. both ≡ meet_of a.now b.now) }
    ensures headers { IfOk result (λ both. IsMeet a.now b.now both) }
{
    let others = b.boxes();
    let mut boxes = Vec::new(alloc);
    for of in a.boxes() {
        push_common(&mut boxes, of, others)?;
    }
    Ok(Region::of(boxes))
}

/// Puts what a box has in common with each of others behind boxes.
fn push_common(
    boxes: &mut Vec<HeaderBox>,
    of: &HeaderBox,
    others: &[HeaderBox],
) -> Result<(), AllocError>
    ensures { OnOk result (map (λ of. of.spans) boxes.new.items
        ≡ map (λ of. of.spans) boxes.old.items ++ filter_map (met of.now.spans) (map (λ of. of.spans) others.now)) }
{
    for other in others {
        if let Some(both) = common_box(of, other) {
            boxes.push(both)?;
        }
    }
    Ok(())
}

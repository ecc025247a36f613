//! The lowest of some elements.
ghost use Rattle.std.specs.Prelude.{◌≡◌};
ghost use Rattle.mt_wiring.specs.Pushes.{lower as lowest_with};

/// The lowest of the elements so far and of one more, where it is wanted.
pub fn lower(wanted: bool, element: u32, lowest: Option<u32>) -> Option<u32>
    ensures { result ≡ lowest_with wanted element lowest }
{
    match lowest {
        _ if !wanted => lowest,
        Some(least) if least <= element => lowest,
        _ => Some(element),
    }
}

//! What a merge makes of values.
ghost use Rattle.std.specs.Prelude.{◌≡◌, ◌==◌, ℕ, if◌then◌else◌};

/// A function of three values.
pub trait Choice {
    ghost choice: { Self → ℕ → ℕ → ℕ → ℕ };

    /// The value at a header, of the values of three trees there.
    fn choose(&self, x: u32, y: u32, z: u32) -> u32
        ensures { result ≡ choice self.now x y z };
}

/// A function of two values.
pub trait Combine {
    ghost combined: { Self → ℕ → ℕ → ℕ };

    /// The value at a header, of the values of two trees there.
    fn combine(&self, x: u32, y: u32) -> u32
        ensures { result ≡ combined self.now x y };
}

/// A function of the first two of three values.
#[derive(Drop)]
pub struct OfTwo<'a, F: Combine> {
    pub function: &'a F,
}

impl<F: Combine> Choice for OfTwo<'_, F> {
    ghost choice = { λ it x y z. F.combined it.function.now x y };

    fn choose(&self, x: u32, y: u32, _z: u32) -> u32 {
        self.function.combine(x, y)
    }
}

/// The second value where the first is 1, else the third.
#[derive(Clone, Copy)]
pub struct Select;

impl Choice for Select {
    ghost choice = { λ it x y z. if x == 1 then y else z };

    fn choose(&self, x: u32, y: u32, z: u32) -> u32 {
        if x == 1 { y } else { z }
    }
}

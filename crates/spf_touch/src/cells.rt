//! Cells that units run on.

ghost use Rattle.std.specs.Prelude.{◌≡◌, ℕ, ℤ, Bool, true, ◌==◌, if◌then◌else◌};

/// A map from its own elements to numbers of 64 bits.
pub trait Cells {
    /// Whether the element is one of its own.
    ghost own: { Self → ℕ → Bool };

    /// The value of each of its own elements.
    ghost value: { Self → ℕ → ℤ };

    /// What a write leaves as it is besides the values, as the room of a copy: said of the cells before and after it.
    ghost kept: { Self → Self → Type 0 };

    fn get(&self, element: u32) -> i64
        requires { own self.now element ≡ true }
        ensures { result ≡ value self.now element };

    fn set(&mut self, element: u32, number: i64)
        requires { own self.old element ≡ true }
        ensures own { (e : ℕ) → own self.new e ≡ own self.old e }
        ensures value { (e : ℕ) → value self.new e ≡ (if e == element then number else value self.old e) }
        ensures kept { kept self.old self.new };

    ghost kept_at_first: { (cells : Self) → kept cells cells };

    ghost kept_on: { (first second last : Self) → kept first second → kept second last → kept first last };
}

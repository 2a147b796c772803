//! What the value of a turn means.

ghost use Rattle.std.specs.Prelude.{ℕ, List};

/// The meanings of a turn's value: its key, which says what it belongs to, and its tale, a list of entries. An entry is of the
/// pass whose number it has.
pub trait TurnRule<T> {
    type Key;

    type Entry;

    ghost key: { T → Self.Key };

    ghost tale: { T → List Self.Entry };

    ghost who: { Self.Entry → ℕ };
}

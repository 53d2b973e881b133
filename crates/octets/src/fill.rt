ghost use Rattle.std.specs.Prelude.{◌≡◌};

/// What a row can hold: plain values, one of which fills the places that are not taken.
// Not `Default`, whose ghost member is a predicate: the `inverse` of a model needs the value.
pub trait Fill: Copy {
    ghost fill: { Self };

    fn fill() -> Self
        ensures { result ≡ fill };
}

impl Fill for u8 {
    ghost fill = { 0 };

    fn fill() -> u8 {
        u8::MIN
    }
}

impl Fill for u16 {
    ghost fill = { 0 };

    fn fill() -> u16 {
        u16::MIN
    }
}

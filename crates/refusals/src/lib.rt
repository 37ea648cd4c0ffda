// What every refusal has: its number.
#![tactic(auto)]

ghost use Rattle.std.specs.Prelude.{◌≡◌, ℕ};

// A reason for which something is refused, with the number by which it is told.
pub trait Refusal: Copy {
    ghost number: { Self → ℕ };

    // The refusal's number.
    fn number(self) -> u8
        ensures { result ≡ number self };
}

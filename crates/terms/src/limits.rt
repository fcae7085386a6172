// Bounds either way of zero.
ghost use Rattle.std.specs.Prelude.{◌≡◌, ◌↔◌, IsTrue};
ghost use Rattle.terms.specs.Numbers.{Near, near};

// Whether a number lies within ±limit.
pub fn is_near(limit: u32, number: i32) -> bool
    ensures is { result ≡ near limit number }
    ensures within { IsTrue result ↔ Near limit number }
{
    number.unsigned_abs() <= limit
}

//! The numbers that are drawn.

ghost use Rattle.std.specs.Prelude.{◌≡◌, ◌<◌};
ghost use Rattle.workload.specs.Draws.{generated_after};

/// The first number of the generator.
pub const FIRST: u64 = 1;

/// The number after this one.
pub fn number_after(number: u64) -> u64
    requires { number < 2147483648 }
    ensures number { result ≡ generated_after number }
    ensures small { result < 2147483648 }
{
    (1_103_515_245 * number + 12_345) % 2_147_483_648
}

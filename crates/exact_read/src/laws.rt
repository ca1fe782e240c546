ghost use Rattle.exact_read.specs.Exact.{IsExact};
ghost use Rattle.exact_read.specs.Digits.{is_digit, read_digits, AreDigits};

/// The parser of digits reads exactly the texts of digits, up to a byte that is none.
pub fn digits_are_read_exactly()
    ensures { IsExact is_digit read_digits AreDigits }
{}

ghost use Rattle.std.specs.Prelude.{◌≡◌, ◌<◌};
ghost use Rattle.sig_diff.specs.Numbers.{clamped, class_of};

/// The nearest number of 64 bits.
pub fn clamped(total: i128) -> i64
    ensures { result ≡ clamped total }
{
    total.clamp(i64::MIN as i128, i64::MAX as i128) as i64
}

/// Which of `count` classes a number has, from 0 on: its remainder that isn't negative.
pub fn class_of(number: i64, count: usize) -> usize
    requires { 0 < count }
    ensures result { result ≡ class_of count number }
    ensures within { result < count }
{
    if number >= 0 {
        number as usize % count
    } else {
        count - 1 - !number as usize % count
    }
}

// A text of up to 80 bytes, and bytes put at its end.
ghost use Rattle.std.specs.Prelude.{◌<◌};
ghost use Rattle.std.specs.Str.{IsAscii};
ghost use Rattle.list.specs.Text.{Appends, digit, decimal_digits};

use std::fmt::InlineText;
use std::str::from_utf8;

pub type Text = InlineText<80>;

pub(crate) fn with_str(t: Text, s: &str) -> Text
    ensures { Appends t s.now result }
{
    t.and_str(s, 80)
}

pub(crate) fn with_bytes(t: Text, l: &[u8]) -> Text
    ensures { IsAscii l.now → Appends t l.now result }
{
    with_str(t, from_utf8(l).unwrap_or(""))
}

fn with_digit(t: Text, d: u8) -> Text
    requires { d < 10 }
    ensures { Appends t (digit d) result }
{
    with_bytes(t, &[b'0' + d])
}

pub(crate) fn with_decimal(t: Text, n: u32) -> Text
    ensures { Appends t (decimal_digits n) result }
{
    if n < 10 {
        return with_digit(t, n as u8);
    }
    with_digit(with_decimal(t, n / 10), (n % 10) as u8)
}

ghost use Rattle.std.specs.Prelude.{◌≡◌, ◌<◌};
ghost use Rattle.basics.specs.Hex.{hex_digit};

/// Returns the hexadecimal digit of a number, in lower case. The caller must ensure that the number is below 16.
pub fn hex_digit(n: u8) -> u8
    requires { n < 16 }
    ensures value { result ≡ hex_digit n }
    ensures ascii { result < 128 }
{
    if n < 10 { b'0' + n } else { b'a' - 10 + n }
}

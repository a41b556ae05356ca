// Where a byte address leads.
ghost use Rattle.std.specs.Prelude.{◌≡◌};
ghost use Rattle.maps.specs.Bytes.{byte_word, is_low_byte};

// The address of the word that holds the byte.
pub fn byte_word(address: u16) -> u16
    ensures { result ≡ byte_word address }
{
    address / 2
}

// An even address is the high byte, an odd one the low byte.
pub fn is_low_byte(address: u16) -> bool
    ensures { result ≡ is_low_byte address }
{
    address % 2 == 1
}

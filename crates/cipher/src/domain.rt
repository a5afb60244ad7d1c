ghost use Rattle.std.specs.Prelude.{◌≡◌};
ghost use Rattle.cipher.specs.Tweaks.{number_of};

// The number of a domain of the mode. A domain is told by its written name and not by an enum, since the mode's definitions
// name it so. Another name has none.
pub fn domain_number(name: &str) -> Option<u8>
    ensures { result ≡ number_of name.now }
{
    match name {
        "t" => Some(1),
        "s" => Some(2),
        "c" => Some(3),
        "b" => Some(4),
        "xL" => Some(5),
        "xR" => Some(6),
        "yL" => Some(7),
        "yR" => Some(8),
        "p" => Some(9),
        "ts" => Some(10),
        "ss" => Some(11),
        "cs" => Some(12),
        "bs" => Some(13),
        _ => None,
    }
}

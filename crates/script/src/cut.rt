// Where bytes are cut.
ghost use Rattle.std.specs.Prelude.{◌≡◌};
ghost use Rattle.std.specs.Option.{option_map};
ghost use Rattle.script.specs.Parts.{until, after, value_in};

// The bytes before the first `mark`, and those after it if there is one.
pub(crate) fn cut_once(bytes: &[u8], mark: u8) -> (&[u8], Option<&[u8]>)
    ensures front { result.0.now ≡ until mark bytes.now }
    ensures rest { option_map (λ x. x.now) result.1 ≡ after mark bytes.now }
{
    match bytes.iter().position(|byte| *byte == mark) {
        Some(at) => (&bytes[..at], Some(&bytes[at + 1..])),
        None => (bytes, None),
    }
}

// The value that the first part of a line gives to a key.
pub fn look_up<'l>(line: &'l [u8], key: &[u8]) -> Option<&'l [u8]>
    ensures { option_map (λ x. x.now) result ≡ value_in key.now (until 32 line.now) }
{
    let (part, _) = cut_once(line, b' ');
    part.strip_prefix(key)?.strip_prefix(b"=")
}

//! The names of a list.
ghost use Rattle.std.specs.Prelude.{◌≡◌, IsUtf8};
ghost use Rattle.std.specs.Str.{is_utf8};
ghost use Rattle.dp_list.specs.steps.Naming as spec;

/// Bytes of a name.
const NAME_BYTES: usize = 255;

fn is_text(bytes: &[u8]) -> bool
    ensures { result ≡ is_utf8 bytes.now }
{
    str::from_utf8(bytes).is_ok()
}

/// Whether a line without its LF is a name.
pub(crate) fn is_name(line: &[u8]) -> bool
    ensures { result ≡ spec.is_name line.now }
{
    !line.is_empty() && line.len() <= NAME_BYTES && is_text(line)
}

/// A listed name as a text.
pub fn name_text(name: &[u8]) -> &str
    requires { IsUtf8 name.now }
    ensures { result.now ≡ name.now }
{
    str::from_utf8(name).unwrap()
}

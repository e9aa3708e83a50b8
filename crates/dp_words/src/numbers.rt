//! The numbers that options give.
ghost use Rattle.std.specs.Prelude.{◌≡◌};
ghost use Rattle.std.specs.Option.{option_map};
ghost use Rattle.dp_words.specs.Values as spec;
ghost use Rattle.dp_words.specs.Values.{number_in, number_or};
ghost use Rattle.dp_words.specs.steps.Reading.{FitsIn};

/// The number that an option gives, or its default.
pub fn number(text: Option<&str>, default: u64) -> u64
    requires { FitsIn 64 (option_map (λ t. t.now) text) }
    ensures { result ≡ number_or default (option_map (λ t. t.now) text.entry) }
{
    match text {
        Some(text) => text.parse::<u64>().unwrap_or(default),
        None => default,
    }
}

/// The same of a number that is small.
pub fn small_number(text: Option<&str>, default: u32) -> u32
    requires { FitsIn 32 (option_map (λ t. t.now) text) }
    ensures { result ≡ number_or default (option_map (λ t. t.now) text.entry) }
{
    match text {
        Some(text) => text.parse::<u32>().unwrap_or(default),
        None => default,
    }
}

/// The number that has to be given.
pub fn given_number(text: Option<&str>) -> Option<u64>
    requires { FitsIn 64 (option_map (λ t. t.now) text) }
    ensures { result ≡ option_map number_in (option_map (λ t. t.now) text.entry) }
{
    match text {
        Some(text) => Some(number(Some(text), 0)),
        None => None,
    }
}

/// The same of a number that is small.
pub fn given_small_number(text: Option<&str>) -> Option<u32>
    requires { FitsIn 32 (option_map (λ t. t.now) text) }
    ensures { result ≡ option_map number_in (option_map (λ t. t.now) text.entry) }
{
    match text {
        Some(text) => Some(small_number(Some(text), 0)),
        None => None,
    }
}

/// Whether an option that stands alone is given.
pub fn is_set(text: Option<&str>) -> bool
    ensures { result ≡ spec.is_set (option_map (λ t. t.now) text.entry) }
{
    match text {
        Some(text) => text == "true",
        None => false,
    }
}

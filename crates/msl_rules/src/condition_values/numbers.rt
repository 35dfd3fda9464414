ghost use Rattle.std.specs.Prelude.{◌≡◌};
ghost use Rattle.msl_rules.specs.condition_values.Spelled.{whole_of};

// The number that a text spells, if it is one of 64 bits.
pub(super) fn number_of(text: &str) -> Option<i64>
    ensures { result ≡ whole_of text.now }
{
    // `parse` would read past a plus.
    if text.starts_with('+') {
        return None;
    }
    text.parse().ok()
}

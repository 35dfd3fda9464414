ghost use Rattle.std.specs.Prelude.{◌≡◌, option_map};
ghost use Rattle.groupings.specs.name_places.Fronts.{rest_after};

/// What follows a text at the front of another.
pub fn rest_after<'a>(front: &str, text: &'a str) -> Option<&'a str>
    ensures { option_map (λ rest. rest.now) result ≡ rest_after front.now text.now }
{
    text.strip_prefix(front)
}

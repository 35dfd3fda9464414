ghost use Rattle.std.specs.Prelude.{◌≡◌, ◌≢◌, ◌↔◌, All, IsTrue};
ghost use Rattle.edm_types.specs.Names.{IsBracketOrSign, IsName, IsNamespace, IsPlainName};

use emc_base::character_count;

/// The most Unicode scalar values of a name.
const LONGEST_NAME: usize = 480;

/// Whether a text is a name: 1 to 480 Unicode scalar values. Source: the names of CSDL, SSDL and MSL in this project's profile.
pub fn is_name(text: &str) -> bool
    ensures { IsTrue result ↔ IsName text.now }
{
    let count = character_count(text);
    1 <= count && count <= LONGEST_NAME
}

/// Whether a text is a name that holds none of `;` `(` `)` `$`, as a Namespace is. It may hold dots.
pub fn is_namespace(text: &str) -> bool
    ensures { IsTrue result ↔ IsNamespace text.now }
{
    is_name(text) && has_no_bracket_or_sign(text.as_bytes())
}

fn has_no_bracket_or_sign(text: &[u8]) -> bool
    ensures { IsTrue result ↔ All (λ byte. ¬ IsBracketOrSign byte) text.now }
{
    text.iter().all(|byte| !is_bracket_or_sign(*byte))
}

fn is_bracket_or_sign(byte: u8) -> bool
    ensures { IsTrue result ↔ IsBracketOrSign byte }
{
    byte == b';' || byte == b'(' || byte == b')' || byte == b'$'
}

/// Whether a text is a name that holds none of `.` `;` `(` `)` `$`, as those of types, sets and properties are.
pub fn is_plain_name(text: &str) -> bool
    ensures { IsTrue result ↔ IsPlainName text.now }
{
    is_namespace(text) && has_no_dot(text.as_bytes())
}

fn has_no_dot(text: &[u8]) -> bool
    ensures { IsTrue result ↔ All (λ byte. byte ≢ 46) text.now }
{
    text.iter().all(|byte| *byte != b'.')
}

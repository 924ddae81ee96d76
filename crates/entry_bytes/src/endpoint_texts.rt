//! The texts of an endpoint: how one after the other is found.

ghost use Rattle.std.specs.Prelude.{◌≡◌};
ghost use Rattle.gk_terms.specs.Name.{IsName};
ghost use Rattle.entry_bytes.specs.EndpointTexts as Spec;

use field_bytes::NameText;

/// The name at the beginning of the bytes.
pub(crate) fn first_name(bytes: &[u8]) -> NameText<'_>
    requires { IsName (Spec.first_text bytes.now) }
    ensures { result ≡ Spec.first_text bytes.now }
{
    let (name, _) = cut_text(bytes);
    NameText::known(name)
}

/// The text at the beginning, and what comes after it.
pub(crate) fn cut_text(bytes: &[u8]) -> (&[u8], &[u8])
    ensures first { result.0.now ≡ Spec.first_text bytes.now }
    ensures after { result.1.now ≡ Spec.after_text bytes.now }
{
    match bytes {
        [size, rest @ ..] => rest.split_at(rest.len().min(usize::from(*size))),
        [] => (bytes, bytes),
    }
}

/// What comes after the text at the beginning.
pub(crate) fn after_text(bytes: &[u8]) -> &[u8]
    ensures { result.now ≡ Spec.after_text bytes.now }
{
    let (_, rest) = cut_text(bytes);
    rest
}

/// What comes after the texts at the beginning, which come after their count.
pub(crate) fn after_counted(bytes: &[u8]) -> &[u8]
    ensures { result.now ≡ Spec.after_counted bytes.now }
{
    match bytes {
        [count, rest @ ..] => after_texts(*count, rest),
        [] => bytes,
    }
}

/// What comes after so many texts.
fn after_texts(count: u8, bytes: &[u8]) -> &[u8]
    ensures { result.now ≡ Spec.after_texts count bytes.now }
{
    let mut rest = bytes;
    for _place in 0..count {
        rest = after_text(rest);
    }
    rest
}

// Blanks around a scalar.
ghost use Rattle.std.specs.Prelude.{◌≡◌};
ghost use Rattle.scalars.specs.Trimmed.{blank, IsFirstBare, Trimmed};

fn is_blank(b: u8) -> bool
    ensures { result ≡ blank b }
{
    matches!(b, b' ' | b'\t' | b'\r' | b'\n')
}

// How many blanks stand in front.
fn blanks_in_front(text: &[u8]) -> usize
    ensures { IsFirstBare text.now result }
{
    match text.iter().position(|b| !is_blank(*b)) {
        Some(first) => first,
        None => text.len(),
    }
}

/// `text` without the blanks, tabs, carriage returns and line feeds at both ends.
pub fn yaml_trim(text: &[u8]) -> &[u8]
    ensures { Trimmed text.now result.now }
{
    let (_, rest) = text.split_at(blanks_in_front(text));
    match rest.iter().rposition(|b| !is_blank(*b)) {
        Some(last) => &rest[..=last],
        None => &[],
    }
}

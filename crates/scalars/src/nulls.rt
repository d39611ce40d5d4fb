// The texts that stand for null.
ghost use Rattle.std.specs.Prelude.{◌≡◌, Decides};
ghost use Rattle.scalars.specs.Computed.{null_text};
ghost use Rattle.scalars.specs.Nullish.{Nullish};

/// Whether a plain scalar stands for null: the empty text, `~`, and `null` in any mix of capitals.
pub fn scalar_is_nullish(text: &[u8]) -> bool
    ensures decides { Decides result (Nullish text.now) }
    ensures computed { result ≡ null_text text.now }
{
    text.is_empty() || text == b"~".as_slice() || text.eq_ignore_ascii_case(b"null")
}

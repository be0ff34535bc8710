//! The look-up of a name in a table.
ghost use Rattle.std.specs.Prelude.{◌≡◌, map};
ghost use Rattle.std.specs.Map.{lookup};
ghost use Rattle.std.specs.Str.{bytes_eq};

/// A name and its number.
pub(crate) type Row<N> = (&'static [u8], N);

/// The number of a name.
pub(crate) fn look_up<N: Copy>(rows: &[Row<N>], word: &[u8]) -> Option<N>
    ensures { result ≡ lookup (bytes_eq word.now) (map (λ r. (r.0.now, r.1)) rows.now) }
{
    for row in rows {
        if word == row.0 {
            return Some(row.1);
        }
    }
    None
}

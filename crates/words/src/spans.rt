// The triangles that a word has bits for.
ghost use Rattle.std.specs.Prelude.{◌≡◌};
ghost use Rattle.words.specs.Spans.{span};

// How many of m triangles there are from one on, 64 at the most.
pub fn span_of(m: usize, from: usize) -> usize
    ensures { result ≡ span m from }
{
    m.saturating_sub(from).min(64)
}

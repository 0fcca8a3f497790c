// Rows of a width in a slice of words, each with its name first: where a name stands, and a row less.
ghost use Rattle.std.specs.Prelude.{◌≡◌, eqb, position};
ghost use Rattle.words.specs.Rows.{column, shut};

// The first row of that name, if one has it. Behind its name a row has `gap` words.
pub fn find(t: &[u64], gap: usize, name: u64) -> Option<usize>
    ensures exact { result ≡ position (λ m. eqb m name) (column gap t.now) }
{
    for (i, row) in t.chunks(gap.saturating_add(1)).enumerate() {
        if row[0] == name {
            return Some(i);
        }
    }
    None
}

// The n words from `at` on go, and those behind them move down. The last n places keep what they held.
pub fn shut(t: &mut [u64], at: usize, n: usize)
    ensures exact { t.new ≡ shut at n t.old }
{
    if at < t.len().saturating_sub(n) {
        t.copy_within(at + n.., at);
    }
}

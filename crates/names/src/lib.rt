// Program and terminal names in lent words: how many there are, then the names. How many it can hold is how much is lent.
// No function requires anything: each answers for every slice.
#![tactic(auto)]

ghost use Rattle.std.specs.Prelude.{◌≡◌, List, ℕ};
ghost use Rattle.base.specs.Lists.{has};
ghost use Rattle.base.specs.Bytes.{is_name};
ghost use Rattle.words.specs.Said.{gave, handed};
ghost use Rattle.names.specs.Names.{view_of, names_in, fresh_of, define_in, sound_names};

use base::names::NONE;
use base::sets::{front, once};
use words::cells::{put_word, word_at};
use words::said::{Condition, Said};

// The places for names.
fn places(t: &[u64]) -> &[u64]
    ensures { result.now ≡ (view_of t.now).places }
{
    &t[t.len().min(1)..]
}

// The names that there are: a count that says more than there are places is all of them.
fn live(t: &[u64]) -> &[u64]
    ensures { result.now ≡ names_in (view_of t.now) }
{
    front(places(t), word_at(t, 0) as usize)
}

// Whether the name is known.
pub fn known(t: &[u64], name: u32) -> bool
    ensures exact { result ≡ has name (names_in (view_of t.now)) }
{
    live(t).contains(&u64::from(name))
}

// "define program: 4 (sys) | 10 if blank, 7 known, 1 full"; the same of terminals.
pub fn define(t: &mut [u64], name: u32) -> Said
    ensures exact { (b : List ℕ) → gave result (view_of t.new) b ≡ handed (define_in (view_of t.old) name) b }
{
    if name == NONE {
        return Said::plain(Condition::InvalidRequest, 0);
    }
    if known(t, name) {
        return Said::plain(Condition::NotUnique, 0);
    }
    let n = live(t).len();
    if n >= places(t).len() {
        return Said::plain(Condition::NoSpace, 0);
    }
    put_word(t, n + 1, u64::from(name));
    put_word(t, 0, n as u64 + 1);
    Said::plain(Condition::Normal, 0)
}

// No name.
pub fn fresh(t: &mut [u64])
    ensures exact { view_of t.new ≡ fresh_of (view_of t.old) }
{
    t.fill(0);
}

// A name of 4 bytes that is not blank.
fn is_name(w: u64) -> bool
    ensures { result ≡ is_name 4 w }
{
    w <= u64::from(u32::MAX) && w != u64::from(NONE)
}

// "the bounds hold; names are unique within their kind .. and not blank"
pub fn sound(t: &[u64]) -> bool
    ensures exact { result ≡ sound_names (view_of t.now) }
{
    let names = live(t);
    let fits = word_at(t, 0) as usize <= places(t).len();
    let unique = once(names, names.len());
    fits && unique && names.iter().all(|w| is_name(*w))
}

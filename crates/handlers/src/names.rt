// The tasks that have settings: how many, and the name of each.
ghost use Rattle.std.specs.Prelude.{◌≡◌, map, length, get_or};
ghost use Rattle.model.specs.Handlers as model;
ghost use Rattle.handlers.specs.Table.{live, tasks_of};
ghost use Rattle.handlers.specs.Names.{names_in};

use crate::Tasks;

#[tactic(auto, using(crate::specs::Laws::Standing::length_stands))]
pub fn count(t: &Tasks) -> usize
    ensures exact { result ≡ length (live t.now) }
    ensures model { result ≡ length (tasks_of t.now) }
{
    t.live().len()
}

// The name in row i, and 0 past the rows that count: a public promise; 0 is the model's get_or.
pub fn name_at(t: &Tasks, i: usize) -> u64
    ensures exact { result ≡ get_or (names_in t.now) i 0 }
    ensures model { result ≡ get_or (map (λ (m : model.Task). m.name) (tasks_of t.now)) i 0 }
{
    match t.live().get(i) {
        Some(v) => v.name,
        None => 0,
    }
}

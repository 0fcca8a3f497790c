// No task has settings.
ghost use Rattle.std.specs.Prelude.{◌≡◌};
ghost use Rattle.settings.specs.Table.{view_of};
ghost use Rattle.settings.specs.Fresh.{fresh_of, Fresh};

pub fn fresh(settings: &mut [u64])
    ensures exact { view_of settings.new ≡ fresh_of (view_of settings.old) }
    ensures model { Fresh (view_of settings.new) }
{
    words::cells::clear(settings);
}

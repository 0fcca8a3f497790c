// What an answer tells its task to do: "action (0 go on, 1 go to label, 2 abend), 2-byte label (0 unless action 1)".
ghost use Rattle.std.specs.Prelude.{◌≡◌};
ghost use Rattle.frames.specs.Action.{code_of, label_of};

#[derive(Clone, Copy)]
pub enum Action {
    GoOn,
    GoTo(u16),
    Abend,
}

impl From<Action> for u8 {
    ghost from_gives = { λ a n. n ≡ code_of a };

    fn from(action: Action) -> u8 {
        match action {
            Action::GoOn => 0,
            Action::GoTo(_) => 1,
            Action::Abend => 2,
        }
    }
}

impl Action {
    pub fn label(self) -> u16
        ensures exact { result ≡ label_of self }
    {
        match self {
            Action::GoTo(label) => label,
            _ => 0,
        }
    }
}
